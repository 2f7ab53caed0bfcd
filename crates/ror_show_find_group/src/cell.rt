//! What stands in a cell of a group's matrix.

ghost use Rattle.std.specs.Prelude.{◌≡◌};
ghost use Rattle.ror_show_find_group.specs.Cells as spec;

use crate::judge::JudgeFound;
use crate::votes::{Mark, every_vote, heard_count, some_vote};
use ror_text::Items;

/// How the row's alternative stands to the column's for the judges who are heard, for each over all value functions that agree with what
/// the judge said.
#[derive(Clone, Copy, Debug, PartialEq, Eq)]
pub enum GroupCell {
    /// They are one alternative.
    Itself,
    /// For every judge worth more by every function.
    AlwaysBetter,
    /// For every judge worth at least as much by every function, and for some one the same by some.
    AtLeastAsGood,
    /// For every judge worth the same by every function.
    AlwaysEqual,
    /// For every judge neither is worth at least as much as the other by every function.
    Open,
    /// For every judge worth at most as much by every function, and for some one the same by some.
    AtMostAsGood,
    /// For every judge worth less by every function.
    NeverAsGood,
    /// For some judge worth at least as much by every function, for some one open, and for each one of these.
    SomeOver,
    /// For some judge worth at most as much by every function, for some one open, and for each one of these.
    SomeUnder,
    /// For some judge worth at least as much by every function, for some one at most as much, and for none always more or always less.
    BothWays,
    /// One is for some judge worth more by every function, and for another worth at most as much by every one.
    Differ,
    /// For some judge it isn't concluded, or no judge is heard.
    Unknown,
}

impl GroupCell {
    /// The sign that stands for it, a byte of ASCII.
    pub fn sign(self) -> u8
        ensures { result ≡ spec.sign self }
    {
        match self {
            GroupCell::Itself => b' ',
            GroupCell::AlwaysBetter => b'N',
            GroupCell::AtLeastAsGood => b'n',
            GroupCell::AlwaysEqual => b'=',
            GroupCell::Open => b'.',
            GroupCell::AtMostAsGood => b'm',
            GroupCell::NeverAsGood => b'-',
            GroupCell::SomeOver => b'>',
            GroupCell::SomeUnder => b'<',
            GroupCell::BothWays => b'~',
            GroupCell::Differ => b'x',
            GroupCell::Unknown => b'?',
        }
    }
}

/// The cell of a row and a column, by what each judge who is heard says of them.
pub(crate) fn group_cell(judges: &[JudgeFound], a: usize, b: usize) -> GroupCell
    ensures { result ≡ spec.group_cell judges.now a b }
{
    if a == b {
        return GroupCell::Itself;
    }
    if says_nothing(judges, a, b) {
        return GroupCell::Unknown;
    }
    if every_vote(Mark::Over, judges, a, b) {
        return over_of(judges, a, b);
    }
    if every_vote(Mark::Under, judges, a, b) {
        return under_of(judges, a, b);
    }
    if every_vote(Mark::Open, judges, a, b) {
        return GroupCell::Open;
    }
    divided(judges, a, b)
}

/// Whether no judge is heard, or some one says nothing of the two.
fn says_nothing(judges: &[JudgeFound], a: usize, b: usize) -> bool
    ensures { result ≡ spec.says_nothing judges.now a b }
{
    heard_count(judges) == 0 || some_vote(Mark::Unsaid, judges, a, b)
}

/// The cell where every judge has the row's at least as good.
fn over_of(judges: &[JudgeFound], a: usize, b: usize) -> GroupCell
    ensures { result ≡ spec.over_of judges.now a b }
{
    if every_vote(Mark::Better, judges, a, b) {
        GroupCell::AlwaysBetter
    } else if every_vote(Mark::Under, judges, a, b) {
        GroupCell::AlwaysEqual
    } else {
        GroupCell::AtLeastAsGood
    }
}

/// The cell where every judge has it at most as good, and not every one at least as good.
fn under_of(judges: &[JudgeFound], a: usize, b: usize) -> GroupCell
    ensures { result ≡ spec.under_of judges.now a b }
{
    if every_vote(Mark::Worse, judges, a, b) {
        GroupCell::NeverAsGood
    } else {
        GroupCell::AtMostAsGood
    }
}

/// The cell where the judges don't all say the same.
fn divided(judges: &[JudgeFound], a: usize, b: usize) -> GroupCell
    ensures { result ≡ spec.divided judges.now a b }
{
    if differ(judges, a, b) {
        return GroupCell::Differ;
    }
    let over = some_vote(Mark::Over, judges, a, b);
    let under = some_vote(Mark::Under, judges, a, b);
    match (over, under) {
        (true, true) => GroupCell::BothWays,
        (true, false) => GroupCell::SomeOver,
        (false, true) => GroupCell::SomeUnder,
        (false, false) => GroupCell::Unknown,
    }
}

/// Whether what holds by every function of one judge holds by none of another's.
fn differ(judges: &[JudgeFound], a: usize, b: usize) -> bool
    ensures { result ≡ spec.differ judges.now a b }
{
    some_vote(Mark::Better, judges, a, b) && some_vote(Mark::Under, judges, a, b)
        || some_vote(Mark::Worse, judges, a, b) && some_vote(Mark::Over, judges, a, b)
}

/// The cell of a row and a column, by their places from 0, and [`GroupCell::Unknown`] past the last one.
pub fn group_cell_in(rows: &[Items<GroupCell>], a: usize, b: usize) -> GroupCell
    ensures { result ≡ spec.group_cell_in rows.now a b }
{
    let Some(row) = rows.get(a) else {
        return GroupCell::Unknown;
    };
    match row.as_slice().get(b) {
        Some(cell) => *cell,
        None => GroupCell::Unknown,
    }
}
