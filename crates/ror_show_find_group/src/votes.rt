//! What some judge says, and what every one does.

ghost use Rattle.std.specs.Prelude.{◌≡◌};
ghost use Rattle.ror_show_find_group.specs.Votes as spec;

use crate::judge::JudgeFound;
use ror_show_find_relation::Cell;

/// What a judge may say of a row against a column.
#[derive(Clone, Copy, Debug)]
pub(crate) enum Mark {
    /// At least as good by every function that agrees.
    Over,
    /// At most as good by every one.
    Under,
    /// Better by every one.
    Better,
    /// Worse by every one.
    Worse,
    /// None of these: neither is at least as good by every one.
    Open,
    /// Nothing that is concluded.
    Unsaid,
}

/// Whether a cell says this.
pub(crate) fn has(mark: Mark, cell: Cell) -> bool
    ensures { result ≡ spec.has mark cell }
{
    match mark {
        Mark::Over => cell.is_over_another(),
        Mark::Under => is_under_another(cell),
        Mark::Better => matches!(cell, Cell::AlwaysBetter),
        Mark::Worse => matches!(cell, Cell::NeverAsGood),
        Mark::Open => cell.is_open(),
        Mark::Unsaid => is_unsaid(cell),
    }
}

fn is_under_another(cell: Cell) -> bool
    ensures { result ≡ spec.is_under_another cell }
{
    matches!(
        cell,
        Cell::NeverAsGood | Cell::AtMostAsGood | Cell::AlwaysEqual
    )
}

fn is_unsaid(cell: Cell) -> bool
    ensures { result ≡ spec.is_unsaid cell }
{
    matches!(cell, Cell::Itself | Cell::Contradiction | Cell::Unknown)
}

/// Whether some judge who is heard says this of two alternatives.
pub(crate) fn some_vote(mark: Mark, judges: &[JudgeFound], a: usize, b: usize) -> bool
    ensures { result ≡ spec.some_vote mark judges.now a b }
{
    judges
        .iter()
        .any(|judge| !judge.contradicts && has(mark, judge.cell(a, b)))
}

/// Whether every judge who is heard does.
pub(crate) fn every_vote(mark: Mark, judges: &[JudgeFound], a: usize, b: usize) -> bool
    ensures { result ≡ spec.every_vote mark judges.now a b }
{
    judges
        .iter()
        .all(|judge| judge.contradicts || has(mark, judge.cell(a, b)))
}

/// How many who are heard do.
pub(crate) fn count_votes(mark: Mark, judges: &[JudgeFound], a: usize, b: usize) -> usize
    ensures { result ≡ spec.count_votes mark judges.now a b }
{
    judges
        .iter()
        .filter(|judge| !judge.contradicts && has(mark, judge.cell(a, b)))
        .count()
}

/// How many judges are heard: those of whom it isn't known that no function agrees with what they said.
pub fn heard_count(judges: &[JudgeFound]) -> usize
    ensures { result ≡ spec.heard_count judges.now }
{
    judges.iter().filter(|judge| !judge.contradicts).count()
}
