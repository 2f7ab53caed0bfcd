//! What stands in a cell of a relation's matrix.

ghost use Rattle.std.specs.Prelude.{◌≡◌, ◌<◌, ◌≤◌};
ghost use Rattle.ror_show_find_relation.specs.Cells as spec;

use crate::pair::{PairSaid, said_of_pair};
use ror_proof::Answer;
use ror_show_ground::Said;

/// How the row's alternative stands to the column's, over all compatible value functions.
#[derive(Clone, Copy, Debug, PartialEq, Eq)]
pub enum Cell {
    /// They are one alternative.
    Itself,
    /// Worth more by every function.
    AlwaysBetter,
    /// Worth at least as much by every function, and the same by some, but not by every one.
    AtLeastAsGood,
    /// Worth the same by every function.
    AlwaysEqual,
    /// Neither is worth at least as much as the other by every function.
    Open,
    /// The column's is worth at least as much by every function, and the same by some, but not by every one.
    AtMostAsGood,
    /// Worth less by every function.
    NeverAsGood,
    /// No function is compatible with the statements.
    Contradiction,
    /// What decides it isn't concluded.
    Unknown,
}

impl Cell {
    /// Whether the row's is known to be worth at least as much by every function.
    pub fn is_over(self) -> bool
        ensures { result ≡ spec.is_over self }
    {
        match self {
            Cell::Itself | Cell::AlwaysBetter | Cell::AtLeastAsGood | Cell::AlwaysEqual => true,
            _ => false,
        }
    }

    /// Whether it is known that neither is worth at least as much as the other by every function.
    pub fn is_open(self) -> bool
        ensures { result ≡ spec.is_open self }
    {
        match self {
            Cell::Open => true,
            _ => false,
        }
    }

    /// Whether the row's is known to be worth at least as much by every function, and is another one than the column's.
    pub fn is_over_another(self) -> bool
        ensures { result ≡ spec.is_over_another self }
    {
        match self {
            Cell::AlwaysBetter | Cell::AtLeastAsGood | Cell::AlwaysEqual => true,
            _ => false,
        }
    }

    /// The sign that stands for it, a byte of ASCII.
    pub fn sign(self) -> u8
        ensures { result ≡ spec.sign self }
    {
        match self {
            Cell::Itself => b' ',
            Cell::AlwaysBetter => b'N',
            Cell::AtLeastAsGood => b'n',
            Cell::AlwaysEqual => b'=',
            Cell::Open => b'.',
            Cell::AtMostAsGood => b'm',
            Cell::NeverAsGood => b'-',
            Cell::Contradiction => b'!',
            Cell::Unknown => b'?',
        }
    }
}

/// The cell of one alternative against another, by the answers to all questions on a relation of so many.
pub(crate) fn cell_at(size: usize, answers: &[Answer], a: usize, b: usize) -> Cell
    requires few { size ≤ 200 }
    requires row { a < size }
    requires column { b < size }
    ensures { result ≡ spec.cell_at size answers.now a b }
{
    if a == b {
        return Cell::Itself;
    }
    cell_of(
        said_of_pair(size, answers, a, b),
        said_of_pair(size, answers, b, a),
    )
}

/// The cell of a row against another column, by what is said of the row over the column and back.
pub fn cell_of(there: PairSaid, back: PairSaid) -> Cell
    ensures { result ≡ spec.cell_of there back }
{
    if has_contradiction(there) || has_contradiction(back) {
        return Cell::Contradiction;
    }
    match (there.necessary, back.necessary) {
        (Said::Yes, Said::Yes) => Cell::AlwaysEqual,
        (Said::No, Said::No) => Cell::Open,
        (Said::Yes, _) => better_by(Cell::AlwaysBetter, Cell::AtLeastAsGood, back),
        (_, Said::Yes) => better_by(Cell::NeverAsGood, Cell::AtMostAsGood, there),
        _ => Cell::Unknown,
    }
}

/// The cell of two alternatives of which the one is necessarily at least as good, by what is said of the other.
fn better_by(strict: Cell, weak: Cell, back: PairSaid) -> Cell
    ensures { result ≡ spec.better_by strict weak back }
{
    match (back.necessary, back.possible) {
        (Said::Yes, _) => Cell::Unknown,
        (_, Said::No) => strict,
        (Said::No, Said::Yes) => weak,
        _ => Cell::Unknown,
    }
}

fn has_contradiction(said: PairSaid) -> bool
    ensures { result ≡ spec.has_contradiction said }
{
    is_contradiction(said.necessary) || is_contradiction(said.possible)
}

fn is_contradiction(said: Said) -> bool
    ensures { result ≡ spec.is_contradiction said }
{
    match said {
        Said::Contradiction => true,
        _ => false,
    }
}
