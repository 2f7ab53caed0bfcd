//! What becomes of an ordered pair of alternatives where another list stands.

ghost use Rattle.std.specs.Prelude.{◌≡◌};
ghost use Rattle.ror_show_find_whatif.specs.Shifts as spec;

use ror_show_find_relation::{Cell, cell_in};
use ror_text::Items;

/// What a cell says of whether the row's alternative is at least as good as the column's.
#[derive(Clone, Copy, Debug, PartialEq, Eq)]
pub(crate) enum Held {
    /// It is better by every function.
    Strictly,
    /// It is at least as good by every one, and by some they are equally good.
    Weakly,
    /// It isn't by every one.
    Not,
    /// No function agrees.
    NoFunction,
    /// It isn't concluded, or there is one alternative.
    Nothing,
}

/// What becomes of an ordered pair of different alternatives where another list stands.
#[derive(Clone, Copy, Debug, PartialEq, Eq)]
pub enum Shift {
    /// The first is at least as good by every function now, and not by every one then.
    Lost,
    /// The first is better by every function now; then it is at least as good by every one, and by some they are equally good.
    Weaker,
    /// The first isn't at least as good by every function now, and is by every one then.
    Won,
    /// The first is at least as good by every function now, and by some they are equally good; then it is better by every one.
    Stronger,
    /// It isn't concluded how they stand, now or then.
    Unknown,
}

/// Whether this becomes of the pair, by the cells of what is and of what would be.
pub(crate) fn has_shift(
    before: &[Items<Cell>],
    after: &[Items<Cell>],
    shift: Shift,
    a: usize,
    b: usize,
) -> bool
    ensures { result ≡ spec.has_shift before.now after.now shift a b }
{
    is_listed(shift, a, b) && is_found(shift, shift_of(cell_in(before, a, b), cell_in(after, a, b)))
}

/// Whether the pair may stand in the list of a shift. Where it isn't concluded how two stand, each two are listed once.
fn is_listed(shift: Shift, a: usize, b: usize) -> bool
    ensures { result ≡ spec.is_listed shift a b }
{
    match shift {
        Shift::Unknown => a < b,
        _ => !(a == b),
    }
}

fn shift_of(before: Cell, after: Cell) -> Option<Shift>
    ensures { result ≡ spec.shift_of before after }
{
    shift_by(held_by(before), held_by(after))
}

fn held_by(cell: Cell) -> Held
    ensures { result ≡ spec.held_by cell }
{
    match cell {
        Cell::AlwaysBetter => Held::Strictly,
        Cell::AtLeastAsGood | Cell::AlwaysEqual => Held::Weakly,
        Cell::Open | Cell::AtMostAsGood | Cell::NeverAsGood => Held::Not,
        Cell::Contradiction => Held::NoFunction,
        Cell::Itself | Cell::Unknown => Held::Nothing,
    }
}

/// From what is held to what would be. Where no function agrees, now or then, nothing is compared.
fn shift_by(before: Held, after: Held) -> Option<Shift>
    ensures { result ≡ spec.shift_by before after }
{
    match (before, after) {
        (Held::NoFunction, _) => None,
        (_, Held::NoFunction) => None,
        (Held::Nothing, _) => Some(Shift::Unknown),
        (_, Held::Nothing) => Some(Shift::Unknown),
        (Held::Strictly, Held::Not) => Some(Shift::Lost),
        (Held::Weakly, Held::Not) => Some(Shift::Lost),
        (Held::Strictly, Held::Weakly) => Some(Shift::Weaker),
        (Held::Weakly, Held::Strictly) => Some(Shift::Stronger),
        (Held::Not, Held::Strictly) => Some(Shift::Won),
        (Held::Not, Held::Weakly) => Some(Shift::Won),
        _ => None,
    }
}

fn is_found(shift: Shift, found: Option<Shift>) -> bool
    ensures { result ≡ spec.is_found shift found }
{
    match found {
        Some(found) => is_same(shift, found),
        None => false,
    }
}

fn is_same(one: Shift, other: Shift) -> bool
    ensures { result ≡ spec.is_same one other }
{
    match (one, other) {
        (Shift::Lost, Shift::Lost) => true,
        (Shift::Weaker, Shift::Weaker) => true,
        (Shift::Won, Shift::Won) => true,
        (Shift::Stronger, Shift::Stronger) => true,
        (Shift::Unknown, Shift::Unknown) => true,
        _ => false,
    }
}
