//! What became of the classes between which an alternative is.

ghost use Rattle.std.specs.Prelude.{◌≡◌, length};
ghost use Rattle.ror_show_ground.specs.Turns.{last_below};
ghost use Rattle.ror_show_find_classes.specs.Changes as spec;

use crate::value::ClassRow;

/// What became of the classes between which an alternative is.
#[derive(Clone, Copy, Debug, PartialEq, Eq)]
pub enum Change {
    /// They are the same.
    Stayed,
    /// They are fewer, all among those before.
    Narrowed,
    /// They are more, those before among them.
    Widened,
    /// They are others.
    Moved,
    /// Of some class it isn't concluded, before or now, whether it is possible; or none is left.
    NotConcluded,
}

/// What became of an alternative's classes.
pub fn change_of(before: ClassRow, now: ClassRow) -> Change
    ensures { result ≡ spec.change_of before now }
{
    if !(is_comparable(before) && is_comparable(now)) {
        Change::NotConcluded
    } else if before.lowest == now.lowest && before.highest == now.highest {
        Change::Stayed
    } else if is_within(now, before) {
        Change::Narrowed
    } else if is_within(before, now) {
        Change::Widened
    } else {
        Change::Moved
    }
}

/// Whether it is concluded of each class whether it is possible, and some one is left.
fn is_comparable(row: ClassRow) -> bool
    ensures { result ≡ spec.is_comparable row }
{
    row.whole && row.highest != 0
}

/// Whether the classes of the one are among those of the other.
fn is_within(one: ClassRow, other: ClassRow) -> bool
    ensures { result ≡ spec.is_within one other }
{
    other.lowest <= one.lowest && one.highest <= other.highest
}

pub fn is_same(one: Change, other: Change) -> bool
    ensures { result ≡ spec.is_same one other }
{
    match (one, other) {
        (Change::Stayed, Change::Stayed) => true,
        (Change::Narrowed, Change::Narrowed) => true,
        (Change::Widened, Change::Widened) => true,
        (Change::Moved, Change::Moved) => true,
        (Change::NotConcluded, Change::NotConcluded) => true,
        _ => false,
    }
}

/// The last row of an alternative, if it has one.
pub fn row_of(rows: &[ClassRow], a: usize) -> Option<ClassRow>
    ensures { result ≡ spec.row_of rows.now a }
{
    rows.get(last_of(rows, a)?).copied()
}

/// The place of the last row of an alternative.
fn last_of(rows: &[ClassRow], a: usize) -> Option<usize>
    ensures { result ≡ last_below (spec.is_row_of rows.now a) (length rows.now) }
{
    let mut place = rows.len();
    'places: while place > 0 {
        place -= 1;
        if is_row_of(rows, a, place) {
            return Some(place);
        }
    }
    None
}

fn is_row_of(rows: &[ClassRow], a: usize, place: usize) -> bool
    ensures { result ≡ spec.is_row_of rows.now a place }
{
    match rows.get(place) {
        Some(row) => row.alternative == a,
        None => false,
    }
}
