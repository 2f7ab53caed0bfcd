//! What became of an ordered pair of alternatives.

ghost use Rattle.std.specs.Prelude.{◌≡◌};
ghost use Rattle.ror_show_find_relation.specs.Changes as spec;

use crate::relation::Relation;

/// What became of an ordered pair of different alternatives.
#[derive(Clone, Copy, Debug, PartialEq, Eq)]
pub enum Change {
    /// It held before, and does now.
    Stayed,
    /// It held before alone, and now the second is over the first, which it wasn't.
    TurnedRound,
    /// It held before alone, and isn't turned round.
    NoLonger,
    /// It holds now alone, and isn't what another pair was turned to.
    New,
}

/// What became of the pair, where it held before or holds now, and isn't what another pair was turned to.
pub fn change_of(before: &Relation, now: &Relation, a: usize, b: usize) -> Option<Change>
    ensures { result ≡ spec.change_of before.now now.now a b }
{
    if a == b {
        return None;
    }
    let back_came = now.holds(b, a) && !before.holds(b, a);
    let back_went = before.holds(b, a) && !now.holds(b, a);
    match (before.holds(a, b), now.holds(a, b)) {
        (true, true) => Some(Change::Stayed),
        (true, false) if back_came => Some(Change::TurnedRound),
        (true, false) => Some(Change::NoLonger),
        (false, true) if back_went => None,
        (false, true) => Some(Change::New),
        (false, false) => None,
    }
}

/// Whether this became of the pair.
pub(crate) fn has_change(
    before: &Relation,
    now: &Relation,
    change: Change,
    a: usize,
    b: usize,
) -> bool
    ensures { result ≡ spec.has_change before.now now.now change a b }
{
    match change_of(before, now, a, b) {
        Some(found) => is_same(found, change),
        None => false,
    }
}

fn is_same(one: Change, other: Change) -> bool
    ensures { result ≡ spec.is_same one other }
{
    match (one, other) {
        (Change::Stayed, Change::Stayed) => true,
        (Change::TurnedRound, Change::TurnedRound) => true,
        (Change::NoLonger, Change::NoLonger) => true,
        (Change::New, Change::New) => true,
        _ => false,
    }
}
