//! Of how many pairs the judges say what.

ghost use Rattle.std.specs.Prelude.{◌≡◌, ◌≤◌};
ghost use Rattle.ror_show_find_relation.specs.Relations.{count_below};
ghost use Rattle.ror_show_find_group.specs.Counts as spec;

use crate::cell::{GroupCell, group_cell_in};
use ror_text::Items;

/// What the judges who are heard say of two alternatives.
#[derive(Clone, Copy, Debug, PartialEq, Eq)]
pub enum Stand {
    /// For every one of them one is at least as good as the other.
    Decided,
    /// For every one of them they are open.
    Open,
    /// For some of them one is at least as good as the other, and for none that contradicts another.
    Partly,
    /// They differ.
    Differ,
    /// For some one it isn't concluded.
    Unknown,
}

/// What they say by a cell of different alternatives.
fn stand_of(cell: GroupCell) -> Stand
    ensures { result ≡ spec.stand_of cell }
{
    match cell {
        GroupCell::AlwaysBetter
        | GroupCell::AtLeastAsGood
        | GroupCell::AlwaysEqual
        | GroupCell::AtMostAsGood
        | GroupCell::NeverAsGood => Stand::Decided,
        GroupCell::Open => Stand::Open,
        GroupCell::SomeOver | GroupCell::SomeUnder | GroupCell::BothWays => Stand::Partly,
        GroupCell::Differ => Stand::Differ,
        GroupCell::Itself | GroupCell::Unknown => Stand::Unknown,
    }
}

fn is_same(stand: Stand, other: Stand) -> bool
    ensures { result ≡ spec.is_same stand other }
{
    match (stand, other) {
        (Stand::Decided, Stand::Decided)
        | (Stand::Open, Stand::Open)
        | (Stand::Partly, Stand::Partly)
        | (Stand::Differ, Stand::Differ)
        | (Stand::Unknown, Stand::Unknown) => true,
        _ => false,
    }
}

/// Of how many pairs of so many alternatives, at most 200, they say this.
pub fn pairs_standing(stand: Stand, rows: &[Items<GroupCell>], size: usize) -> usize
    requires { size ≤ 200 }
    ensures { result ≡ spec.pairs_standing stand rows.now size }
{
    let mut count = 0;
    for a in 0..size {
        count += standing_before(stand, rows, a);
    }
    count
}

/// With how many alternatives before this one.
fn standing_before(stand: Stand, rows: &[Items<GroupCell>], a: usize) -> usize
    ensures is { result ≡ count_below (spec.stands stand rows.now a) a }
    ensures few { result ≤ a }
{
    let mut count = 0;
    for b in 0..a {
        if is_same(stand, stand_of(group_cell_in(rows, a, b))) {
            count += 1;
        }
    }
    count
}
