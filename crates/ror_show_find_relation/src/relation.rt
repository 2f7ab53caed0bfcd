//! A relation among so many alternatives.

ghost use Rattle.std.specs.Prelude.{◌≡◌, [], false, length, slice_index_or};
ghost use Rattle.ror_show_find_relation.specs.Relations as spec;

use ror_text::Items;
use std::marker::Model;

/// Whether of two alternatives, by their places from 0, the first is over the second.
#[derive(Debug, Drop)]
pub struct Relation {
    rows: Items<Items<bool>>,
}

impl Model for Relation {
    ghost use Rattle.ror_show_find_relation.specs.Relations.{Square};

    ghost Value = { Square };

    ghost view = { λ fields. fields.rows };
}

impl Relation {
    /// The relation with these rows, of as many alternatives as there are rows: a row's entry at a place says whether the row's
    /// alternative is over the one at the place. What a row lacks doesn't hold, and what it has too much doesn't count.
    pub fn new(rows: Vec<Items<bool>>) -> Relation
        ensures { result ≡ rows.items }
    {
        Relation {
            rows: Items::from(rows),
        }
    }

    /// How many alternatives there are.
    pub fn size(&self) -> usize
        ensures { result ≡ length self.now }
    {
        self.rows.len()
    }

    /// Whether the first is over the second.
    pub fn holds(&self, first: usize, second: usize) -> bool
        ensures { result ≡ spec.holds self.now first second }
    {
        if second >= self.rows.len() {
            return false;
        }
        entry(row_at(self.rows.as_slice(), first), second)
    }

    /// Whether the first is over the second, and the second isn't over the first.
    pub fn is_above(&self, first: usize, second: usize) -> bool
        ensures { result ≡ spec.above self.now first second }
    {
        self.holds(first, second) && !self.holds(second, first)
    }

    /// Whether each is over the other.
    pub fn are_equal(&self, first: usize, second: usize) -> bool
        ensures { result ≡ spec.equals self.now first second }
    {
        self.holds(first, second) && self.holds(second, first)
    }

    /// Whether one is over the other.
    pub fn is_decided(&self, first: usize, second: usize) -> bool
        ensures { result ≡ spec.is_decided self.now first second }
    {
        self.holds(first, second) || self.holds(second, first)
    }
}

/// The row at a place, empty past the last one.
fn row_at(rows: &[Items<bool>], place: usize) -> &[bool]
    ensures { result.now ≡ slice_index_or rows.now place [] }
{
    match rows.get(place) {
        Some(row) => row.as_slice(),
        None => &[],
    }
}

/// The entry at a place, false past the last one.
fn entry(row: &[bool], place: usize) -> bool
    ensures { result ≡ slice_index_or row.now place false }
{
    match row.get(place) {
        Some(over) => *over,
        None => false,
    }
}
