//! Lines of a desk.

ghost use Rattle.std.specs.Prelude.{◌≡◌};

use ror_report::Body;
use std::marker::Model;

/// A line of a desk and what came of it, which clauses see as these.
#[derive(Drop)]
pub struct Step<'a> {
    place: usize,
    body: &'a Body,
}

impl<'a> Model for Step<'a> {
    ghost use Rattle.ror_show_find_roll.specs.Turns.{Turn};

    ghost Value = { Turn };

    ghost view = { λ step. record { place = step.place; body = step.body.now } };
}

impl<'a> Step<'a> {
    /// The line at a place among the session's lines, from 0, and the body of its block.
    pub fn new(place: usize, body: &'a Body) -> Step<'a>
        ensures { result ≡ record { place = place; body = body.now } }
    {
        Step { place, body }
    }

    /// The line's place.
    pub fn place(&self) -> usize
        ensures { result ≡ self.now.place }
    {
        self.place
    }

    /// What came of it.
    pub fn body(&self) -> &'a Body
        ensures { result.now ≡ self.now.body }
    {
        self.body
    }

    /// The same line.
    pub(crate) fn same(&self) -> Step<'a>
        ensures { result ≡ self.now }
    {
        Step {
            place: self.place,
            body: self.body,
        }
    }
}
