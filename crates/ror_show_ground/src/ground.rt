//! What was read and judged, lent to finders and writers.

ghost use Rattle.std.specs.Prelude.{◌≡◌, [], slice_get, slice_index_or, MatchOption};
ghost use Rattle.ror_show_ground.specs.Lines as spec;

use crate::desk::{desk_name, desk_of};
use ror_bench::KeptLine;
use ror_session::{Line, Session};
use ror_statement::Statement;
use ror_table::Table;

/// A table with the statements that came with its file, a session over it, and what a check kept of a report of that session. It is made in
/// one place, where a page is written, and handed on by reference.
#[derive(Clone, Copy)]
pub struct Ground<'a> {
    pub table: &'a Table,
    pub session: &'a Session,
    /// The statements that stood at each desk at first.
    pub opening: &'a [Statement],
    /// The lines of which the check kept something, in order.
    pub kept: &'a [KeptLine],
}

impl<'a> Ground<'a> {
    /// The place of the desk of a kept line among the session's desks, 0 where the session has no such line.
    pub fn desk_of(&self, line: &KeptLine) -> u32
        ensures { result ≡ spec.desk_of self.now.session.now line.now }
    {
        desk_of(self.session, line)
    }

    /// The name of that desk, empty where it has none.
    pub fn desk_at(&self, line: &KeptLine) -> &'a str
        ensures { result.now ≡ spec.desk_at self.now.session.now line.now }
    {
        match self.session.lines.as_slice().get(line.place) {
            Some(line) => desk_name(self.session.desks.as_slice(), line),
            None => "",
        }
    }

    /// The name of a desk, by its place; an empty one where the session hasn't that desk.
    pub fn desk_name(&self, desk: usize) -> &'a str
        ensures { result.now ≡ slice_index_or self.now.session.now.desks desk [] }
    {
        match self.session.desks.as_slice().get(desk) {
            Some(name) => name.as_str(),
            None => "",
        }
    }

    /// The session's line at a place, if there is one. A writer matches on it; it isn't asked with `?`.
    pub fn line_at(&self, place: usize) -> Option<&'a Line>
        ensures { MatchOption result (slice_get self.now.session.now.lines place ≡ None)
            (λ x. slice_get self.now.session.now.lines place ≡ Some x.now) }
    {
        self.session.lines.as_slice().get(place)
    }
}
