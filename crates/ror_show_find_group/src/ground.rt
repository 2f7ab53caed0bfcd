//! What was read and judged of a group's report, lent to finder and writers.

use ror_group::Entry;
use ror_statement::Statement;
use ror_table::Table;
use ror_text::{Items, Text};

/// A table, the desks of a session over it with what stands at each at the end, and the entries that a check kept of the report of these
/// desks: each desk is a judge.
#[derive(Clone, Copy)]
pub struct GroupGround<'a> {
    pub table: &'a Table,
    /// The names of the desks.
    pub desks: &'a [Text],
    /// What stands at each.
    pub lists: &'a [Items<Statement>],
    /// An entry for each ordered pair of alternatives.
    pub entries: &'a [Entry],
}
