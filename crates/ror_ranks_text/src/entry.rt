//! The entry of a desk in a report of extreme ranks.

use ror_pivot::WideNote;
use ror_ranks::Extreme;
use ror_system::Multipliers;
use ror_text::{Items, Text};

/// What the report says of a desk.
#[derive(Debug, Drop)]
pub struct Entry {
    /// The name of the desk, which may be empty.
    pub desk: Text,
    /// What is said of its statements.
    pub body: EntryBody,
}

/// What is said of a list of statements.
#[derive(Debug, Drop)]
pub enum EntryBody {
    /// The best and the worst rank of each alternative, in order of the table.
    Ranks(Items<Extreme>),
    /// No value function is compatible with the statements, as the multipliers show.
    Contradiction(Multipliers),
    /// A number on the path of the system of the statements is too wide.
    BaseWide(WideNote),
}
