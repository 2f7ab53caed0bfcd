//! The entry of a desk in a report of most discriminating functions.

use ror_pivot::{ClimbNote, Optimum, WideNote};
use ror_system::Multipliers;
use ror_text::Text;

/// What the report says of a desk.
#[derive(Debug, Drop)]
pub struct Entry {
    /// The name of the desk, which may be empty.
    pub desk: Text,
    /// What is said of its statements.
    pub body: EntryBody,
}

/// What is said of a list of statements.
#[derive(Debug, Drop)]
pub enum EntryBody {
    /// The steps of a most discriminating function, of which `margin` is the least difference over all strict comparisons and
    /// `total` the ideal value, and multipliers that show that no compatible function has a greater margin for its ideal value.
    Best {
        margin: i128,
        total: i128,
        optimum: Optimum,
    },
    /// No statement makes a strict comparison.
    NoStrictRow,
    /// No value function is compatible with the statements, as the multipliers show.
    Contradiction(Multipliers),
    /// A number on the path of the system of the statements is too wide.
    BaseWide(WideNote),
    /// A number on its climbing path is too wide.
    ClimbWide(ClimbNote),
}
