//! Sessions and what their lines say.

ghost use Rattle.std.specs.Prelude.{◌≡◌};
ghost use Rattle.ror_session.specs.declared.session.SessionFault.TheVariants.{Memory};

use ror_text::{Items, Text};
use std::alloc::{AllocError, AllocFailed};
use thiserror::Error;

/// Two alternatives, by their names: the preference of the first over the second.
#[derive(Debug, Drop)]
pub struct NamedPair {
    pub first: Text,
    pub second: Text,
}

/// What a line states, by the names that it gives. An alternative's or a criterion's name is any
/// word; whether the table has it is not asked here. Where the strengths of two preferences are
/// compared, it is on the criterion that is named, or over all criteria.
#[derive(Debug, Drop)]
pub enum Named {
    /// The first alternative is worth more than the second.
    Prefer(Text, Text),
    /// The first alternative is worth at least as much as the second.
    AtLeast(Text, Text),
    /// The two alternatives are worth the same.
    Same(Text, Text),
    /// The first preference is stronger than the second.
    Stronger(NamedPair, NamedPair, Option<Text>),
    /// The first preference is at least as strong as the second.
    AsStrong(NamedPair, NamedPair, Option<Text>),
    /// The two preferences are equally strong.
    EqualStrength(NamedPair, NamedPair, Option<Text>),
    /// An assignment example of UTADIS-GMS: the alternative belongs to a class from the first of
    /// the two to the second. Classes are numbers from 0 to 999,999,999, in either order; whether
    /// the table has them is not asked here.
    Class(Text, u32, u32),
}

/// What a line asks, by the names that it gives: of every compatible function what is necessary, of
/// some compatible function what is possible.
#[derive(Debug, Drop)]
pub enum Asked {
    /// Whether some function is compatible.
    Consistent,
    /// Whether the first alternative is necessarily worth at least as much as the second.
    Necessary(Text, Text),
    /// Whether it possibly is.
    Possible(Text, Text),
    /// Whether the first preference is necessarily at least as strong as the second, on the
    /// criterion that is named or over all criteria.
    NecessaryStrength(NamedPair, NamedPair, Option<Text>),
    /// Whether it possibly is.
    PossibleStrength(NamedPair, NamedPair, Option<Text>),
    /// Whether some compatible function lets the alternative belong to the class, a number from 0
    /// to 999,999,999; whether the table has it is not asked here.
    PossibleClass(Text, u32),
    /// Whether every compatible function does.
    NecessaryClass(Text, u32),
    /// Both questions on the alternative for each class of the table, in order.
    Classes(Text),
    /// The necessary and the possible preference between each two alternatives.
    Relation,
}

/// What a line says.
#[derive(Debug, Drop)]
pub enum Command {
    /// The judge states something.
    State(Named),
    /// The judge withdraws the statement with this number.
    Withdraw(u32),
    /// The judge states something in the place of the statement with this number.
    Replace(u32, Named),
    /// The judge withdraws each statement that contradicts those kept before it.
    Repair,
    /// The judge takes the last revision back.
    Undo,
    /// The analyst asks something.
    Ask(Asked),
}

/// A line of a session.
#[derive(Debug, Drop)]
pub struct Line {
    /// The line's number in the file, from 1, those that are passed over counted.
    pub number: u32,
    /// The place of its desk among the session's desks.
    pub desk: u32,
    pub command: Command,
}

/// The names of the desks, at most 64, in the order in which they first appear, and the lines.
#[derive(Debug, Drop)]
pub struct Session {
    pub desks: Items<Text>,
    pub lines: Items<Line>,
}

/// Why no session was read.
#[derive(Debug, Drop, Error)]
pub enum SessionFault {
    /// The bytes are not UTF-8.
    #[error("not UTF-8")]
    NotUtf8,
    /// The words of the line with this number are no command.
    #[error("bad line {0}")]
    BadLine(u32),
    /// There are more than 100,000 lines, those that are passed over among them.
    #[error("too many lines")]
    TooManyLines,
    /// There are more than 16,777,216 bytes.
    #[error("too long")]
    TooLong,
    /// The line with this number is well formed, and for a 65th desk.
    #[error("too many desks at line {0}")]
    TooManyDesks(u32),
    #[error("out of memory")]
    Memory,
}

impl From<AllocError> for SessionFault {
    ghost from_gives = { λ _ e. e ≡ Memory };

    fn from(_e: AllocError) -> SessionFault {
        SessionFault::Memory
    }
}

impl<T: Drop> From<AllocFailed<T>> for SessionFault {
    ghost from_gives = { λ _ e. e ≡ Memory };

    fn from(_e: AllocFailed<T>) -> SessionFault {
        SessionFault::Memory
    }
}
