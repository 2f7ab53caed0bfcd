//! What a report says of a line.

use ror_proof::{Answer, Kept, WideText};
use ror_text::Items;
use thiserror::Error;

/// What stands in a block.
#[derive(Debug, Drop)]
pub enum Body {
    /// The number that the line's statement got.
    Added(u32),
    /// The number of the statement that the line withdrew.
    Withdrawn(u32),
    /// The number of the statement that the line replaced.
    Replaced(u32),
    /// The last revision was taken back.
    Undone,
    /// What the repair dropped, and the certificate of what it kept.
    Repaired(Kept),
    /// The repair changed nothing: whether it keeps the statement with this number isn't concluded,
    /// since a number on the way passes the width.
    RepairWide(u32, WideText),
    /// The answers to the questions of the line, in order.
    Answers(Items<Answer>),
    /// The line was refused, and changed nothing.
    Refused(LineFault),
}

/// Why a line is refused. The tests are made in this order.
#[derive(Clone, Copy, Debug, PartialEq, Eq, Error)]
pub enum LineFault {
    #[error("unknown alternative")]
    UnknownAlternative,
    #[error("unknown criterion")]
    UnknownCriterion,
    /// A class outside 1 to the number of classes.
    #[error("unknown class")]
    UnknownClass,
    /// The lowest class is above the highest.
    #[error("bad interval of classes")]
    BadInterval,
    /// No statement with this number stands.
    #[error("no such statement")]
    NoSuchStatement,
    #[error("nothing to undo")]
    NothingToUndo,
    #[error("too many statements")]
    TooManyStatements,
    #[error("too many rows")]
    TooManyRows,
    /// Too many alternatives to ask of each pair of them.
    #[error("too many pairs")]
    TooManyPairs,
}

/// What came of one line of the session.
#[derive(Debug, Drop)]
pub struct Block {
    /// The line's number in the session's file.
    pub line: u32,
    pub body: Body,
}
