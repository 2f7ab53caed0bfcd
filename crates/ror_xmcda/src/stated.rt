//! A statement of a file, with its line.

use ror_statement::Statement;

/// A statement and the line of the element that makes it.
#[derive(Clone, Copy, Debug)]
pub(crate) struct Stated {
    pub(crate) line: u32,
    pub(crate) statement: Statement,
}
