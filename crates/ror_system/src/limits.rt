//! How large a system may be.

/// How many columns a system has at most.
pub const MOST_COLUMNS: usize = 2_000;

/// How many rows a system has at most, weak and strict: those of the statements that stand, and those of a question.
pub const MOST_SYSTEM_ROWS: usize = 2_200;
