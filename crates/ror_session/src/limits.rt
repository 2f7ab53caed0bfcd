//! How large a session may be.

/// How many lines a session's text has at most, those that are passed over among them.
pub const MOST_LINES: usize = 100_000;

/// How many desks a session has at most, the one without a name among them.
pub const MOST_DESKS: usize = 64;

/// The greatest length of a desk's name, in bytes.
pub const MOST_DESK_NAME_BYTES: usize = 64;
