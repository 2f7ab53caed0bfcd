//! The commands on levels of confidence: the report of the spans of all pairs is written, or checked.
//!
//! [`levels_files`] fetches a table, a session and a file that puts the session's statements on levels, and writes, for each
//! ordered pair of alternatives, from which level on, and up to which, it is preferred, with the answers at the borders that prove
//! it. [`check_levels_files`] fetches a report besides, and writes how many answers of it were accepted. Both say whether anything
//! is too wide, or the [`ror_frame::Stop`] at which the work ended; a session that repairs or is of two desks is unsuited.
//!
//! Over alternatives a, b and c that are evaluated 3, 2 and 1 by a criterion that is to be high, and 10, 8 and 12 by one
//! that is to be low, with the line `prefer a b`, and two levels on the second of which it is put:
//!
//! ```text
//! levels_files         Ok(false), and on standard output `ror-spans 1`, then for each pair its line, such as
//!                      `pair a b contradictory 3 necessary 2 possible 2`, and the answers that prove it, and `end 6`
//! check_levels_files   Ok(false), of that report: `accepted 21 wide 0`
//! ```
#![tactic(auto)]

mod check;
mod decider;
mod fit;
mod judge;
pub mod laws;
mod maker;
mod scale;
mod write;

pub use check::check_levels_files;
pub use write::levels_files;
