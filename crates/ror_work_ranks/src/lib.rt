//! The commands on ranks: the report of the best and the worst rank of each alternative is written, or checked.
//!
//! [`ranks_files`] fetches a table and a session and writes, for each desk, the extreme ranks of all alternatives over its closing list
//! with what proves them, or why there are none. [`check_ranks_files`] fetches a report besides, and writes how many of its ranks were
//! accepted. Both say whether anything is too wide, or the [`ror_frame::Stop`] at which the work ended; a session that repairs is
//! unsuited.
//!
//! Over alternatives a and b that are evaluated 2 and 1 by one criterion that is to be high, with the line `prefer a b`:
//!
//! ```text
//! ranks_files         Ok(false), and on standard output
//!                     `ror-ranks 1`, `desk`, `ranks 4`,
//!                     `best a from 1 to 1 conflicts 0 nodes 1`, `except`, `solution 1`, `leaf`,
//!                     `worst a from 1 to 1 conflicts 1 nodes 1`, `except b`, `solution 1`,
//!                     `conflict b`, `multipliers | 0 0 1`, `leaf 0`, and so on of b, and `end 1`
//! check_ranks_files   Ok(false), of that report: `accepted 4 wide 0`
//! ```
#![tactic(auto)]

mod check;
mod judge;
pub mod laws;
mod maker;
mod write;

pub use check::check_ranks_files;
pub use write::ranks_files;
