//! The commands on what discriminates most: the report of the most discriminating functions is written, or checked.
//!
//! [`discriminate_files`] fetches a table and a session and writes, for each desk, a function that is compatible with its closing list
//! and discriminates most, with the multipliers that prove it, or why there is none. [`check_discriminate_files`] fetches a report
//! besides, and writes how many of its entries were accepted. Both say whether anything is too wide, or the
//! [`ror_frame::Stop`] at which the work ended; a session that repairs is unsuited.
//!
//! Over alternatives a, b and c that are evaluated 3, 2 and 1 by a criterion that is to be high, and 10, 8 and 12 by one
//! that is to be low, with the lines `prefer a b` and `prefer b c`:
//!
//! ```text
//! discriminate_files         Ok(false), and on standard output `ror-discriminate 1`, `desk`, `margin 1 2`,
//!                            `solution 1 1 0 0`, `multipliers | 0 1 1`, and `end 1`
//! check_discriminate_files   Ok(false), of that report: `accepted 1 wide 0`
//! ```
#![tactic(auto)]

mod check;
mod judge;
pub mod laws;
mod maker;
mod write;

pub use check::check_discriminate_files;
pub use write::discriminate_files;
