//! The command that makes its own input: a try of the whole.
//!
//! [`generate`] makes the table and the session of a number, answers the session at 127 bits, has a second bench check
//! each block, and writes the counts of the verdicts. It says whether anything is too wide, or the [`ror_frame::Stop`]
//! at which the work ended. Of the number 1 it writes
//!
//! ```text
//! generated 1 lines 18
//! yes 1148 no 1061 contradiction 0 wide 0
//! accepted 2209 wide 0
//! ```
#![tactic(auto)]

mod summary;

pub use summary::generate;
