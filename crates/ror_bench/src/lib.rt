//! The desks of a session over one table: what stands at each, and whether a report is proved for a session.
//!
//! A [`Bench`] is a table and the desks over it. [`Bench::step`] does a line of a session at its desk, with a search where
//! it asks or repairs, and gives the line's block. [`Bench::check_line`] takes a block that is given, accepts it or names
//! its fault, and never searches; [`check_report`] does so with each block of a report's bytes.
//!
//! Let `a` be evaluated 3 and 10 and `b` 2 and 8, where more of the first and less of the second criterion is better.
//! `step` gives these blocks of the lines of one desk:
//!
//! ```text
//! 1 prefer a b          Added(1)
//! 2 prefer b a          Added(2)
//! 3 ask necessary a b   Answers: one, with the verdict Contradiction
//! 4 repair              Repaired: 2 is dropped
//! 5 ask necessary a b   Answers: one, with the verdict Yes
//! 6 withdraw 3          Refused(NoSuchStatement)
//! 7 undo                Undone: the repair is taken back, and 2 stands again
//! ```
#![tactic(auto)]

mod bench;
mod checking;
mod desk;
mod generated;
mod kept;
pub mod laws;
mod names;
mod report;
mod stop;
mod wide;

pub use bench::{Bench, BlockFault, Passed};
pub use generated::{Generated, MOST_GENERATED, generate_input};
pub use kept::{Keep, KeptLine};
pub use names::{MOST_RELATED, statement_of};
pub use report::{
    Accepted, MOST_REPORT_BYTES, Reason, Rejection, ReportError, check_report,
    check_report_keeping, early_end, misread, refused_block, wrong_block,
};
pub use wide::has_wide;
