#![tactic(auto)]
//! Spans of pairs over levels of confidence as texts.
//!
//! Of the statements `prefer a b` on the first and `prefer b a` on the second of three levels, over columns q1, q2, p1, p2, the
//! [`Entry`] of the pair a and b is
//!
//! ```text
//! pair a b contradictory 2 necessary 1 possible 1
//! level 2
//! answer consistent contradiction
//! base multipliers | 0 1 1
//! level 1
//! answer consistent yes
//! base solution 0 1 0 0
//! level 1
//! answer necessary a b yes
//! base solution 0 1 0 0
//! part 1 multipliers | 0 1 1
//! level 1
//! answer possible a b yes
//! base solution 0 1 0 0
//! part 1 solution 0 1 0 0
//! ```
//!
//! which [`print_entry`] gives and [`read_entry`] reads back. A report begins with the line of [`header`].

mod entry;
mod head;
pub mod laws;
mod print;
mod read;

pub use entry::Entry;
pub use head::header;
pub use print::print_entry;
pub use read::read_entry;
