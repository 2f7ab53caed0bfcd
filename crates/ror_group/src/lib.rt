#![tactic(auto)]
//! Answers of a group of judges over one table, each with a list of statements.
//!
//! On a pair of alternatives a group has four answers: whether the first is necessarily preferred for every judge and for some
//! judge, and whether it is possibly preferred for every judge and for some judge. [`combine`] makes the four words of them from
//! the judges' own answers. [`check_pair`] accepts answers that have their proofs, and words that follow from them; what is
//! accepted is true of all value functions that are compatible with the judges' statements (`laws::proved_pairs_are_true`). A
//! [`Judge`] is made once, and [`check_pair_by`] checks pair after pair by the same judges.
//!
//! Of a judge who has `a` above `b` and one who has `b` above `a`, over columns q1, q2, p1, p2, the [`Entry`] of the pair is
//!
//! ```text
//! pair a b
//! answer necessary a b yes
//! base solution 0 1 0 0
//! part 1 multipliers | 0 1 1
//! answer possible a b yes
//! base solution 0 1 0 0
//! part 1 solution 0 1 0 0
//! answer necessary a b no
//! base solution 0 0 0 1
//! part 1 solution 0 0 0 1
//! answer possible a b no
//! base solution 0 0 0 1
//! part 1 multipliers 1 | 0 1
//! group no yes no yes
//! ```
//!
//! which [`print_entry`] gives and [`read_entry`] reads back; an [`EntryReader`] reads one after another. A report begins with the
//! desks ([`head`]).

mod check;
mod entry;
mod fault;
pub mod head;
mod judge;
pub mod laws;
mod print;
mod quartet;
mod read;
mod reader;
pub mod text_laws;

pub use check::{List, check_pair, check_pair_by};
pub use entry::Entry;
pub use fault::GroupFault;
pub use judge::Judge;
pub use print::print_entry;
pub use quartet::{Quartet, Word4, combine};
pub use reader::{EntryReader, read_entry};
