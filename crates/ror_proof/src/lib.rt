//! Answers and repairs with their proofs, and the one text of each.
//!
//! An [`Answer`] is a question and a verdict, and the verdict holds its proof. [`print_answer`] gives its text and
//! [`read_answer`] reads that back; [`print_kept`] and [`read_kept`] do so for [`Kept`], what a repair drops and the proof
//! of it.
//!
//! Let `a` and `c` be the alternatives 0 and 2 of a table. The question `Necessary(0, 2)` with the verdict `Yes`, whose
//! proof has the solution 1, 0, 0, 0 for its base, and for its one part no weak multipliers and the strict ones 0 and 1,
//! is
//!
//! ```text
//! answer necessary a c yes
//! base solution 1 0 0 0
//! part 1 multipliers | 0 1
//! ```
#![tactic(auto)]

mod answer;
mod base;
mod copies;
mod kept;
pub mod laws;
pub mod names;
mod print;
pub mod questions;
mod read;
pub mod words;
pub mod write;

pub use answer::{Answer, Certificate, Part, Pivot, PlaceText, Proof, Verdict, WideText};
pub use base::BaseLine;
pub use kept::{Dropped, Kept};
pub use print::{print_answer, print_kept, write_answer, write_kept, write_wide};
pub use read::{ProofFault, read_answer, read_answer_after, read_kept, read_wide};
