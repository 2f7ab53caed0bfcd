#![tactic(auto)]
//! The separate checker: whether an answer's proof proves it. It multiplies out what it is given
//! and never searches.
//!
//! `check_answer` takes a table, the statements that stand, the question that was asked and the
//! answer. It compares the question, then the kinds of the certificates and the numbers of the
//! parts with what the verdict wants, then has the base accepted over the system of the statements
//! and each part over the question's system of its number. `CheckFault` lists these tests in their
//! order, and a refusal names the first that fails. What is accepted is proved (`IsProvedAnswer`),
//! and what is proved is true of all value functions that are compatible with the statements
//! (`laws::proofs_are_true`).
//!
//! Where `a` is stated to be preferred to `b`, over columns q1, q2, p1, p2, this is accepted:
//!
//! ```text
//! answer necessary a b yes
//! base solution 0 1 0 0
//! part 1 multipliers | 0 1 1
//! ```
//!
//! The base gives the strict rows (1, 1, 1, 1) and (0, 1, 0, -1) the values 1 and 1, so the
//! statement is consistent. The question's one system adds (0, -1, 0, 1), the row of `b` over `a`;
//! weighed by 1 each, it and the row of the statement sum to 0 in each column, so no compatible
//! function is against the answer. With the base 0 0 0 1 the answer is refused: the base's row 1
//! comes to -1.
//!
//! `check_answers` takes many answers over the same statements, and a `Checker` one after the other, and an
//! `AnswersChecker` those over one list after another.
//!
//! `check_repair` takes the numbered statements that stand, and which of them a repair drops, with multipliers for each that
//! refute it together with those kept before it and a base of all that is kept. What is accepted is proved
//! (`IsProvedRepair`), and what is proved is the repair (`laws::proved_repairs_are_true`). Where 1 `a` over `b`,
//! 2 `b` over `a` and 3 `b` at least `c` stand, 2 is dropped by the multipliers `| 0 1 1`, with the base 0 1 0 0.

mod answers;
mod base;
mod check;
mod checker;
mod claim;
mod fault;
mod few;
pub mod laws;
mod repair;
mod side;
mod weighed;

pub use answers::AnswersChecker;
pub use check::check_answers;
pub use checker::{Checker, check_answer};
pub use claim::Claim;
pub use fault::{AnswersFault, CheckFault, RepairCheckFault};
pub use repair::check_repair;
