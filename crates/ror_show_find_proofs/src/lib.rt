//! What stands in the proofs of answers, as values: functions with their shares, what multipliers sum up to, and whose rows they multiply.
//!
//! The base of an answer is a function that agrees with the statements, and the part of an answer *no* to what is asked of every function,
//! and of an answer *yes* to what is asked of some one, is the function that decides it ([`places`], [`deciding`]). Its numbers are shares of the
//! whole, rounded to thousandths ([`Share`]), and levels of the same share are one run ([`begins_run`], [`last_of_run`]).
//!
//! The multipliers that refute an answer's opposite sum up the rows of the statements and of what is asked ([`refutation`]). Where the sum of a
//! step of a criterion is below 0, it is used that the better level is never worth less ([`spans_of`]). Where nothing but the statements is used,
//! the answer holds of all functions that agree with them, also of those by which better is worth less (`laws::sums_suffice`). A system has one
//! column for a linear criterion: where the sum of a step is above 0, were it not linear, it is used that it is ([`Sum::linear`],
//! `laws::others_may_bend`).
//! [`owners_of`] says of each row whose statement it is, and [`weights_of`] how often a statement's rows are counted.
//!
//! Of the kept lines of a report [`find_functions`] has the functions in the answers to each one, and of an answer [`find_sum`] has what its
//! statements sum up to.
#![tactic(auto)]

mod columns;
mod compared;
mod decided;
mod findings;
mod function_places;
mod functions;
pub mod laws;
mod levels;
mod linear;
mod owners;
mod refutations;
mod share;
mod spans;
mod sums;
mod weights;

pub use columns::{is_over, is_positive_used, used_columns};
pub use decided::deciding;
pub use findings::{FunctionFound, FunctionsFound, find_functions};
pub use function_places::{Place, places, steps_at};
pub use functions::{base_of, function_of, parts_of, steps_in};
pub use levels::{begins_run, last_of_run, share_at, whole_of};
pub use owners::{Owners, owners_of};
pub use refutations::{is_clash, refutation, refuted};
pub use share::Share;
pub use spans::{Span, spans_of};
pub use sums::{Sum, find_sum};
pub use weights::weights_of;
