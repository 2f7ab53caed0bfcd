//! The core of answers: what becomes of an answer that statements carry, if one of them is withdrawn from all that stand.
//!
//! A reason names statements that carry an answer, and of these alone none can be spared. Others that stand may carry it too, so that the
//! answer stays without a statement of the reason. [`find_cores`] finds beside each answer that is told what becomes of it without each
//! statement of its reason ([`Withdrawal`]): it stays, by others; it goes; or a number is too wide to know. Those without which it goes are
//! the core, and are in each reduct (`laws::core_is_in_each_reduct`). An answer that some function shows has no reason of statements, and
//! nothing is found beside it.
//!
//! Where `prefer a b` and `atleast a b` stand as 1 and 2, `a` is at least as good as `b` by 1. Without 1 the answer stays, by 2.
#![tactic(auto)]

mod cores;
pub mod laws;
mod outcomes;
mod withdrawing;

pub use cores::find_cores;
pub use outcomes::{CoreFound, LineCores, Outcome, Withdrawal};
