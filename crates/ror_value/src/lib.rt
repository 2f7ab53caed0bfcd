//! What value functions are, what a statement means of one, and what answers a question.
//!
//! A [`ValueFunction`] has the gain of each step of a table: [`ValueFunction::value`] sums them up to an alternative's
//! levels, and [`ValueFunction::meets`] says whether the function meets statements. An [`Input`] is what a session starts
//! from, a table and the statements that come with it.
//!
//! Let alternative 0 be evaluated 3 and 10, 1 with 2 and 8 and 2 with 1 and 12, where more of the first and less of the
//! second criterion is better:
//!
//! ```text
//! ValueFunction::new(alloc, &table, &[0, 2, 1, 1])    Ok(f), whose total is 4
//! f.value(&table, 0), (.., 1) and (.., 2)             3, 2 and 0
//! f.meets(&table, &[Prefer(0, 1), AtLeast(1, 2)])     true
//! ValueFunction::new(alloc, &table, &[0, 2, 1])       Err(Length)
//! ```
#![tactic(auto)]

mod input;
pub mod laws;
mod meeting;
mod value_function;

pub use input::Input;
pub use value_function::{ValueFault, ValueFunction};
