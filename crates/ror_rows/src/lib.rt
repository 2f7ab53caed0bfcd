//! Statements and questions as systems of linear inequalities over the columns of a table.
//!
//! [`system_of`] gives the system of the statements, and [`question_systems`] the further rows of each system of a
//! question, which [`with_extras`] puts behind those of the statements. Numbers solve the rows exactly where they are the
//! steps of a value function that is compatible with the statements and meets the comparisons of the further rows
//! (`laws::rows_hold`).
//!
//! Let alternative 0 be evaluated 3 and 10, 1 with 2 and 8 and 2 with 1 and 12, where more of the first and less of the
//! second criterion is better. With a column for each step, 0 is worth q1 + q2 + p1 and 1 is worth q1 + p1 + p2:
//!
//! ```text
//! system_of(.., &[Prefer(0, 1)])                      no weak row; strict: (1, 1, 1, 1) and (0, 1, 0, -1)
//! question_systems(.., list, &Necessary(0, 1))        one system, with the strict row of Value(1, 0): (0, -1, 0, 1)
//! question_systems(.., list, &Possible(0, 1))         one system, with the weak row of Value(0, 1): (0, 1, 0, -1)
//! ```
#![tactic(auto)]

mod differences;
mod extra;
pub mod laws;
mod questions;
mod rows;

pub use extra::{Extra, Extras};
pub use questions::question_systems;
pub use ror_statement::{Form, QuestionKind, kind_of};
pub use rows::{system_of, with_extras};
