//! Systems of linear inequalities, and the two certificates of one: a solution, and multipliers
//! that show that there is none.
//!
//! A `System` has `Row`s over so many columns: at a solution each weak row is to be at least 0 and
//! each strict row above 0, and the first strict row is all ones. `accept_solution` and
//! `accept_multipliers` multiply a certificate out. What they accept is one, with sums below
//! 2^127; what they refuse has a first test that fails, which they name (`Reject`). No system has
//! both certificates (`laws::never_both`). `steps` has the tests of numbers that are to be steps. `Numbers` keeps of a
//! certificate's numbers those other than 0 alone.
//!
//! Over two columns with the strict rows (1, 1) and (1, -1) the steps 2 and 1 are accepted, as the rows come to 3 and 1; 1 and 1
//! are refused for row 1, which comes to 0; and the multipliers 0 and 1 for column 0, which sums to 1. With (-1, 1) as a third
//! strict row the multipliers 0, 1 and 1 are accepted: the rows so weighed sum to (0, 0), so no steps make both rows positive.
#![tactic(auto)]

mod accept;
pub mod laws;
mod limits;
mod numbers;
mod reject;
mod row;
pub mod steps;
mod sum;
mod system;
mod values;

pub use accept::{Multipliers, Solution, accept_multipliers, accept_solution, column_sum};
pub use limits::{MOST_COLUMNS, MOST_SYSTEM_ROWS};
pub use numbers::Numbers;
pub use reject::Reject;
pub use row::{Row, shared_front};
pub use sum::row_at_steps;
pub use system::System;
