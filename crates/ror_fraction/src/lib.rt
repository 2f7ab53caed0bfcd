//! Exact fractions over words of one width, and rows of fractions over one entry.
//!
//! A [`Fraction`] is in lowest terms, over a denominator above 0. A [`FracRow`] has whole numbers with the greatest common
//! divisor 1; the one in its basic column is the denominator of all. The arithmetic is exact: a call gives the result,
//! refuses a denominator or a divisor of 0, or names the first number on its way that is too wide for the words. In 16
//! bits, whose greatest value is 32,767:
//!
//! ```text
//! Fraction::new(-3, -6)                 Ok(1 / 2)
//! Fraction::new(1, 0)                   Err(ZeroDenominator)
//! 1 / 3 and 1 / 6, added                Ok(1 / 2)
//! 1 / 181 and 1 / 182, added            Err(Wide(Denominator)): it would be 32,942
//! FracRow::new(alloc, &[4, 6, -2], 0)   Ok: 2, 3 and -1 over the entry of column 0, so 1, 3 / 2 and -1 / 2
//! ```
#![tactic(auto)]

mod divisors;
mod entries;
mod fault;
mod fraction;
pub mod laws;
mod ratio;
mod row;

pub use fault::{FractionFault, Part, RowFault, RowPart};
pub use fraction::Fraction;
pub use ratio::compare_ratios;
pub use row::FracRow;
