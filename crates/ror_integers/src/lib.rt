//! The laws of the integers and of vectors of integers on which the other crates stand.
//!
//! There is no code here: each function of [`laws`] does nothing, and its clause is the law. Those that one meets first
//! are [`laws::vector_laws`], on dot products and sums of rows, and [`laws::motzkin`], by which no rows have both a
//! solution and multipliers that refute them. Their words are defined in `specs/`; a list stands for itself with zeros
//! after it:
//!
//! ```text
//! dot [1, 2] [3, 4, 5]                   1 * 3 + 2 * 4 = 11
//! sum_of_rows [1, 2] [3, 4, 5]           [4, 6, 5]
//! weighted [1, 1] [[1, -1], [-1, 1]]     [0, 0]: so no numbers make both rows positive
//! ```
#![tactic(auto)]

pub mod laws;
