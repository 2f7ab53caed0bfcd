#![tactic(auto)]
//! Deciding a system by exact pivoting: a solution or multipliers, or the first number that is too
//! wide.
//!
//! [`solve`] raises the margin of the strict rows along a path of pivots, each entering column and
//! leaving row by the lexicographic simplex rule, with numbers of one width; [`solve_bits`] takes
//! the width as [`Bits`], and [`solve_counted`] counts the pivots besides, adding to a count that
//! it is given. Every path ends, and what is read at its end is an [`Outcome`] that the acceptance
//! of `ror_system` takes. Where a number of the path passes the width, the [`WideNote`] names the
//! first that does, by the pivots before it and its [`Place`]. At a width each system has exactly
//! one answer (`laws::one_answer`), and a solution or multipliers without a bound on the width
//! (`laws::motzkin_transposition`).
//!
//! Over two columns let the strict rows be (1, 1) and (200, -199), and over one (1) and (-1):
//!
//! ```text
//! solve::<i32>(alloc, &s)   Ok(Feasible(Solution { steps: [200, 199] }))
//! solve::<i16>(alloc, &s)   Err(Wide(WideNote { path: [(2, 1), (0, 0)], place: Step(1, 0) }))
//! solve::<i16>(alloc, &t)   Ok(Infeasible(Multipliers { weak: [], strict: [0, 1] }))
//! ```
//!
//! In 16 bits the second pivot of the first would need 199 times -200 in row 1, column 0.
//!
//! [`climb_bits`] finds the solution with the greatest margin: by so much are all strict rows but the row of ones above 0 at
//! least, over a total to which each column counts what it is given. Its *climbing path* is that of the system without the row
//! of ones, under a cap of these counts, and goes on to where no column can enter. The [`Optimum`] that is read there has
//! multipliers besides, which show that no solution has a greater margin (`laws::climb_is_best`). The path ends, and at a width
//! it has exactly one answer (`laws::climb_ends`): the optimum, or a [`ClimbNote`] of its first number that passes the width.
//!
//! Over two columns let the strict rows be those of ones, (1, 0) and (0, 1), and let the columns count 1 and 3; over one column
//! let them be that of ones and (1), and let the column count 200:
//!
//! ```text
//! climb_bits(alloc, &s, &top, Bits::B15)   Ok(Optimum { solution: [1, 1], multipliers: weak [], strict [0, 1, 3] })
//! climb_bits(alloc, &t, &high, Bits::B15)  Err(Wide(ClimbNote { path: [(1, 0), (0, 1)], place: Scale(0) }))
//! ```
//!
//! In the first the margin is 1/4: both rows are 1, and the total is 1 + 3. In column 0 the rows, each times its multiplier, sum
//! to 1, and in column 1 to 3: each is what the column counts, times the margin, times 0 + 1 + 3. In the second the multiplier
//! of (1) is 200, and 200 times 200 passes 15 bits.

mod choose;
mod climb;
mod climb_end;
mod fault;
mod feasible;
mod infeasible;
pub mod laws;
mod note;
mod optimum;
mod path;
mod pivot;
mod shape;
mod start;
mod sums;

pub use climb::climb_bits;
pub use note::{Bits, Outcome, Place, SolveFault, WideNote};
pub use optimum::{ClimbFault, ClimbNote, ClimbPlace, Optimum};
pub use path::{solve, solve_bits, solve_counted};
