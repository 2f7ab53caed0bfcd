#![tactic(auto)]
//! The best and the worst rank of each alternative over all value functions that are compatible with a list, with proofs that a
//! checker accepts without a search.
//!
//! By one value function the rank of an alternative is 1 more than how many are worth more. Over all compatible functions the best rank
//! is the least, and the worst the greatest (as in extreme ranking analysis). [`check_ranks`] multiplies out what proves them.
//!
//! The other alternatives that *count* are those above for the best rank, and those that aren't above for the worst. Two things prove an
//! extreme rank. A function by which none counts but some exceptions shows that it is reached. *Conflicts* show that no function goes
//! beyond: a conflict is a set of alternatives of which some one counts by every compatible function, as multipliers show that refute
//! the statements and that none of it counts. So those that count meet every conflict. A *tree* shows how many that takes: a leaf has
//! conflicts that share no member, and a branch tries each member of one conflict in turn (`laws::trees_count`). What is accepted is
//! true of all compatible functions (`laws::proved_ranks_are_true`).
//!
//! Let `a` be the worst on each of three criteria of two levels, and let each of `b`, `c` and `d` be the worst on one of them, with no
//! statement; the columns are q, r, s, and `b` is worth r + s, `c` q + s, `d` q + r. No two of the three are worth as little as `a`
//! together, so that of each two some one is above it: `{b, c}`, `{b, d}` and `{c, d}` are conflicts. A pair of them has a member in
//! common, but no one alternative meets all three. The best rank of `a` is 3:
//!
//! ```text
//! best a from 3 to 3 conflicts 3 nodes 3
//! except b c
//! solution 0 0 1
//! conflict b c
//! multipliers 1 1 | 1
//! conflict c d
//! multipliers 1 1 | 1
//! conflict b d
//! multipliers 1 1 | 1
//! branch 0
//! leaf 1
//! leaf 2
//! ```
//!
//! By the function `d` is worth as much as `a`, and just `b` and `c` are above it. The tree branches at the first conflict; beside `b`
//! another one is needed to meet the second, and beside `c` to meet the third. A leaf of the one conflict `{b, c}` would show no more
//! than that `a` is at best second.

mod check;
mod extreme;
mod fault;
pub mod laws;
mod limits;
pub mod others;
pub mod sides;
pub mod tree;

pub use check::{check_ranks, refutation_fault};
pub use extreme::{Conflict, Extreme, Interval, Node, SIDES, Said, Side, WideExtreme};
pub use fault::{ExtremeFault, RanksFault};
pub use limits::MOST_NODES;
