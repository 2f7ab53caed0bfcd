#![tactic(auto)]
//! Finding the best and the worst rank of each alternative over a list of statements, with their proofs.
//!
//! [`find_ranks`] asks an engine, one system after another. First come the conflicts of one alternative. Then trees are grown, each for
//! one alternative more than the one before: at a set of alternatives known conflicts that share no member are taken, the smallest first,
//! and where these are too few, a system tells whether there is another. Either it gives a conflict, which is made small and kept, or a
//! function by which fewer count, and this ends the search. A tree has at most [`ror_ranks::MOST_NODES`] nodes.
//!
//! Let `a` be the worst on each of three criteria of two levels, and let each of `b`, `c` and `d` be the worst on one of them. No one of
//! the three is a conflict alone. At the empty set the system of the functions by which none of them is above `a` is refuted, and made
//! small, by `{b, c}`; beside `b` it is `{c, d}`, and beside `c` it is `{b, d}`. Then every tree for three alternatives is stopped by a
//! function by which two are above, and the best rank of `a` is 3.

mod fault;
mod find;
mod found;
mod growing;
mod packing;
mod shown;
mod singles;
mod smaller;
mod sought;

pub use fault::RankingFault;
pub use find::find_ranks;
