#![tactic(auto)]
//! The most discriminating value function of a list of statements, with a proof that no other discriminates more.
//!
//! A compatible value function meets what a list says strictly (that one alternative is preferred to another, that a preference
//! is stronger than another, or what the classes of two alternatives say together) by some margin each. The most discriminating
//! one has the greatest least margin, over the value of the best levels (as in UTAMP). [`discriminate`] finds it by the
//! climbing path of the list's system, as an [`Optimum`](ror_pivot::Optimum): a solution, and multipliers that show that no
//! compatible function has a greater least margin. [`check_optimal`] multiplies the two out and never searches; what it accepts is
//! a most discriminating function (`laws::proved_optima_are_best`), and what it refuses has a first test that fails
//! ([`OptimalFault`]). [`find_best`] and [`check_best`] say the margin besides. What is said of a list that has no optimum is
//! checked by [`says_nothing_strictly`] and [`check_contradiction`].
//!
//! Let `a` be evaluated 3 and 10, `b` with 2 and 8 and `c` with 1 and 12, where more of the first and less of the second criterion
//! is better; the columns are q1, q2, p1, p2.
//!
//! ```text
//! prefer a b               margin 1 1   solution 0 1 0 0   multipliers | 0 1
//! prefer a b, prefer b c   margin 1 2   solution 1 1 0 0   multipliers | 0 1 1
//! at least a b             NoStrictRow
//! at least a b, prefer a a Contradictory, with the multipliers 0 | 0 1
//! ```
//!
//! In the second the strict rows but that of ones are (0, 1, 0, -1) and (1, 0, 1, 1), which come to 1 and 1 at the solution, whose
//! total is 2. With the multipliers they sum to (1, 1, 1, 0), and in each column 2 times this is at most 1 times 2, the sum of the
//! strict multipliers. The solution 1 2 0 0, of margin 1 and total 3, is refused for column 0: 3 times 1 is above 1 times 2.
//!
//! What a report says of a desk is an [`Entry`]: its name, and of its statements the greatest margin with a proof of it
//! ([`EntryBody::Best`]), or why there is none. Of the desk without a name with the first of these lists it is
//!
//! ```text
//! desk
//! margin 1 1
//! solution 0 1 0 0
//! multipliers | 0 1
//! ```
//!
//! which [`print_entry`] gives and [`read_entry`] reads back. A report begins with the line of [`head::header`].

mod check;
mod contradiction;
mod decide;
mod entry;
mod fault;
pub mod head;
pub mod laws;
mod margin;
mod names;
mod notes;
mod print;
mod read;
pub mod text_laws;
mod tops;
mod words;
mod write;

pub use check::{check_best, check_optimal};
pub use contradiction::{check_contradiction, says_nothing_strictly};
pub use decide::{Best, discriminate, find_best};
pub use entry::{Entry, EntryBody};
pub use fault::{ContradictionFault, DiscriminateFault, OptimalFault};
pub use margin::Margin;
pub use notes::base_note_at;
pub use print::{
    print_entry, write_base_wide, write_contradiction, write_entry, write_multipliers_line,
    write_place, write_solution,
};
pub use read::{multipliers_line, read_entry, solution_line};
pub use write::write_path;
