#![tactic(auto)]
//! Why an answer over statements is what it is: which of them carry it, or that one function shows it.
//!
//! Where every compatible function has two quantities in an order, where none has what is asked, and where no function is
//! compatible, statements carry that. `reduct` finds a part of the list that does, and of which no statement can be spared: a
//! `Reduct`, with the proof of the answer over the part and, for each of its statements, an answer with its proof over the
//! others. `reduct_of` does so of an answer that is known already. `check_reduct` accepts such a reduct; what it accepts is
//! proved (`IsProvedReduct`), and what is proved of an answer that is true of the list is a reduct
//! (`laws::proved_reducts_are_true`). Where some function has what is asked, or some one lacks it, one function shows so, and
//! the reason has the answer with its proof, in which that function stands (`laws::one_function_decides`). That every function
//! leaves an alternative a class is carried by no statement either. `rests_on_part` tells these answers apart, and `stated` gives
//! what a part states.
//!
//! Let alternative 0 be evaluated 3 and 10, 1 with 2 and 8 and 2 with 1 and 12, where more of the first and less of the second
//! criterion is better, and let these be stated:
//!
//! ```text
//! 1 AtLeast(1, 2)
//! 2 Prefer(0, 1)
//! ```
//!
//! `Necessary(0, 2)` is answered Yes, and has the empty reduct: alternative 0 is better on both criteria. `Necessary(0, 1)` is
//! answered Yes, and has the reduct 2. That `Necessary(1, 0)` is answered No is shown by one function. Where `Prefer(1, 0)` is
//! stated as 3 besides, each answer is Contradiction, and has the reduct of 2 and 3.

mod check;
mod fault;
pub mod laws;
mod part;
mod reasons;
mod reducts;
mod search;
mod sought;
mod weights;

pub use check::check_reduct;
pub use fault::ReductFault;
pub use part::{is_among, part_of, rests_on_part, stated};
pub use reasons::{reduct, reduct_of};
pub use reducts::{Reason, Reduct};
