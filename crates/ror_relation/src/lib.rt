//! Deciding questions over all value functions that are compatible with statements, each with its proof.
//!
//! `decide` answers one question, `decide_each` many over one list; `decide_warm` and `decide_each_warm` do so by an engine
//! that the caller keeps from question to question. A `DecidedList` keeps what belongs to a list, for questions that come one by
//! one among those over other lists. The base, the system of the statements alone, is
//! decided first, then the question's systems in order, up to the first that is solvable. The certificates that are found
//! prove the verdict (`ror_check`), and it is true. A number past the width ends the search: the answer then names the
//! system and the note of its path, and concludes nothing. `decide_system` decides one system by itself, for questions and for
//! repairs alike.
//!
//! Let alternative 0 be evaluated 3 and 10, 1 with 2 and 8 and 2 with 1 and 12, where more of the first and less of the second
//! criterion is better. Over no statements `Necessary(0, 2)` is Yes, as multipliers refute that 2 is worth more than 0,
//! `Necessary(0, 1)` is No and `Possible(0, 1)` Yes, each by a solution. Over `Prefer(0, 1)` the second is Yes, and over that and
//! `Prefer(1, 0)` each answer is Contradiction.
#![tactic(auto)]

mod decided;
mod deciding;
mod decision;
mod pairs;
mod search;
mod wide;

pub use decided::DecidedList;
pub use deciding::{decide, decide_each, decide_each_warm, decide_warm};
pub use decision::{Decision, decide_system};
pub use pairs::{ordered_pairs, relation_questions};
