#![tactic(auto)]
//! Levels of confidence: how sure a judge is of each statement, and at which levels conclusions hold.
//!
//! A judge is surer of some statements than of others, and puts each on a level (the nested relations of UTA-GMS, with different
//! degrees of credibility). The list of a level has the statements up to it. As levels are added the necessary preference relation
//! grows and the possible one shrinks (`laws::nested`), until the statements contradict each other. The [`Span`] of a pair of
//! alternatives says where: [`find_span`] finds it by a [`Decider`], which is asked at a few of the levels, and [`check_span`]
//! accepts it by the answers at its borders. What is accepted is true at every level (`laws::proved_spans_are_true`). For pair
//! after pair over the same levels there are [`LevelSearch`] and [`SpanChecker`].
//!
//! Of the statements `prefer a b` and `prefer b a`, in this order, and the file
//!
//! ```text
//! ror-levels 1
//! count 3
//! put 2 2
//! ```
//!
//! [`read_levels`] gives three levels: the second statement stands on the second one, from which on the statements contradict
//! each other. The span of a and b is then contradictory 2, necessary 1, possible 1.

mod border;
mod check;
mod copies;
mod decider;
mod due;
mod fault;
pub mod laws;
mod level;
mod levels;
mod read;
mod search;
mod span;

pub use check::{SpanChecker, check_span};
pub use decider::Decider;
pub use fault::{LevelsFault, SpanCheckFault, SpanFault};
pub use levels::{Levelled, Levels, MOST_LEVELS};
pub use read::{MOST_LEVELS_BYTES, read_levels};
pub use search::{LevelSearch, find_span};
pub use span::{LevelAnswer, Span};
