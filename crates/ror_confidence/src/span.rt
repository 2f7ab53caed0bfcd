//! Spans over levels, and the answers that prove them.

use ror_proof::Answer;
use ror_text::Items;

/// An answer over the statements of a level.
#[derive(Debug, Drop)]
pub struct LevelAnswer {
    /// The level, from 1.
    pub level: u32,
    pub answer: Answer,
}

/// From which level on, and up to which, something is concluded on an ordered pair of alternatives.
#[derive(Debug, Drop)]
pub struct Span {
    /// The first level whose statements contradict each other, or one past the last level.
    pub contradictory: u32,
    /// The first level below that one at which the necessary preference holds, or that one.
    pub necessary: u32,
    /// The number of levels below that one at which the possible preference holds: from 1 up to this one.
    pub possible: u32,
    /// The answers at the borders: that the statements contradict each other, and do not before; that the necessary
    /// preference holds, and does not before; that the possible one holds, and does not after.
    pub proof: Items<LevelAnswer>,
}
