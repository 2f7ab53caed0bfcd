//! Answers with their proofs.

use ror_statement::Question;
use ror_system::{Multipliers, Solution};
use ror_text::Items;

/// A solution of a system, or multipliers that show that it has none.
#[derive(Debug, Drop)]
pub enum Certificate {
    Solution(Solution),
    Multipliers(Multipliers),
}

/// The certificate of one of a question's systems, by the system's number from 1.
#[derive(Debug, Drop)]
pub struct Part {
    pub at: u32,
    pub body: Certificate,
}

/// The certificate of the base system, the one of the statements alone, and those of the question's
/// systems.
#[derive(Debug, Drop)]
pub struct Proof {
    pub base: Certificate,
    pub parts: Items<Part>,
}

/// The step at which the basis of a tableau is exchanged: the row at this place leaves it, and the
/// column at this place enters it.
#[derive(Clone, Copy, Debug, PartialEq, Eq)]
pub struct Pivot {
    pub column: u32,
    pub row: u32,
}

/// Which number of a path of pivots is meant, by places from 0.
#[derive(Clone, Copy, Debug, PartialEq, Eq)]
pub enum PlaceText {
    /// The entry of the starting tableau at a row and a column.
    Start(u32, u32),
    /// A number that the last pivot of the path takes for the entry at a row and a column.
    Step(u32, u32),
    /// The common denominator of the solution, taken up to a row.
    Denominator(u32),
    /// The sum of the absolute terms of a row over the solution.
    RowSum(u32),
    /// The sum of the absolute terms of a column over the multipliers.
    ColumnSum(u32),
}

/// The first number of a path of pivots that passes the width, and the pivots made before it.
#[derive(Debug, Drop)]
pub struct WideText {
    pub path: Items<Pivot>,
    pub place: PlaceText,
}

/// A conclusion with its proof, or why there is none.
#[derive(Debug, Drop)]
pub enum Verdict {
    /// What was asked holds.
    Yes(Proof),
    /// It does not hold.
    No(Proof),
    /// No value function is compatible with the statements.
    Contradiction(Proof),
    /// Nothing is concluded: a number on the way to the certificate of this system, by its number
    /// from 1 or 0 for the base, passes the width.
    Wide { system: u32, note: WideText },
}

/// What is answered to a question.
#[derive(Debug, Drop)]
pub struct Answer {
    pub question: Question,
    pub verdict: Verdict,
}
