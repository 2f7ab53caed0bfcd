//! What becomes of an answer without a statement, as values.

use ror_text::Items;

/// What becomes of an answer that statements carry, if one of them is withdrawn from all that stand.
#[derive(Debug, Drop)]
pub enum Outcome {
    /// It stays: the numbers of a reduct of it over what is left, in increasing order.
    Stays(Items<u32>),
    /// It stays: the numbers of a part of what is left that carries it. Of some of them it isn't known whether they are needed.
    StaysWide(Items<u32>),
    /// It goes: over what is left the answer is another.
    Goes,
    /// A number on the way to the answer over what is left passes the greatest width.
    Unknown,
}

/// What becomes of an answer without the statement with this number.
#[derive(Debug, Drop)]
pub struct Withdrawal {
    pub number: u32,
    pub outcome: Outcome,
}

/// What becomes of an answer without each statement that its reason names, in their order; empty where no statements carry it.
#[derive(Debug, Drop)]
pub struct CoreFound {
    pub withdrawals: Items<Withdrawal>,
}

/// What is found beside each answer that is told of a line, in their order.
#[derive(Debug, Drop)]
pub struct LineCores {
    pub cores: Items<CoreFound>,
}
