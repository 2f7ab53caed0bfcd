//! Reducts, and reasons.

use ror_proof::{Answer, WideText};
use ror_text::Items;

/// A part of a list that carries an answer, and of which no statement can be spared: without any one of them the answer is
/// another. What carries a contradiction is a smallest conflict. A reduct is least by inclusion, so no smaller part of it has
/// the answer either; it is one of several, where another part that it doesn't contain carries the answer too.
#[derive(Debug, Drop)]
pub struct Reduct {
    /// The numbers of the statements of the part, in increasing order.
    pub numbers: Items<u32>,
    /// The answer over the part.
    pub answer: Answer,
    /// For each number, at its place, the answer over the part without its statement.
    pub others: Items<Answer>,
}

/// Why an answer over a list is what it is.
#[derive(Debug, Drop)]
pub enum Reason {
    /// Statements carry it, and none of them can be spared.
    Carried(Reduct),
    /// Statements carry it, and of some of them it isn't known whether they can be spared: the answer over the others names a
    /// number that passes the width. The others can't be spared.
    Wide {
        /// The numbers of the statements of a part that has the answer, in increasing order.
        numbers: Items<u32>,
        /// The answer over the part.
        answer: Answer,
        /// For each number, at its place, the answer over the part without its statement: another one, or one that concludes
        /// nothing.
        others: Items<Answer>,
    },
    /// One value function shows it, and no statement carries it: a function that is compatible with the list, and has what is
    /// asked of some one. In the proof of the answer it is the solution of the part, or that of the base where there is no part.
    OneHas(Answer),
    /// One value function shows it, and no statement carries it: a function that is compatible with the list, and lacks what is
    /// asked of every one. In the proof of the answer it is the solution of the part.
    OneLacks(Answer),
    /// Every compatible function leaves the alternative the class. No statement carries that: over no statements every class is
    /// left, and statements take classes away. What bounds the classes is told by the reasons of those that are not possible:
    /// ask `PossibleClass` of each class outside.
    ClassLeft(Answer),
    /// Nothing is concluded over the whole list: a number on the way to the certificate of this system, by its number from 1 or
    /// 0 for the base, passes the width.
    WhollyWide {
        system: u32,
        note: WideText,
    },
}
