//! What answers say of an ordered pair of alternatives.

ghost use Rattle.std.specs.Prelude.{◌≡◌, ◌<◌, ◌≤◌, slice_get};
ghost use Rattle.ror_show_find_relation.specs.Said as spec;

use ror_proof::Answer;
use ror_show_ground::{Said, said_by};
use ror_statement::Question;

/// What is said of an ordered pair of alternatives.
#[derive(Clone, Copy, Debug, PartialEq, Eq)]
pub struct PairSaid {
    /// Whether the first is at least as good as the second by every compatible function.
    pub necessary: Said,
    /// The same by some compatible function.
    pub possible: Said,
}

/// What the answers to all questions on a relation of so many alternatives say of this pair of different ones.
pub(crate) fn said_of_pair(size: usize, answers: &[Answer], a: usize, b: usize) -> PairSaid
    requires few { size ≤ 200 }
    requires first { a < size }
    requires second { b < size }
    ensures { result ≡ spec.said_of_pair size answers.now a b }
{
    let place = 2 * place_of_pair(size, a, b);
    PairSaid {
        necessary: necessary_by(a, b, answers, place),
        possible: possible_by(a, b, answers, place + 1),
    }
}

/// Where the pair of different ones of so many alternatives, at most 200, stands among their ordered pairs.
pub fn place_of_pair(size: usize, a: usize, b: usize) -> usize
    requires few { size ≤ 200 }
    requires first { a < size }
    requires second { b < size }
    ensures is { result ≡ spec.place_of_pair size a b }
    ensures small { result ≤ 40000 }
{
    let other = if a < b { b - 1 } else { b };
    a * (size - 1) + other
}

/// What the answer at a place says to whether the first is necessarily at least as good as the second; nothing where it is to
/// another question, and where there is none.
pub fn necessary_by(a: usize, b: usize, answers: &[Answer], place: usize) -> Said
    ensures { result ≡ spec.necessary_by a b (slice_get answers.now place) }
{
    let Some(answer) = answers.get(place) else {
        return Said::Nothing;
    };
    match answer.question {
        Question::Necessary(x, y) if x == a && y == b => said_by(&answer.verdict),
        _ => Said::Nothing,
    }
}

/// The same to whether it is possibly.
pub fn possible_by(a: usize, b: usize, answers: &[Answer], place: usize) -> Said
    ensures { result ≡ spec.possible_by a b (slice_get answers.now place) }
{
    let Some(answer) = answers.get(place) else {
        return Said::Nothing;
    };
    match answer.question {
        Question::Possible(x, y) if x == a && y == b => said_by(&answer.verdict),
        _ => Said::Nothing,
    }
}
