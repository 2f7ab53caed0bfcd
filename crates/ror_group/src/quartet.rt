//! The four words of a group on a pair of alternatives.

ghost use Rattle.std.specs.Prelude.{◌≡◌, ◌↔◌, IsTrue};
ghost use Rattle.ror_group.specs.Combining as spec;
ghost use Rattle.ror_group.specs.Combining.{combined, every_second, one_says};

use ror_proof::{Answer, Verdict};

/// What a group answers to one question.
#[derive(Clone, Copy, Debug, PartialEq, Eq)]
pub enum Word4 {
    /// What was asked holds for every judge, or for some judge.
    Yes,
    /// It does not.
    No,
    /// The statements of some judge contradict each other.
    Contradiction,
    /// Nothing is concluded: an answer on the way is too wide.
    Wide,
}

impl Word4 {
    /// Whether the words are one.
    pub fn is_same(self, other: Word4) -> bool
        ensures { IsTrue result ↔ (self ≡ other) }
    {
        self == other
    }
}

/// The four answers of a group on a pair, each with its name: a place in a list says neither what is asked nor of how many
/// judges.
#[derive(Clone, Copy, Debug, PartialEq, Eq)]
pub struct Quartet {
    /// Whether the necessary preference holds for every judge.
    pub necessary_for_every: Word4,
    /// Whether it holds for some judge.
    pub necessary_for_some: Word4,
    /// Whether the possible preference holds for every judge.
    pub possible_for_every: Word4,
    /// Whether it holds for some judge.
    pub possible_for_some: Word4,
}

impl Quartet {
    /// Whether the words are the same.
    pub fn is_same(self, other: Quartet) -> bool
        ensures { IsTrue result ↔ (self ≡ other) }
    {
        self.necessary_for_every.is_same(other.necessary_for_every)
            && self.necessary_for_some.is_same(other.necessary_for_some)
            && self.possible_for_every.is_same(other.possible_for_every)
            && self.possible_for_some.is_same(other.possible_for_some)
    }
}

/// The words of the judges' answers on a pair, which are for each judge in order that to `Necessary` and then that to
/// `Possible`. All four are contradiction where an answer is. Otherwise each is wide where one of the answers to its question
/// is, and else yes exactly where those of every judge, or of some judge, are.
pub fn combine(answers: &[Answer]) -> Quartet
    ensures { result ≡ combined answers.now }
{
    if one_says(Word4::Contradiction, answers) {
        return Quartet {
            necessary_for_every: Word4::Contradiction,
            necessary_for_some: Word4::Contradiction,
            possible_for_every: Word4::Contradiction,
            possible_for_some: Word4::Contradiction,
        };
    }
    Quartet {
        necessary_for_every: for_every(true, answers),
        necessary_for_some: for_some(true, answers),
        possible_for_every: for_every(false, answers),
        possible_for_some: for_some(false, answers),
    }
}

/// The word for every judge, by every second answer from the first one on or from the second one on.
fn for_every(first: bool, answers: &[Answer]) -> Word4
    ensures { result ≡ spec.for_every (every_second first answers.now) }
{
    if one_of_every_second_says(Word4::Wide, first, answers) {
        Word4::Wide
    } else if one_of_every_second_says(Word4::No, first, answers) {
        Word4::No
    } else {
        Word4::Yes
    }
}

/// The word for some judge, by the same answers.
fn for_some(first: bool, answers: &[Answer]) -> Word4
    ensures { result ≡ spec.for_some (every_second first answers.now) }
{
    if one_of_every_second_says(Word4::Wide, first, answers) {
        Word4::Wide
    } else if one_of_every_second_says(Word4::Yes, first, answers) {
        Word4::Yes
    } else {
        Word4::No
    }
}

/// Whether the word stands for the verdict of one of the answers.
fn one_says(word: Word4, answers: &[Answer]) -> bool
    ensures { result ≡ one_says word answers.now }
{
    'answers: for answer in answers {
        if says(word, &answer.verdict) {
            return true;
        }
    }
    false
}

/// The same of every second answer, from the first one on or from the second one on.
fn one_of_every_second_says(word: Word4, first: bool, answers: &[Answer]) -> bool
    ensures { result ≡ one_says word (every_second first answers.now) }
{
    let mut taken = first;
    'answers: for answer in answers {
        if taken && says(word, &answer.verdict) {
            return true;
        }
        taken = !taken;
    }
    false
}

/// Whether the word stands for the verdict.
fn says(word: Word4, verdict: &Verdict) -> bool
    ensures { result ≡ spec.says word verdict.now }
{
    match (word, verdict) {
        (Word4::Yes, Verdict::Yes(_))
        | (Word4::No, Verdict::No(_))
        | (Word4::Contradiction, Verdict::Contradiction(_))
        | (Word4::Wide, Verdict::Wide { .. }) => true,
        _ => false,
    }
}
