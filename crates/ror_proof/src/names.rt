//! The words that stand for one of several things: forms of questions, verdicts, places.

ghost use Rattle.std.specs.Prelude.{◌≡◌, ℕ, List};
ghost use Rattle.ror_proof.specs.Names.{name_of};

use crate::answer::{PlaceText, Verdict};
use ror_statement::Question;

/// What a word stands for.
pub trait Name: Copy {
    ghost word_of: { Self → List ℕ };

    /// The word.
    fn word(self) -> &'static [u8]
        ensures { result.now ≡ word_of self };
}

/// The first of these whose word this is.
pub fn named<N: Name>(names: &[N], word: &[u8]) -> Option<N>
    ensures { result ≡ name_of N.word_of names.now word.now }
{
    'names: for name in names {
        if word == name.word() {
            return Some(*name);
        }
    }
    None
}

/// What the first word of a question stands for.
#[derive(Clone, Copy)]
pub enum QuestionName {
    Consistent,
    Necessary,
    Possible,
    PossibleClass,
    NecessaryClass,
}

pub const QUESTION_NAMES: [QuestionName; 5] = [
    QuestionName::Consistent,
    QuestionName::Necessary,
    QuestionName::Possible,
    QuestionName::PossibleClass,
    QuestionName::NecessaryClass,
];

impl Name for QuestionName {
    ghost use Rattle.ror_proof.specs.Names.{question_word};

    ghost word_of = { question_word };

    fn word(self) -> &'static [u8] {
        match self {
            QuestionName::Consistent => b"consistent",
            QuestionName::Necessary => b"necessary",
            QuestionName::Possible => b"possible",
            QuestionName::PossibleClass => b"possible-class",
            QuestionName::NecessaryClass => b"necessary-class",
        }
    }
}

impl QuestionName {
    ghost use Rattle.ror_proof.specs.Names.{question_name};

    /// What the first word of this question stands for.
    pub fn of(question: Question) -> QuestionName
        ensures { result ≡ question_name question }
    {
        match question {
            Question::Consistent => QuestionName::Consistent,
            Question::Necessary(_, _) | Question::NecessaryStrength(_, _, _) => {
                QuestionName::Necessary
            }
            Question::Possible(_, _) | Question::PossibleStrength(_, _, _) =>
                QuestionName::Possible,
            Question::PossibleClass(_, _) => QuestionName::PossibleClass,
            Question::NecessaryClass(_, _) => QuestionName::NecessaryClass,
        }
    }
}

/// What the word of a verdict stands for.
#[derive(Clone, Copy)]
pub enum VerdictName {
    Yes,
    No,
    Contradiction,
    Wide,
}

pub const VERDICT_NAMES: [VerdictName; 4] = [
    VerdictName::Yes,
    VerdictName::No,
    VerdictName::Contradiction,
    VerdictName::Wide,
];

impl Name for VerdictName {
    ghost use Rattle.ror_proof.specs.Names.{verdict_word};

    ghost word_of = { verdict_word };

    fn word(self) -> &'static [u8] {
        match self {
            VerdictName::Yes => b"yes",
            VerdictName::No => b"no",
            VerdictName::Contradiction => b"contradiction",
            VerdictName::Wide => b"wide",
        }
    }
}

impl VerdictName {
    ghost use Rattle.ror_proof.specs.Names.{verdict_name};

    /// What the word of this verdict stands for.
    pub fn of(verdict: &Verdict) -> VerdictName
        ensures { result ≡ verdict_name verdict.now }
    {
        match verdict {
            Verdict::Yes(_) => VerdictName::Yes,
            Verdict::No(_) => VerdictName::No,
            Verdict::Contradiction(_) => VerdictName::Contradiction,
            Verdict::Wide { .. } => VerdictName::Wide,
        }
    }
}

/// What the word of a place stands for.
#[derive(Clone, Copy)]
pub enum PlaceName {
    Start,
    Step,
    Denominator,
    RowSum,
    ColumnSum,
}

pub const PLACE_NAMES: [PlaceName; 5] = [
    PlaceName::Start,
    PlaceName::Step,
    PlaceName::Denominator,
    PlaceName::RowSum,
    PlaceName::ColumnSum,
];

impl Name for PlaceName {
    ghost use Rattle.ror_proof.specs.Names.{place_word};

    ghost word_of = { place_word };

    fn word(self) -> &'static [u8] {
        match self {
            PlaceName::Start => b"start",
            PlaceName::Step => b"step",
            PlaceName::Denominator => b"denominator",
            PlaceName::RowSum => b"rowsum",
            PlaceName::ColumnSum => b"columnsum",
        }
    }
}

impl PlaceName {
    ghost use Rattle.ror_proof.specs.Names.{place_name};

    /// What the word of this place stands for.
    pub fn of(place: PlaceText) -> PlaceName
        ensures { result ≡ place_name place }
    {
        match place {
            PlaceText::Start(_, _) => PlaceName::Start,
            PlaceText::Step(_, _) => PlaceName::Step,
            PlaceText::Denominator(_) => PlaceName::Denominator,
            PlaceText::RowSum(_) => PlaceName::RowSum,
            PlaceText::ColumnSum(_) => PlaceName::ColumnSum,
        }
    }
}
