//! Questions, and what is concluded on them.

ghost use Rattle.std.specs.Prelude.{◌≡◌, ◌↔◌, IsTrue};
ghost use Rattle.ror_statement.specs.Questions.{kind_of};

use crate::comparison::{Form, Pair, Scope};

/// A question on all value functions that are compatible with the statements.
#[derive(Clone, Copy, Debug, PartialEq, Eq)]
pub enum Question {
    /// Whether some function is compatible.
    Consistent,
    /// Whether the first alternative is worth at least as much as the second for every compatible function: the
    /// necessary preference relation of UTA-GMS.
    Necessary(usize, usize),
    /// The same for some compatible function: the possible preference relation of UTA-GMS.
    Possible(usize, usize),
    /// Whether the first pair's preference is at least as strong as the second's for every compatible function, over all
    /// criteria or on one: the necessary intensity of GRIP.
    NecessaryStrength(Pair, Pair, Scope),
    /// The same for some compatible function: the possible intensity of GRIP.
    PossibleStrength(Pair, Pair, Scope),
    /// Whether the alternative may belong to the class by some compatible function: the possible assignment of UTADIS-GMS.
    PossibleClass(usize, u32),
    /// Whether it may by every compatible function: the necessary assignment of UTADIS-GMS.
    NecessaryClass(usize, u32),
}

/// Of which compatible functions a question asks.
#[derive(Clone, Copy, Debug, PartialEq, Eq)]
pub enum QuestionKind {
    /// Of none in particular: whether there is one.
    Plain,
    /// Of some one.
    Any,
    /// Of every one.
    Every,
}

/// What a question asks of a compatible function.
#[derive(Clone, Copy, Debug, PartialEq, Eq)]
pub enum Property {
    /// Nothing more.
    Compatible,
    /// That the first of two quantities is at least as great as the second.
    AtLeast(Form),
    /// That the alternative may belong to the class by its value, and by those of the alternatives that statements
    /// assign.
    InClass(usize, u32),
}

/// What is concluded on a question, apart from its proof.
#[derive(Clone, Copy, Debug, PartialEq, Eq)]
pub enum Conclusion {
    /// What was asked holds.
    Yes,
    /// It does not hold.
    No,
    /// The statements contradict each other: no function is compatible with all of them.
    Contradiction,
}

/// Of which compatible functions the question asks.
pub fn kind_of(question: &Question) -> QuestionKind
    ensures { result ≡ kind_of question.now }
{
    match question {
        Question::Consistent => QuestionKind::Plain,
        Question::Possible(_, _)
        | Question::PossibleStrength(_, _, _)
        | Question::PossibleClass(_, _) => QuestionKind::Any,
        Question::Necessary(_, _)
        | Question::NecessaryStrength(_, _, _)
        | Question::NecessaryClass(_, _) => QuestionKind::Every,
    }
}

impl Question {
    ghost use Rattle.ror_statement.specs.Questions.{property_of};

    /// What the question asks of a compatible function.
    pub fn property(self) -> Property
        ensures { result ≡ property_of self }
    {
        match self {
            Question::Consistent => Property::Compatible,
            Question::Necessary(a, b) | Question::Possible(a, b) => {
                Property::AtLeast(Form::Value(a, b))
            }
            Question::NecessaryStrength(p, q, s) | Question::PossibleStrength(p, q, s) => {
                Property::AtLeast(Form::Strength(p, q, s))
            }
            Question::PossibleClass(a, h) | Question::NecessaryClass(a, h) => {
                Property::InClass(a, h)
            }
        }
    }

    /// Whether the questions are one.
    pub fn is_same(self, other: Question) -> bool
        ensures { IsTrue result ↔ (self ≡ other) }
    {
        self == other
    }
}
