//! What stands in the cell of an alternative and a class.

ghost use Rattle.std.specs.Prelude.{◌≡◌, slice_get};
ghost use Rattle.std.specs.List.{list_any};
ghost use Rattle.ror_show_ground.specs.Said.{said_by};
ghost use Rattle.ror_show_find_classes.specs.Signs as spec;

use ror_proof::{Answer, Verdict};
use ror_show_ground::Said;
use ror_statement::{Numbered, Question, Statement};
use ror_text::Items;

/// Whether an alternative belongs to a class, over all value functions that agree with the statements.
#[derive(Clone, Copy, Debug, PartialEq, Eq)]
pub enum Sign {
    /// It may by every one.
    Necessary,
    /// It may by some, and not by every one.
    Possible,
    /// It may by none.
    Impossible,
    /// What decides it isn't concluded.
    Unknown,
    /// No function agrees with the statements.
    Contradiction,
}

impl Sign {
    /// The byte of ASCII that stands for it, where the alternative's class is settled or isn't: a class that every function leaves is
    /// the only one there, and else one beside others.
    pub fn byte(self, settled: bool) -> u8
        ensures { result ≡ spec.byte_of settled self }
    {
        match self {
            Sign::Necessary => { if settled { b'#' } else { b'&' } }
            Sign::Possible => b'+',
            Sign::Impossible => b'.',
            Sign::Unknown => b'?',
            Sign::Contradiction => b'!',
        }
    }

    /// Whether some function is known to let it belong to the class.
    pub fn is_possible(self) -> bool
        ensures { result ≡ spec.is_possible self }
    {
        match self {
            Sign::Necessary | Sign::Possible => true,
            _ => false,
        }
    }

    /// Whether it is concluded whether the class is possible, or that no function agrees.
    pub fn is_known(self) -> bool
        ensures { result ≡ spec.is_known self }
    {
        match self {
            Sign::Unknown => false,
            _ => true,
        }
    }

    /// Whether no function agrees with the statements.
    pub fn is_contradiction(self) -> bool
        ensures { result ≡ spec.is_contradiction self }
    {
        match self {
            Sign::Contradiction => true,
            _ => false,
        }
    }

    /// Whether neither the class is known to be impossible, nor that no function agrees.
    pub fn may_be(self) -> bool
        ensures { result ≡ spec.may_be self }
    {
        match self {
            Sign::Impossible | Sign::Contradiction => false,
            _ => true,
        }
    }
}

/// The alternative of the first answer, by its place in the table; 0 where that isn't on a class.
pub fn alternative_of(answers: &[Answer]) -> usize
    ensures { result ≡ spec.alternative_of answers.now }
{
    match answers.get(0) {
        Some(answer) => alternative_in(answer.question),
        None => 0,
    }
}

fn alternative_in(question: Question) -> usize
    ensures { result ≡ spec.alternative_in question }
{
    match question {
        Question::PossibleClass(a, _) | Question::NecessaryClass(a, _) => a,
        _ => 0,
    }
}

/// The sign of a class, by the answers on all classes of an alternative.
pub fn sign_of_class(answers: &[Answer], h: u32) -> Sign
    ensures { result ≡ spec.sign_of_class answers.now h }
{
    sign_at(answers, alternative_of(answers), h)
}

fn sign_at(answers: &[Answer], a: usize, h: u32) -> Sign
    ensures { result ≡ spec.sign_at answers.now a h }
{
    let place = 2 * h.saturating_sub(1) as usize;
    sign_of(
        possible_by(a, h, answers, place),
        necessary_by(a, h, answers, place + 1),
    )
}

/// By what is said of whether it possibly and whether it necessarily belongs to the class.
fn sign_of(possible: Said, necessary: Said) -> Sign
    ensures { result ≡ spec.sign_of possible necessary }
{
    match (possible, necessary) {
        (Said::Contradiction, _) => Sign::Contradiction,
        (_, Said::Contradiction) => Sign::Contradiction,
        (Said::No, _) => Sign::Impossible,
        (Said::Yes, Said::Yes) => Sign::Necessary,
        (Said::Yes, Said::No) => Sign::Possible,
        _ => Sign::Unknown,
    }
}

/// What the answer at a place says to whether the alternative possibly belongs to the class.
fn possible_by(a: usize, h: u32, answers: &[Answer], place: usize) -> Said
    ensures { result ≡ spec.possible_by a h (slice_get answers.now place) }
{
    let Some(answer) = answers.get(place) else {
        return Said::Nothing;
    };
    match answer.question {
        Question::PossibleClass(x, g) if x == a && g == h => said_by(&answer.verdict),
        _ => Said::Nothing,
    }
}

/// The same to whether it necessarily does.
fn necessary_by(a: usize, h: u32, answers: &[Answer], place: usize) -> Said
    ensures { result ≡ spec.necessary_by a h (slice_get answers.now place) }
{
    let Some(answer) = answers.get(place) else {
        return Said::Nothing;
    };
    match answer.question {
        Question::NecessaryClass(x, g) if x == a && g == h => said_by(&answer.verdict),
        _ => Said::Nothing,
    }
}

fn said_by(verdict: &Verdict) -> Said
    ensures { result ≡ said_by verdict.now }
{
    match verdict {
        Verdict::Yes(_) => Said::Yes,
        Verdict::No(_) => Said::No,
        Verdict::Contradiction(_) => Said::Contradiction,
        Verdict::Wide { .. } => Said::Nothing,
    }
}

/// Whether one of what stood assigns the alternative to classes among which this one is, where what stood was kept.
pub fn is_assigned(standing: &Option<Items<Numbered>>, a: usize, h: u32) -> bool
    ensures { result ≡ spec.is_assigned standing.now a h }
{
    match standing {
        Some(list) => has_assignment(list.as_slice(), a, h),
        None => false,
    }
}

fn has_assignment(list: &[Numbered], a: usize, h: u32) -> bool
    ensures { result ≡ list_any (λ x. spec.assigns a h x.statement) list.now }
{
    list.iter().any(|x| assigns(a, h, x.statement))
}

fn assigns(a: usize, h: u32, statement: Statement) -> bool
    ensures { result ≡ spec.assigns a h statement }
{
    match statement {
        Statement::Class(x, lowest, highest) => x == a && (lowest <= h && h <= highest),
        _ => false,
    }
}
