//! Whether some value function agrees with a list.

ghost use Rattle.std.specs.Prelude.{◌≡◌, option_map};
ghost use Rattle.std.specs.List.{find};
ghost use Rattle.ror_show_find_whatif.specs.Agreement as spec;

use ror_proof::Answer;
use ror_show_ground::{Said, is_wide, said_by};

/// Whether some value function agrees with a list.
#[derive(Clone, Copy, Debug, PartialEq, Eq)]
pub enum Agreement {
    /// One does.
    Agrees,
    /// None does: the statements contradict each other.
    Contradicts,
    /// It isn't concluded.
    Unknown,
}

/// What answers over a list say of that: the first that concludes something.
pub(crate) fn agreement_by(answers: &[Answer]) -> Agreement
    ensures { result ≡ spec.agreement_by answers.now }
{
    match first_concluded(answers) {
        Some(answer) => agreement_in(said_by(&answer.verdict)),
        None => Agreement::Unknown,
    }
}

fn first_concluded(answers: &[Answer]) -> Option<&Answer>
    ensures { option_map (λ x. x.now) result ≡ find spec.is_concluded answers.now }
{
    answers.iter().find(|answer| is_concluded(answer))
}

fn is_concluded(answer: &Answer) -> bool
    ensures { result ≡ spec.is_concluded answer.now }
{
    !is_wide(&answer.verdict)
}

fn agreement_in(said: Said) -> Agreement
    ensures { result ≡ spec.agreement_in said }
{
    match said {
        Said::Yes | Said::No => Agreement::Agrees,
        Said::Contradiction => Agreement::Contradicts,
        Said::Nothing => Agreement::Unknown,
    }
}
