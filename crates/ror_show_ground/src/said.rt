//! What is concluded on a question.

ghost use Rattle.std.specs.Prelude.{◌≡◌};
ghost use Rattle.ror_show_ground.specs.Said as spec;

use ror_proof::Verdict;

/// What is concluded on a question.
#[derive(Clone, Copy, Debug, PartialEq, Eq)]
pub enum Said {
    /// What was asked holds.
    Yes,
    /// It does not hold.
    No,
    /// No value function is compatible with the statements.
    Contradiction,
    /// Nothing is concluded, or it wasn't asked.
    Nothing,
}

pub fn said_by(verdict: &Verdict) -> Said
    ensures { result ≡ spec.said_by verdict.now }
{
    match verdict {
        Verdict::Yes(_) => Said::Yes,
        Verdict::No(_) => Said::No,
        Verdict::Contradiction(_) => Said::Contradiction,
        Verdict::Wide { .. } => Said::Nothing,
    }
}
