//! The two ways in which one statement is changed.

ghost use Rattle.std.specs.Prelude.{◌≡◌, option_map};
ghost use Rattle.ror_show_text_whatif.specs.Ways as spec;

use ror_show_find_whatif::{Case, Outcome};
use ror_statement::Statement;

/// How one statement is changed.
#[derive(Clone, Copy, Debug, PartialEq, Eq)]
pub(crate) enum Way {
    /// It is withdrawn.
    Withdrawn,
    /// Its contrary is said in its place.
    Contrary,
}

/// What it comes to, where that way is open to the statement.
pub(crate) fn outcome_in(way: Way, case: &Case) -> Option<&Outcome>
    ensures { option_map (λ x. x.now) result ≡ spec.outcome_in way case.now }
{
    match way {
        Way::Withdrawn => Some(&case.withdrawn),
        Way::Contrary => contrary_outcome(case),
    }
}

fn contrary_outcome(case: &Case) -> Option<&Outcome>
    ensures { option_map (λ x. x.now) result ≡ spec.outcome_in Way.Contrary case.now }
{
    match &case.contrary {
        Some(contrary) => Some(&contrary.outcome),
        None => None,
    }
}

/// The statement itself, or its contrary where it has one.
pub(crate) fn said_in(way: Way, case: &Case) -> Statement
    ensures { result ≡ spec.said_in way case.now }
{
    match way {
        Way::Withdrawn => case.stated.statement,
        Way::Contrary => contrary_said(case),
    }
}

fn contrary_said(case: &Case) -> Statement
    ensures { result ≡ spec.said_in Way.Contrary case.now }
{
    match &case.contrary {
        Some(contrary) => contrary.statement,
        None => case.stated.statement,
    }
}
