//! Whether an outcome may be handed out.

ghost use Rattle.std.specs.Prelude.{◌≡◌, IsTrue};
ghost use Rattle.std.specs.List.{AllByRecursion};
ghost use Rattle.ror_word.specs.Within.{IsWithin};
ghost use Rattle.ror_pivot.specs.Answers.{most_of};
ghost use Rattle.ror_warm.specs.Engine.{IsFitting};
ghost use Rattle.ror_pivot.specs.declared.note.Outcome.TheVariants.{Feasible, Infeasible};

use ror_pivot::{Bits, Outcome};
use ror_system::{Multipliers, Numbers, Solution, System, accept_multipliers, accept_solution};

/// Whether the outcome is accepted for the system, and no number of it passes the width.
pub(crate) fn outcome_fits(s: &System, outcome: &Outcome, bits: Bits) -> bool
    ensures { IsTrue result → IsFitting (most_of bits) s.now outcome.now }
{
    match outcome {
        Outcome::Feasible(solution) => solution_fits(s, solution, bits),
        Outcome::Infeasible(multipliers) => multipliers_fit(s, multipliers, bits),
    }
}

/// Whether the solution is accepted for the system, and no number of it passes the width.
fn solution_fits(s: &System, solution: &Solution, bits: Bits) -> bool
    ensures { IsTrue result → IsFitting (most_of bits) s.now (Feasible solution.now) }
{
    are_within(&solution.steps, bits) && accept_solution(s, solution).is_ok()
}

/// Whether the multipliers are accepted for the system, and none passes the width.
fn multipliers_fit(s: &System, multipliers: &Multipliers, bits: Bits) -> bool
    ensures { IsTrue result → IsFitting (most_of bits) s.now (Infeasible multipliers.now) }
{
    are_within(&multipliers.weak, bits)
        && are_within(&multipliers.strict, bits)
        && accept_multipliers(s, multipliers).is_ok()
}

/// Whether no number passes the width.
fn are_within(numbers: &Numbers, bits: Bits) -> bool
    ensures { IsTrue result → AllByRecursion (IsWithin (most_of bits)) numbers.now }
{
    numbers.are_within(most(bits))
}

/// The greatest number of a width.
fn most(bits: Bits) -> u128
    ensures { result ≡ most_of bits }
{
    match bits {
        Bits::B15 => i16::MAX as u128,
        Bits::B31 => i32::MAX as u128,
        Bits::B63 => i64::MAX as u128,
        Bits::B127 => i128::MAX as u128,
    }
}
