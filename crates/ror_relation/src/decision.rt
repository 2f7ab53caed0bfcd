//! Deciding one system.

ghost use Rattle.std.specs.Prelude.{◌≤◌, ◌^◌, IfOk, IfErr};
ghost use Rattle.ror_system.specs.System.{IsWellFormed};
ghost use Rattle.ror_pivot.specs.Answers.{most_of};
ghost use Rattle.ror_relation.specs.Wide.{IsNoteBelow};
ghost use Rattle.ror_relation.specs.Decisions.{IsCountedFor, IsDecision, IsSaidOf};

use crate::wide::note_text;
use ror_pivot::{Bits, Outcome, SolveFault, solve_counted};
use ror_proof::WideText;
use ror_system::{Multipliers, Solution, System};
use ror_warm::Engine;
use std::alloc::{AllocError, Global};

/// What a system comes to at a width. No number of a certificate passes the width.
#[derive(Debug, Drop)]
pub enum Decision {
    /// It has this solution, which is accepted.
    Solvable(Solution),
    /// It has none: these multipliers, which are accepted, refute it.
    NotSolvable(Multipliers),
    /// This is the first number on the system's path that passes the width.
    TooWide(WideText),
}

/// Decides the system at this width by itself, and adds the pivots of its path to a count, which stays at its greatest value
/// once there. Its one error is want of memory.
pub fn decide_system(
    alloc: Global,
    system: &System,
    bits: Bits,
    pivots: &mut u64,
) -> Result<Decision, AllocError>
    requires { IsWellFormed system.now }
    ensures decided { IfOk result (IsDecision (most_of bits) system.now) }
    ensures exact { IfOk result (λ d. IsCountedFor system.now d pivots.old pivots.new) }
    ensures counted { pivots.old ≤ pivots.new }
{
    decision_of(alloc, solve_counted(alloc, system, bits, pivots))
}

/// Decides the system at this width by the engine. Its one error is want of memory.
pub(crate) fn decide_system_warm(
    alloc: Global,
    engine: &mut Engine,
    system: &System,
    bits: Bits,
) -> Result<Decision, AllocError>
    requires { IsWellFormed system.now }
    ensures decided { IfOk result (IsDecision (most_of bits) system.now) }
    ensures counted { engine.old.pivots ≤ engine.new.pivots }
{
    decision_of(alloc, engine.solve_warm(system, bits))
}

/// What the outcome of a system says of it.
fn decision_of(alloc: Global, outcome: Result<Outcome, SolveFault>) -> Result<Decision, AllocError>
    requires { IfErr outcome (IsNoteBelow (2 ^ 32)) }
    ensures { IfOk result (IsSaidOf outcome) }
{
    match outcome {
        Ok(Outcome::Feasible(solution)) => Ok(Decision::Solvable(solution)),
        Ok(Outcome::Infeasible(multipliers)) => Ok(Decision::NotSolvable(multipliers)),
        Err(SolveFault::Wide(note)) => Ok(Decision::TooWide(note_text(alloc, &note)?)),
        Err(SolveFault::Memory) => Err(AllocError),
    }
}
