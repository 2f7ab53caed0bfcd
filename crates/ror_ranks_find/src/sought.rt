//! What is sought, and what one system of its side comes to.

ghost use Rattle.std.specs.Prelude.{◌≡◌, ◌≤◌, true, IfOk};
ghost use Rattle.ror_ranks.specs.Conflicts.{are_others};
ghost use Rattle.ror_ranks_find.specs.Search.{IsSought, IsTried};

use ror_pivot::{Bits, Outcome, SolveFault};
use ror_ranks::sides::{Asked, system_without};
use ror_ranks::{Conflict, WideExtreme};
use ror_system::Solution;
use ror_text::Items;
use ror_warm::Engine;
use std::alloc::{AllocError, Global};

/// The extreme rank that is sought, at a width.
#[derive(Clone, Copy)]
pub(crate) struct Sought<'a> {
    pub(crate) asked: Asked<'a>,
    pub(crate) bits: Bits,
}

/// What the system of the functions by which none of some other alternatives counts comes to.
#[derive(Drop)]
pub(crate) enum Tried {
    /// There is such a function.
    Function(Solution),
    /// There is none: some one always counts.
    Conflict(Conflict),
    /// A number is too wide.
    Wide(WideExtreme),
}

/// Decides whether by some compatible function none of these other alternatives counts.
#[tactic(auto, using(crate::proofs::FoundLemmas::tried_function, crate::proofs::FoundLemmas::tried_conflict, crate::proofs::FoundLemmas::tried_wide))]
pub(crate) fn try_without(
    alloc: Global,
    engine: &mut Engine,
    sought: &Sought,
    members: Vec<usize>,
) -> Result<Tried, AllocError>
    requires sought { IsSought sought.now }
    requires others { are_others sought.now.asked.table.now sought.now.asked.alternative members.items ≡ true }
    ensures tried { IfOk result (IsTried sought.now members.items) }
    ensures counted { engine.old.pivots ≤ engine.new.pivots }
{
    let system = system_without(alloc, &sought.asked, members.as_slice())?;
    let members = Items::from(members);
    match engine.solve_warm(&system, sought.bits) {
        Ok(Outcome::Feasible(solution)) => Ok(Tried::Function(solution)),
        Ok(Outcome::Infeasible(multipliers)) => Ok(Tried::Conflict(Conflict {
            members,
            multipliers,
        })),
        Err(SolveFault::Wide(note)) => Ok(Tried::Wide(WideExtreme { members, note })),
        Err(SolveFault::Memory) => Err(AllocError),
    }
}
