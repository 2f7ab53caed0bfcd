//! Finding the most discriminating function of a list.

ghost use Rattle.std.specs.Prelude.{◌≡◌, IfOk, IfErr, OnOk};
ghost use Rattle.ror_system.specs.System.{IsNarrow, IsSolvable};
ghost use Rattle.ror_value.specs.Over.{IsLawfulIn};
ghost use Rattle.ror_check.specs.Proof.{base_system};
ghost use Rattle.ror_pivot.specs.Answers.{most_of};
ghost use Rattle.ror_pivot.specs.Optimality.{AreTops, IsAcceptedOptimum};
ghost use Rattle.ror_discriminate.specs.Margin.{IsMostDiscriminating, IsMarginOf};
ghost use Rattle.ror_discriminate.specs.Discriminating.{IsDiscriminated, IsFound, IsDueFault};
ghost use Rattle.ror_discriminate.specs.Steps.{IsMarginAt, RefusesBase};

use crate::fault::DiscriminateFault;
use crate::margin::{Margin, least_value, value_at};
use crate::tops::row_of_tops;
use ror_pivot::{Bits, ClimbFault, Optimum, Outcome, SolveFault, climb_bits, solve_bits};
use ror_rows::system_of;
use ror_statement::Statement;
use ror_system::{Row, System};
use ror_table::Table;
use std::alloc::Global;

/// An optimum with the least margin of its solution.
#[derive(Debug, Drop)]
pub struct Best {
    pub margin: Margin,
    pub optimum: Optimum,
}

/// The most discriminating function of a list, with multipliers that show that no compatible function discriminates more. First
/// the list's system is decided at this width, then its optimum is what is read at the end of its climbing path. It is accepted
/// by `check_optimal`, and no number of it passes the width.
///
/// The list is lawful.
///
/// # Errors
///
/// `NoStrictRow` exactly where the list says nothing strictly. `Contradictory` only where it is contradictory, with accepted
/// multipliers of which no number passes the width. `BaseWide` and `Wide` only with the first number on the cold path of the
/// list's system, or on its climbing path, that passes the width. Want of memory. What answers a list may have is said by
/// `laws::answers_are_due`.
pub fn discriminate(
    alloc: Global,
    table: &Table,
    list: &[Statement],
    bits: Bits,
) -> Result<Optimum, DiscriminateFault>
    requires lawful { IsLawfulIn table.now list.now }
    ensures answer { IsDiscriminated (most_of bits) table.now list.now result }
    ensures best { IfOk result (λ x. IsMostDiscriminating table.now list.now x.solution.steps) }
{
    let best = find_best(alloc, table, list, bits)?;
    Ok(best.optimum)
}

/// The same, with the least margin of the function.
///
/// # Errors
///
/// Those of `discriminate`.
pub fn find_best(
    alloc: Global,
    table: &Table,
    list: &[Statement],
    bits: Bits,
) -> Result<Best, DiscriminateFault>
    requires lawful { IsLawfulIn table.now list.now }
    ensures found { IfOk result (λ best. IsFound (most_of bits) table.now list.now best.optimum) }
    ensures margin { IfOk result
        (λ best. IsMarginOf table.now list.now best.optimum.solution.steps best.margin) }
    ensures narrow { IfOk result (λ best. IsNarrow best.margin.least × IsNarrow best.margin.total) }
    ensures fault { IfErr result (IsDueFault (most_of bits) table.now list.now) }
{
    let system = system_of(alloc, table, list)?;
    if system.strict().len() == 1 {
        return Err(DiscriminateFault::NoStrictRow);
    }
    decide_base(alloc, &system, bits)?;
    let top = row_of_tops(alloc, table)?;
    match climb_bits(alloc, &system, &top, bits) {
        Ok(optimum) => Ok(best_of(&system, &top, optimum)),
        Err(ClimbFault::Wide(note)) => Err(DiscriminateFault::Wide(note)),
        Err(ClimbFault::Memory) => Err(DiscriminateFault::Memory),
    }
}

/// Decides the system of a list at this width, whose solution is not wanted.
///
/// # Errors
///
/// `Contradictory` where it is not solvable, `BaseWide`, and want of memory.
fn decide_base(alloc: Global, s: &System, bits: Bits) -> Result<(), DiscriminateFault>
    ensures solvable { OnOk result (IsSolvable s.now) }
    ensures fault { IfErr result (RefusesBase (most_of bits) s.now) }
{
    match solve_bits(alloc, s, bits) {
        Ok(Outcome::Feasible(_solution)) => Ok(()),
        Ok(Outcome::Infeasible(multipliers)) => Err(DiscriminateFault::Contradictory(multipliers)),
        Err(SolveFault::Wide(note)) => Err(DiscriminateFault::BaseWide(note)),
        Err(SolveFault::Memory) => Err(DiscriminateFault::Memory),
    }
}

/// An accepted optimum with the least margin of its solution.
fn best_of(s: &System, top: &Row, optimum: Optimum) -> Best
    requires tops { AreTops s.now.columns top.now }
    requires accepted { IsAcceptedOptimum s.now top.now optimum }
    ensures optimum { result.optimum ≡ optimum }
    ensures margin { IsMarginAt s.now top.now optimum.solution.steps result.margin }
{
    let steps = &optimum.solution.steps;
    let margin = Margin {
        least: least_value(s, steps),
        total: value_at(top, steps),
    };
    Best { margin, optimum }
}
