//! The check of an optimum.

ghost use Rattle.std.specs.Prelude.{◌≡◌, ◌≢◌, ◌<◌, ◌++◌, ◌<ℤ◌, pos, length, IfOk, OnOk, IfErr, IsTrue, ◌↔◌, MatchResult};
ghost use Rattle.ror_integers.specs.Vectors.{total, SomePositive};
ghost use Rattle.ror_text.specs.FirstFault.{IsFirst, IsRefusedBy};
ghost use Rattle.ror_table.specs.Blocks.{tops};
ghost use Rattle.ror_system.specs.System.{IsNarrow};
ghost use Rattle.ror_value.specs.Over.{IsLawfulIn};
ghost use Rattle.ror_check.specs.Proof.{base_system};
ghost use Rattle.ror_pivot.specs.Optimality.{AreTops, IsAcceptedOptimum};
ghost use Rattle.ror_discriminate.specs.Margin.{IsMostDiscriminating, IsMarginOf};
ghost use Rattle.ror_discriminate.specs.Faults.{FailsOptimal, IsEarlierOptimalFault};
ghost use Rattle.ror_discriminate.specs.Steps.{IsMarginAt, IsMeasured, RefusesSteps, HaveForm, RefusesForm, AreWeights, RefusesWeights, PassesColumn, RefusesColumn};

use crate::fault::OptimalFault;
use crate::margin::{Margin, least_value};
use crate::tops::row_of_tops;
use ror_fraction::compare_ratios;
use ror_pivot::Optimum;
use ror_rows::system_of;
use ror_statement::Statement;
use ror_system::steps::positive_total;
use ror_system::{
    Multipliers, Reject, Row, Solution, System, accept_multipliers, accept_solution, column_sum,
    row_at_steps,
};
use ror_table::Table;
use std::alloc::Global;
use std::cmp::Ordering;

/// Whether the optimum is accepted: its solution is a function that is compatible with the list, and its multipliers show that
/// no compatible function discriminates more. In each column the sum of the rows, each times its multiplier, is at most the
/// least margin over the total, times the sum of the strict multipliers, times what the best level counts of the column.
///
/// The list is lawful. What is accepted is a most discriminating function.
///
/// # Errors
///
/// The first test that fails, in the order of `OptimalFault`.
pub fn check_optimal(
    alloc: Global,
    table: &Table,
    list: &[Statement],
    x: &Optimum,
) -> Result<(), OptimalFault>
    requires lawful { IsLawfulIn table.now list.now }

    ensures accepted { OnOk result
        (IsAcceptedOptimum (base_system table.now list.now) (tops table.now) x.now) }
    ensures best { OnOk result
        (IsMostDiscriminating table.now list.now x.now.solution.steps) }

    // Nothing that is accepted is refused, and a refusal names the first test that fails.
    ensures not_accepted { IfErr result (λ e. e ≢ OptimalFault.Memory
        → IsAcceptedOptimum (base_system table.now list.now) (tops table.now) x.now → ⊥) }
    ensures refused { IfErr result (IsRefusedBy
        (FailsOptimal (base_system table.now list.now) (tops table.now) x.now)
        IsEarlierOptimalFault OptimalFault.Memory) }
{
    check_best(alloc, table, list, x)?;
    Ok(())
}

/// Whether the optimum is accepted, as `check_optimal` has it, with the least margin of its solution.
///
/// # Errors
///
/// The first test that fails, in the order of `OptimalFault`.
pub fn check_best(
    alloc: Global,
    table: &Table,
    list: &[Statement],
    x: &Optimum,
) -> Result<Margin, OptimalFault>
    requires lawful { IsLawfulIn table.now list.now }

    ensures accepted { IfOk result (λ _.
        IsAcceptedOptimum (base_system table.now list.now) (tops table.now) x.now) }
    ensures margin { IfOk result (IsMarginOf table.now list.now x.now.solution.steps) }
    ensures best { IfOk result (λ _.
        IsMostDiscriminating table.now list.now x.now.solution.steps) }
    ensures narrow { IfOk result (λ m. IsNarrow m.least × IsNarrow m.total) }

    ensures not_accepted { IfErr result (λ e. e ≢ OptimalFault.Memory
        → IsAcceptedOptimum (base_system table.now list.now) (tops table.now) x.now → ⊥) }
    ensures refused { IfErr result (IsRefusedBy
        (FailsOptimal (base_system table.now list.now) (tops table.now) x.now)
        IsEarlierOptimalFault OptimalFault.Memory) }
{
    let system = system_of(alloc, table, list)?;
    let top = row_of_tops(alloc, table)?;
    check_system(&system, &top, x)
}

/// All tests, over a system and what its columns count.
fn check_system(s: &System, top: &Row, x: &Optimum) -> Result<Margin, OptimalFault>
    requires tops { AreTops s.now.columns top.now }
    ensures { MatchResult result
        (λ margin. IsAcceptedOptimum s.now top.now x.now
        × IsMarginAt s.now top.now x.now.solution.steps margin)
        (IsFirst (FailsOptimal s.now top.now x.now) IsEarlierOptimalFault) }
{
    if s.strict().len() == 1 {
        return Err(OptimalFault::NoStrictRow);
    }
    let margin = check_solution(s, top, &x.solution)?;
    check_weights(s, &x.multipliers)?;
    let Some(weight) = positive_total(&x.multipliers.strict) else {
        // A column counts at least 1, so the first scale is too wide where the sum of the strict multipliers is.
        return Err(OptimalFault::ScaleWide(0));
    };
    for column in 0..s.columns() {
        check_column(s, top, x, margin, weight, column)?;
    }
    Ok(margin)
}

/// The tests of the solution.
fn check_solution(s: &System, top: &Row, x: &Solution) -> Result<Margin, OptimalFault>
    requires some_row { 1 < length s.now.strict }
    requires tops { AreTops s.now.columns top.now }
    ensures { MatchResult result (IsMeasured s.now top.now x.now.steps)
        (RefusesSteps s.now top.now x.now.steps) }
{
    if let Err(reject) = accept_solution(s, x) {
        return Err(OptimalFault::Solution(reject));
    }
    let Some(total) = row_at_steps(top, &x.steps) else {
        return Err(OptimalFault::Total);
    };
    let least = least_value(s, &x.steps);
    Ok(Margin { least, total })
}

/// The tests of the multipliers but those of their columns.
fn check_weights(s: &System, m: &Multipliers) -> Result<(), OptimalFault>
    requires some_row { 1 < length s.now.strict }
    ensures { MatchResult result (λ _. AreWeights s.now m.now.weak m.now.strict)
        (RefusesWeights s.now m.now.weak m.now.strict) }
{
    let some_strict = check_form(s, m)?;
    if m.strict.entry(0) != 0 {
        return Err(OptimalFault::OnesRow);
    }
    if some_strict {
        Ok(())
    } else {
        Err(OptimalFault::NoStrict)
    }
}

/// Whether some strict multiplier is above 0, where there is one for each row and none is below 0.
fn check_form(s: &System, m: &Multipliers) -> Result<bool, OptimalFault>
    ensures { MatchResult result
        (λ some. HaveForm s.now m.now.weak m.now.strict × (IsTrue some ↔ SomePositive m.now.strict))
        (RefusesForm s.now m.now.weak m.now.strict) }
{
    // The first tests are those of multipliers that refute the system.
    let Err(reject) = accept_multipliers(s, m) else {
        return Ok(true);
    };
    match reject {
        Reject::Length => Err(OptimalFault::Length),
        Reject::Negative(place) => Err(OptimalFault::Negative(place)),
        Reject::NoStrict => Ok(false),
        _ => Ok(true),
    }
}

/// The three tests of a column, where the solution has this margin and the strict multipliers this sum.
fn check_column(
    s: &System,
    top: &Row,
    x: &Optimum,
    margin: Margin,
    weight: i128,
    column: usize,
) -> Result<(), OptimalFault>
    requires tops { AreTops s.now.columns top.now }
    requires margin { IsMarginAt s.now top.now x.now.solution.steps margin }
    requires weights { AreWeights s.now x.now.multipliers.weak x.now.multipliers.strict }
    requires weight { weight ≡ total x.now.multipliers.strict }
    requires positive { pos 0 <ℤ weight }
    requires within { column < s.now.columns }
    ensures { MatchResult result (λ _. PassesColumn s.now top.now x.now column)
        (RefusesColumn s.now top.now x.now column) }
{
    let Some(scale) = top.entry(column).checked_mul(weight) else {
        return Err(OptimalFault::ScaleWide(column));
    };
    let Some(sum) = column_sum(s, &x.multipliers.weak, &x.multipliers.strict, column) else {
        return Err(OptimalFault::ColumnWide(column));
    };
    match compare_ratios(sum, scale, margin.least, margin.total) {
        Ordering::Greater => Err(OptimalFault::Column(column)),
        _ => Ok(()),
    }
}
