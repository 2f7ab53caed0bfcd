//! The check of a part by no more rows than it needs.

ghost use Rattle.std.specs.Prelude.{◌≡◌, ◌≤◌, ◌+◌, [], length, map, IfOk, IsTrue};
ghost use Rattle.std.specs.List.{AllByRecursion};
ghost use Rattle.ror_statement.specs.declared.row_number.TheConstants.{MOST_ROWS, MOST_STATEMENTS};
ghost use Rattle.ror_table.specs.Table.{columns};
ghost use Rattle.ror_value.specs.Over.{IsNamedIn};
ghost use Rattle.ror_system.specs.Acceptance.{IsAcceptedSolution, AreAcceptedMultipliers};
ghost use Rattle.ror_rows.specs.Rows.{system_for, comparison_of_extra, extended_by};
ghost use Rattle.ror_check.specs.Steps.{IsAcceptedFor, IsBaseOf};

use crate::base::Base;
use crate::weighed::Weighed;
use ror_proof::Certificate;
use ror_rows::{Extra, system_of, with_extras};
use ror_system::{
    MOST_SYSTEM_ROWS, Multipliers, Solution, System, accept_multipliers, accept_solution,
};
use ror_table::Table;
use std::alloc::{AllocError, Global};

/// Whether few rows show that the certificate is accepted for the base with these extra rows: a solution of the base is where
/// it holds at the extra rows, and multipliers are where they refute the rows that they weigh.
pub(crate) fn is_shown_by_few(
    alloc: Global,
    table: &Table,
    base: &mut Base,
    extras: &[Extra],
    certificate: &Certificate,
) -> Result<bool, AllocError>
    requires base { IsBaseOf base.old.system base.old }
    requires columns { base.old.system.columns ≡ columns table.now }
    requires rows { length base.old.system.weak + length base.old.system.strict ≤ MOST_ROWS }
    requires few { length extras.now ≤ MOST_STATEMENTS }
    requires named { AllByRecursion (λ e. IsNamedIn table.now e.form) extras.now }
    ensures base { IsBaseOf base.old.system base.new }
    ensures shown { IfOk result (λ shown. IsTrue shown
        → IsAcceptedFor (extended_by table.now base.old.system
        (map comparison_of_extra extras.now)) certificate.now) }
{
    match certificate {
        Certificate::Solution(solution) => {
            if base.accept(alloc, certificate).is_err() {
                return Ok(false);
            }
            holds_beside(alloc, table, extras, solution)
        }
        Certificate::Multipliers(multipliers) => {
            refute_by_weighed(alloc, table, &base.system, extras, multipliers)
        }
    }
}

/// Whether the solution is accepted for the extra rows alone, without statements.
fn holds_beside(
    alloc: Global,
    table: &Table,
    extras: &[Extra],
    solution: &Solution,
) -> Result<bool, AllocError>
    requires few { length extras.now ≤ MOST_STATEMENTS }
    requires named { AllByRecursion (λ e. IsNamedIn table.now e.form) extras.now }
    ensures { IfOk result (λ holds. IsTrue holds
        → IsAcceptedSolution (extended_by table.now (system_for table.now [] [])
        (map comparison_of_extra extras.now)) solution.now.steps) }
{
    let alone = system_of(alloc, table, &[])?;
    let system = with_extras(alloc, table, &alone, extras)?;
    Ok(accept_solution(&system, solution).is_ok())
}

/// Whether the multipliers are accepted for the rows that they weigh of the base and for the extra rows.
fn refute_by_weighed(
    alloc: Global,
    table: &Table,
    base: &System,
    extras: &[Extra],
    multipliers: &Multipliers,
) -> Result<bool, AllocError>
    requires columns { base.now.columns ≡ columns table.now }
    requires rows { length base.now.weak + length base.now.strict ≤ MOST_ROWS }
    requires few { length extras.now ≤ MOST_STATEMENTS }
    requires named { AllByRecursion (λ e. IsNamedIn table.now e.form) extras.now }
    ensures { IfOk result (λ refute. IsTrue refute
        → AreAcceptedMultipliers (extended_by table.now base.now
        (map comparison_of_extra extras.now)) multipliers.now.weak multipliers.now.strict) }
{
    let weak = &multipliers.weak;
    let strict = &multipliers.strict;
    let weak_count = base.weak().len();
    let strict_count = base.strict().len();
    if weak.len() < weak_count || strict.len() < strict_count {
        return Ok(false);
    }
    // What is too long for any system isn't copied.
    if weak.len() > MOST_SYSTEM_ROWS || strict.len() > MOST_SYSTEM_ROWS {
        return Ok(false);
    }
    let mut few_weak = Weighed::of(alloc, base.weak(), weak)?;
    let mut few_strict = Weighed::of(alloc, base.strict(), strict)?;
    let few = System::new(base.columns(), few_weak.rows, few_strict.rows);
    let system = with_extras(alloc, table, &few, extras)?;
    few_weak.multipliers.push_rest(weak, weak_count)?;
    few_strict.multipliers.push_rest(strict, strict_count)?;
    let few_multipliers = Multipliers {
        weak: few_weak.multipliers,
        strict: few_strict.multipliers,
    };
    Ok(accept_multipliers(&system, &few_multipliers).is_ok())
}
