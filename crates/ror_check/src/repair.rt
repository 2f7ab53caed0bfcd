//! The check of a repair, test by test.

ghost use Rattle.std.specs.Prelude.{◌≡◌, ◌≢◌, ◌↔◌, map, IsTrue, OnOk, IfOk, IfErr, true};
ghost use Rattle.std.specs.List.Sorted.{IsStrictlyIncreasing};
ghost use Rattle.ror_text.specs.FirstFault.{IsRefusedBy};
ghost use Rattle.ror_value.specs.Over.{IsLawfulIn};
ghost use Rattle.ror_statement.specs.Statements.{numbers_in, statements_in};
ghost use Rattle.ror_check.specs.Repair.{AreRefuted, AreNumbersIn, kept_of, IsRepair, numbers_of, RefutesDropped, IsBaseKind, IsProvedRepair};
ghost use Rattle.ror_check.specs.RepairFaults.{FailsRepair, IsEarlierRepairFault};
ghost use Rattle.ror_check.specs.RepairSteps.{RefusesBaseOf, RefusesDropped, RefusesOne};
ghost use Rattle.ror_check.specs.Steps.{IsAcceptedFor};
ghost use Rattle.ror_check.specs.Proof.{base_system};

use crate::base::accept;
use crate::fault::RepairCheckFault;
use ror_proof::{Certificate, Dropped, Kept};
use ror_rows::system_of;
use ror_statement::{Numbered, Statement};
use ror_system::accept_multipliers;
use ror_table::Table;
use std::alloc::Global;

/// Whether the dropped statements are those that a repair of the standing ones drops, each proved by its multipliers: a
/// repair goes through the statements in order of number, keeps each that is consistent with those kept before it, and
/// drops the others. The multipliers of a dropped statement are for the system of those kept before it and itself. The
/// base is for the system of all that is kept, and a solution unless nothing is.
///
/// The statements are lawful for the table, and their numbers rise.
///
/// # Errors
///
/// The first test that fails, in the order of `RepairCheckFault`.
pub fn check_repair(
    alloc: Global,
    table: &Table,
    standing: &[Numbered],
    x: &Kept,
) -> Result<(), RepairCheckFault>
    requires lawful { IsLawfulIn table.now (statements_in standing.now) }
    requires rising { IsStrictlyIncreasing (numbers_in standing.now) }

    ensures accepted { OnOk result (IsProvedRepair table.now standing.now x.now) }
    ensures true_repair { OnOk result
        (IsRepair table.now standing.now (numbers_of x.now.dropped)) }

    // Nothing that is proved is refused, and a refusal names the first test that fails.
    ensures not_proved { IfErr result (λ e. e ≢ RepairCheckFault.Memory
        → IsProvedRepair table.now standing.now x.now → ⊥) }
    ensures refused { IfErr result (IsRefusedBy (FailsRepair table.now standing.now x.now)
        IsEarlierRepairFault RepairCheckFault.Memory) }
{
    let dropped = x.dropped.as_slice();
    if !are_numbers_in(standing, dropped) {
        return Err(RepairCheckFault::WrongList);
    }
    if !is_base_kind(standing, dropped, &x.base) {
        return Err(RepairCheckFault::WrongKind);
    }
    let kept = check_dropped(alloc, table, standing, dropped)?;
    check_base_of(alloc, table, kept.as_slice(), &x.base)
}

/// Whether the numbers of the dropped statements are numbers of standing ones, each once, in increasing order.
fn are_numbers_in(standing: &[Numbered], dropped: &[Dropped]) -> bool
    requires { IsStrictlyIncreasing (numbers_in standing.now) }
    ensures { IsTrue result ↔ AreNumbersIn standing.now (numbers_of dropped.now) }
{
    let mut place = 0;
    for numbered in standing {
        let Some(next) = dropped.get(place) else {
            return true;
        };
        if next.number != numbered.number {
            continue;
        }
        place += 1;
    }
    place == dropped.len()
}

/// Whether the base is a solution, unless nothing is kept: as many are dropped then as stand.
fn is_base_kind(standing: &[Numbered], dropped: &[Dropped], base: &Certificate) -> bool
    requires rising { IsStrictlyIncreasing (numbers_in standing.now) }
    requires numbers { AreNumbersIn standing.now (numbers_of dropped.now) }
    ensures { IsTrue result ↔ IsBaseKind (kept_of (numbers_of dropped.now) standing.now) base.now }
{
    match base {
        Certificate::Solution(_) => true,
        Certificate::Multipliers(_) => standing.len() <= dropped.len(),
    }
}

/// Checks the multipliers of each dropped statement, in order, and gives the statements that are kept.
fn check_dropped(
    alloc: Global,
    table: &Table,
    standing: &[Numbered],
    dropped: &[Dropped],
) -> Result<Vec<Statement>, RepairCheckFault>
    requires lawful { IsLawfulIn table.now (statements_in standing.now) }
    requires rising { IsStrictlyIncreasing (numbers_in standing.now) }
    requires numbers { AreNumbersIn standing.now (numbers_of dropped.now) }
    ensures kept { IfOk result (λ kept. kept.items
        ≡ statements_in (kept_of (numbers_of dropped.now) standing.now)) }
    ensures refuted { OnOk result (AreRefuted table.now standing.now dropped.now) }
    ensures err { IfErr result (RefusesDropped table.now standing.now dropped.now) }
{
    let mut kept = Vec::new(alloc);
    let mut place = 0;
    for numbered in standing {
        kept.push(numbered.statement)?;
        let Some(next) = dropped.get(place) else {
            continue;
        };
        if next.number != numbered.number {
            continue;
        }
        check_refutation(alloc, table, kept.as_slice(), next)?;
        kept.pop();
        place += 1;
    }
    Ok(kept)
}

/// Checks the multipliers of a dropped statement for the system of these statements, the last of which it is.
fn check_refutation(
    alloc: Global,
    table: &Table,
    list: &[Statement],
    dropped: &Dropped,
) -> Result<(), RepairCheckFault>
    requires { IsLawfulIn table.now list.now }
    ensures ok { OnOk result (RefutesDropped table.now list.now dropped.now) }
    ensures err { IfErr result (RefusesOne table.now list.now dropped.now) }
{
    let system = system_of(alloc, table, list)?;
    match accept_multipliers(&system, &dropped.proof) {
        Ok(()) => Ok(()),
        Err(reject) => Err(RepairCheckFault::Dropped(dropped.number, reject)),
    }
}

/// Checks the base for the system of these statements.
fn check_base_of(
    alloc: Global,
    table: &Table,
    list: &[Statement],
    base: &Certificate,
) -> Result<(), RepairCheckFault>
    requires { IsLawfulIn table.now list.now }
    ensures ok { OnOk result (IsAcceptedFor (base_system table.now list.now) base.now) }
    ensures err { IfErr result (RefusesBaseOf (base_system table.now list.now) base.now) }
{
    let system = system_of(alloc, table, list)?;
    match accept(&system, base) {
        Ok(()) => Ok(()),
        Err(reject) => Err(RepairCheckFault::Base(reject)),
    }
}
