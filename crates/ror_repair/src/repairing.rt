//! The call that repairs.

ghost use Rattle.std.specs.Prelude.{◌≡◌, ◌≤◌, [], IsTrue, IfOk, IfErr};
ghost use Rattle.std.specs.List.Sorted.{IsStrictlyIncreasing};
ghost use Rattle.ror_integers.specs.Vectors.{ones};
ghost use Rattle.ror_statement.specs.declared.question.Conclusion.TheVariants.{Yes};
ghost use Rattle.ror_pivot.specs.Answers.{most_of};
ghost use Rattle.ror_value.specs.Over.{IsLawfulIn};
ghost use Rattle.ror_check.specs.Proof.{base_side, Shows};
ghost use Rattle.ror_statement.specs.Statements.{numbers_in, statements_in};
ghost use Rattle.ror_check.specs.Repair.{numbers_of, IsRepair, IsProvedRepair};
ghost use Rattle.ror_repair.specs.Repairs.{IsKeptWithin, IsBaseAt, IsFaultOf};

use crate::fault::RepairFault;
use ror_pivot::Bits;
use ror_proof::{Certificate, Dropped, Kept};
use ror_relation::{Decision, decide_system};
use ror_rows::system_of;
use ror_statement::Numbered;
use ror_system::{Multipliers, Numbers, Solution, System, accept_solution};
use ror_table::Table;
use ror_text::Items;
use std::alloc::{AllocError, Global};

/// Repairs the standing statements: goes through them in order of number, keeps each that is consistent with those kept
/// before it, and drops the others. Systems are decided at this width, and no number of a certificate passes it. The repair
/// has a proof that `ror_check` accepts: multipliers of each dropped statement, and a base of all that is kept.
///
/// The statements are lawful for the table, and their numbers rise.
///
/// # Errors
///
/// `Wide` with the number of a statement and the first number that passes the width on the path of the system of the
/// statements kept before it and itself; and want of memory.
pub fn repair(
    alloc: Global,
    table: &Table,
    standing: &[Numbered],
    bits: Bits,
) -> Result<Kept, RepairFault>
    requires lawful { IsLawfulIn table.now (statements_in standing.now) }
    requires rising { IsStrictlyIncreasing (numbers_in standing.now) }
    ensures proved { IfOk result (IsProvedRepair table.now standing.now) }
    ensures narrow { IfOk result (IsKeptWithin (most_of bits)) }
    ensures true_repair { IfOk result (λ x. IsRepair table.now standing.now (numbers_of x.dropped)) }
    ensures fault { IfErr result (IsFaultOf (most_of bits) table.now standing.now) }
{
    let mut pivots = 0;
    repair_counted(alloc, table, standing, bits, &mut pivots)
}

/// Repairs the standing statements as `repair` does, and adds the pivots that it takes to a count.
///
/// # Errors
///
/// Those of `repair`.
pub fn repair_counted(
    alloc: Global,
    table: &Table,
    standing: &[Numbered],
    bits: Bits,
    pivots: &mut u64,
) -> Result<Kept, RepairFault>
    requires lawful { IsLawfulIn table.now (statements_in standing.now) }
    requires rising { IsStrictlyIncreasing (numbers_in standing.now) }
    ensures proved { IfOk result (IsProvedRepair table.now standing.now) }
    ensures narrow { IfOk result (IsKeptWithin (most_of bits)) }
    ensures true_repair { IfOk result (λ x. IsRepair table.now standing.now (numbers_of x.dropped)) }
    ensures fault { IfErr result (IsFaultOf (most_of bits) table.now standing.now) }
    ensures counted { pivots.old ≤ pivots.new }
{
    let mut kept = Vec::new(alloc);
    let mut dropped = Vec::new(alloc);
    let mut base = base_of_nothing(alloc, table)?;
    for numbered in standing {
        kept.push(numbered.statement)?;
        let system = system_of(alloc, table, kept.as_slice())?;
        if holds_at(&system, &base) {
            continue;
        }
        match decide_system(alloc, &system, bits, pivots)? {
            Decision::Solvable(solution) => base = Certificate::Solution(solution),
            Decision::NotSolvable(proof) => {
                let number = numbered.number;
                dropped.push(Dropped { number, proof })?;
                kept.pop();
            }
            Decision::TooWide(note) => return Err(RepairFault::Wide(numbered.number, note)),
        }
    }
    Ok(Kept {
        dropped: Items::from(dropped),
        base,
    })
}

/// Whether the certificate is a solution that the system accepts.
fn holds_at(system: &System, certificate: &Certificate) -> bool
    ensures { IsTrue result → Shows (base_side Yes) system.now certificate.now }
{
    match certificate {
        Certificate::Solution(solution) => accept_solution(system, solution).is_ok(),
        Certificate::Multipliers(_) => false,
    }
}

/// A base of no statements: 1 for each column, or, where the table has none, the multiplier 1 of the one row.
fn base_of_nothing(alloc: Global, table: &Table) -> Result<Certificate, AllocError>
    ensures { IfOk result (IsBaseAt 1 table.now []) }
{
    let columns = table.columns();
    if columns > 0 {
        let steps = all_ones(alloc, columns)?;
        return Ok(Certificate::Solution(Solution { steps }));
    }
    let weak = Numbers::new(alloc);
    let strict = all_ones(alloc, 1)?;
    Ok(Certificate::Multipliers(Multipliers { weak, strict }))
}

fn all_ones(alloc: Global, count: usize) -> Result<Numbers, AllocError>
    ensures { IfOk result (λ xs. xs ≡ ones count) }
{
    Numbers::of(alloc, vec![in alloc; 1i128; count]?.as_slice())
}
