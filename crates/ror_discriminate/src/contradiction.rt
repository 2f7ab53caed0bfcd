//! The checks of what is said of a list that has no optimum.

ghost use Rattle.std.specs.Prelude.{◌≡◌, ◌≢◌, ◌↔◌, [], IsTrue, OnOk, IfOk, IfErr};
ghost use Rattle.ror_text.specs.FirstFault.{IsRefusedBy};
ghost use Rattle.ror_value.specs.Over.{IsLawfulIn};
ghost use Rattle.ror_discriminate.specs.Margin.{strict_comparisons};
ghost use Rattle.ror_discriminate.specs.Contradictions.{IsShownContradictory, FailsContradiction, IsEarlierContradictionFault};

use crate::fault::ContradictionFault;
use ror_rows::system_of;
use ror_statement::Statement;
use ror_system::{Multipliers, accept_multipliers};
use ror_table::Table;
use std::alloc::{AllocError, Global};

/// Whether the list, which is lawful, says nothing strictly. Its one error is want of memory.
pub fn says_nothing_strictly(
    alloc: Global,
    table: &Table,
    list: &[Statement],
) -> Result<bool, AllocError>
    requires lawful { IsLawfulIn table.now list.now }
    ensures { IfOk result (λ nothing. IsTrue nothing ↔ (strict_comparisons list.now ≡ [])) }
{
    let system = system_of(alloc, table, list)?;
    Ok(system.strict().len() == 1)
}

/// Whether the list, which is lawful, says something strictly and these multipliers show that it is contradictory.
///
/// # Errors
///
/// The first test that fails, in the order of `ContradictionFault`.
pub fn check_contradiction(
    alloc: Global,
    table: &Table,
    list: &[Statement],
    m: &Multipliers,
) -> Result<(), ContradictionFault>
    requires lawful { IsLawfulIn table.now list.now }
    ensures accepted { OnOk result (IsShownContradictory table.now list.now m.now) }
    ensures not_accepted { IfErr result (λ e. e ≢ ContradictionFault.Memory
        → IsShownContradictory table.now list.now m.now → ⊥) }
    ensures refused { IfErr result (IsRefusedBy (FailsContradiction table.now list.now m.now)
        IsEarlierContradictionFault ContradictionFault.Memory) }
{
    let system = system_of(alloc, table, list)?;
    if system.strict().len() == 1 {
        return Err(ContradictionFault::NoStrictRow);
    }
    match accept_multipliers(&system, m) {
        Ok(()) => Ok(()),
        Err(reject) => Err(ContradictionFault::Multipliers(reject)),
    }
}
