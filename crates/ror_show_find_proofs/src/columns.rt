//! What the columns of a system sum up to.

ghost use Rattle.std.specs.Prelude.{◌≡◌, ◌<◌, true, length, IfOk};
ghost use Rattle.ror_show_find_proofs.specs.Sums as spec;

use ror_system::{Multipliers, System, column_sum};
use std::alloc::{AllocError, Global};

/// Whether there is a multiplier for each row.
pub fn is_over(system: &System, multipliers: &Multipliers) -> bool
    ensures { result ≡ spec.is_over system.now multipliers.now }
{
    multipliers.weak.len() == system.weak().len()
        && multipliers.strict.len() == system.strict().len()
}

/// Whether the row is multiplied that says that a function's numbers aren't all 0.
pub fn is_positive_used(multipliers: &Multipliers) -> bool
    ensures { result ≡ spec.is_positive_used multipliers.now }
{
    !multipliers.strict.is_empty() && multipliers.strict.entry(0) > 0
}

/// Of each column whether its sum is below 0.
#[tactic(auto, unfolding(crate::specs::Sums::used_columns))]
pub fn used_columns(
    alloc: Global,
    system: &System,
    multipliers: &Multipliers,
) -> Result<Vec<bool>, AllocError>
    requires weak_lengths { length multipliers.now.weak ≡ length system.now.weak }
    requires strict_lengths { length multipliers.now.strict ≡ length system.now.strict }
    ensures { IfOk result (λ used. used.items ≡ spec.used_columns system.now multipliers.now) }
{
    let mut used = Vec::new(alloc);
    for j in 0..system.columns() {
        used.push(is_used(system, multipliers, j))?;
    }
    Ok(used)
}

fn is_used(system: &System, multipliers: &Multipliers, j: usize) -> bool
    requires weak_lengths { length multipliers.now.weak ≡ length system.now.weak }
    requires strict_lengths { length multipliers.now.strict ≡ length system.now.strict }
    requires within { j < system.now.columns }
    ensures { result ≡ spec.is_used system.now multipliers.now j }
{
    match column_sum(system, &multipliers.weak, &multipliers.strict, j) {
        Some(sum) => sum < 0,
        None => false,
    }
}
