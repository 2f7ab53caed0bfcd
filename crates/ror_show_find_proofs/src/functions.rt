//! Solutions as value functions.

ghost use Rattle.std.specs.Prelude.{◌≡◌, option_copied, IfOk, IfSome};
ghost use Rattle.ror_proof.specs.Reading.{base_of};
ghost use Rattle.ror_value.specs.Value.{IsFunctionOf};
ghost use Rattle.ror_show_find_proofs.specs.Functions as spec;

use ror_proof::{Certificate, Part, Verdict};
use ror_system::Numbers;
use ror_table::Table;
use ror_value::{ValueFault, ValueFunction};
use std::alloc::{AllocError, Global};

/// The function with these steps, where they are those of one of the table: as many as it has columns, none below 0, and the value of
/// all best levels above 0 and at most 2^127 - 1.
///
/// # Errors
///
/// Only want of memory.
pub fn function_of(
    alloc: Global,
    table: &Table,
    steps: &Numbers,
) -> Result<Option<ValueFunction>, AllocError>
    ensures value { IfOk result (λ found. found ≡ spec.function_of table.now steps.now) }
    ensures function { IfOk result (λ found. IfSome found (IsFunctionOf table.now)) }
{
    let numbers = steps.to_vec(alloc)?;
    match ValueFunction::new(alloc, table, numbers.as_slice()) {
        Ok(function) => Ok(Some(function)),
        Err(ValueFault::Memory) => Err(AllocError),
        Err(ValueFault::Length | ValueFault::Negative(_) | ValueFault::Total) => Ok(None),
    }
}

/// The solution that a certificate is, where it is one.
pub fn steps_in(certificate: &Certificate) -> Option<&Numbers>
    ensures { option_copied result ≡ spec.steps_in certificate.now }
{
    match certificate {
        Certificate::Solution(solution) => Some(&solution.steps),
        Certificate::Multipliers(_) => None,
    }
}

/// The parts of a verdict's proof; none where it is too wide.
pub fn parts_of(verdict: &Verdict) -> &[Part]
    ensures { result.now ≡ spec.parts_of verdict.now }
{
    match verdict {
        Verdict::Yes(proof) | Verdict::No(proof) | Verdict::Contradiction(proof) => {
            proof.parts.as_slice()
        }
        Verdict::Wide { .. } => &[],
    }
}

/// The certificate of a verdict's base, where there is a proof.
pub fn base_of(verdict: &Verdict) -> Option<&Certificate>
    ensures { option_copied result ≡ base_of verdict.now }
{
    match verdict {
        Verdict::Yes(proof) => Some(&proof.base),
        Verdict::No(proof) => Some(&proof.base),
        Verdict::Contradiction(proof) => Some(&proof.base),
        Verdict::Wide { .. } => None,
    }
}

/// Whether two solutions are the same numbers.
pub(crate) fn is_same(numbers: &Numbers, steps: &Numbers) -> bool
    ensures { result ≡ spec.same_numbers numbers.now steps.now }
{
    numbers.is_same(steps)
}
