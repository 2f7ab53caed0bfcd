//! How often each statement counts in a refutation.

ghost use Rattle.std.specs.Prelude.{◌≡◌, ◌<◌, ◌++◌, length, IfOk, OnOk};
ghost use Rattle.ror_show_find_proofs.specs.Weights as spec;

use crate::owners::{Owner, Owners};
use crate::refutations::refutation;
use ror_proof::{Certificate, Verdict};
use ror_system::Numbers;
use std::alloc::{AllocError, Global};

/// The multipliers of the rows that the statement with this number gives, but for 0, in the certificate that refutes.
pub fn weights_of(
    alloc: Global,
    number: u32,
    owners: &Owners,
    verdict: &Verdict,
) -> Result<Vec<u128>, AllocError>
    ensures { IfOk result (λ weights. weights.items ≡ spec.weights_of number owners.now verdict.now) }
{
    let mut weights = Vec::new(alloc);
    match refutation(verdict) {
        Some(certificate) => push_certificate(&mut weights, number, owners, certificate)?,
        None => {}
    }
    Ok(weights)
}

fn push_certificate(
    weights: &mut Vec<u128>,
    number: u32,
    owners: &Owners,
    certificate: &Certificate,
) -> Result<(), AllocError>
    ensures { OnOk result (weights.new.items
        ≡ weights.old.items ++ spec.weights_in_certificate number owners.now certificate.now) }
{
    match certificate {
        Certificate::Solution(_) => Ok(()),
        Certificate::Multipliers(multipliers) => {
            push_weights(weights, number, owners.weak.as_slice(), &multipliers.weak)?;
            push_weights(
                weights,
                number,
                owners.strict.as_slice(),
                &multipliers.strict,
            )
        }
    }
}

fn push_weights(
    weights: &mut Vec<u128>,
    number: u32,
    owners: &[Owner],
    multipliers: &Numbers,
) -> Result<(), AllocError>
    ensures { OnOk result (weights.new.items
        ≡ weights.old.items ++ spec.weights_in number owners.now multipliers.now) }
{
    for k in 0..multipliers.len() {
        push_weight(weights, number, owners, multipliers, k)?;
    }
    Ok(())
}

fn push_weight(
    weights: &mut Vec<u128>,
    number: u32,
    owners: &[Owner],
    multipliers: &Numbers,
    k: usize,
) -> Result<(), AllocError>
    requires { k < length multipliers.now }
    ensures { OnOk result (weights.new.items
        ≡ weights.old.items ++ spec.weight_at number owners.now multipliers.now k) }
{
    match owners.get(k) {
        Some(owner) if is_owner(number, *owner) => push_some(weights, multipliers.entry(k)),
        _ => Ok(()),
    }
}

fn push_some(weights: &mut Vec<u128>, multiplier: i128) -> Result<(), AllocError>
    ensures { OnOk result (weights.new.items ≡ weights.old.items ++ spec.some_weight multiplier) }
{
    let weight = multiplier.unsigned_abs();
    if weight != 0 {
        weights.push(weight)?;
    }
    Ok(())
}

fn is_owner(number: u32, owner: Owner) -> bool
    ensures { result ≡ spec.is_owner number owner }
{
    owner.0 == number || owner.1 == number
}
