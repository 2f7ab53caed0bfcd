//! The weights of a linear criterion's levels.

ghost use Rattle.std.specs.Prelude.{◌≡◌, ◌≢◌, ◌<◌, ◌≤◌, ◌^◌, true, length, All, IfOk, IfErr, MatchOption, unsigned_abs};
ghost use Rattle.ror_integers.specs.Gcd.{gcd_of};
ghost use Rattle.ror_integers.specs.LowestTerms as lowest;
ghost use Rattle.ror_text.specs.Reading.{Gives, refuse};
ghost use Rattle.ror_table.specs.declared.fault.DraftFault.TheVariants.{WideScale, Memory};
ghost use Rattle.ror_table.specs.declared.limits.TheConstants.{AMOUNT_LIMIT};
ghost use Rattle.ror_table.specs.Amounts.{IsAmount};
ghost use Rattle.ror_table.specs.Draft.{draft_fault};
ghost use Rattle.ror_table.specs.Index.{AreLevels, AreWeightsOfEach, distances_of, IsWideSomewhere};
ghost use Rattle.ror_table.specs.Levels.{IsLevels};
ghost use Rattle.ror_table.specs.Table.{direction_at, performances_on, has_weights, has_wide_weights, has_wide_scale};
ghost use Rattle.ror_table.specs.Table as spec;

use crate::amount::{Amount, greatest_divisor};
use crate::draft::Draft;
use crate::fault::DraftFault;
use crate::limits::AMOUNT_LIMIT;
use std::alloc::{AllocError, Global};

/// The least common multiple of the denominators, if it is below the limit. It only rises from one amount to the next.
fn common_denominator(performances: &[Amount]) -> Option<u64>
    requires { All IsAmount performances.now }
    ensures { MatchOption result (AMOUNT_LIMIT ≤ spec.common_denominator performances.now)
        (λ d. (d ≡ spec.common_denominator performances.now) × (0 < d) × (d < AMOUNT_LIMIT)) }
{
    let mut common: u64 = 1;
    for performance in performances {
        let den = performance.den.unsigned_abs();
        let next = u128::from(common / greatest_divisor(common, den)) * u128::from(den);
        if next >= u128::from(AMOUNT_LIMIT) {
            return None;
        }
        common = next as u64;
    }
    Some(common)
}

/// An amount times a number that its denominator divides.
fn multiple(common: u64, amount: Amount) -> i128
    requires small { common < AMOUNT_LIMIT }
    requires amount { IsAmount amount }
    ensures value { result ≡ spec.multiple common amount }
    ensures small { unsigned_abs result < 10 ^ 36 }
{
    i128::from(common / amount.den.unsigned_abs()) * i128::from(amount.num)
}

/// How far each level lies from the first one, times the common denominator.
fn distances(alloc: Global, common: u64, levels: &[Amount]) -> Result<Vec<i64>, DraftFault>
    requires some { 0 < length levels.now }
    requires common { common < AMOUNT_LIMIT }
    requires amounts { All IsAmount levels.now }
    ensures exact { IfOk result (λ v. v.items ≡ distances_of common levels.now) }
    ensures small { IfOk result (λ v. All (λ d. unsigned_abs d < AMOUNT_LIMIT) v.items) }
    ensures wide { IfErr result (λ e. e ≢ Memory
        → (e ≡ WideScale) × IsWideSomewhere (distances_of common levels.now)) }
{
    let worst = multiple(common, levels[0]);
    let mut distances = Vec::new(alloc);
    for level in levels {
        let distance = (multiple(common, *level) - worst).unsigned_abs();
        if distance >= u128::from(AMOUNT_LIMIT) {
            return Err(DraftFault::WideScale);
        }
        distances.push(distance as i64)?;
    }
    Ok(distances)
}

/// The greatest common divisor of the numbers.
fn divisor_of(numbers: &[i64]) -> u64
    requires { All (λ d. unsigned_abs d < AMOUNT_LIMIT) numbers.now }
    ensures value { result ≡ gcd_of numbers.now }
    ensures small { result < AMOUNT_LIMIT }
{
    let mut divisor: u64 = 0;
    for number in numbers {
        divisor = greatest_divisor(divisor, number.unsigned_abs());
    }
    divisor
}

/// The numbers with their greatest common divisor divided out.
fn reduced(alloc: Global, numbers: &[i64]) -> Result<Vec<i64>, AllocError>
    requires small { All (λ d. unsigned_abs d < AMOUNT_LIMIT) numbers.now }
    requires some { gcd_of numbers.now ≢ 0 }
    ensures { IfOk result (λ v. v.items ≡ lowest.reduced numbers.now) }
{
    let divisor = divisor_of(numbers) as i64;
    let mut quotients = Vec::new(alloc);
    for number in numbers {
        quotients.push(number / divisor)?;
    }
    Ok(quotients)
}

/// The weights of a criterion's levels, where it is linear and has steps.
fn weights_on(draft: &Draft, i: usize, levels: &[Amount]) -> Result<Vec<i64>, DraftFault>
    requires criterion { i < length draft.now.criteria }
    requires levels { IsLevels (direction_at draft.now i) (performances_on draft.now i) levels.now }
    ensures exact { Gives (λ _. tt) draft_fault result
        (refuse WideScale (has_wide_weights draft.now i)) }
    ensures weights { IfOk result (λ v. has_weights draft.now i ≡ true → v.items ≡ spec.weights draft.now i) }
{
    if !draft.is_linear(i) || levels.len() < 2 {
        return Ok(Vec::new(draft.allocator()));
    }
    let performances = draft.performances_on(i)?;
    let Some(common) = common_denominator(&performances) else {
        return Err(DraftFault::WideScale);
    };
    let distances = distances(draft.allocator(), common, levels)?;
    Ok(reduced(draft.allocator(), &distances)?)
}

/// The weights of each criterion that has some.
pub(crate) fn all_weights(
    draft: &Draft,
    levels: &[Vec<Amount>],
) -> Result<Vec<Vec<i64>>, DraftFault>
    requires { AreLevels draft.now levels.now }
    ensures exact { Gives (λ _. tt) draft_fault result (refuse WideScale (has_wide_scale draft.now)) }
    ensures weights { IfOk result (λ all. AreWeightsOfEach draft.now all.items) }
{
    let mut all = Vec::new(draft.allocator());
    for i in 0..draft.criteria_count() {
        all.push(weights_on(draft, i, &levels[i])?)?;
    }
    Ok(all)
}
