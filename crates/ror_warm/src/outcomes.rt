//! Outcomes of the present system, from what is found or kept of it, and sums of the steps of solutions.

use crate::certificates::{KeptMultipliers, Weight};
use crate::store::{Position, RowStore};
use crate::tableau::Multiplier;
use ror_pivot::Outcome;
use ror_system::{Multipliers, Numbers, Solution};
use std::alloc::{AllocError, Global};

/// The solution whose steps have these sums before each place.
///
/// # Errors
///
/// Only want of memory.
pub(crate) fn solution_outcome(alloc: Global, sums: &[i64]) -> Result<Outcome, AllocError> {
    let mut steps = Numbers::new(alloc);
    let mut before: i64 = 0;
    for sum in sums.iter().skip(1) {
        steps.push(i128::from(sum.wrapping_sub(before)))?;
        before = *sum;
    }
    Ok(Outcome::Feasible(Solution { steps }))
}

/// The sums of these steps before each place, unless one is too wide.
///
/// # Errors
///
/// Only want of memory.
pub(crate) fn sums_of(alloc: Global, steps: &Numbers) -> Result<Option<Vec<i64>>, AllocError> {
    let mut sums = Vec::with_capacity(alloc, steps.len().saturating_add(1))?;
    let mut sum: i64 = 0;
    sums.push(0)?;
    for place in 0..steps.len() {
        let Some(next) = next_sum(sum, steps.entry(place)) else {
            return Ok(None);
        };
        sum = next;
        sums.push(sum)?;
    }
    Ok(Some(sums))
}

/// A sum with one step more, unless it is too wide.
fn next_sum(sum: i64, step: i128) -> Option<i64> {
    sum.checked_add(i64::try_from(step).ok()?)
}

/// Multipliers for the rows of the present system, all 0.
fn no_multipliers(alloc: Global, store: &RowStore) -> Result<(Vec<i128>, Vec<i128>), AllocError> {
    let weak = vec![in alloc; 0; store.weak.len()]?;
    let strict = vec![in alloc; 0; store.strict.len()]?;
    Ok((weak, strict))
}

/// The outcome with the multipliers of these rows, those of other rows being 0.
///
/// # Errors
///
/// Only want of memory.
pub(crate) fn multipliers_outcome(
    alloc: Global,
    store: &RowStore,
    list: &[Multiplier],
) -> Result<Outcome, AllocError> {
    let (mut weak, mut strict) = no_multipliers(alloc, store)?;
    for multiplier in list {
        set_at_place(&mut weak, &store.weak, *multiplier);
        set_at_place(&mut strict, &store.strict, *multiplier);
    }
    infeasible(alloc, weak.as_slice(), strict.as_slice())
}

/// Sets the number at the position at which the place of the row stands, if it does.
fn set_at_place(numbers: &mut Vec<i128>, places: &Vec<usize>, multiplier: Multiplier) {
    for (number, place) in numbers.iter_mut().zip(places.iter()) {
        if *place == multiplier.place {
            *number = multiplier.value;
        }
    }
}

/// The outcome with kept multipliers and their further row.
///
/// # Errors
///
/// Only want of memory.
pub(crate) fn kept_outcome(
    alloc: Global,
    store: &RowStore,
    kept: &KeptMultipliers,
    position: Position,
) -> Result<Outcome, AllocError> {
    let (mut weak, mut strict) = no_multipliers(alloc, store)?;
    set_weights(&mut weak, &kept.weak);
    set_weights(&mut strict, &kept.strict);
    match position {
        Position::Weak(position) => set_at(&mut weak, position, kept.weight),
        Position::Strict(position) => set_at(&mut strict, position, kept.weight),
    }
    infeasible(alloc, weak.as_slice(), strict.as_slice())
}

/// The outcome with these multipliers.
fn infeasible(alloc: Global, weak: &[i128], strict: &[i128]) -> Result<Outcome, AllocError> {
    Ok(Outcome::Infeasible(Multipliers {
        weak: Numbers::of(alloc, weak)?,
        strict: Numbers::of(alloc, strict)?,
    }))
}

/// Sets each weight at its position.
fn set_weights(numbers: &mut Vec<i128>, weights: &Vec<Weight>) {
    for weight in weights.iter() {
        set_at(numbers, weight.position, weight.value);
    }
}

/// Sets the number at a position, if there is one.
fn set_at(numbers: &mut Vec<i128>, position: usize, value: i128) {
    if let Some(number) = numbers.get_mut(position) {
        *number = value;
    }
}
