//! What a certificate is accepted by.

ghost use Rattle.std.specs.Prelude.{◌≡◌, ◌+◌, ◌<◌, ◌≤◌, ◌^◌, ◌++◌, ◌<ℤ◌, pos, length, unsigned_abs, IsTrue, IsOk, ◌↔◌, IfErr, IfOk, OnOk, MatchOption, MatchResult};
ghost use Rattle.ror_integers.specs.Vectors.{dot, absolute_dot, total, column, NoneNegative, SomePositive};
ghost use Rattle.ror_text.specs.FirstFault.{IsFirst};
ghost use Rattle.ror_system.specs.System.{IsSolvable, sum_limit, IsNarrow};
ghost use Rattle.ror_system.specs.Acceptance.{rows_of, IsAcceptedSolution, AreAcceptedMultipliers, FailsSolution, FailsMultipliers, IsEarlierTest};
ghost use Rattle.ror_system.specs.Steps.{PassesBoth, IsFirstOfTwo};
ghost use Rattle.ror_system.specs.Signs.{IsFirstNegative};

use crate::numbers::Numbers;
use crate::reject::Reject;
use crate::steps::{first_negative_of, is_some_positive, positive_total};
use crate::sum::{Sum, row_at_steps};
use crate::system::System;
use std::alloc::{AllocError, Global};

/// A whole number for each column.
#[derive(Debug, Drop)]
pub struct Solution {
    pub steps: Numbers,
}

/// A whole number for each row, weak rows first.
#[derive(Debug, Drop)]
pub struct Multipliers {
    pub weak: Numbers,
    pub strict: Numbers,
}

impl Solution {
    /// The same solution again.
    pub fn copied(&self, alloc: Global) -> Result<Solution, AllocError>
        ensures { IfOk result (λ copy. copy ≡ self.now) }
    {
        Ok(Solution {
            steps: self.steps.copied(alloc)?,
        })
    }
}

impl Multipliers {
    /// The same multipliers again.
    pub fn copied(&self, alloc: Global) -> Result<Multipliers, AllocError>
        ensures { IfOk result (λ copy. copy ≡ self.now) }
    {
        Ok(Multipliers {
            weak: self.weak.copied(alloc)?,
            strict: self.strict.copied(alloc)?,
        })
    }
}

/// Whether the system holds at these steps, with sums that stay within 2^127 - 1. It takes no memory.
///
/// # Errors
///
/// The first test that fails: `Length`, `Negative` at the first number below 0, `Total`, and row by row `RowWide`
/// before `Row`.
pub fn accept_solution(s: &System, x: &Solution) -> Result<(), Reject>
    ensures accepted { IsOk result ↔ IsAcceptedSolution s.now x.now.steps }
    ensures rejected { IfErr result (IsFirst (FailsSolution s.now x.now.steps) IsEarlierTest) }
    ensures solvable { OnOk result (IsSolvable s.now) }
{
    check_steps(s, &x.steps)
}

/// Whether these multipliers show that the system is not solvable, with sums that stay within 2^127 - 1. It takes no
/// memory.
///
/// # Errors
///
/// The first test that fails: `Length`, `Negative` at the first number below 0, `NoStrict`, and column by column
/// `ColumnWide` before `Column`.
pub fn accept_multipliers(s: &System, m: &Multipliers) -> Result<(), Reject>
    ensures accepted { IsOk result ↔ AreAcceptedMultipliers s.now m.now.weak m.now.strict }
    ensures rejected { IfErr result
        (IsFirst (FailsMultipliers s.now m.now.weak m.now.strict) IsEarlierTest) }
    ensures not_solvable { OnOk result (IsSolvable s.now → ⊥) }
{
    check_weights(s, &m.weak, &m.strict)
}

/// All tests of a solution.
fn check_steps(s: &System, steps: &Numbers) -> Result<(), Reject>
    ensures { MatchResult result (λ _. IsAcceptedSolution s.now steps.now)
        (IsFirst (FailsSolution s.now steps.now) IsEarlierTest) }
{
    if steps.len() != s.columns() {
        return Err(Reject::Length);
    }
    if let Some(place) = first_negative_of(steps) {
        return Err(Reject::Negative(place));
    }
    if positive_total(steps).is_none() {
        return Err(Reject::Total);
    }
    for place in 0..s.number_of_rows() {
        check_row(s, steps, place)?;
    }
    Ok(())
}

/// All tests of multipliers.
fn check_weights(s: &System, weak: &Numbers, strict: &Numbers) -> Result<(), Reject>
    ensures { MatchResult result (λ _. AreAcceptedMultipliers s.now weak.now strict.now)
        (IsFirst (FailsMultipliers s.now weak.now strict.now) IsEarlierTest) }
{
    if weak.len() != s.weak().len() || strict.len() != s.strict().len() {
        return Err(Reject::Length);
    }
    if let Some(place) = first_negative_of_both(weak, strict) {
        return Err(Reject::Negative(place));
    }
    if !is_some_positive(strict) {
        return Err(Reject::NoStrict);
    }
    for j in 0..s.columns() {
        check_column(s, weak, strict, j)?;
    }
    Ok(())
}

/// The place of the first number below 0 in two lists, one after the other, if there is one.
fn first_negative_of_both(first: &Numbers, second: &Numbers) -> Option<usize>
    requires { length first.now + length second.now < 2 ^ 64 }
    ensures { MatchOption result (NoneNegative (first.now ++ second.now))
        (IsFirstNegative (first.now ++ second.now)) }
{
    if let Some(place) = first_negative_of(first) {
        return Some(place);
    }
    let place = first_negative_of(second)?;
    Some(first.len() + place)
}

/// The two tests of the row at a place.
fn check_row(s: &System, steps: &Numbers, place: usize) -> Result<(), Reject>
    requires width { length steps.now ≡ s.now.columns }
    requires within { place < length (rows_of s.now) }
    ensures { MatchResult result
        (λ _. PassesBoth (FailsSolution s.now steps.now) (Reject.RowWide place) (Reject.Row place))
        (IsFirstOfTwo (FailsSolution s.now steps.now) (Reject.RowWide place) (Reject.Row place)) }
{
    let sum = row_at_steps(s.row(place), steps).ok_or(Reject::RowWide(place))?;
    let holds = if place < s.weak().len() {
        sum >= 0
    } else {
        sum > 0
    };
    if holds {
        Ok(())
    } else {
        Err(Reject::Row(place))
    }
}

/// The two tests of a column.
fn check_column(s: &System, weak: &Numbers, strict: &Numbers, j: usize) -> Result<(), Reject>
    requires weak_lengths { length weak.now ≡ length s.now.weak }
    requires strict_lengths { length strict.now ≡ length s.now.strict }
    requires within { j < s.now.columns }
    ensures { MatchResult result
        (λ _. PassesBoth (FailsMultipliers s.now weak.now strict.now) (Reject.ColumnWide j)
        (Reject.Column j))
        (IsFirstOfTwo (FailsMultipliers s.now weak.now strict.now) (Reject.ColumnWide j)
        (Reject.Column j)) }
{
    let sum = column_sum(s, weak, strict, j).ok_or(Reject::ColumnWide(j))?;
    if sum > 0 {
        Err(Reject::Column(j))
    } else {
        Ok(())
    }
}

/// The sum of a column, each entry times its row's multiplier, of which there is one for each row, unless the absolute values of
/// its terms sum past 2^127 - 1.
pub fn column_sum(s: &System, weak: &Numbers, strict: &Numbers, j: usize) -> Option<i128>
    requires weak_lengths { length weak.now ≡ length s.now.weak }
    requires strict_lengths { length strict.now ≡ length s.now.strict }
    requires within { j < s.now.columns }
    ensures { MatchOption result (sum_limit ≤ absolute_dot (weak.now ++ strict.now)
        (column (rows_of s.now) j))
        (λ sum. (sum ≡ dot (weak.now ++ strict.now) (column (rows_of s.now) j))
        × (absolute_dot (weak.now ++ strict.now) (column (rows_of s.now) j) < sum_limit)) }
{
    let sum = Sum::zero().plus_column(s.weak(), weak, j)?;
    let sum = sum.plus_column(s.strict(), strict, j)?;
    Some(sum.value)
}
