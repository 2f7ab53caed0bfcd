//! Value functions of a table: their steps, their values, and what they meet.

ghost use Rattle.std.specs.Prelude.{◌≡◌, ◌≢◌, ◌<◌, ◌≤◌, ◌≤ℤ◌, ◌<ℤ◌, pos, true, false, length, IfOk, IfErr, MatchOption};
ghost use Rattle.ror_integers.specs.Vectors.{NoneNegative};
ghost use Rattle.ror_text.specs.FirstFault.{IsRefusedBy};
ghost use Rattle.ror_table.specs.Table.{steps, columns, is_linear};
ghost use Rattle.ror_system.specs.System.{IsNarrow};
ghost use Rattle.ror_value.specs.Value.{IsFunctionOf, marginal, value, ideal_value};
ghost use Rattle.ror_value.specs.ValueFaults.{IsAcceptedFunction, FailsValue, IsEarlierFault};
ghost use Rattle.ror_value.specs.declared.value_function.ValueFault.TheVariants.{Memory};

use ror_system::steps::first_negative;
use ror_table::Table;
use ror_text::Items;
use std::alloc::{AllocError, Global};
use std::marker::Model;
use thiserror::Error;

/// A value function of a table: for each column the gain of its step, or what a linear criterion gains for each unit of
/// weight, none below 0 and not all 0. It stands for the function whose values are divided by the total, which is the value of
/// the best levels; so they lie between 0 and 1 and compare as these do.
///
/// What asks for the table asks for the one that the function was made for.
#[derive(Debug, Drop)]
pub struct ValueFunction {
    steps: Items<i128>,
    sum: i128,
}

impl Model for ValueFunction {
    ghost use Rattle.ror_system.specs.System.{IsNarrow};
    ghost use Rattle.ror_value.specs.Value.{Normalised};

    ghost Value = { Normalised };

    ghost view = { λ f. record { steps = f.steps; total = f.sum } };

    ghost invariant = { λ f. IsNarrow f.sum };
}

/// Why numbers are not taken as the steps of a value function: the first test that fails, in this order.
#[derive(Clone, Copy, Debug, PartialEq, Eq, Error)]
pub enum ValueFault {
    /// Not one number for each column.
    #[error("not one number for each column")]
    Length,
    /// The first number below 0, by its place from 0.
    #[error("the number at {0} is below 0")]
    Negative(usize),
    /// The value of the best levels is 0, or past 2^127 - 1.
    #[error("the total is 0 or too large")]
    Total,
    #[error("out of memory")]
    Memory,
}

impl From<AllocError> for ValueFault {
    ghost from_gives = { λ _ e. e ≡ Memory };

    fn from(_error: AllocError) -> ValueFault {
        ValueFault::Memory
    }
}

impl ValueFunction {
    /// The value function of the table with these steps.
    ///
    /// # Errors
    ///
    /// The first test that fails: `Length`, `Negative` at the first number below 0, `Total`. Beside these only want of
    /// memory.
    pub fn new(alloc: Global, table: &Table, steps: &[i128]) -> Result<ValueFunction, ValueFault>
        ensures steps { IfOk result (λ f. f.steps ≡ steps.now) }
        ensures accepted { IfOk result (λ f. IsAcceptedFunction table.now f.steps) }
        ensures function { IfOk result (IsFunctionOf table.now) }
        // No value function whose total fits is refused, and a refusal names the first test that fails.
        ensures not_accepted { IfErr result (λ e. e ≢ Memory
            → IsAcceptedFunction table.now steps.now → ⊥) }
        ensures refused { IfErr result (IsRefusedBy (FailsValue table.now steps.now)
            IsEarlierFault ValueFault.Memory) }
    {
        if steps.len() != table.columns() {
            return Err(ValueFault::Length);
        }
        if let Some(place) = first_negative(steps) {
            return Err(ValueFault::Negative(place));
        }
        let sum = ideal_value(table, steps).ok_or(ValueFault::Total)?;
        let steps = Vec::from_slice(alloc, steps)?;
        Ok(ValueFunction {
            steps: Items::from(steps),
            sum,
        })
    }

    /// The value of the best levels, which each value is to be divided by.
    pub fn total(&self) -> i128
        ensures number { result ≡ self.now.total }
        ensures narrow { IsNarrow self.now.total }
    {
        self.sum
    }

    /// The marginal value on a criterion at the level that lies so many steps above the worst one: the sum of these
    /// steps, or the weight of the level times the number of a linear criterion.
    pub fn marginal(&self, table: &Table, i: usize, k: usize) -> i128
        requires function { IsFunctionOf table.now self.now }
        requires criterion { i < length table.now.criteria }
        requires within { k ≤ steps table.now i }
        ensures number { result ≡ marginal table.now self.now.steps i k }
        ensures bounds { (pos 0 ≤ℤ result) × (result ≤ℤ self.now.total) }
        ensures narrow { IsNarrow self.now.total }
    {
        // The total is a number of 128 bits.
        let _total = self.total();
        if table.linear(i) {
            self.linear_marginal(table, i, k)
        } else {
            self.sum_of_steps(table, i, k)
        }
    }

    /// The marginal value on a linear criterion.
    fn linear_marginal(&self, table: &Table, i: usize, k: usize) -> i128
        requires function { IsFunctionOf table.now self.now }
        requires criterion { i < length table.now.criteria }
        requires linear { is_linear table.now i ≡ true }
        requires within { k ≤ steps table.now i }
        ensures number { result ≡ marginal table.now self.now.steps i k }
        ensures bounds { (pos 0 ≤ℤ result) × (result ≤ℤ self.now.total) }
    {
        if table.width(i) == 0 {
            return 0;
        }
        i128::from(table.weight(i, k)) * self.steps.as_slice()[table.column(i, 1)]
    }

    /// The marginal value on a stepwise criterion.
    fn sum_of_steps(&self, table: &Table, i: usize, k: usize) -> i128
        requires function { IsFunctionOf table.now self.now }
        requires criterion { i < length table.now.criteria }
        requires stepwise { is_linear table.now i ≡ false }
        requires within { k ≤ steps table.now i }
        ensures number { result ≡ marginal table.now self.now.steps i k }
        ensures bounds { (pos 0 ≤ℤ result) × (result ≤ℤ self.now.total) }
    {
        let steps = self.steps.as_slice();
        let mut sum: i128 = 0;
        for step in 0..k {
            sum += steps[table.column(i, step + 1)];
        }
        sum
    }

    /// The value of an alternative: the sum of its marginal values.
    pub fn value(&self, table: &Table, a: usize) -> i128
        requires function { IsFunctionOf table.now self.now }
        requires alternative { a < length table.now.alternatives }
        ensures number { result ≡ value table.now self.now.steps a }
        ensures bounds { (pos 0 ≤ℤ result) × (result ≤ℤ self.now.total) }
    {
        let mut sum: i128 = 0;
        for i in 0..table.criteria() {
            sum += self.marginal(table, i, table.rank(a, i));
        }
        sum
    }
}

/// The value of the best levels, where it is at least 1 and at most 2^127 - 1.
fn ideal_value(table: &Table, steps: &[i128]) -> Option<i128>
    requires columns { length steps.now ≡ columns table.now }
    requires none_negative { NoneNegative steps.now }
    ensures { MatchOption result
        (((pos 0 <ℤ ideal_value table.now steps.now) × IsNarrow (ideal_value table.now steps.now)) → ⊥)
        (λ sum. (sum ≡ ideal_value table.now steps.now) × (pos 0 <ℤ sum) × IsNarrow sum) }
{
    let mut sum: i128 = 0;
    for column in 0..table.columns() {
        let product = i128::from(table.top(column)).checked_mul(steps[column])?;
        sum = sum.checked_add(product)?;
    }
    if sum > 0 { Some(sum) } else { None }
}
