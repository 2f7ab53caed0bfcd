//! Sums of products whose absolute values together stay within 2^127 - 1.

ghost use Rattle.std.specs.Prelude.{◌≡◌, ◌+◌, ◌^◌, ◌<◌, ◌≤◌, length, unsigned_abs, ◌+ℤ◌, ◌*ℤ◌, MatchOption, pos};
ghost use Rattle.std.specs.List.{AllByRecursion};
ghost use Rattle.ror_integers.specs.Vectors.{dot, absolute_dot, column};
ghost use Rattle.ror_system.specs.System.{sum_limit};

use crate::numbers::Numbers;
use crate::row::Row;

/// A sum of products, and the sum of their absolute values.
#[derive(Clone, Copy)]
pub(crate) struct Sum {
    pub(crate) value: i128,
    width: u128,
    ghost bounded: { unsigned_abs value ≤ width },
    ghost narrow: { width < sum_limit },
}

impl Sum {
    /// The sum of nothing.
    pub(crate) fn zero() -> Sum
        ensures value { result.value ≡ pos 0 }
        ensures width { result.width ≡ 0 }
    {
        Sum { value: 0, width: 0 }
    }

    /// The sum with one product more, unless the absolute values then sum past 2^127 - 1.
    fn plus(self, a: i128, b: i128) -> Option<Sum>
        ensures { MatchOption result (sum_limit ≤ self.width + unsigned_abs (a *ℤ b))
            (λ sum. (sum.value ≡ self.value +ℤ a *ℤ b)
            × (sum.width ≡ self.width + unsigned_abs (a *ℤ b))) }
    {
        // Most entries of rows are 0, and a product of 128 bits is slow.
        if a == 0 || b == 0 {
            return Some(self);
        }
        let term = a.checked_mul(b)?;
        let width = self.width + term.unsigned_abs();
        if width > i128::MAX as u128 {
            return None;
        }
        Some(Sum {
            value: self.value + term,
            width,
        })
    }

    /// The sum with a column of these rows, each entry times its row's multiplier.
    pub(crate) fn plus_column(self, rows: &[Row], multipliers: &Numbers, j: usize) -> Option<Sum>
        requires lengths { length rows.now ≡ length multipliers.now }
        requires widths { AllByRecursion (λ row. j < length row) rows.now }
        ensures { MatchOption result (sum_limit
            ≤ self.width + absolute_dot multipliers.now (column rows.now j))
            (λ sum. (sum.value ≡ self.value +ℤ dot multipliers.now (column rows.now j))
            × (sum.width ≡ self.width + absolute_dot multipliers.now (column rows.now j))) }
    {
        let (places, values) = multipliers.others();
        let mut sum = self;
        for i in 0..places.len() {
            let row = &rows[places[i] as usize];
            sum = sum.plus(values.entry(i), row.entry(j))?;
        }
        Some(sum)
    }
}

/// What a row comes to at these steps, of which there is one for each entry, unless the absolute values of its terms sum past
/// 2^127 - 1.
pub fn row_at_steps(row: &Row, steps: &Numbers) -> Option<i128>
    requires { length row.now ≡ length steps.now }
    ensures { MatchOption result (sum_limit ≤ absolute_dot row.now steps.now)
        (λ sum. (sum ≡ dot row.now steps.now) × (absolute_dot row.now steps.now < sum_limit)) }
{
    let (places, values) = steps.others();
    let mut sum = Sum::zero();
    for i in 0..places.len() {
        sum = sum.plus(row.entry(places[i] as usize), values.entry(i))?;
    }
    Some(sum.value)
}
