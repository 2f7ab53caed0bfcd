//! Products that may be too wide, and sums of absolute terms.

ghost use Rattle.std.specs.Prelude.{◌≡◌, ◌<◌, ◌≤◌, length, pos, ◌*ℤ◌, ◌+ℤ◌, unsigned_abs, map, ◌≤ℤ◌};
ghost use Rattle.std.specs.List.{AllByRecursion};
ghost use Rattle.ror_integers.specs.Vectors.{absolute_dot, column, total, NoneNegative};
ghost use Rattle.ror_word.specs.Within.{IsWithin, GivesExact};

use ror_system::Row;
use ror_word::Word;
use ror_word::signs::{is_negative, is_zero};
use std::marker::Model;

/// The exact product of two words, which may pass `MOST`.
#[derive(Debug, Drop)]
pub(crate) struct Product<W: Word> {
    left: W,
    right: W,
}

impl<W: Word> Model for Product<W> {
    ghost use Rattle.std.specs.Prelude.{ℤ, ◌*ℤ◌};
    ghost use Rattle.ror_word.specs.Within.{IsWithin};

    ghost Value = { ℤ };

    ghost view = { λ x. W.value x.left *ℤ W.value x.right };

    ghost invariant = { λ x. IsWithin W.most (W.value x.left) × IsWithin W.most (W.value x.right) };
}

impl<W: Word> Product<W> {
    /// The product of two words.
    pub(crate) fn of(left: W, right: W) -> Product<W>
        requires left_value { IsWithin W.most (W.value left) }
        requires right_value { IsWithin W.most (W.value right) }
        ensures { result ≡ W.value left *ℤ W.value right }
    {
        Product { left, right }
    }

    /// The number itself, which does not pass `MOST`.
    pub(crate) fn number(&self) -> i128
        requires { IsWithin W.most self.now }
        ensures { result ≡ self.now }
    {
        self.left.to_i128() * self.right.to_i128()
    }

    /// The absolute value of the product with a number, or `None` where it passes `MOST`.
    fn absolute_times(&self, number: i128) -> Option<W>
        ensures { GivesExact W.value W.most result (pos (unsigned_abs (number *ℤ self.now))) }
    {
        if number == 0 {
            return Some(W::ZERO);
        }
        absolute_product(self.left.mul(self.right)?, number)
    }
}

/// The absolute value of a word's product with a number, or `None` where it passes `MOST`.
pub(crate) fn absolute_product<W: Word>(word: W, number: i128) -> Option<W>
    requires { IsWithin W.most (W.value word) }
    ensures { GivesExact W.value W.most result (pos (unsigned_abs (number *ℤ W.value word))) }
{
    if number == 0 || is_zero(word) {
        return Some(W::ZERO);
    }
    let product = W::from_i128(number)?.mul(word)?;
    Some(absolute(product))
}

/// The absolute value.
fn absolute<W: Word>(word: W) -> W
    requires { IsWithin W.most (W.value word) }
    ensures exact { W.value result ≡ pos (unsigned_abs (W.value word)) }
    ensures within { IsWithin W.most (W.value result) }
{
    if is_negative(word) { word.neg() } else { word }
}

/// The sum of the absolute terms of a row over these values, or `None` where it passes `MOST`.
pub(crate) fn absolute_row_sum<W: Word>(row: &Row, values: &[Product<W>]) -> Option<W>
    requires { length values.now ≡ length row.now }
    ensures { GivesExact W.value W.most result (pos (absolute_dot row.now values.now)) }
{
    let mut sum = W::ZERO;
    for j in 0..row.len() {
        sum = sum.add(values[j].absolute_times(row.entry(j))?)?;
    }
    Some(sum)
}

/// The sum with the absolute terms of a column of these rows over their multipliers, or `None` where it passes `MOST`.
pub(crate) fn plus_column<W: Word>(start: W, multipliers: &[W], rows: &[Row], j: usize) -> Option<W>
    requires start_value { IsWithin W.most (W.value start) }
    requires not_negative { pos 0 ≤ℤ W.value start }
    requires lengths { length multipliers.now ≡ length rows.now }
    requires values { AllByRecursion (λ word. IsWithin W.most (W.value word)) multipliers.now }
    requires widths { AllByRecursion (λ row. j < length row) rows.now }
    ensures { GivesExact W.value W.most result
        (W.value start +ℤ pos (absolute_dot (map W.value multipliers.now) (column rows.now j))) }
{
    let mut sum = start;
    for i in 0..rows.len() {
        sum = sum.add(absolute_product(multipliers[i], rows[i].entry(j))?)?;
    }
    Some(sum)
}

/// The sum of words, none of them below 0, or `None` where it passes `MOST`.
pub(crate) fn sum_of<W: Word>(words: &[W]) -> Option<W>
    requires values { AllByRecursion (λ word. IsWithin W.most (W.value word)) words.now }
    requires not_negative { NoneNegative (map W.value words.now) }
    ensures { GivesExact W.value W.most result (total (map W.value words.now)) }
{
    let mut sum = W::ZERO;
    for i in 0..words.len() {
        sum = sum.add(words[i])?;
    }
    Some(sum)
}
