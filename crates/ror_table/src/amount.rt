//! Amounts: the fractions that performances are.

ghost use Rattle.std.specs.Prelude.{◌≡◌, ◌<◌, unsigned_abs, IfSome};
ghost use Rattle.ror_integers.specs.FractionOrder.{fraction_cmp};
ghost use Rattle.ror_integers.specs.Gcd.{gcd};
ghost use Rattle.ror_table.specs.declared.limits.TheConstants.{AMOUNT_LIMIT};
ghost use Rattle.ror_table.specs.Amounts as spec;

use crate::limits::AMOUNT_LIMIT;
use std::cmp::Ordering;

/// A fraction in lowest terms, over a denominator above 0; both numbers are of absolute value below 10^18.
///
/// A draft asks for amounts such as [`Amount::new`] gives.
#[derive(Clone, Copy, Debug, PartialEq, Eq)]
pub struct Amount {
    pub num: i64,
    pub den: i64,
}

impl Amount {
    /// `num / den` in lowest terms; None exactly where `den` is not above 0 or a number is of absolute value 10^18 or
    /// more.
    #[tactic(auto, unfolding(crate::specs::Amounts::amount_of))]
    pub fn new(num: i64, den: i64) -> Option<Amount>
        ensures value { result ≡ spec.amount_of num den }
        ensures amount { IfSome result spec.IsAmount }
    {
        if den <= 0 || den.unsigned_abs() >= AMOUNT_LIMIT || num.unsigned_abs() >= AMOUNT_LIMIT {
            return None;
        }
        let common = greatest_divisor(num.unsigned_abs(), den.unsigned_abs()) as i64;
        Some(Amount {
            num: num / common,
            den: den / common,
        })
    }

    /// How the amounts compare, by their cross products.
    pub fn compare(&self, o: &Amount) -> Ordering
        ensures { result ≡ fraction_cmp self.now.num self.now.den o.now.num o.now.den }
    {
        if self.den == 1 && o.den == 1 {
            return self.num.cmp(&o.num);
        }
        let first = i128::from(self.num) * i128::from(o.den);
        let second = i128::from(o.num) * i128::from(self.den);
        first.cmp(&second)
    }

    /// A whole number of absolute value below 10^18.
    pub fn whole(num: i64) -> Amount
        requires { unsigned_abs num < AMOUNT_LIMIT }
        ensures value { result ≡ spec.whole num }
        ensures amount { spec.IsAmount result }
    {
        Amount { num, den: 1 }
    }

    pub(crate) fn is_same(&self, o: &Amount) -> bool
        ensures { result ≡ spec.is_same self.now o.now }
    {
        self.num == o.num && self.den == o.den
    }

    pub(crate) fn is_smaller(&self, o: &Amount) -> bool
        ensures { result ≡ spec.is_smaller self.now o.now }
    {
        matches!(self.compare(o), Ordering::Less)
    }
}

/// The greatest common divisor, by Euclid's algorithm.
pub(crate) fn greatest_divisor(a: u64, b: u64) -> u64
    ensures { result ≡ gcd a b }
{
    let mut last = a;
    let mut rest = b;
    'steps: while rest != 0 {
        let next = last % rest;
        last = rest;
        rest = next;
    }
    last
}
