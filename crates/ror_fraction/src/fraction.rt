//! Fractions in lowest terms, with exact arithmetic that names the first part that is too wide.

ghost use Rattle.std.specs.Prelude.{◌≡◌, ◌≢◌, pos, ◌<ℤ◌, Err, IfOk, MatchResult};
ghost use Rattle.ror_word.specs.Within.{IsWithin};
ghost use Rattle.ror_fraction.specs.Ratios.{IsLowest, lowest, sum_of, sum_numbers, negated, product_of, product_numbers, reciprocal, ratio_cmp};
ghost use Rattle.ror_fraction.specs.Wide.{unless_wide};

use crate::divisors::common_divisor;
use crate::fault::{FractionFault, Part};
use crate::ratio::compare_ratios;
use ror_word::Word;
use ror_word::signs::{is_negative, is_zero};
use std::cmp::Ordering;
use std::marker::Model;

/// A numerator over a denominator above 0, in lowest terms.
#[derive(Debug, Drop)]
pub struct Fraction<W: Word> {
    num: W,
    den: W,
}

impl<W: Word> Model for Fraction<W> {
    ghost use Rattle.std.specs.Prelude.{◌≤◌, unsigned_abs};
    ghost use Rattle.ror_word.specs.Within.{IsWithin};
    ghost use Rattle.ror_fraction.specs.Ratios.{Ratio, IsLowest};

    ghost Value = { Ratio };

    ghost view = { λ f. record { numerator = W.value f.num; denominator = W.value f.den } };

    ghost invariant = { λ f.
        IsLowest (record { numerator = W.value f.num; denominator = W.value f.den })
        × IsWithin W.most (W.value f.num) × IsWithin W.most (W.value f.den) };
}

impl<W: Word> Fraction<W> {
    /// `n / d` in lowest terms.
    ///
    /// # Errors
    ///
    /// `ZeroDenominator` exactly where `d` is 0.
    pub fn new(n: W, d: W) -> Result<Fraction<W>, FractionFault>
        requires n_value { IsWithin W.most (W.value n) }
        requires d_value { IsWithin W.most (W.value d) }
        ensures exact { MatchResult result
            (λ f. (W.value d ≢ pos 0) × (f ≡ lowest (W.value n) (W.value d)))
            (λ e. (W.value d ≡ pos 0) × (e ≡ FractionFault.ZeroDenominator)) }
        ensures lowest { IfOk result IsLowest }
    {
        if is_zero(d) {
            return Err(FractionFault::ZeroDenominator);
        }
        if is_negative(d) {
            Ok(Fraction::reduced(n.neg(), d.neg()))
        } else {
            Ok(Fraction::reduced(n, d))
        }
    }

    /// `n / d` in lowest terms, for a denominator above 0.
    fn reduced(n: W, d: W) -> Fraction<W>
        requires n_value { IsWithin W.most (W.value n) }
        requires d_value { IsWithin W.most (W.value d) }
        requires positive { pos 0 <ℤ W.value d }
        ensures { result ≡ lowest (W.value n) (W.value d) }
    {
        let common = common_divisor(n, d);
        Fraction {
            num: n.div_exact(common),
            den: d.div_exact(common),
        }
    }

    /// The numerator.
    pub fn num(&self) -> W
        ensures value { W.value result ≡ self.now.numerator }
        ensures within { IsWithin W.most (W.value result) }
    {
        self.num
    }

    /// The denominator.
    pub fn den(&self) -> W
        ensures value { W.value result ≡ self.now.denominator }
        ensures lowest { IsLowest self.now }
        ensures within { IsWithin W.most (W.value result) }
    {
        self.den
    }

    /// The sum.
    ///
    /// # Errors
    ///
    /// `Wide` at the first part of `Left`, `Right`, `Sum` and `Denominator` that passes `MOST`.
    pub fn add(&self, o: &Fraction<W>) -> Result<Fraction<W>, FractionFault>
        ensures exact { result ≡ unless_wide FractionFault.Wide W.most (sum_numbers self.now o.now)
            (sum_of self.now o.now) }
        ensures lowest { IfOk result IsLowest }
    {
        let common = common_divisor(self.den, o.den);
        let own = self.den.div_exact(common);
        let other = o.den.div_exact(common);
        let left = self.num.mul(other).ok_or(FractionFault::Wide(Part::Left))?;
        let right = o.num.mul(own).ok_or(FractionFault::Wide(Part::Right))?;
        let sum = left.add(right).ok_or(FractionFault::Wide(Part::Sum))?;
        let shared = common_divisor(sum, common);
        let rest = o.den.div_exact(shared);
        let den = own.mul(rest).ok_or(FractionFault::Wide(Part::Denominator))?;
        Ok(Fraction {
            num: sum.div_exact(shared),
            den,
        })
    }

    /// The difference: the sum with the negative of the other.
    ///
    /// # Errors
    ///
    /// As those of that sum.
    pub fn sub(&self, o: &Fraction<W>) -> Result<Fraction<W>, FractionFault>
        ensures exact { result
            ≡ unless_wide FractionFault.Wide W.most (sum_numbers self.now (negated o.now))
            (sum_of self.now (negated o.now)) }
        ensures lowest { IfOk result IsLowest }
    {
        self.add(&o.negative())
    }

    /// The product.
    ///
    /// # Errors
    ///
    /// `Wide` at the first part of `Numerator` and `Denominator` that passes `MOST`.
    pub fn mul(&self, o: &Fraction<W>) -> Result<Fraction<W>, FractionFault>
        ensures exact { result
            ≡ unless_wide FractionFault.Wide W.most (product_numbers self.now o.now)
            (product_of self.now o.now) }
        ensures lowest { IfOk result IsLowest }
    {
        let across = common_divisor(self.num, o.den);
        let back = common_divisor(o.num, self.den);
        let own_num = self.num.div_exact(across);
        let other_num = o.num.div_exact(back);
        let num = own_num
            .mul(other_num)
            .ok_or(FractionFault::Wide(Part::Numerator))?;
        let own_den = self.den.div_exact(back);
        let other_den = o.den.div_exact(across);
        let den = own_den
            .mul(other_den)
            .ok_or(FractionFault::Wide(Part::Denominator))?;
        Ok(Fraction { num, den })
    }

    /// The quotient: the product with the reciprocal of the other.
    ///
    /// # Errors
    ///
    /// `DivideByZero` exactly where the other is 0, else as those of that product.
    pub fn div(&self, o: &Fraction<W>) -> Result<Fraction<W>, FractionFault>
        ensures by_zero { o.now.numerator ≡ pos 0 → result ≡ Err FractionFault.DivideByZero }
        ensures exact { o.now.numerator ≢ pos 0 →
            result
            ≡ unless_wide FractionFault.Wide W.most (product_numbers self.now (reciprocal o.now))
            (product_of self.now (reciprocal o.now)) }
        ensures lowest { IfOk result IsLowest }
    {
        if is_zero(o.num) {
            return Err(FractionFault::DivideByZero);
        }
        self.mul(&o.inverse())
    }

    /// The negative.
    fn negative(&self) -> Fraction<W>
        ensures { result ≡ negated self.now }
    {
        Fraction {
            num: self.num.neg(),
            den: self.den,
        }
    }

    /// The reciprocal of a fraction that is not 0.
    fn inverse(&self) -> Fraction<W>
        requires { self.now.numerator ≢ pos 0 }
        ensures { result ≡ reciprocal self.now }
    {
        if is_negative(self.num) {
            return Fraction {
                num: self.den.neg(),
                den: self.num.neg(),
            };
        }
        Fraction {
            num: self.den,
            den: self.num,
        }
    }

    /// How it compares with another fraction. It never refuses.
    pub fn compare(&self, o: &Fraction<W>) -> Ordering
        ensures { result ≡ ratio_cmp self.now o.now }
    {
        compare_ratios(self.num, self.den, o.num, o.den)
    }
}
