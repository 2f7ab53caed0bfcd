//! Words of 128 bits.

ghost use Rattle.std.specs.Prelude.{pos, ◌-◌, ◌^◌, refl};
ghost use Rattle.std.proofs.Common.{rules};

use crate::divisors::gcd_128;
use crate::word::Word;

impl Word for i128 {
    const MOST: i128 = i128::MAX;

    const ZERO: i128 = 0;

    const ONE: i128 = 1;

    ghost value = { λ x. x };

    ghost from_value = { λ z. z };

    ghost gives_back = { λ _. refl };

    ghost most = { 2 ^ 127 - 1 };

    ghost MOST = { pos (2 ^ 127 - 1) };

    ghost ZERO = { pos 0 };

    ghost ONE = { pos 1 };

    fn is_value(self) -> bool {
        self != i128::MIN
    }

    fn mul(self, other: i128) -> Option<i128> {
        match self.checked_mul(other) {
            Some(product) if product.is_value() => Some(product),
            _ => None,
        }
    }

    fn add(self, other: i128) -> Option<i128> {
        match self.checked_add(other) {
            Some(sum) if sum.is_value() => Some(sum),
            _ => None,
        }
    }

    fn sub(self, other: i128) -> Option<i128> {
        match self.checked_sub(other) {
            Some(difference) if difference.is_value() => Some(difference),
            _ => None,
        }
    }

    fn neg(self) -> i128 {
        -self
    }

    fn gcd(self, other: i128) -> i128 {
        gcd_128(self.unsigned_abs(), other.unsigned_abs()) as i128
    }

    fn div_exact(self, by: i128) -> i128 {
        self / by
    }

    fn quot_rem(self, by: i128) -> (i128, i128) {
        let quotient = self / by;
        let rest = self % by;
        if rest < 0 {
            (quotient - 1, rest + by)
        } else {
            (quotient, rest)
        }
    }

    fn from_i128(number: i128) -> Option<i128> {
        if number.is_value() {
            Some(number)
        } else {
            None
        }
    }

    fn to_i128(self) -> i128 {
        self
    }

    ghost above_zero = { Prim.search rules };

    ghost in_128_bits = { Prim.search rules };

    ghost value_of_most = { refl };

    ghost value_of_zero = { refl };

    ghost value_of_one = { refl };

    ghost has_value = { λ _ _. refl };

    ghost one_word = { λ _ _ same. same };

    ghost order = { λ _ _. refl };

    ghost partial_order = { λ _ _. refl };

    ghost same = { Prim.search rules };
}
