//! Words of 32 bits.

ghost use Rattle.std.specs.Prelude.{pos, ◌-◌, ◌^◌, refl};
ghost use Rattle.std.proofs.Common.{rules};

use crate::divisors::gcd_64;
use crate::word::Word;

impl Word for i32 {
    const MOST: i32 = i32::MAX;

    const ZERO: i32 = 0;

    const ONE: i32 = 1;

    ghost value = { λ x. x };

    ghost from_value = { λ z. z };

    ghost gives_back = { λ _. refl };

    ghost most = { 2 ^ 31 - 1 };

    ghost MOST = { pos (2 ^ 31 - 1) };

    ghost ZERO = { pos 0 };

    ghost ONE = { pos 1 };

    fn is_value(self) -> bool {
        self != i32::MIN
    }

    fn mul(self, other: i32) -> Option<i32> {
        match self.checked_mul(other) {
            Some(product) if product.is_value() => Some(product),
            _ => None,
        }
    }

    fn add(self, other: i32) -> Option<i32> {
        match self.checked_add(other) {
            Some(sum) if sum.is_value() => Some(sum),
            _ => None,
        }
    }

    fn sub(self, other: i32) -> Option<i32> {
        match self.checked_sub(other) {
            Some(difference) if difference.is_value() => Some(difference),
            _ => None,
        }
    }

    fn neg(self) -> i32 {
        -self
    }

    fn gcd(self, other: i32) -> i32 {
        gcd_64(
            u64::from(self.unsigned_abs()),
            u64::from(other.unsigned_abs()),
        ) as i32
    }

    fn div_exact(self, by: i32) -> i32 {
        self / by
    }

    fn quot_rem(self, by: i32) -> (i32, i32) {
        let quotient = self / by;
        let rest = self % by;
        if rest < 0 {
            (quotient - 1, rest + by)
        } else {
            (quotient, rest)
        }
    }

    fn from_i128(number: i128) -> Option<i32> {
        match i32::try_from(number) {
            Ok(word) if word.is_value() => Some(word),
            _ => None,
        }
    }

    fn to_i128(self) -> i128 {
        i128::from(self)
    }

    ghost above_zero = { Prim.search rules };

    ghost in_128_bits = { Prim.search rules };

    ghost value_of_most = { refl };

    ghost value_of_zero = { refl };

    ghost value_of_one = { refl };

    ghost has_value = { λ _ _. refl };

    ghost one_word = { λ _ _ same. same };

    ghost order = { λ _ _. refl };

    ghost partial_order = { λ _ _. refl };

    ghost same = { Prim.search rules };
}
