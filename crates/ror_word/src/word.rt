//! The arithmetic of words, whatever their width.

ghost use Rattle.std.specs.Prelude.{◌≡◌, ◌≢◌, ◌↔◌, ℕ, ◌<◌, ◌≤◌, ◌^◌, IsTrue, ℤ, pos, ◌+ℤ◌, ◌-ℤ◌, ◌*ℤ◌, neg_ℤ, ◌≤ℤ◌, ◌<ℤ◌, unsigned_abs, int_div, Some};
ghost use Rattle.std.specs.Ordering.{int_cmp};
ghost use Prim.Native.Nat.{◌∣◌};
ghost use Rattle.ror_integers.specs.Gcd.{int_gcd};
ghost use Rattle.ror_word.specs.Within.{IsWithin, GivesExact};

/// A signed whole number of some width, whose values are the numbers from `-MOST` to `MOST`.
///
/// The least number of the type is no value. Each call asks that its arguments are values and gives
/// values; it never wraps, and none takes memory. A call whose exact result may pass `MOST` answers
/// `None` exactly where it does.
pub trait Word: Copy + Ord {
    /// The greatest value.
    const MOST: Self;

    /// The value 0.
    const ZERO: Self;

    /// The value 1.
    const ONE: Self;

    /// The integer that a word stands for.
    ghost value: { Self → ℤ };

    /// The word that stands for an integer.
    ghost from_value: { ℤ → Self };

    ghost gives_back: { (x : Self) → from_value (value x) ≡ x };

    /// The greatest value, as a number.
    ghost most: { ℕ };

    ghost MOST: { Self };

    ghost ZERO: { Self };

    ghost ONE: { Self };

    /// Whether this is a value, which only the least number of the type isn't.
    fn is_value(self) -> bool
        ensures { IsTrue result ↔ IsWithin most (value self) };

    /// The product, or `None` where it passes `MOST`.
    fn mul(self, other: Self) -> Option<Self>
        requires self_value { IsWithin most (value self) }
        requires other_value { IsWithin most (value other) }
        ensures { GivesExact value most result (value self *ℤ value other) };

    /// The sum, or `None` where it passes `MOST`.
    fn add(self, other: Self) -> Option<Self>
        requires self_value { IsWithin most (value self) }
        requires other_value { IsWithin most (value other) }
        ensures { GivesExact value most result (value self +ℤ value other) };

    /// The difference, or `None` where it passes `MOST`.
    fn sub(self, other: Self) -> Option<Self>
        requires self_value { IsWithin most (value self) }
        requires other_value { IsWithin most (value other) }
        ensures { GivesExact value most result (value self -ℤ value other) };

    /// The negative.
    fn neg(self) -> Self
        requires { IsWithin most (value self) }
        ensures exact { value result ≡ neg_ℤ (value self) }
        ensures within { IsWithin most (value result) };

    /// The greatest common divisor, which is not negative; that of 0 and 0 is 0.
    fn gcd(self, other: Self) -> Self
        requires self_value { IsWithin most (value self) }
        requires other_value { IsWithin most (value other) }
        ensures greatest { value result ≡ pos (int_gcd (value self) (value other)) }
        ensures within { IsWithin most (value result) };

    /// The quotient by a divisor of this number, which is not 0.
    fn div_exact(self, by: Self) -> Self
        requires self_value { IsWithin most (value self) }
        requires by_value { IsWithin most (value by) }
        requires nonzero { value by ≢ pos 0 }
        requires divides { unsigned_abs (value by) ∣ unsigned_abs (value self) }
        ensures exact { value result *ℤ value by ≡ value self }
        ensures quotient { value result ≡ int_div (value self) (value by) }
        ensures within { IsWithin most (value result) };

    /// The quotient by a number above 0, rounded down, and the remainder, which is from 0 to below that number.
    fn quot_rem(self, by: Self) -> (Self, Self)
        requires self_value { IsWithin most (value self) }
        requires by_value { IsWithin most (value by) }
        requires positive { pos 0 <ℤ value by }
        ensures exact { value self ≡ value result.0 *ℤ value by +ℤ value result.1 }
        ensures not_negative { pos 0 ≤ℤ value result.1 }
        ensures below { value result.1 <ℤ value by }
        ensures quotient_within { IsWithin most (value result.0) }
        ensures remainder_within { IsWithin most (value result.1) };

    /// The word whose value is this number, or `None` where it passes `MOST`.
    fn from_i128(number: i128) -> Option<Self>
        ensures { GivesExact value most result number };

    /// The value.
    fn to_i128(self) -> i128
        requires { IsWithin most (value self) }
        ensures { result ≡ value self };

    ghost above_zero: { 0 < most };

    ghost in_128_bits: { most < 2 ^ 127 };

    ghost value_of_most: { value MOST ≡ pos most };

    ghost value_of_zero: { value ZERO ≡ pos 0 };

    ghost value_of_one: { value ONE ≡ pos 1 };

    /// Each integer from `-MOST` to `MOST` is a word's value.
    ghost has_value: { (z : ℤ) → IsWithin most z → value (from_value z) ≡ z };

    /// A word is one by its value alone.
    ghost one_word: { (a b : Self) → value a ≡ value b → a ≡ b };

    /// Words are ordered as their values are.
    ghost order: { (a b : Self) → Self.cmp a b ≡ int_cmp (value a) (value b) };

    ghost partial_order: { (a b : Self)
        → Self.partial_cmp a b ≡ Some (int_cmp (value a) (value b)) };

    ghost same: { (a b : Self) → IsTrue (Self.eq a b) ↔ (value a ≡ value b) };
}
