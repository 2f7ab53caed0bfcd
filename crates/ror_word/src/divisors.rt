//! Greatest common divisors of numbers without sign.
//!
//! One division comes first: it ends the work where one number divides the other, and brings a great and a
//! small number together. From there on differences of odd numbers are faster than divisions.

ghost use Rattle.std.specs.Prelude.{◌≡◌, ◌<◌, ◌%◌};
ghost use Rattle.ror_integers.specs.Gcd.{gcd};
ghost use Rattle.ror_word.specs.OddParts.{IsOddPart};

/// The greatest common divisor.
pub(crate) fn gcd_64(a: u64, b: u64) -> u64
    ensures { result ≡ gcd a b }
{
    let greater = a.max(b);
    let less = a.min(b);
    if less == 0 {
        return greater;
    }
    let rest = greater % less;
    if rest == 0 {
        return less;
    }
    let (odd_less, less_twos) = without_twos_64(less);
    let (odd_rest, rest_twos) = without_twos_64(rest);
    gcd_of_odds_64(odd_less, odd_rest) << less_twos.min(rest_twos)
}

/// The greatest common divisor of two odd numbers.
fn gcd_of_odds_64(a: u64, b: u64) -> u64
    requires odd_a { a % 2 ≡ 1 }
    requires odd_b { b % 2 ≡ 1 }
    ensures { result ≡ gcd a b }
{
    let mut left = a;
    let mut right = b;
    while left != right {
        let less = left.min(right);
        right = without_twos_64(left.max(right) - less).0;
        left = less;
    }
    left
}

/// A number without its factors 2, and how many of them it has.
fn without_twos_64(number: u64) -> (u64, u32)
    requires { 0 < number }
    ensures part { IsOddPart number result.0 result.1 }
    ensures few { result.1 < 64 }
{
    let twos = number.trailing_zeros();
    (number >> twos, twos)
}

/// The greatest common divisor, in 64 bits where both numbers have no more.
pub(crate) fn gcd_128(a: u128, b: u128) -> u128
    ensures { result ≡ gcd a b }
{
    if let (Ok(a), Ok(b)) = (u64::try_from(a), u64::try_from(b)) {
        return u128::from(gcd_64(a, b));
    }
    let greater = a.max(b);
    let less = a.min(b);
    if less == 0 {
        return greater;
    }
    let rest = greater % less;
    if rest == 0 {
        return less;
    }
    let (odd_less, less_twos) = without_twos_128(less);
    let (odd_rest, rest_twos) = without_twos_128(rest);
    gcd_of_odds_128(odd_less, odd_rest) << less_twos.min(rest_twos)
}

/// The greatest common divisor of two odd numbers, in 64 bits as soon as both have no more.
fn gcd_of_odds_128(a: u128, b: u128) -> u128
    requires odd_a { a % 2 ≡ 1 }
    requires odd_b { b % 2 ≡ 1 }
    ensures { result ≡ gcd a b }
{
    let mut left = a;
    let mut right = b;
    while left != right {
        if let (Ok(left), Ok(right)) = (u64::try_from(left), u64::try_from(right)) {
            return u128::from(gcd_of_odds_64(left, right));
        }
        let less = left.min(right);
        right = without_twos_128(left.max(right) - less).0;
        left = less;
    }
    left
}

/// A number without its factors 2, and how many of them it has.
fn without_twos_128(number: u128) -> (u128, u32)
    requires { 0 < number }
    ensures part { IsOddPart number result.0 result.1 }
    ensures few { result.1 < 128 }
{
    let twos = number.trailing_zeros();
    (number >> twos, twos)
}
