//! How words write amounts.

ghost use Rattle.std.specs.Prelude.{◌≡◌, ◌≤◌, ◌<◌, ◌^◌, ◌++◌, ◌&&◌, length, true, false, Some, None, IfSome, MatchOption, pos, position, ◌==◌};
ghost use Rattle.ror_text.specs.Numbers.{is_digits, digits_up_to, negative};
ghost use Rattle.ror_table.specs.Amounts.{IsAmount};
ghost use Rattle.ror_table.specs.Spellings as spec;

use crate::amount::Amount;
use ror_text::numbers::read_performance;

/// The number of 1 to 18 digits, with no sign before them.
fn unsigned(digits: &[u8]) -> Option<u64>
    ensures value { result ≡ digits_up_to 18 digits.now }
    ensures small { IfSome result (λ n. n < 10 ^ 18) }
{
    if digits.is_empty() || !digits[0].is_ascii_digit() {
        return None;
    }
    Some(read_performance(digits)?.unsigned_abs())
}

/// 10 to the power.
fn power_of_ten(exponent: usize) -> u64
    requires { exponent ≤ 17 }
    ensures { result ≡ 10 ^ exponent }
{
    let mut power: u64 = 1;
    for _ in 0..exponent {
        power *= 10;
    }
    power
}

/// The place of the first byte of this sort.
fn place_of(byte: u8, word: &[u8]) -> Option<usize>
    ensures { result ≡ position (λ b. b == byte) word.now }
{
    word.iter().position(|b| *b == byte)
}

/// The parts of a word before and behind the first byte of this sort.
fn split_at_byte(byte: u8, word: &[u8]) -> Option<(&[u8], &[u8])>
    ensures { MatchOption result (spec.split_at_byte byte word.now ≡ None)
        (λ parts. spec.split_at_byte byte word.now ≡ Some (parts.0.now, parts.1.now)) }
{
    let place = place_of(byte, word)?;
    Some((&word[..place], &word[place + 1..]))
}

/// A whole number: a sign or none, and 1 to 18 digits.
pub fn read_whole(word: &[u8]) -> Option<Amount>
    ensures value { result ≡ spec.whole_amount word.now }
    ensures amount { IfSome result IsAmount }
{
    Some(Amount::whole(read_performance(word)?))
}

/// The number of the digits before and behind a point, 18 in all at most.
fn joined(before: &[u8], behind: &[u8]) -> Option<u64>
    ensures value { MatchOption result
        (is_digits before.now && is_digits behind.now ≡ true → digits_up_to 18 (before.now ++ behind.now) ≡ None)
        (λ n. (is_digits before.now && is_digits behind.now ≡ true) × (digits_up_to 18 (before.now ++ behind.now) ≡ Some n)) }
    ensures small { IfSome result (λ n. (n < 10 ^ 18) × (length behind.now ≤ 17)) }
{
    let first = unsigned(before)?;
    let second = unsigned(behind)?;
    if before.len() + behind.len() > 18 {
        return None;
    }
    Some(first * power_of_ten(behind.len()) + second)
}

/// A decimal without its sign, by its digits before and behind the point.
fn decimal_of(is_negative: bool, before: &[u8], behind: &[u8]) -> Option<Amount>
    ensures plain { is_negative ≡ false → result ≡ spec.decimal_of pos (before.now, behind.now) }
    ensures negative { is_negative ≡ true → result ≡ spec.decimal_of negative (before.now, behind.now) }
    ensures amount { IfSome result IsAmount }
{
    let num = joined(before, behind)? as i64;
    let den = power_of_ten(behind.len()) as i64;
    if is_negative {
        return Amount::new(-num, den);
    }
    Amount::new(num, den)
}

/// A decimal, by what stands before its point, with the sign, and behind it.
fn signed_decimal(before: &[u8], behind: &[u8]) -> Option<Amount>
    ensures value { result ≡ spec.signed_decimal (before.now, behind.now) }
    ensures amount { IfSome result IsAmount }
{
    match before {
        [] => None,
        [b'+', digits @ ..] => decimal_of(false, digits, behind),
        [b'-', digits @ ..] => decimal_of(true, digits, behind),
        _ => decimal_of(false, before, behind),
    }
}

/// A ratio, by what stands before and behind its slash.
fn ratio_of(first: &[u8], second: &[u8]) -> Option<Amount>
    ensures value { result ≡ spec.ratio_of (first.now, second.now) }
    ensures amount { IfSome result IsAmount }
{
    let num = read_performance(first)?;
    Amount::new(num, unsigned(second)? as i64)
}

/// A whole number, or a decimal: a sign or none, digits, a point and digits, of which there are at most 18 in all.
#[tactic(auto, unfolding(crate::specs::Spellings::real_of))]
pub fn read_real(word: &[u8]) -> Option<Amount>
    ensures value { result ≡ spec.real_of word.now }
    ensures amount { IfSome result IsAmount }
{
    match split_at_byte(b'.', word) {
        Some((before, behind)) => signed_decimal(before, behind),
        None => read_whole(word),
    }
}

/// A whole number, a decimal, or a ratio: a whole number, `/`, and 1 to 18 digits that are not all 0.
#[tactic(auto, unfolding(crate::specs::Spellings::amount_in))]
pub fn read_amount(word: &[u8]) -> Option<Amount>
    ensures value { result ≡ spec.amount_in word.now }
    ensures amount { IfSome result IsAmount }
{
    match split_at_byte(b'/', word) {
        Some((first, second)) => ratio_of(first, second),
        None => read_real(word),
    }
}
