//! Numbers in decimal digits, read from words and written.

ghost use Rattle.std.specs.Prelude.{◌≡◌, ◌^◌, ◌<◌, ◌≤◌, true, IfSome, MatchOption, unsigned_abs};
ghost use Rattle.std.specs.Str.{all_ascii_digits};
ghost use Rattle.ror_text.specs.Numbers as spec;

/// Numbers of a report are of absolute value below this one: at most `i128::MAX`.
pub const NUMBER_LIMIT: u128 = 1 << 127;

/// The most digits whose number is sure to fit 64 bits.
const FEW_DIGITS: usize = 19;

/// The number of one or more digits, if it fits.
fn digits(word: &[u8]) -> Option<u128>
    ensures { MatchOption result (spec.is_digits word.now ≡ true → 2 ^ 128 ≤ spec.digits_number word.now)
        (λ n. (spec.is_digits word.now ≡ true) × (n ≡ spec.digits_number word.now)) }
{
    match few_digits(word) {
        Some(number) => Some(u128::from(number)),
        None => many_digits(word),
    }
}

/// The number of one or more digits that are few. Nearly all numbers that are read are such.
fn few_digits(word: &[u8]) -> Option<u64>
    ensures { IfSome result (λ n. (spec.is_digits word.now ≡ true) × (n ≡ spec.digits_number word.now)) }
{
    if word.is_empty() || word.len() > FEW_DIGITS {
        return None;
    }
    let mut number: u64 = 0;
    for byte in word {
        if !byte.is_ascii_digit() {
            return None;
        }
        number = number * 10 + u64::from(*byte - b'0');
    }
    Some(number)
}

/// The number of one or more digits, however many, if it fits.
fn many_digits(word: &[u8]) -> Option<u128>
    ensures { MatchOption result (spec.is_digits word.now ≡ true → 2 ^ 128 ≤ spec.digits_number word.now)
        (λ n. (spec.is_digits word.now ≡ true) × (n ≡ spec.digits_number word.now)) }
{
    if word.is_empty() || !all_digits(word) {
        return None;
    }
    match std::str::from_utf8(word) {
        Ok(text) => text.parse().ok(),
        Err(_) => None,
    }
}

fn all_digits(word: &[u8]) -> bool
    ensures { result ≡ all_ascii_digits word.now }
{
    word.iter().all(|byte| byte.is_ascii_digit())
}

/// The number of 1 to `most` digits.
fn digits_up_to(most: usize, word: &[u8]) -> Option<u64>
    requires { most ≤ 18 }
    ensures value { result ≡ spec.digits_up_to most word.now }
    ensures small { IfSome result (λ n. n < 10 ^ most) }
{
    if word.len() > most {
        return None;
    }
    let number = digits(word)?;
    Some(number as u64)
}

/// The number of digits without a leading zero, if it is below the limit.
fn plain_below(limit: u128, word: &[u8]) -> Option<u128>
    ensures value { result ≡ spec.plain_below limit word.now }
    ensures small { IfSome result (λ n. n < limit) }
{
    let number = digits(word)?;
    if word.len() > 1 && word[0] == b'0' {
        return None;
    }
    if number < limit { Some(number) } else { None }
}

/// A performance: an optional `+` or `-` and 1 to 18 digits, of which the first may be zeros.
#[tactic(auto, unfolding(crate::specs::Numbers::read_performance))]
pub fn read_performance(word: &[u8]) -> Option<i64>
    ensures value { result ≡ spec.read_performance word.now }
    ensures small { IfSome result (λ z. unsigned_abs z < 10 ^ 18) }
{
    match word {
        [] => None,
        [b'+', digits @ ..] => Some(digits_up_to(18, digits)? as i64),
        [b'-', digits @ ..] => Some(-(digits_up_to(18, digits)? as i64)),
        _ => Some(digits_up_to(18, word)? as i64),
    }
}

/// A count: 1 to 9 digits, of which the first may be zeros.
#[tactic(auto, unfolding(crate::specs::Numbers::count_of))]
pub fn read_count(word: &[u8]) -> Option<u32>
    ensures value { result ≡ spec.count_of word.now }
    ensures small { IfSome result (λ n. n < 10 ^ 9) }
{
    Some(digits_up_to(9, word)? as u32)
}

/// A number of a report: digits without a leading zero, with `-` before them where it is below 0,
/// of absolute value below [`NUMBER_LIMIT`].
#[tactic(auto, unfolding(crate::specs::Numbers::number_of))]
pub fn read_number(word: &[u8]) -> Option<i128>
    ensures value { result ≡ spec.number_of word.now }
    ensures small { IfSome result (λ z. unsigned_abs z < NUMBER_LIMIT) }
{
    match word {
        [] => None,
        [b'-', b'0', ..] => None,
        [b'-', digits @ ..] => Some(-(plain_below(NUMBER_LIMIT, digits)? as i128)),
        _ => Some(plain_below(NUMBER_LIMIT, word)? as i128),
    }
}

/// A count, a place or a system of a report: digits without a leading zero, at most `u32::MAX`.
#[tactic(auto, unfolding(crate::specs::Numbers::small_number_of))]
pub fn read_small_number(word: &[u8]) -> Option<u32>
    ensures { result ≡ spec.small_number_of word.now }
{
    Some(plain_below(1 << 32, word)? as u32)
}
