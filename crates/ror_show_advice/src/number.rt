//! Words that should be numbers.

use crate::said::{Said, entry_in, of, of_two, say};
use ror_show_hints::{begins_with_digit, has, in_other_case, is_digits};

/// Which numbers may stand at a place.
#[derive(Clone, Copy, PartialEq, Eq)]
pub(crate) enum Numbers {
    /// Whole numbers, as in a `ror-table 1`.
    Whole,
    /// Whole numbers, decimals and ratios, as in a `ror-table 2` or `3`.
    All,
    /// Whole numbers, as in an `integer` of XMCDA.
    Integer,
    /// Whole numbers and decimals, as in a `real` of XMCDA.
    Real,
}

/// Words that say that a value is missing.
const NO_VALUE: [&[u8]; 11] = [
    b"na", b"n/a", b"nan", b"null", b"none", b"nil", b"-", b"--", b"?", b".", b"missing",
];

/// Signs in words that begin as numbers do, and what helps.
const SIGNS: &[u8] =
    b"/=below the slash stand digits without a sign that are not all zero|%=leave the percent sign out, in each line|\
    '=leave the mark between thousands out|_=leave the mark between thousands out|\"=leave the quotation marks out";

/// Which numbers may stand at a place.
pub(crate) fn expected_number(numbers: Numbers) -> Said<'static> {
    match numbers {
        Numbers::Whole => say(b"a whole number of 1 to 18 digits, as 3 or -12"),
        Numbers::All => {
            say(b"a whole number, a decimal as 3.5, or a ratio as 1/2, of at most 18 digits")
        }
        Numbers::Integer => say(b"a whole number of 1 to 18 digits, as 3 or -12, in `integer`"),
        Numbers::Real => {
            say(b"a whole number or a decimal, as 3 or 3.5, of at most 18 digits, in `real`")
        }
    }
}

/// Whether a word is no number of the place.
pub(crate) fn is_no_number(word: &[u8], numbers: Numbers) -> bool {
    let digits = unsigned(word);
    if is_digits(digits) {
        return digits.len() > 18;
    }
    match numbers {
        Numbers::Whole | Numbers::Integer => true,
        Numbers::Real => !is_decimal(digits),
        Numbers::All => !is_decimal(digits) && !is_ratio(digits),
    }
}

fn unsigned(word: &[u8]) -> &[u8] {
    match word {
        [b'+', rest @ ..] | [b'-', rest @ ..] => rest,
        _ => word,
    }
}

/// What stands before the first byte of a kind, and behind it, if the word has one.
fn parted(word: &[u8], by: u8) -> Option<(&[u8], &[u8])> {
    let place = word.iter().position(|byte| *byte == by)?;
    match word.split_at_checked(place)? {
        (front, [_, back @ ..]) => Some((front, back)),
        _ => None,
    }
}

/// Digits, a point and digits, of at most 18 digits.
fn is_decimal(word: &[u8]) -> bool {
    match parted(word, b'.') {
        Some((whole, part)) => is_digits(whole) && is_digits(part) && word.len() <= 19,
        None => false,
    }
}

/// Digits, a slash and digits that are not all zero, at most 18 each.
fn is_ratio(word: &[u8]) -> bool {
    match parted(word, b'/') {
        Some((above, below)) => {
            is_digits(above)
                && is_digits(below)
                && above.len() <= 18
                && below.len() <= 18
                && below.iter().any(|byte| *byte != b'0')
        }
        None => false,
    }
}

/// What is likely of a word that is no number of its place.
pub(crate) fn likely_number<'a>(word: &'a [u8], numbers: Numbers) -> Said<'a> {
    if in_other_case(word, NO_VALUE.as_slice()).is_some() {
        return of(
            b"no value is known (`",
            word,
            b"`): write a number, or leave the alternative or the criterion out",
        );
    }
    if let Some(digits) = behind_odd_minus(word) {
        return of(
            b"the minus is a Unicode sign or a dash: write the plain one, -",
            digits,
            b"",
        );
    }
    if let Some((front, back)) = parted(word, b',') {
        return likely_comma(front, back, numbers);
    }
    let digits = unsigned(word);
    if is_decimal(digits) {
        return likely_decimal(word, numbers);
    }
    if is_ratio(digits) {
        return likely_ratio(word, numbers);
    }
    likely_word(word, digits)
}

/// What stands behind a minus or a dash that is not the one of ASCII, if the word begins with one.
fn behind_odd_minus(word: &[u8]) -> Option<&[u8]> {
    for minus in [
        "\u{2212}", "\u{2013}", "\u{2014}", "\u{2010}", "\u{2011}", "\u{ff0d}",
    ] {
        if let Some(digits) = word.strip_prefix(minus.as_bytes()) {
            return Some(digits);
        }
    }
    None
}

/// What is likely of a word with a comma, which may be one of a decimal or one between thousands.
fn likely_comma<'a>(front: &'a [u8], back: &'a [u8], numbers: Numbers) -> Said<'a> {
    if back.contains(&b',') {
        return say(b"commas in a number: between thousands leave them out");
    }
    if back.len() == 3 && numbers == Numbers::Whole {
        return of_two(
            b"a comma in a number: between thousands leave it out, ",
            front,
            b"",
            back,
            b"; for a decimal write a point, and `ror-table 2` in the first line",
        );
    }
    let more: &[u8] = match numbers {
        Numbers::Whole => b", and `ror-table 2` in the first line",
        Numbers::Integer => b", and `real` for `integer`",
        Numbers::All | Numbers::Real => b"",
    };
    of_two(
        b"a comma in a number: for a decimal write a point, ",
        front,
        b".",
        back,
        more,
    )
}

/// What is likely of a decimal where none may stand.
fn likely_decimal<'a>(word: &'a [u8], numbers: Numbers) -> Said<'a> {
    match numbers {
        Numbers::Integer => of(b"`", word, b"` is a decimal: write `real` for `integer`"),
        _ => of(
            b"`",
            word,
            b"` is exact in a `ror-table 2`: write `ror-table 2` in the first line",
        ),
    }
}

/// What is likely of a ratio where none may stand.
fn likely_ratio<'a>(word: &'a [u8], numbers: Numbers) -> Said<'a> {
    match numbers {
        Numbers::Whole => likely_decimal(word, numbers),
        _ => of(
            b"`",
            word,
            b"` is a ratio: write `rational` with a `numerator` and a `denominator`",
        ),
    }
}

/// What is likely of a word that has other signs than digits.
fn likely_word<'a>(word: &'a [u8], digits: &'a [u8]) -> Said<'a> {
    if !begins_with_digit(digits) {
        if digits.starts_with(b"\"") {
            return of(b"`", word, b"`: leave the quotation marks out");
        }
        if digits.starts_with(b".") {
            return of(b"`", word, POINT);
        }
        if has(digits, b"$") || has(digits, "\u{20ac}".as_bytes()) {
            return of(b"`", word, UNIT);
        }
        return of(
            b"`",
            word,
            b"` is a word: of a name with a blank write one word, as Fiat_500",
        );
    }
    likely_digits(word, digits)
}

const POINT: &[u8] = b"`: digits stand on both sides of the point, as 0.5 or 3.0";

const UNIT: &[u8] = b"`: a unit at the number: leave it out, in each line";

/// What is likely of a word that begins with a digit.
fn likely_digits<'a>(word: &'a [u8], digits: &'a [u8]) -> Said<'a> {
    if is_exponent(digits) {
        return of(
            b"`",
            word,
            b"`: an exponent: write the number out, as 100000 for 1e+05",
        );
    }
    if let Some(helps) = entry_in(SIGNS, digits) {
        return of_two(b"`", word, b"`: ", b"", helps);
    }
    let Some((_, back)) = parted(digits, b'.') else {
        if is_digits(digits) {
            return of(
                b"`",
                word,
                b"`: more than 18 digits: round it, or take another unit",
            );
        }
        return of(b"`", word, UNIT);
    };
    if back.is_empty() {
        return of(b"`", word, POINT);
    }
    if back.contains(&b'.') {
        return of(b"`", word, b"`: leave the points between thousands out");
    }
    if is_digits(back) {
        return of(
            b"`",
            word,
            b"`: more than 18 digits: round it, or take another unit",
        );
    }
    of(b"`", word, UNIT)
}

/// Digits, `e` and digits, with a point or a sign among them.
fn is_exponent(word: &[u8]) -> bool {
    let parts = match parted(word, b'e') {
        Some(parts) => Some(parts),
        None => parted(word, b'E'),
    };
    match parts {
        Some((_, back)) => is_digits(unsigned(back)),
        None => false,
    }
}
