//! References, and the characters for which they stand.

ghost use Rattle.std.specs.Prelude.{◌≡◌, ◌^◌, ◌≤◌, length, option_map, min};
ghost use Rattle.ror_text.specs.Reading.{Gives};
ghost use Rattle.ror_elements.specs.Faults.{element_fault};
ghost use Rattle.ror_elements.specs.References as spec;

use crate::element::{ElementError, ElementKind};
use crate::open::fault;
use ror_text::reading::refuse_if;

/// One more than the greatest code of a character.
const CODE_LIMIT: u32 = 0x11_0000;

/// The character that a name stands for, if it is one of the five.
#[tactic(auto, unfolding(crate::specs::References::entity))]
fn entity(name: &[u8]) -> Option<char>
    ensures { result ≡ spec.entity name.now }
{
    if name == b"lt".as_slice() {
        return Some('<');
    }
    if name == b"gt".as_slice() {
        return Some('>');
    }
    if name == b"amp".as_slice() {
        return Some('&');
    }
    if name == b"quot".as_slice() {
        return Some('"');
    }
    if name == b"apos".as_slice() {
        return Some('\'');
    }
    None
}

/// The value of a digit, and 16 for any other byte.
fn digit_value(byte: u8) -> u32
    ensures value { result ≡ spec.digit_value byte }
    ensures small { result ≤ 16 }
{
    if byte.is_ascii_digit() {
        return u32::from(byte - b'0');
    }
    if byte >= b'a' && byte <= b'f' {
        return u32::from(byte - b'a') + 10;
    }
    if byte >= b'A' && byte <= b'F' {
        return u32::from(byte - b'A') + 10;
    }
    16
}

/// Whether all bytes are digits to this base.
fn are_digits(base: u32, digits: &[u8]) -> bool
    ensures { result ≡ spec.are_digits base digits.now }
{
    digits.iter().all(|byte| digit_value(*byte) < base)
}

/// The number of digits to this base, or the limit where that is no more.
fn capped_number(base: u32, digits: &[u8]) -> u32
    requires low { 1 ≤ base }
    requires high { base ≤ 16 }
    ensures { result ≡ min (spec.digits_number base digits.now) CODE_LIMIT }
{
    let mut number = 0;
    'digits: for byte in digits {
        number = (number * base + digit_value(*byte)).min(CODE_LIMIT);
    }
    number
}

/// The number that digits to this base write, if there are any and all are.
fn number_in(base: u32, digits: &[u8]) -> Option<u32>
    requires low { 1 ≤ base }
    requires high { base ≤ 16 }
    ensures { result ≡ option_map (λ n. min n CODE_LIMIT) (spec.number_in base digits.now) }
{
    if digits.is_empty() {
        return None;
    }
    if !are_digits(base, digits) {
        return None;
    }
    Some(capped_number(base, digits))
}

/// The number that a name writes behind `#` or `#x`, if it does.
#[tactic(auto, unfolding(crate::specs::References::number_of))]
fn number_of(name: &[u8]) -> Option<u32>
    ensures { result ≡ option_map (λ n. min n CODE_LIMIT) (spec.number_of name.now) }
{
    match name {
        [b'#', b'x', digits @ ..] => number_in(16, digits),
        [b'#', digits @ ..] => number_in(10, digits),
        _ => None,
    }
}

/// The character with this code, unless that is 0 or no character's.
fn character_at(code: u32) -> Option<char>
    ensures { result ≡ spec.character_at code }
{
    if code == 0 {
        return None;
    }
    char::from_u32(code)
}

/// The character for which the reference with this name stands, which begins on this line.
#[tactic(auto, unfolding(crate::specs::References::character_of))]
pub(crate) fn character_of(line: u32, name: &[u8]) -> Result<char, ElementError>
    ensures { Gives (λ code. code) element_fault result (spec.character_of line name.now) }
{
    refuse_if(name.is_empty(), fault(ElementKind::BadMarkup, line))?;
    if let Some(character) = entity(name) {
        return Ok(character);
    }
    let Some(code) = number_of(name) else {
        return Err(fault(ElementKind::Entity, line));
    };
    match character_at(code) {
        Some(character) => Ok(character),
        None => Err(fault(ElementKind::BadMarkup, line)),
    }
}
