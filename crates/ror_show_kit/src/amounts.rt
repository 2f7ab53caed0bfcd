//! How amounts are written.

ghost use Rattle.std.specs.Prelude.{◌≡◌, ◌<◌, ◌+◌, ◌%◌, ◌==◌, ◌++◌, position, replicate, slice_index_or, IfSome, OnOk};
ghost use Rattle.ror_show_kit.specs.Amounts as spec;

use itoa::Buffer;
use ror_table::Amount;
use std::alloc::AllocError;

const POWERS: [u64; 18] = [
    10,
    100,
    1_000,
    10_000,
    100_000,
    1_000_000,
    10_000_000,
    100_000_000,
    1_000_000_000,
    10_000_000_000,
    100_000_000_000,
    1_000_000_000_000,
    10_000_000_000_000,
    100_000_000_000_000,
    1_000_000_000_000_000,
    10_000_000_000_000_000,
    100_000_000_000_000_000,
    1_000_000_000_000_000_000,
];

/// Adds an amount: a whole number, a decimal where it is one of at most 18 places, else a ratio.
///
/// # Errors
///
/// Only want of memory.
pub fn write_amount(text: &mut Vec<u8>, amount: Amount) -> Result<(), AllocError>
    ensures { OnOk result (text.new.items ≡ text.old.items ++ spec.amount_text amount) }
{
    write_sign(text, amount.num)?;
    write_ratio(text, amount.num.unsigned_abs(), amount.den.unsigned_abs())
}

/// Adds the sign of a number below 0.
fn write_sign(text: &mut Vec<u8>, number: i64) -> Result<(), AllocError>
    ensures { OnOk result (text.new.items ≡ text.old.items ++ spec.sign_text number) }
{
    if number < 0 {
        text.push(b'-')?;
    }
    Ok(())
}

fn write_ratio(text: &mut Vec<u8>, num: u64, den: u64) -> Result<(), AllocError>
    ensures { OnOk result (text.new.items ≡ text.old.items ++ spec.ratio_text num den) }
{
    if den <= 1 {
        return text.extend_from_slice(Buffer::new().format(num).as_bytes());
    }
    write_fraction(text, num, den, power_place(den))
}

/// The place of the first power of ten that a number divides.
fn power_place(den: u64) -> Option<usize>
    requires { 0 < den }
    ensures value { result ≡ position (λ power. power % den == 0) spec.powers }
    ensures within { IfSome result (λ place. place < 18) }
{
    POWERS.iter().position(|power| *power % den == 0)
}

fn write_fraction(
    text: &mut Vec<u8>,
    num: u64,
    den: u64,
    place: Option<usize>,
) -> Result<(), AllocError>
    requires positive { 0 < den }
    requires within { IfSome place (λ k. k < 18) }
    ensures { OnOk result (text.new.items ≡ text.old.items ++ spec.fraction_text num den place) }
{
    let Some(place) = place else {
        text.extend_from_slice(Buffer::new().format(num).as_bytes())?;
        text.push(b'/')?;
        return text.extend_from_slice(Buffer::new().format(den).as_bytes());
    };
    text.extend_from_slice(Buffer::new().format(num / den).as_bytes())?;
    text.push(b'.')?;
    let rest = u128::from(num % den) * u128::from(power_at(place) / den);
    write_padded(text, place, Buffer::new().format(rest).as_bytes())
}

/// The power of ten at a place; past the last one it is 1.
fn power_at(place: usize) -> u64
    ensures { result ≡ slice_index_or spec.powers place 1 }
{
    match POWERS.get(place) {
        Some(power) => *power,
        None => 1,
    }
}

/// Adds digits, with zeros before them up to one more than so many.
fn write_padded(text: &mut Vec<u8>, place: usize, digits: &[u8]) -> Result<(), AllocError>
    requires { place < 18 }
    ensures { OnOk result (text.new.items ≡ text.old.items ++ spec.padded (place + 1) digits.now) }
{
    write_zeros(text, (place + 1).saturating_sub(digits.len()))?;
    text.extend_from_slice(digits)
}

fn write_zeros(text: &mut Vec<u8>, count: usize) -> Result<(), AllocError>
    ensures { OnOk result (text.new.items ≡ text.old.items ++ replicate count 48) }
{
    for _ in 0..count {
        text.push(b'0')?;
    }
    Ok(())
}
