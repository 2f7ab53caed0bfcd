//! Words in lines of as many as fit.

ghost use Rattle.std.specs.Prelude.{◌≡◌, ◌<◌, ◌≤◌, ◌++◌, length, codes, OnOk};
ghost use Rattle.ror_show_sheet.specs.Pieces as spec;

use itoa::{Buffer, Integer};
use std::alloc::AllocError;

/// How many columns a text takes, one for each character.
pub(crate) fn columns(text: &[u8]) -> usize
    ensures value { result ≡ spec.columns text.now }
    ensures within { result ≤ length text.now }
{
    text.iter().filter(|byte| begins_character(**byte)).count()
}

fn begins_character(byte: u8) -> bool
    ensures { result ≡ spec.begins_character byte }
{
    byte < 128 || byte >= 192
}

/// How many words of so many columns fit into a line, with a blank before each.
fn fitting(width: usize) -> usize
    ensures { result ≡ spec.fitting width }
{
    if width < 100 { 100 / (width + 1) } else { 0 }
}

/// How many a line has, one at least.
fn in_line(width: usize) -> usize
    ensures value { result ≡ spec.in_line width }
    ensures some { 0 < result }
{
    let words = fitting(width);
    if words < 1 { 1 } else { words }
}

/// Adds what stands before the word at a place: a blank, or a new line with a margin.
pub(crate) fn write_before(text: &mut Vec<u8>, width: usize, place: usize) -> Result<(), AllocError>
    ensures { OnOk result (text.new.items ≡ text.old.items ++ spec.before_word width place) }
{
    if place % in_line(width) == 0 {
        return text.extend_from_slice(b"\n     ");
    }
    text.push(b' ')?;
    Ok(())
}

/// Adds a number behind words.
pub(crate) fn write_number<N: Integer>(
    text: &mut Vec<u8>,
    before: &[u8],
    number: N,
) -> Result<(), AllocError>
    ensures { OnOk result (text.new.items ≡ text.old.items ++ before.now ++ N.text number) }
{
    text.extend_from_slice(before)?;
    text.extend_from_slice(Buffer::new().format(number).as_bytes())
}

/// Ends a line.
pub(crate) fn write_end(text: &mut Vec<u8>) -> Result<(), AllocError>
    ensures { OnOk result (text.new.items ≡ text.old.items ++ codes "\n") }
{
    text.extend_from_slice(b"\n")
}
