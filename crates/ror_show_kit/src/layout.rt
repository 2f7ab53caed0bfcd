//! Plain text in lines: padded words, and words that go on in a line below where 120 columns are full.

ghost use Rattle.std.specs.Prelude.{◌≡◌, ◌≤◌, ◌∷◌, [], ◌++◌, length, nat_lt, decimal, if◌then◌else◌, OnOk, IfOk};
ghost use Rattle.ror_show_kit.specs.Layout as spec;

use itoa::Buffer;
use std::alloc::AllocError;

/// How many columns a text takes, one for each character.
pub fn columns(text: &[u8]) -> usize
    ensures value { result ≡ spec.columns text.now }
    ensures within { result ≤ length text.now }
{
    text.iter().filter(|byte| begins_character(**byte)).count()
}

fn begins_character(byte: u8) -> bool
    ensures { result ≡ spec.begins_character byte }
{
    byte < 128 || byte >= 192
}

/// Adds so many spaces.
///
/// # Errors
///
/// Only want of memory.
pub fn write_spaces(text: &mut Vec<u8>, count: usize) -> Result<(), AllocError>
    ensures { OnOk result (text.new.items ≡ text.old.items ++ spec.spaces count) }
{
    for _ in 0..count {
        text.push(b' ')?;
    }
    Ok(())
}

/// Adds a word, with spaces behind it up to so many columns.
///
/// # Errors
///
/// Only want of memory.
pub fn write_left(text: &mut Vec<u8>, width: usize, word: &[u8]) -> Result<(), AllocError>
    ensures { OnOk result (text.new.items ≡ text.old.items ++ spec.set_left width word.now) }
{
    text.extend_from_slice(word)?;
    write_spaces(text, width.saturating_sub(columns(word)))
}

/// Adds a number, with spaces before it up to so many columns.
///
/// # Errors
///
/// Only want of memory.
pub fn write_number(text: &mut Vec<u8>, width: usize, number: usize) -> Result<(), AllocError>
    ensures { OnOk result (text.new.items ≡ text.old.items ++ spec.set_right width (decimal number)) }
{
    write_right(text, width, Buffer::new().format(number).as_bytes())
}

/// Adds a word, with spaces before it up to so many columns.
///
/// # Errors
///
/// Only want of memory.
pub fn write_right(text: &mut Vec<u8>, width: usize, word: &[u8]) -> Result<(), AllocError>
    ensures { OnOk result (text.new.items ≡ text.old.items ++ spec.set_right width word.now) }
{
    write_spaces(text, width.saturating_sub(columns(word)))?;
    text.extend_from_slice(word)
}

/// What a line has left behind so many columns.
pub fn room_behind(at: usize) -> usize
    ensures { result ≡ spec.room_behind at }
{
    120usize.saturating_sub(at)
}

/// Adds a space and a word, on a new line with a margin where the line has not that much left, and gives what is left then.
///
/// # Errors
///
/// Only want of memory.
pub fn write_word(
    text: &mut Vec<u8>,
    margin: usize,
    room: usize,
    word: &[u8],
) -> Result<usize, AllocError>
    ensures text { OnOk result (text.new.items ≡ text.old.items ++ spec.next_word margin room word.now) }
    ensures room { IfOk result (λ left. left ≡ spec.next_room margin room word.now) }
{
    let begun = begin_word(text, margin, room, columns(word))?;
    text.push(b' ')?;
    text.extend_from_slice(word)?;
    Ok(begun.saturating_sub(columns(word)).saturating_sub(1))
}

/// Begins a new line with a margin, where a line has not so many columns and one left, and gives what is left.
fn begin_word(
    text: &mut Vec<u8>,
    margin: usize,
    room: usize,
    needed: usize,
) -> Result<usize, AllocError>
    ensures text { OnOk result (text.new.items
        ≡ text.old.items ++ (if nat_lt needed room then [] else 10 ∷ spec.spaces margin)) }
    ensures room { IfOk result (λ left. left ≡ (if nat_lt needed room then room else spec.room_behind margin)) }
{
    if needed < room {
        return Ok(room);
    }
    text.push(b'\n')?;
    write_spaces(text, margin)?;
    Ok(room_behind(margin))
}
