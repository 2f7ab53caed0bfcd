//! Lines of words, and rows of two columns.

ghost use Rattle.std.specs.Prelude.{◌≡◌, ◌++◌, OnOk, IfOk};
ghost use Rattle.ror_text.specs.SpacedLines.{spaced_words};
ghost use Rattle.ror_show_kit.specs.Layout.{room_left, wrapped};
ghost use Rattle.ror_show_kit.specs.Rows as spec;

use crate::layout::{room_behind, write_number, write_spaces, write_word};
use ror_text::spaced::Words;
use std::alloc::AllocError;

/// The margin of lines that go on.
const MARGIN: usize = 9;

/// Adds these words.
///
/// # Errors
///
/// Only want of memory.
pub fn write_text(text: &mut Vec<u8>, words: &[u8]) -> Result<(), AllocError>
    ensures { OnOk result (text.new.items ≡ text.old.items ++ words.now) }
{
    text.extend_from_slice(words)
}

/// Adds a line of words, which single spaces part, behind a margin. A word that would pass the 120th column begins a new line.
///
/// # Errors
///
/// Only want of memory.
pub fn write_line(text: &mut Vec<u8>, margin: usize, line: &[u8]) -> Result<(), AllocError>
    ensures { OnOk result (text.new.items ≡ text.old.items ++ spec.line_text margin line.now) }
{
    write_spaces(text, margin)?;
    write_words(text, room_behind(margin), line)?;
    text.extend_from_slice(b"\n")
}

/// Adds a row: a number, and the words of two columns, of which the second begins at the 52nd column of the line where the first
/// leaves that free. A word that would pass the 120th column begins a new line.
///
/// # Errors
///
/// Only want of memory.
pub fn write_row(
    text: &mut Vec<u8>,
    number: u32,
    first: &[u8],
    second: &[u8],
) -> Result<(), AllocError>
    ensures { OnOk result (text.new.items ≡ text.old.items ++ spec.row_text number first.now second.now) }
{
    write_number(text, 6, number as usize)?;
    text.extend_from_slice(b" ")?;
    write_columns(text, room_behind(7), first, second)?;
    text.extend_from_slice(b"\n")
}

/// Adds the words of two columns, as a row has them, where the line has so much room left.
///
/// # Errors
///
/// Only want of memory.
pub fn write_columns(
    text: &mut Vec<u8>,
    room: usize,
    first: &[u8],
    second: &[u8],
) -> Result<(), AllocError>
    ensures { OnOk result (text.new.items
        ≡ text.old.items ++ spec.columns_text room first.now second.now) }
{
    let left = write_words(text, room, first)?;
    let gap = gap(left);
    write_spaces(text, gap)?;
    write_words(text, left.saturating_sub(gap), second)?;
    Ok(())
}

/// How many spaces stand between the columns where the line has so much left.
fn gap(room: usize) -> usize
    ensures { result ≡ spec.gap room }
{
    room.min(1).max(room.saturating_sub(69))
}

/// Adds the words of a text, and gives what the line has left then.
fn write_words(text: &mut Vec<u8>, room: usize, line: &[u8]) -> Result<usize, AllocError>
    ensures text { OnOk result (text.new.items
        ≡ text.old.items ++ wrapped 9 room (spaced_words line.now)) }
    ensures room { IfOk result (λ left. left ≡ room_left 9 room (spaced_words line.now)) }
{
    let mut room = room;
    let mut left = Words::of(line);
    'words: while let Some((word, rest)) = left.next() {
        let behind = write_word(text, MARGIN, room, word)?;
        room = behind;
        left = rest;
    }
    Ok(room)
}
