//! Heads of lines: their number and desk, and the numbers of what stood.

ghost use Rattle.std.specs.Prelude.{◌≡◌, ◌++◌, map, decimal, OnOk};
ghost use Rattle.ror_show_kit.specs.Layout.{room_behind, wrapped};
ghost use Rattle.ror_show_kit.specs.Heads as spec;

use crate::layout::{room_behind, write_word};
use itoa::Buffer;
use std::alloc::AllocError;

/// Adds the number of a session's line, and the name of its desk where it has one, with its sign before it.
///
/// # Errors
///
/// Only want of memory.
pub fn write_line(text: &mut Vec<u8>, line: u32, desk: &str) -> Result<(), AllocError>
    ensures { OnOk result (text.new.items ≡ text.old.items ++ spec.line_text line desk.now) }
{
    text.extend_from_slice(b"line ")?;
    text.extend_from_slice(Buffer::new().format(line).as_bytes())?;
    write_desk(text, desk.as_bytes())
}

fn write_desk(text: &mut Vec<u8>, desk: &[u8]) -> Result<(), AllocError>
    ensures { OnOk result (text.new.items ≡ text.old.items ++ spec.desk_text desk.now) }
{
    if desk.is_empty() {
        return Ok(());
    }
    text.extend_from_slice(b"  @")?;
    text.extend_from_slice(desk)
}

/// Adds a line with the numbers of statements, or that there are none.
///
/// # Errors
///
/// Only want of memory.
pub fn write_statements(text: &mut Vec<u8>, numbers: &[u32]) -> Result<(), AllocError>
    ensures { OnOk result (text.new.items ≡ text.old.items ++ spec.statements_text numbers.now) }
{
    text.extend_from_slice(b"  by statements")?;
    write_numbers(text, numbers)?;
    text.push(b'\n')?;
    Ok(())
}

fn write_numbers(text: &mut Vec<u8>, numbers: &[u32]) -> Result<(), AllocError>
    ensures { OnOk result (text.new.items ≡ text.old.items ++ spec.numbers_text numbers.now) }
{
    if numbers.is_empty() {
        return text.extend_from_slice(b" none");
    }
    wrap_numbers(text, numbers)
}

fn wrap_numbers(text: &mut Vec<u8>, numbers: &[u32]) -> Result<(), AllocError>
    ensures { OnOk result (text.new.items
        ≡ text.old.items ++ wrapped 15 (room_behind 15) (map decimal numbers.now)) }
{
    let mut room = room_behind(15);
    'numbers: for number in numbers {
        room = write_word(text, 15, room, Buffer::new().format(*number).as_bytes())?;
    }
    Ok(())
}

/// Adds words and a number behind them.
///
/// # Errors
///
/// Only want of memory.
pub fn write_count(text: &mut Vec<u8>, words: &[u8], count: usize) -> Result<(), AllocError>
    ensures { OnOk result (text.new.items ≡ text.old.items ++ spec.counted words.now count) }
{
    text.extend_from_slice(words)?;
    text.extend_from_slice(Buffer::new().format(count).as_bytes())
}
