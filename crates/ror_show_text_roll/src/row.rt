//! Rows of two columns.

ghost use Rattle.std.specs.Prelude.{◌≡◌, ◌++◌, OnOk};
ghost use Rattle.ror_show_text_roll.specs.Page as spec;

use ror_show_kit::rows::write_columns;
use ror_show_kit::{room_behind, write_number, write_spaces};
use std::alloc::AllocError;

/// Adds a row: a number if there is one, and the words of two columns.
pub(crate) fn write_row(
    text: &mut Vec<u8>,
    number: Option<u32>,
    first: &[u8],
    second: &[u8],
) -> Result<(), AllocError>
    ensures { OnOk result (text.new.items ≡ text.old.items ++ spec.row number first.now second.now) }
{
    write_mark(text, number)?;
    text.extend_from_slice(b" ")?;
    write_columns(text, room_behind(7), first, second)?;
    text.extend_from_slice(b"\n")
}

fn write_mark(text: &mut Vec<u8>, number: Option<u32>) -> Result<(), AllocError>
    ensures { OnOk result (text.new.items ≡ text.old.items ++ spec.mark number) }
{
    match number {
        Some(number) => write_number(text, 6, number as usize),
        None => write_spaces(text, 6),
    }
}
