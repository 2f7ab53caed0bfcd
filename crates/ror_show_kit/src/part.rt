//! The columns of a table, in parts of as many as fit beside the longest id.

ghost use Rattle.std.specs.Prelude.{◌≡◌, ◌≤◌, ◌++◌, length, OnOk};
ghost use Rattle.std.specs.List.{flat_map, range_with_len};
ghost use Rattle.ror_show_kit.specs.Parts as spec;

use crate::ids::id_bytes;
use crate::layout::{columns, write_number};
use ror_table::Table;
use std::alloc::AllocError;

/// Columns that stand side by side.
#[derive(Clone, Copy, Debug)]
pub struct Part {
    /// The columns of text that an id has.
    pub width: usize,
    /// The first column, from 0.
    pub first: usize,
    /// The one behind the last.
    pub end: usize,
}

impl Part {
    /// Whether a column is in it.
    pub fn has(self, b: usize) -> bool
        ensures { result ≡ spec.is_in self b }
    {
        self.first <= b && b < self.end
    }
}

/// The part at a place, where a line has `room` columns of text for an id of so many and for cells of four columns.
pub fn part_at(room: usize, width: usize, place: usize) -> Part
    requires { place ≤ 200 }
    ensures { result ≡ spec.part_at room width place }
{
    let size = part_size(room, width);
    Part {
        width,
        first: place * size,
        end: (place + 1) * size,
    }
}

/// How many columns a part has.
fn part_size(room: usize, width: usize) -> usize
    ensures value { result ≡ spec.part_size room width }
    ensures few { result ≤ 25 }
{
    let fitting = room.saturating_sub(width) / 4;
    if fitting < 1 {
        1
    } else if 25 < fitting {
        25
    } else {
        fitting
    }
}

/// Adds the numbers of those of the first `count` columns that the part has, from 1.
///
/// # Errors
///
/// Only want of memory.
pub fn write_part_numbers(text: &mut Vec<u8>, part: Part, count: usize) -> Result<(), AllocError>
    requires { count ≤ 200 }
    ensures { OnOk result (text.new.items
        ≡ text.old.items ++ flat_map (spec.number_text part) (range_with_len 0 count)) }
{
    for b in 0..count {
        write_number_in(text, part, b)?;
    }
    Ok(())
}

/// The number of a column, where the part has it.
fn write_number_in(text: &mut Vec<u8>, part: Part, b: usize) -> Result<(), AllocError>
    requires { b ≤ 200 }
    ensures { OnOk result (text.new.items ≡ text.old.items ++ spec.number_text part b) }
{
    if part.has(b) {
        write_number(text, 4, b + 1)?;
    }
    Ok(())
}

/// The columns of the longest id of a table.
pub fn widest(table: &Table) -> usize
    ensures { result ≡ spec.widest table.now (length table.now.alternatives) }
{
    let mut widest = 0;
    for a in 0..table.alternatives() {
        let columns = columns(id_bytes(table, a));
        if widest < columns {
            widest = columns;
        }
    }
    widest
}
