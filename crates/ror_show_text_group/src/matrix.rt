//! The matrix of a group, in parts of as many columns as fit.

ghost use Rattle.std.specs.Prelude.{◌≡◌, ◌≤◌, ◌++◌, length, OnOk};
ghost use Rattle.std.specs.List.{flat_map, range_with_len};
ghost use Rattle.ror_show_text_group.specs.Matrix as spec;

use ror_show_find_group::{GroupCell, group_cell_in};
use ror_show_kit::{
    Part, id_bytes, part_at, widest, write_left, write_number, write_part_numbers, write_spaces,
};
use ror_table::Table;
use ror_text::Items;
use std::alloc::AllocError;

/// The columns of a line for an id and cells: the rest is for numbers.
const ROOM: usize = 110;

/// Adds the matrix.
pub(crate) fn write_matrix(
    text: &mut Vec<u8>,
    table: &Table,
    rows: &[Items<GroupCell>],
) -> Result<(), AllocError>
    ensures { OnOk result (text.new.items ≡ text.old.items ++ spec.matrix_text table.now rows.now) }
{
    let width = widest(table);
    for place in 0..table.alternatives() {
        write_part_at(text, table, rows, width, place)?;
    }
    Ok(())
}

/// Adds the part at a place, where it has columns.
fn write_part_at(
    text: &mut Vec<u8>,
    table: &Table,
    rows: &[Items<GroupCell>],
    width: usize,
    place: usize,
) -> Result<(), AllocError>
    requires { place ≤ 200 }
    ensures { OnOk result (text.new.items ≡ text.old.items ++ spec.part_text_at table.now rows.now width place) }
{
    let part = part_at(ROOM, width, place);
    if part.first < table.alternatives() {
        write_part(text, table, rows, part)?;
    }
    Ok(())
}

fn write_part(
    text: &mut Vec<u8>,
    table: &Table,
    rows: &[Items<GroupCell>],
    part: Part,
) -> Result<(), AllocError>
    ensures { OnOk result (text.new.items ≡ text.old.items ++ spec.part_text table.now rows.now part) }
{
    text.push(b'\n')?;
    write_head(text, table, part)?;
    write_rows(text, table, rows, part)
}

/// The line above the rows.
fn write_head(text: &mut Vec<u8>, table: &Table, part: Part) -> Result<(), AllocError>
    ensures { OnOk result (text.new.items ≡ text.old.items ++ spec.numbers_text table.now part) }
{
    write_spaces(text, 7)?;
    write_spaces(text, part.width)?;
    write_part_numbers(text, part, table.alternatives())?;
    text.extend_from_slice(b"  |\n")
}

fn write_rows(
    text: &mut Vec<u8>,
    table: &Table,
    rows: &[Items<GroupCell>],
    part: Part,
) -> Result<(), AllocError>
    ensures { OnOk result (text.new.items ≡ text.old.items
        ++ flat_map (spec.row_text table.now rows.now part) (range_with_len 0 (length table.now.alternatives))) }
{
    for a in 0..table.alternatives() {
        write_row(text, table, rows, part, a)?;
    }
    Ok(())
}

fn write_row(
    text: &mut Vec<u8>,
    table: &Table,
    rows: &[Items<GroupCell>],
    part: Part,
    a: usize,
) -> Result<(), AllocError>
    requires { a ≤ 200 }
    ensures { OnOk result (text.new.items ≡ text.old.items ++ spec.row_text table.now rows.now part a) }
{
    write_row_head(text, table, part, a)?;
    write_cells(text, table, rows, part, a)?;
    text.extend_from_slice(b"  |\n")
}

/// The number and the id of a row.
fn write_row_head(text: &mut Vec<u8>, table: &Table, part: Part, a: usize) -> Result<(), AllocError>
    requires { a ≤ 200 }
    ensures { OnOk result (text.new.items ≡ text.old.items ++ spec.row_head table.now part a) }
{
    write_number(text, 5, a + 1)?;
    text.extend_from_slice(b"  ")?;
    write_left(text, part.width, id_bytes(table, a))
}

fn write_cells(
    text: &mut Vec<u8>,
    table: &Table,
    rows: &[Items<GroupCell>],
    part: Part,
    a: usize,
) -> Result<(), AllocError>
    ensures { OnOk result (text.new.items ≡ text.old.items
        ++ flat_map (spec.cell_text rows.now part a) (range_with_len 0 (length table.now.alternatives))) }
{
    for b in 0..table.alternatives() {
        write_cell(text, rows, part, a, b)?;
    }
    Ok(())
}

/// The sign of a cell, where the part has it.
fn write_cell(
    text: &mut Vec<u8>,
    rows: &[Items<GroupCell>],
    part: Part,
    a: usize,
    b: usize,
) -> Result<(), AllocError>
    ensures { OnOk result (text.new.items ≡ text.old.items ++ spec.cell_text rows.now part a b) }
{
    if part.has(b) {
        text.extend_from_slice(b"   ")?;
        text.push(group_cell_in(rows, a, b).sign())?;
    }
    Ok(())
}
