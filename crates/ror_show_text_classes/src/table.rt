//! The rows of a time, in parts of as many classes as fit.

ghost use Rattle.std.specs.Prelude.{◌≡◌, ◌≤◌, ◌++◌, OnOk};
ghost use Rattle.std.specs.List.{flat_map, range_with_len};
ghost use Rattle.ror_table.specs.Table.{id_of};
ghost use Rattle.ror_show_text_classes.specs.Text as spec;

use ror_show_find_classes::{ClassLine, Sign};
use ror_show_kit::{Part, id_bytes, part_at, write_left, write_part_numbers, write_spaces};
use ror_table::Table;
use std::alloc::AllocError;

/// The columns of a line for an id and cells.
const ROOM: usize = 118;

/// Adds the rows.
pub(crate) fn write_matrix(
    text: &mut Vec<u8>,
    table: &Table,
    rows: &[ClassLine],
    width: usize,
) -> Result<(), AllocError>
    ensures { OnOk result (text.new.items ≡ text.old.items ++ spec.matrix_text table.now rows.now width) }
{
    for place in 0..table.classes() as usize {
        write_part_at(text, table, rows, width, place)?;
    }
    Ok(())
}

/// Adds the part at a place, where it has classes.
fn write_part_at(
    text: &mut Vec<u8>,
    table: &Table,
    rows: &[ClassLine],
    width: usize,
    place: usize,
) -> Result<(), AllocError>
    requires { place ≤ 200 }
    ensures { OnOk result (text.new.items ≡ text.old.items ++ spec.part_text_at table.now rows.now width place) }
{
    let part = part_at(ROOM, width, place);
    if part.first < table.classes() as usize {
        write_part(text, table, rows, part)?;
    }
    Ok(())
}

fn write_part(
    text: &mut Vec<u8>,
    table: &Table,
    rows: &[ClassLine],
    part: Part,
) -> Result<(), AllocError>
    ensures { OnOk result (text.new.items ≡ text.old.items ++ spec.part_text table.now rows.now part) }
{
    write_numbers(text, table, part)?;
    write_rows(text, table, rows, part)
}

/// The numbers of the classes.
fn write_numbers(text: &mut Vec<u8>, table: &Table, part: Part) -> Result<(), AllocError>
    ensures { OnOk result (text.new.items ≡ text.old.items ++ spec.numbers_text table.now.classes part) }
{
    text.push(b'\n')?;
    write_spaces(text, part.width)?;
    text.extend_from_slice(b"  ")?;
    write_part_numbers(text, part, table.classes() as usize)?;
    text.push(b'\n')?;
    Ok(())
}

fn write_rows(
    text: &mut Vec<u8>,
    table: &Table,
    rows: &[ClassLine],
    part: Part,
) -> Result<(), AllocError>
    ensures { OnOk result (text.new.items ≡ text.old.items ++ flat_map (spec.row_text table.now part) rows.now) }
{
    'rows: for row in rows {
        write_row(text, table, part, row)?;
    }
    Ok(())
}

fn write_row(
    text: &mut Vec<u8>,
    table: &Table,
    part: Part,
    row: &ClassLine,
) -> Result<(), AllocError>
    ensures { OnOk result (text.new.items ≡ text.old.items ++ spec.row_text table.now part row.now) }
{
    text.extend_from_slice(b"  ")?;
    write_left(text, part.width, id_of(table, row))?;
    write_cells(text, table, part, row)?;
    text.push(b'\n')?;
    Ok(())
}

/// The id of the alternative whose classes a row has.
pub(crate) fn id_of<'a>(table: &'a Table, row: &ClassLine) -> &'a [u8]
    ensures { result.now ≡ id_of table.now row.now.row.alternative }
{
    id_bytes(table, row.row.alternative)
}

fn write_cells(
    text: &mut Vec<u8>,
    table: &Table,
    part: Part,
    row: &ClassLine,
) -> Result<(), AllocError>
    ensures { OnOk result (text.new.items
        ≡ text.old.items ++ flat_map (spec.cell_text row.now part) (range_with_len 0 table.now.classes)) }
{
    for h in 0..table.classes() as usize {
        write_cell(text, row, part, h)?;
    }
    Ok(())
}

/// The sign of a class behind the star of an assignment, where the part has the class.
fn write_cell(text: &mut Vec<u8>, row: &ClassLine, part: Part, h: usize) -> Result<(), AllocError>
    ensures { OnOk result (text.new.items ≡ text.old.items ++ spec.cell_text row.now part h) }
{
    if part.has(h) {
        text.extend_from_slice(b"  ")?;
        text.push(star(is_assigned(row, h)))?;
        text.push(sign_at(row, h).byte(row.row.settled))?;
    }
    Ok(())
}

/// Whether a statement assigns the alternative to the class at a place.
fn is_assigned(row: &ClassLine, h: usize) -> bool
    ensures { result ≡ spec.is_assigned row.now h }
{
    match row.assigned.get(h) {
        Some(assigned) => *assigned,
        None => false,
    }
}

fn sign_at(row: &ClassLine, h: usize) -> Sign
    ensures { result ≡ spec.sign_at row.now h }
{
    match row.signs.get(h) {
        Some(sign) => *sign,
        None => Sign::Unknown,
    }
}

fn star(assigned: bool) -> u8
    ensures { result ≡ spec.star assigned }
{
    if assigned { b'*' } else { b' ' }
}
