//! What is known of relations as comma-separated values.

ghost use Rattle.std.specs.Prelude.{◌≡◌, ◌++◌, OnOk};
ghost use Rattle.std.specs.List.{flat_map};
ghost use Rattle.ror_show_ground.specs.Grounds.{ground_of};
ghost use Rattle.ror_show_forms.specs.RelationCsv as spec;

use crate::front::line_front;
use ror_bench::KeptLine;
use ror_show_find_reasons::RelationFound;
use ror_show_find_relation::{Cell, cell_in};
use ror_show_ground::Ground;
use ror_show_kit::{id_bytes, write_next_field};
use ror_table::Table;
use ror_text::Items;
use std::alloc::{AllocError, Global};

/// The names of the values, as the first line of a file.
pub fn relation_head() -> &'static [u8]
    ensures { result.now ≡ spec.csv_head }
{
    b"line,desk,from,to,relation\n"
}

/// Adds for each relation a line for each ordered pair of different alternatives of which the first is known to be at least as good by
/// every compatible function: the number of the session's line, the desk, both ids, and the sign of their cell. A value with a comma, a
/// quotation mark or an end of a line stands between quotation marks, with those within it doubled.
///
/// # Errors
///
/// Only want of memory.
pub fn write_relations_csv(
    alloc: Global,
    text: &mut Vec<u8>,
    ground: &Ground<'_>,
    found: &[RelationFound],
) -> Result<(), AllocError>
    ensures { OnOk result (text.new.items
        ≡ text.old.items ++ flat_map (spec.relation_values (ground_of ground.now)) found.now) }
{
    'lines: for relation in found {
        write_relation(alloc, text, ground, relation)?;
    }
    Ok(())
}

/// The values of a relation, if its line is one of the kept ones.
fn write_relation(
    alloc: Global,
    text: &mut Vec<u8>,
    ground: &Ground<'_>,
    found: &RelationFound,
) -> Result<(), AllocError>
    ensures { OnOk result (text.new.items
        ≡ text.old.items ++ spec.relation_values (ground_of ground.now) found.now) }
{
    match ground.kept.get(found.place) {
        Some(line) => write_of_line(alloc, text, ground, line, found.relation.rows.as_slice()),
        None => Ok(()),
    }
}

fn write_of_line(
    alloc: Global,
    text: &mut Vec<u8>,
    ground: &Ground<'_>,
    line: &KeptLine,
    rows: &[Items<Cell>],
) -> Result<(), AllocError>
    ensures { OnOk result (text.new.items
        ≡ text.old.items ++ spec.line_values (ground_of ground.now) rows.now line.now) }
{
    let front = line_front(alloc, ground, line)?;
    write_rows(text, ground.table, front.as_slice(), rows)
}

/// The lines of all pairs, each behind these bytes.
fn write_rows(
    text: &mut Vec<u8>,
    table: &Table,
    front: &[u8],
    rows: &[Items<Cell>],
) -> Result<(), AllocError>
    ensures { OnOk result (text.new.items ≡ text.old.items ++ spec.csv_text table.now front.now rows.now) }
{
    for a in 0..table.alternatives() {
        write_lines(text, table, front, rows, a)?;
    }
    Ok(())
}

/// The lines of the pairs of one alternative.
fn write_lines(
    text: &mut Vec<u8>,
    table: &Table,
    front: &[u8],
    rows: &[Items<Cell>],
    a: usize,
) -> Result<(), AllocError>
    ensures { OnOk result (text.new.items ≡ text.old.items ++ spec.csv_lines table.now front.now rows.now a) }
{
    for b in 0..table.alternatives() {
        write_line(text, table, front, rows, a, b)?;
    }
    Ok(())
}

/// The line of a pair, if it has one.
fn write_line(
    text: &mut Vec<u8>,
    table: &Table,
    front: &[u8],
    rows: &[Items<Cell>],
    a: usize,
    b: usize,
) -> Result<(), AllocError>
    ensures { OnOk result (text.new.items ≡ text.old.items ++ spec.csv_line table.now front.now rows.now a b) }
{
    let cell = cell_in(rows, a, b);
    if cell.is_over_another() {
        write_fields(text, table, front, a, b, cell)?;
    }
    Ok(())
}

fn write_fields(
    text: &mut Vec<u8>,
    table: &Table,
    front: &[u8],
    a: usize,
    b: usize,
    cell: Cell,
) -> Result<(), AllocError>
    ensures { OnOk result (text.new.items ≡ text.old.items ++ spec.fields table.now front.now a b cell) }
{
    text.extend_from_slice(front)?;
    write_next_field(text, id_bytes(table, a))?;
    write_next_field(text, id_bytes(table, b))?;
    text.push(b',')?;
    text.push(cell.sign())?;
    text.push(b'\n')?;
    Ok(())
}
