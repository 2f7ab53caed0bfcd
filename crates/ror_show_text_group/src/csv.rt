//! What judges say as comma-separated values.

ghost use Rattle.std.specs.Prelude.{◌≡◌, ◌++◌, length, OnOk};
ghost use Rattle.std.specs.List.{flat_map, range_with_len};
ghost use Rattle.ror_show_text_group.specs.Csv as spec;

use crate::judges::{label, name_at};
use ror_show_find_group::{GroupFound, JudgeFound, group_cell_in};
use ror_show_kit::{id_bytes, write_field, write_next_field};
use ror_table::Table;
use ror_text::Text;
use std::alloc::AllocError;

/// Adds a line with the names of the values, and a line for each ordered pair of different alternatives: both ids, the sign of the judges
/// who are heard, and that of each judge. A value with a comma, a quotation mark or an end of a line stands between quotation marks, with
/// those within it doubled.
///
/// # Errors
///
/// Only want of memory.
pub fn write_group_csv(
    text: &mut Vec<u8>,
    table: &Table,
    desks: &[Text],
    found: &GroupFound,
) -> Result<(), AllocError>
    ensures { OnOk result (text.new.items ≡ text.old.items ++ spec.csv_text table.now desks.now found.now) }
{
    write_head(text, desks, found.judges.len())?;
    write_lines(text, table, found)
}

/// The names of the values.
fn write_head(text: &mut Vec<u8>, desks: &[Text], judges: usize) -> Result<(), AllocError>
    ensures { OnOk result (text.new.items ≡ text.old.items ++ spec.csv_head desks.now judges) }
{
    text.extend_from_slice(b"from,to,group")?;
    write_names(text, desks, judges)?;
    text.extend_from_slice(b"\n")
}

fn write_names(text: &mut Vec<u8>, desks: &[Text], judges: usize) -> Result<(), AllocError>
    ensures { OnOk result (text.new.items
        ≡ text.old.items ++ flat_map (spec.name_field desks.now) (range_with_len 0 judges)) }
{
    for k in 0..judges {
        write_next_field(text, label(name_at(desks, k)))?;
    }
    Ok(())
}

fn write_lines(text: &mut Vec<u8>, table: &Table, found: &GroupFound) -> Result<(), AllocError>
    ensures { OnOk result (text.new.items ≡ text.old.items
        ++ flat_map (spec.csv_lines table.now found.now) (range_with_len 0 (length table.now.alternatives))) }
{
    for a in 0..table.alternatives() {
        write_lines_from(text, table, found, a)?;
    }
    Ok(())
}

/// The lines of the pairs of one alternative.
fn write_lines_from(
    text: &mut Vec<u8>,
    table: &Table,
    found: &GroupFound,
    a: usize,
) -> Result<(), AllocError>
    ensures { OnOk result (text.new.items ≡ text.old.items ++ spec.csv_lines table.now found.now a) }
{
    for b in 0..table.alternatives() {
        write_line(text, table, found, a, b)?;
    }
    Ok(())
}

/// The line of a pair, if its alternatives differ.
fn write_line(
    text: &mut Vec<u8>,
    table: &Table,
    found: &GroupFound,
    a: usize,
    b: usize,
) -> Result<(), AllocError>
    ensures { OnOk result (text.new.items ≡ text.old.items ++ spec.csv_line table.now found.now a b) }
{
    if a == b {
        return Ok(());
    }
    write_ids(text, table, a, b)?;
    text.push(group_cell_in(found.rows.as_slice(), a, b).sign())?;
    write_votes(text, found.judges.as_slice(), a, b)?;
    text.extend_from_slice(b"\n")
}

fn write_ids(text: &mut Vec<u8>, table: &Table, a: usize, b: usize) -> Result<(), AllocError>
    ensures { OnOk result (text.new.items ≡ text.old.items ++ spec.ids table.now a b) }
{
    write_field(text, id_bytes(table, a))?;
    write_next_field(text, id_bytes(table, b))?;
    text.extend_from_slice(b",")
}

/// The signs of the judges.
fn write_votes(
    text: &mut Vec<u8>,
    judges: &[JudgeFound],
    a: usize,
    b: usize,
) -> Result<(), AllocError>
    ensures { OnOk result (text.new.items ≡ text.old.items ++ flat_map (spec.vote a b) judges.now) }
{
    'judges: for judge in judges {
        write_vote(text, judge, a, b)?;
    }
    Ok(())
}

fn write_vote(text: &mut Vec<u8>, judge: &JudgeFound, a: usize, b: usize) -> Result<(), AllocError>
    ensures { OnOk result (text.new.items ≡ text.old.items ++ spec.vote a b judge.now) }
{
    text.push(b',')?;
    text.push(judge.cell(a, b).sign())?;
    Ok(())
}
