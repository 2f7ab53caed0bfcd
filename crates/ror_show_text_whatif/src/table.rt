//! How much hangs on each statement: a table, the most first.

ghost use Rattle.std.specs.Prelude.{◌≡◌, ◌++◌, OnOk};
ghost use Rattle.std.specs.List.{flat_map};
ghost use Rattle.ror_show_text_whatif.specs.Table as spec;

use crate::rows::{Row, most_in};
use crate::told::{Counts, Remark, Told, first_of};
use crate::ways::Way;
use ror_show_find_whatif::Asks;
use ror_show_kit::{write_left, write_number, write_statement};
use ror_table::Table;
use std::alloc::AllocError;

/// Adds the table of a way.
pub(crate) fn write_table(
    text: &mut Vec<u8>,
    table: &Table,
    asks: Asks,
    way: Way,
    rows: &[Row],
) -> Result<(), AllocError>
    ensures { OnOk result (text.new.items ≡ text.old.items ++ spec.table_text table.now asks way rows.now) }
{
    text.extend_from_slice(title(way))?;
    text.extend_from_slice(columns_text(asks))?;
    write_rows(text, table, rows)
}

fn title(way: Way) -> &'static [u8]
    ensures { result.now ≡ spec.title way }
{
    match way {
        Way::Withdrawn => b"\n  if one statement is withdrawn, and all others stand\n",
        Way::Contrary =>
            b"\n  if the contrary of one statement is said in its place, and all others stand\n  (excluded by the others: what was said follows from them)\n",
    }
}

fn columns_text(asks: Asks) -> &'static [u8]
    ensures { result.now ≡ spec.columns_text asks }
{
    match asks {
        Asks::Relation => b"     N      lost    weaker       won  stronger   unknown\n",
        Asks::Classes => b"     N    opened    closed  loosened     bound   unknown\n",
    }
}

/// The rows, from the greatest count down, and those with none behind.
fn write_rows(text: &mut Vec<u8>, table: &Table, rows: &[Row]) -> Result<(), AllocError>
    ensures { OnOk result (text.new.items ≡ text.old.items ++ spec.rows_text table.now rows.now) }
{
    write_above(text, table, most_in(rows), rows)?;
    write_each_with(text, table, 0, rows)
}

/// Those with a count, from this one down.
fn write_above(
    text: &mut Vec<u8>,
    table: &Table,
    most: usize,
    rows: &[Row],
) -> Result<(), AllocError>
    ensures { OnOk result (text.new.items ≡ text.old.items ++ spec.rows_above table.now rows.now most) }
{
    for k in 0..most {
        write_each_with(text, table, most - k, rows)?;
    }
    Ok(())
}

/// Those with this count, in order.
fn write_each_with(
    text: &mut Vec<u8>,
    table: &Table,
    count: usize,
    rows: &[Row],
) -> Result<(), AllocError>
    ensures { OnOk result (text.new.items ≡ text.old.items ++ flat_map (spec.row_if table.now count) rows.now) }
{
    'rows: for row in rows {
        write_row_if(text, table, count, row)?;
    }
    Ok(())
}

fn write_row_if(
    text: &mut Vec<u8>,
    table: &Table,
    count: usize,
    row: &Row,
) -> Result<(), AllocError>
    ensures { OnOk result (text.new.items ≡ text.old.items ++ spec.row_if table.now count row.now) }
{
    if first_of(row.told) == count {
        write_row(text, table, row)?;
    }
    Ok(())
}

fn write_row(text: &mut Vec<u8>, table: &Table, row: &Row) -> Result<(), AllocError>
    ensures { OnOk result (text.new.items ≡ text.old.items ++ spec.row_text table.now row.now) }
{
    write_number(text, 6, row.number as usize)?;
    write_told(text, row.told)?;
    text.extend_from_slice(b"  ")?;
    write_statement(text, table, row.said)?;
    text.push(b'\n')?;
    Ok(())
}

fn write_told(text: &mut Vec<u8>, told: Told) -> Result<(), AllocError>
    ensures { OnOk result (text.new.items ≡ text.old.items ++ spec.told_text told) }
{
    match told {
        Told::Counts(counts) => write_counts(text, counts),
        Told::Remark(remark) => write_remark(text, remark),
    }
}

/// Words in as many columns as the counts.
fn write_remark(text: &mut Vec<u8>, remark: Remark) -> Result<(), AllocError>
    ensures { OnOk result (text.new.items ≡ text.old.items ++ spec.told_text (Told.Remark remark)) }
{
    text.extend_from_slice(b"  ")?;
    write_left(text, 48, words_for(remark))
}

fn words_for(remark: Remark) -> &'static [u8]
    ensures { result.now ≡ spec.words_for remark }
{
    match remark {
        Remark::NoContrary => b"no statement is its contrary",
        Remark::Ends => b"the contradiction ends",
        Remark::Stays => b"the contradiction stays",
        Remark::NotKnown => b"too wide to say if the contradiction ends",
        Remark::NoFunction => b"no function agrees then",
        Remark::Excluded => b"excluded by the others",
    }
}

fn write_counts(text: &mut Vec<u8>, counts: Counts) -> Result<(), AllocError>
    ensures { OnOk result (text.new.items ≡ text.old.items ++ spec.told_text (Told.Counts counts)) }
{
    write_number(text, 10, counts.first)?;
    write_number(text, 10, counts.second)?;
    write_number(text, 10, counts.third)?;
    write_number(text, 10, counts.fourth)?;
    write_number(text, 10, counts.unknown)
}
