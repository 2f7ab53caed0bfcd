//! The statements that settle the bounds of the alternatives of a time, below its section.

ghost use Rattle.std.specs.Prelude.{◌≡◌, ◌++◌, OnOk};
ghost use Rattle.ror_show_text_classes.specs.Pages as spec;

use crate::words::write_bound;
use ror_show_find_classes::ClassLine;
use ror_show_find_reasons::{Bound, Bounds, Side};
use ror_table::Table;
use std::alloc::{AllocError, Global};

/// Adds the bounds of these rows below a head; nothing where there are none.
pub(crate) fn write_bounds(
    alloc: Global,
    text: &mut Vec<u8>,
    table: &Table,
    rows: &[ClassLine],
    bounds: &[Bounds],
) -> Result<(), AllocError>
    ensures { OnOk result (text.new.items
        ≡ text.old.items ++ spec.headed (spec.bounds_lines table.now rows.now bounds.now)) }
{
    let mut lines = Vec::new(alloc);
    write_lines(alloc, &mut lines, table, rows, bounds)?;
    write_headed(text, &lines)
}

/// Lines below the head, where there are some.
fn write_headed(text: &mut Vec<u8>, lines: &[u8]) -> Result<(), AllocError>
    ensures { OnOk result (text.new.items ≡ text.old.items ++ spec.headed lines.now) }
{
    if lines.is_empty() {
        return Ok(());
    }
    text.extend_from_slice(bounds_head())?;
    text.extend_from_slice(lines)
}

fn bounds_head() -> &'static [u8]
    ensures { result.now ≡ spec.bounds_head }
{
    b"\n  statements that settle each bound (of these alone none can be spared; others may settle it too)\n"
}

fn write_lines(
    alloc: Global,
    text: &mut Vec<u8>,
    table: &Table,
    rows: &[ClassLine],
    bounds: &[Bounds],
) -> Result<(), AllocError>
    ensures { OnOk result (text.new.items
        ≡ text.old.items ++ spec.bounds_lines table.now rows.now bounds.now) }
{
    for k in 0..rows.len() {
        write_bounds_at(alloc, text, table, rows, bounds, k)?;
    }
    Ok(())
}

/// The bounds of the row at a place.
fn write_bounds_at(
    alloc: Global,
    text: &mut Vec<u8>,
    table: &Table,
    rows: &[ClassLine],
    bounds: &[Bounds],
    k: usize,
) -> Result<(), AllocError>
    ensures { OnOk result (text.new.items
        ≡ text.old.items ++ spec.bounds_at table.now rows.now bounds.now k) }
{
    let Some(row) = rows.get(k) else {
        return Ok(());
    };
    write_bounds_of(alloc, text, table, bounds, k, row)
}

fn write_bounds_of(
    alloc: Global,
    text: &mut Vec<u8>,
    table: &Table,
    bounds: &[Bounds],
    k: usize,
    row: &ClassLine,
) -> Result<(), AllocError>
    ensures { OnOk result (text.new.items
        ≡ text.old.items ++ spec.bounds_of table.now bounds.now k row.now) }
{
    let Some(both) = bounds.get(k) else {
        return Ok(());
    };
    write_both(alloc, text, table, row, both)
}

/// Both bounds of a row.
fn write_both(
    alloc: Global,
    text: &mut Vec<u8>,
    table: &Table,
    row: &ClassLine,
    both: &Bounds,
) -> Result<(), AllocError>
    ensures { OnOk result (text.new.items ≡ text.old.items ++ spec.row_bounds table.now row.now both.now) }
{
    let a = row.row.alternative;
    write_one(alloc, text, table, a, Side::Below, &both.below)?;
    write_one(alloc, text, table, a, Side::Above, &both.above)
}

/// The bound on a side, where there is one.
fn write_one(
    alloc: Global,
    text: &mut Vec<u8>,
    table: &Table,
    a: usize,
    side: Side,
    bound: &Option<Bound>,
) -> Result<(), AllocError>
    ensures { OnOk result (text.new.items ≡ text.old.items ++ spec.bound_text table.now a side bound.now) }
{
    match bound {
        Some(bound) => write_bound(alloc, text, table, a, side, bound),
        None => Ok(()),
    }
}
