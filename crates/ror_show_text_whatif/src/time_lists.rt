//! Which classes hang on each statement.

ghost use Rattle.std.specs.Prelude.{◌≡◌, ◌++◌, OnOk};
ghost use Rattle.std.specs.List.{flat_map};
ghost use Rattle.ror_show_text_whatif.specs.TimeLists as spec;

use crate::lists::write_below;
use crate::times::{case_at, cases_in, listed_at};
use crate::ways::Way;
use ror_show_find_whatif::{ClassShift, WhatIf};
use ror_show_kit::{columns, id_bytes, room_behind};
use ror_show_text_relation::write_carrying;
use ror_table::Table;
use std::alloc::{AllocError, Global};

/// The columns before an id, and the space behind it.
const BEFORE: usize = 6;

/// Adds the classes, statement by statement.
pub(crate) fn write_time_lists(
    alloc: Global,
    text: &mut Vec<u8>,
    table: &Table,
    lines: &[WhatIf],
) -> Result<(), AllocError>
    ensures { OnOk result (text.new.items ≡ text.old.items ++ spec.time_lists table.now lines.now) }
{
    for k in 0..cases_in(lines) {
        write_at(alloc, text, table, lines, k)?;
    }
    Ok(())
}

/// Those of the statement at a place.
fn write_at(
    alloc: Global,
    text: &mut Vec<u8>,
    table: &Table,
    lines: &[WhatIf],
    k: usize,
) -> Result<(), AllocError>
    ensures { OnOk result (text.new.items ≡ text.old.items ++ spec.lists_at table.now lines.now k) }
{
    write_way(alloc, text, table, Way::Withdrawn, lines, k)?;
    write_way(alloc, text, table, Way::Contrary, lines, k)
}

/// Those of a way.
fn write_way(
    alloc: Global,
    text: &mut Vec<u8>,
    table: &Table,
    way: Way,
    lines: &[WhatIf],
    k: usize,
) -> Result<(), AllocError>
    ensures { OnOk result (text.new.items ≡ text.old.items ++ spec.way_at table.now lines.now k way) }
{
    let mut lists = Vec::new(alloc);
    write_bounds(alloc, &mut lists, table, way, lines, k)?;
    write_rest(alloc, &mut lists, table, way, lines, k)?;
    match case_at(lines, k) {
        Some(case) => write_below(text, table, way, case, lists.as_slice()),
        None => Ok(()),
    }
}

/// Which classes are opened and closed.
fn write_bounds(
    alloc: Global,
    text: &mut Vec<u8>,
    table: &Table,
    way: Way,
    lines: &[WhatIf],
    k: usize,
) -> Result<(), AllocError>
    ensures { OnOk result (text.new.items ≡ text.old.items ++ spec.bounds_text table.now lines.now k way) }
{
    let mut opened = Vec::new(alloc);
    write_each(&mut opened, table, ClassShift::Opened, way, lines, k)?;
    write_headed(text, ClassShift::Opened, opened.as_slice())?;
    let mut closed = Vec::new(alloc);
    write_each(&mut closed, table, ClassShift::Closed, way, lines, k)?;
    write_headed(text, ClassShift::Closed, closed.as_slice())
}

/// Which ones are loosened and bound, and of which it isn't known.
fn write_rest(
    alloc: Global,
    text: &mut Vec<u8>,
    table: &Table,
    way: Way,
    lines: &[WhatIf],
    k: usize,
) -> Result<(), AllocError>
    ensures { OnOk result (text.new.items ≡ text.old.items ++ spec.rest_text table.now lines.now k way) }
{
    let mut loosened = Vec::new(alloc);
    write_each(&mut loosened, table, ClassShift::Loosened, way, lines, k)?;
    write_headed(text, ClassShift::Loosened, loosened.as_slice())?;
    let mut bound = Vec::new(alloc);
    write_each(&mut bound, table, ClassShift::Bound, way, lines, k)?;
    write_headed(text, ClassShift::Bound, bound.as_slice())?;
    let mut unknown = Vec::new(alloc);
    write_each(&mut unknown, table, ClassShift::Unknown, way, lines, k)?;
    write_headed(text, ClassShift::Unknown, unknown.as_slice())
}

/// The alternatives that have classes in a list, below what these have in common, where there are some.
fn write_headed(text: &mut Vec<u8>, shift: ClassShift, rows: &[u8]) -> Result<(), AllocError>
    ensures { OnOk result (text.new.items ≡ text.old.items ++ spec.headed shift rows.now) }
{
    if rows.is_empty() {
        return Ok(());
    }
    text.extend_from_slice(head_of(shift))?;
    text.extend_from_slice(rows)
}

fn head_of(shift: ClassShift) -> &'static [u8]
    ensures { result.now ≡ spec.head_of shift }
{
    match shift {
        ClassShift::Opened => b"    opened: by some function then, and now by none\n",
        ClassShift::Closed => b"    closed: by no function then, and now by some\n",
        ClassShift::Loosened => b"    loosened: by some function then, and now by every one\n",
        ClassShift::Bound => b"    bound: by every function then, and now by some\n",
        ClassShift::Unknown => b"    unknown: a number is too wide to say, now or then\n",
    }
}

/// A row for each alternative that has classes in the list.
fn write_each(
    text: &mut Vec<u8>,
    table: &Table,
    shift: ClassShift,
    way: Way,
    lines: &[WhatIf],
    k: usize,
) -> Result<(), AllocError>
    ensures { OnOk result (text.new.items ≡ text.old.items ++ flat_map (spec.row_of table.now shift way k) lines.now) }
{
    'lines: for line in lines {
        write_row(
            text,
            table,
            line.alternative,
            listed_at(shift, way, line, k),
        )?;
    }
    Ok(())
}

/// An alternative and classes, where there are some.
fn write_row(text: &mut Vec<u8>, table: &Table, a: usize, classes: &[u32]) -> Result<(), AllocError>
    ensures { OnOk result (text.new.items ≡ text.old.items ++ spec.row_text table.now a classes.now) }
{
    if classes.is_empty() {
        return Ok(());
    }
    write_name(text, table, a)?;
    let room = room_behind(BEFORE).saturating_sub(columns(id_bytes(table, a)));
    write_carrying(text, room, Some(classes))?;
    text.push(b'\n')?;
    Ok(())
}

/// The id of the alternative, with spaces around it.
fn write_name(text: &mut Vec<u8>, table: &Table, a: usize) -> Result<(), AllocError>
    ensures { OnOk result (text.new.items ≡ text.old.items ++ spec.name_text table.now a) }
{
    text.extend_from_slice(b"     ")?;
    text.extend_from_slice(id_bytes(table, a))?;
    text.push(b' ')?;
    Ok(())
}
