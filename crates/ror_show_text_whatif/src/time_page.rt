//! What hangs on each statement at times at which classes were asked for.

ghost use Rattle.std.specs.Prelude.{◌≡◌, ◌++◌, OnOk};
ghost use Rattle.ror_show_ground.specs.Grounds.{ground_of};
ghost use Rattle.ror_show_text_classes.specs.Text.{head_text};
ghost use Rattle.ror_show_text_whatif.specs.Pages as spec;

use crate::legend::{agreement_text, legend, no_statement};
use crate::table::write_table;
use crate::time_lists::write_time_lists;
use crate::times::{agreement_over, cases_in, time_rows};
use crate::ways::Way;
use ror_bench::KeptLine;
use ror_show_find_whatif::{Asks, TimeWhatIf, WhatIf};
use ror_show_ground::Ground;
use ror_show_kit::write_line;
use ror_show_text_classes::{write_stood, write_to};
use ror_table::Table;
use std::alloc::{AllocError, Global};

/// Adds what hangs on each statement at each time that is found, one after the other: in how many alternatives' classes something changes,
/// in two tables, and below them which ones; and an empty line.
///
/// # Errors
///
/// Only want of memory, here and below.
pub fn write_class_whatifs(
    alloc: Global,
    text: &mut Vec<u8>,
    ground: &Ground<'_>,
    found: &[TimeWhatIf],
) -> Result<(), AllocError>
    ensures { OnOk result (text.new.items ≡ text.old.items ++ spec.times_text (ground_of ground.now) found.now) }
{
    'times: for time in found {
        write_time(alloc, text, ground, time)?;
    }
    Ok(())
}

/// At the time that a kept line begins.
fn write_time(
    alloc: Global,
    text: &mut Vec<u8>,
    ground: &Ground<'_>,
    found: &TimeWhatIf,
) -> Result<(), AllocError>
    ensures { OnOk result (text.new.items ≡ text.old.items ++ spec.time_text (ground_of ground.now) found.now) }
{
    match ground.kept.get(found.time.place) {
        Some(line) => write_time_over(alloc, text, ground, found, line),
        None => Ok(()),
    }
}

fn write_time_over(
    alloc: Global,
    text: &mut Vec<u8>,
    ground: &Ground<'_>,
    found: &TimeWhatIf,
    line: &KeptLine,
) -> Result<(), AllocError>
    ensures { OnOk result (text.new.items ≡ text.old.items ++ spec.time_over (ground_of ground.now) found.now line.now) }
{
    let lines = found.rows.as_slice();
    write_head(alloc, text, ground, line, found.time.last)?;
    text.extend_from_slice(agreement_text(agreement_over(lines)))?;
    write_body(alloc, text, ground.table, lines)?;
    text.push(b'\n')?;
    Ok(())
}

/// The first and the last line, and what stood.
fn write_head(
    alloc: Global,
    text: &mut Vec<u8>,
    ground: &Ground<'_>,
    line: &KeptLine,
    last: u32,
) -> Result<(), AllocError>
    ensures { OnOk result (text.new.items ≡ text.old.items ++ head_text ground.now.session.now line.now last) }
{
    write_line(text, line.block.line, ground.desk_at(line))?;
    text.extend_from_slice(b"  ask classes")?;
    write_to(text, line.block.line, last)?;
    text.extend_from_slice(b"\n")?;
    write_stood(alloc, text, line)
}

fn write_body(
    alloc: Global,
    text: &mut Vec<u8>,
    table: &Table,
    lines: &[WhatIf],
) -> Result<(), AllocError>
    ensures { OnOk result (text.new.items ≡ text.old.items ++ spec.time_body table.now lines.now) }
{
    if cases_in(lines) == 0 {
        return text.extend_from_slice(no_statement());
    }
    write_tables(alloc, text, table, lines)
}

/// Both tables, and below them the classes.
fn write_tables(
    alloc: Global,
    text: &mut Vec<u8>,
    table: &Table,
    lines: &[WhatIf],
) -> Result<(), AllocError>
    ensures { OnOk result (text.new.items ≡ text.old.items ++ spec.time_tables table.now lines.now) }
{
    text.extend_from_slice(legend(Asks::Classes))?;
    write_way(alloc, text, table, Way::Withdrawn, lines)?;
    write_way(alloc, text, table, Way::Contrary, lines)?;
    write_time_lists(alloc, text, table, lines)
}

/// The table of a way.
fn write_way(
    alloc: Global,
    text: &mut Vec<u8>,
    table: &Table,
    way: Way,
    lines: &[WhatIf],
) -> Result<(), AllocError>
    ensures { OnOk result (text.new.items ≡ text.old.items ++ spec.time_way table.now way lines.now) }
{
    let rows = time_rows(alloc, way, lines)?;
    write_table(text, table, Asks::Classes, way, rows.as_slice())
}
