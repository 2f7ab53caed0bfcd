//! The section of a time.

ghost use Rattle.std.specs.Prelude.{◌≡◌, ◌++◌, OnOk};
ghost use Rattle.ror_show_kit.specs.Heads.{statements_text};
ghost use Rattle.ror_show_ground.specs.Grounds.{ground_of};
ghost use Rattle.ror_show_ground.specs.Lines.{stood_numbers};
ghost use Rattle.ror_show_text_classes.specs.Text as spec;

use crate::assigned::write_assigned;
use crate::foot::write_foot;
use crate::table::write_matrix;
use ror_bench::KeptLine;
use ror_show_find_classes::{ClassLine, TimeFound};
use ror_show_ground::{Ground, stood_numbers};
use ror_show_kit::{widest, write_count, write_line, write_statements};
use ror_table::Table;
use std::alloc::{AllocError, Global};

/// Adds the section of a time: the first and the last line, the desk, the numbers of what stood, where that is kept, a row for each line,
/// which alternatives are settled and open, and which ones are assigned by what stood.
pub(crate) fn write_time(
    alloc: Global,
    text: &mut Vec<u8>,
    ground: &Ground<'_>,
    time: &TimeFound,
) -> Result<(), AllocError>
    ensures { OnOk result (text.new.items ≡ text.old.items ++ spec.time_text (ground_of ground.now) time.now) }
{
    let Some(line) = ground.kept.get(time.place) else {
        return Ok(());
    };
    write_time_over(alloc, text, ground, time, line)
}

/// The same, by its first line.
fn write_time_over(
    alloc: Global,
    text: &mut Vec<u8>,
    ground: &Ground<'_>,
    time: &TimeFound,
    line: &KeptLine,
) -> Result<(), AllocError>
    ensures { OnOk result (text.new.items
        ≡ text.old.items ++ spec.time_over (ground_of ground.now) time.now line.now) }
{
    write_head(alloc, text, ground, line, time.last)?;
    write_legend(text, ground.table.classes())?;
    write_table(alloc, text, ground.table, time.rows.as_slice())?;
    write_assigned(alloc, text, ground.table, &line.standing)
}

/// The rows, and which of them are settled and open.
fn write_table(
    alloc: Global,
    text: &mut Vec<u8>,
    table: &Table,
    rows: &[ClassLine],
) -> Result<(), AllocError>
    ensures { OnOk result (text.new.items ≡ text.old.items ++ spec.table_text table.now rows.now) }
{
    write_matrix(text, table, rows, widest(table))?;
    write_foot(alloc, text, table, rows)
}

/// Both lines, the desk and what stood there.
fn write_head(
    alloc: Global,
    text: &mut Vec<u8>,
    ground: &Ground<'_>,
    line: &KeptLine,
    last: u32,
) -> Result<(), AllocError>
    ensures { OnOk result (text.new.items ≡ text.old.items ++ spec.head_text ground.now.session.now line.now last) }
{
    write_line(text, line.block.line, ground.desk_at(line))?;
    text.extend_from_slice(b"  ask classes")?;
    write_to(text, line.block.line, last)?;
    text.extend_from_slice(b"\n")?;
    write_stood(alloc, text, line)
}

/// Adds up to which line a time goes, where that is another one than its first.
///
/// # Errors
///
/// Only want of memory.
pub fn write_to(text: &mut Vec<u8>, first: u32, last: u32) -> Result<(), AllocError>
    ensures { OnOk result (text.new.items ≡ text.old.items ++ spec.to_text first last) }
{
    if first == last {
        return Ok(());
    }
    write_count(text, b", up to line ", last as usize)
}

/// Adds the numbers of what stood before a line, where that was kept.
///
/// # Errors
///
/// Only want of memory.
pub fn write_stood(alloc: Global, text: &mut Vec<u8>, line: &KeptLine) -> Result<(), AllocError>
    ensures { OnOk result (text.new.items ≡ text.old.items ++ spec.stood_text line.now.standing) }
{
    match &line.standing {
        Some(_) => write_numbers(alloc, text, line),
        None => Ok(()),
    }
}

fn write_numbers(alloc: Global, text: &mut Vec<u8>, line: &KeptLine) -> Result<(), AllocError>
    ensures { OnOk result (text.new.items ≡ text.old.items ++ statements_text (stood_numbers line.now)) }
{
    let numbers = stood_numbers(alloc, line)?;
    write_statements(text, numbers.as_slice())
}

/// What the signs mean.
fn write_legend(text: &mut Vec<u8>, classes: u32) -> Result<(), AllocError>
    ensures { OnOk result (text.new.items ≡ text.old.items ++ spec.legend classes) }
{
    write_count(text, b"\n  classes from 1 (worst) to ", classes as usize)?;
    text.extend_from_slice(legend_end())
}

fn legend_end() -> &'static [u8]
    ensures { result.now ≡ spec.legend_end }
{
    b" (best), by the value functions that agree with the statements\n     #  the only class possible                  &  by every function; others aren't excluded\n     +  by some function, not by every one       .  by no function\n     ?  not concluded                            !  no function agrees\n     *  before it: a statement assigns it so\n"
}
