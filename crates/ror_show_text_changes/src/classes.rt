//! What changed in classes from one time of a desk to the next.

ghost use Rattle.std.specs.Prelude.{◌≡◌, ◌++◌, OnOk};
ghost use Rattle.ror_show_ground.specs.Grounds.{ground_of};
ghost use Rattle.ror_show_text_changes.specs.ClassText as spec;
ghost use Rattle.ror_show_text_changes.specs.Pages as pages;

use crate::class_lists::write_found;
use crate::class_sides::{legend, write_head, write_settled};
use crate::nothing::nothing;
use ror_show_find_classes::{ClassChangeFound, ClassRow, ClassTime};
use ror_show_ground::Ground;
use ror_show_text_classes::write_gap;
use ror_table::Table;
use std::alloc::{AllocError, Global};

/// Adds what changed in classes, in order, with an empty line between two.
pub(crate) fn write_class_changes(
    alloc: Global,
    text: &mut Vec<u8>,
    ground: &Ground<'_>,
    times: &[ClassTime],
    found: &[ClassChangeFound],
) -> Result<(), AllocError>
    ensures { OnOk result (text.new.items
        ≡ text.old.items ++ pages.class_changes (ground_of ground.now) times.now found.now) }
{
    for number in 0..found.len() {
        write_part(alloc, text, ground, times, found, number)?;
    }
    Ok(())
}

/// The change with this number, behind an empty line where it isn't the first.
fn write_part(
    alloc: Global,
    text: &mut Vec<u8>,
    ground: &Ground<'_>,
    times: &[ClassTime],
    found: &[ClassChangeFound],
    number: usize,
) -> Result<(), AllocError>
    ensures { OnOk result (text.new.items
        ≡ text.old.items ++ pages.class_part (ground_of ground.now) times.now found.now number) }
{
    let Some(change) = found.get(number) else {
        return Ok(());
    };
    write_numbered(alloc, text, ground, times, number, change)
}

fn write_numbered(
    alloc: Global,
    text: &mut Vec<u8>,
    ground: &Ground<'_>,
    times: &[ClassTime],
    number: usize,
    change: &ClassChangeFound,
) -> Result<(), AllocError>
    ensures { OnOk result (text.new.items
        ≡ text.old.items ++ pages.class_change (ground_of ground.now) times.now number change.entry.now) }
{
    write_gap(text, number)?;
    write_change(alloc, text, ground, times, change)
}

fn write_change(
    alloc: Global,
    text: &mut Vec<u8>,
    ground: &Ground<'_>,
    times: &[ClassTime],
    change: &ClassChangeFound,
) -> Result<(), AllocError>
    ensures { OnOk result (text.new.items
        ≡ text.old.items ++ spec.change_text (ground_of ground.now) times.now change.entry.now) }
{
    let Some(before) = times.get(change.before) else {
        return Ok(());
    };
    write_change_from(alloc, text, ground, times, change, before)
}

fn write_change_from(
    alloc: Global,
    text: &mut Vec<u8>,
    ground: &Ground<'_>,
    times: &[ClassTime],
    change: &ClassChangeFound,
    before: &ClassTime,
) -> Result<(), AllocError>
    ensures { OnOk result (text.new.items
        ≡ text.old.items ++ spec.change_from (ground_of ground.now) times.now change.entry.now before.now) }
{
    let Some(now) = times.get(change.now) else {
        return Ok(());
    };
    write_change_over(alloc, text, ground, change, before, now)
}

fn write_change_over(
    alloc: Global,
    text: &mut Vec<u8>,
    ground: &Ground<'_>,
    change: &ClassChangeFound,
    before: &ClassTime,
    now: &ClassTime,
) -> Result<(), AllocError>
    ensures { OnOk result (text.new.items
        ≡ text.old.items ++ spec.change_over (ground_of ground.now) change.entry.now before.now now.now) }
{
    let earlier = before.intervals.as_slice();
    let later = now.intervals.as_slice();
    write_head(alloc, text, ground, before, now)?;
    write_compared(alloc, text, ground.table, change, earlier, later)
}

/// What changed, where some function agrees at both times.
fn write_compared(
    alloc: Global,
    text: &mut Vec<u8>,
    table: &Table,
    change: &ClassChangeFound,
    before: &[ClassRow],
    now: &[ClassRow],
) -> Result<(), AllocError>
    ensures { OnOk result (text.new.items
        ≡ text.old.items ++ spec.compared table.now change.entry.now before.now now.now) }
{
    let none_before = is_contradictory(before);
    let none_now = is_contradictory(now);
    if none_before || none_now {
        text.extend_from_slice(nothing(none_before, none_now))
    } else {
        write_rows(alloc, text, table, change, before, now)
    }
}

/// Whether no function agrees with what stands at the time of these rows.
fn is_contradictory(rows: &[ClassRow]) -> bool
    ensures { result ≡ spec.is_contradictory rows.now }
{
    rows.iter().any(|row| row.contradictory)
}

/// What the lists say, how many alternatives are settled, and the lists.
fn write_rows(
    alloc: Global,
    text: &mut Vec<u8>,
    table: &Table,
    change: &ClassChangeFound,
    before: &[ClassRow],
    now: &[ClassRow],
) -> Result<(), AllocError>
    ensures { OnOk result (text.new.items
        ≡ text.old.items ++ spec.compared_text table.now change.entry.now before.now now.now) }
{
    text.extend_from_slice(legend())?;
    write_settled(text, before, now)?;
    write_found(alloc, text, table, change)
}
