//! What changed from one relation of a desk to the next.

ghost use Rattle.std.specs.Prelude.{◌≡◌, ◌++◌, OnOk};
ghost use Rattle.ror_show_ground.specs.Grounds.{ground_of};
ghost use Rattle.ror_show_text_changes.specs.Pages as pages;
ghost use Rattle.ror_show_text_changes.specs.Text as spec;

use crate::nothing::nothing;
use crate::relation_lists::{write_both_levels, write_differences};
use crate::relation_sides::{legend, write_counts, write_head};
use ror_bench::KeptLine;
use ror_show_find_reasons::ChangeFound;
use ror_show_find_relation::is_contradictory;
use ror_show_ground::Ground;
use ror_show_text_classes::write_gap;
use ror_show_text_relation::write_carried;
use ror_table::Table;
use std::alloc::{AllocError, Global};

/// Adds what changed in relations, in order, with an empty line between two.
pub(crate) fn write_relation_changes(
    alloc: Global,
    text: &mut Vec<u8>,
    ground: &Ground<'_>,
    found: &[ChangeFound],
) -> Result<(), AllocError>
    ensures { OnOk result (text.new.items
        ≡ text.old.items ++ pages.relation_changes (ground_of ground.now) found.now) }
{
    for number in 0..found.len() {
        write_part(alloc, text, ground, found, number)?;
    }
    Ok(())
}

/// The change with this number, behind an empty line where it isn't the first.
fn write_part(
    alloc: Global,
    text: &mut Vec<u8>,
    ground: &Ground<'_>,
    found: &[ChangeFound],
    number: usize,
) -> Result<(), AllocError>
    ensures { OnOk result (text.new.items
        ≡ text.old.items ++ pages.relation_part (ground_of ground.now) found.now number) }
{
    let Some(change) = found.get(number) else {
        return Ok(());
    };
    write_numbered(alloc, text, ground, number, change)
}

fn write_numbered(
    alloc: Global,
    text: &mut Vec<u8>,
    ground: &Ground<'_>,
    number: usize,
    change: &ChangeFound,
) -> Result<(), AllocError>
    ensures { OnOk result (text.new.items
        ≡ text.old.items ++ pages.relation_change (ground_of ground.now) number change.entry.now) }
{
    write_gap(text, number)?;
    write_change(alloc, text, ground, change)
}

fn write_change(
    alloc: Global,
    text: &mut Vec<u8>,
    ground: &Ground<'_>,
    change: &ChangeFound,
) -> Result<(), AllocError>
    ensures { OnOk result (text.new.items ≡ text.old.items ++ spec.change_text (ground_of ground.now) change.entry.now) }
{
    let Some(before) = ground.kept.get(change.before) else {
        return Ok(());
    };
    write_change_from(alloc, text, ground, change, before)
}

fn write_change_from(
    alloc: Global,
    text: &mut Vec<u8>,
    ground: &Ground<'_>,
    change: &ChangeFound,
    before: &KeptLine,
) -> Result<(), AllocError>
    ensures { OnOk result (text.new.items
        ≡ text.old.items ++ spec.change_from (ground_of ground.now) change.entry.now before.now) }
{
    let Some(now) = ground.kept.get(change.now) else {
        return Ok(());
    };
    write_change_over(alloc, text, ground, change, before, now)
}

/// Both lines, and what changed from the one to the other.
fn write_change_over(
    alloc: Global,
    text: &mut Vec<u8>,
    ground: &Ground<'_>,
    change: &ChangeFound,
    before: &KeptLine,
    now: &KeptLine,
) -> Result<(), AllocError>
    ensures { OnOk result (text.new.items
        ≡ text.old.items ++ spec.change_over (ground_of ground.now) change.entry.now before.now now.now) }
{
    write_head(alloc, text, ground, before, now)?;
    write_compared(alloc, text, ground.table, change)
}

/// What changed, where some function agrees at both lines.
fn write_compared(
    alloc: Global,
    text: &mut Vec<u8>,
    table: &Table,
    change: &ChangeFound,
) -> Result<(), AllocError>
    ensures { OnOk result (text.new.items ≡ text.old.items ++ spec.compared table.now change.entry.now) }
{
    let size = table.alternatives();
    let none_before = is_contradictory(change.first.rows.as_slice(), size);
    let none_now = is_contradictory(change.second.rows.as_slice(), size);
    if none_before || none_now {
        text.extend_from_slice(nothing(none_before, none_now))
    } else {
        write_pages(alloc, text, table, change)
    }
}

/// What the lists mean, and what changed.
fn write_pages(
    alloc: Global,
    text: &mut Vec<u8>,
    table: &Table,
    change: &ChangeFound,
) -> Result<(), AllocError>
    ensures { OnOk result (text.new.items ≡ text.old.items ++ spec.compared_text table.now change.entry.now) }
{
    text.extend_from_slice(legend())?;
    write_found(alloc, text, table, change)
}

/// What changed, and what carries what is turned round or new.
fn write_found(
    alloc: Global,
    text: &mut Vec<u8>,
    table: &Table,
    change: &ChangeFound,
) -> Result<(), AllocError>
    ensures { OnOk result (text.new.items ≡ text.old.items ++ spec.found_text table.now change.entry.now) }
{
    write_counts(text, table, &change.first, &change.second)?;
    write_differences(text, table, &change.pairs)?;
    write_both_levels(text, table, &change.first, &change.second)?;
    write_brought(alloc, text, table, change)
}

fn write_brought(
    alloc: Global,
    text: &mut Vec<u8>,
    table: &Table,
    change: &ChangeFound,
) -> Result<(), AllocError>
    ensures { OnOk result (text.new.items ≡ text.old.items ++ spec.brought_text table.now change.entry.now) }
{
    let pairs = change.brought.as_slice();
    write_carried(alloc, text, table, brought_head(), pairs)
}

fn brought_head() -> &'static [u8]
    ensures { result.now ≡ spec.brought_head }
{
    b"\n  statements that carry what is turned round or new now\n  (of these alone none can be spared; others may carry it too)\n"
}
