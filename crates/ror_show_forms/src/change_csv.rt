//! What changed, as comma-separated values.

ghost use Rattle.std.specs.Prelude.{◌≡◌, ◌≤◌, ◌++◌, IfOk, OnOk};
ghost use Rattle.std.specs.List.{flat_map};
ghost use Rattle.ror_show_ground.specs.Grounds.{ground_of};
ghost use Rattle.ror_show_forms.specs.ChangeCsv as spec;

use itoa::Buffer;
use ror_bench::KeptLine;
use ror_show_find_reasons::ChangeFound;
use ror_show_find_relation::{Change, Differences, is_contradictory};
use ror_show_ground::Ground;
use ror_show_kit::{id_bytes, write_next_field};
use ror_table::Table;
use std::alloc::{AllocError, Global};

/// The names of the values, as the first line of a file.
pub fn changes_head() -> &'static [u8]
    ensures { result.now ≡ spec.csv_head }
{
    b"line before,line now,desk,change,from,to\n"
}

/// Adds for each change of a relation a line for each pair that was turned round, is no longer so, stayed or is new: the numbers of both
/// lines of the session, the desk, the change, and both ids, those of a pair that was turned round as they were before. Where no function
/// agrees at one of both lines there is nothing to compare, and so no line. A value with a comma, a quotation mark or an end of a line
/// stands between quotation marks, with those within it doubled.
///
/// # Errors
///
/// Only want of memory.
pub fn write_changes_csv(
    alloc: Global,
    text: &mut Vec<u8>,
    ground: &Ground<'_>,
    found: &[ChangeFound],
) -> Result<(), AllocError>
    ensures { OnOk result (text.new.items
        ≡ text.old.items ++ flat_map (spec.change_values (ground_of ground.now)) found.now) }
{
    'turns: for change in found {
        write_change(alloc, text, ground, change)?;
    }
    Ok(())
}

/// The values of a change, where some function agrees at both its lines.
fn write_change(
    alloc: Global,
    text: &mut Vec<u8>,
    ground: &Ground<'_>,
    found: &ChangeFound,
) -> Result<(), AllocError>
    ensures { OnOk result (text.new.items
        ≡ text.old.items ++ spec.change_values (ground_of ground.now) found.entry.now) }
{
    if has_nothing(ground.table.alternatives(), found) {
        return Ok(());
    }
    write_compared(alloc, text, ground, found)
}

/// Whether no function agrees at one of both lines.
fn has_nothing(size: usize, found: &ChangeFound) -> bool
    requires { size ≤ 200 }
    ensures { result ≡ spec.has_nothing size found.entry.now }
{
    is_contradictory(found.first.rows.as_slice(), size)
        || is_contradictory(found.second.rows.as_slice(), size)
}

/// The values of a change, if both its lines are kept ones.
fn write_compared(
    alloc: Global,
    text: &mut Vec<u8>,
    ground: &Ground<'_>,
    found: &ChangeFound,
) -> Result<(), AllocError>
    ensures { OnOk result (text.new.items
        ≡ text.old.items ++ spec.compared_values (ground_of ground.now) found.entry.now) }
{
    let Some(before) = ground.kept.get(found.before) else {
        return Ok(());
    };
    let Some(now) = ground.kept.get(found.now) else {
        return Ok(());
    };
    write_between(alloc, text, ground, before, now, &found.pairs)
}

fn write_between(
    alloc: Global,
    text: &mut Vec<u8>,
    ground: &Ground<'_>,
    before: &KeptLine,
    now: &KeptLine,
    pairs: &Differences,
) -> Result<(), AllocError>
    ensures { OnOk result (text.new.items
        ≡ text.old.items ++ spec.values_between (ground_of ground.now) pairs.now before.now now.now) }
{
    let front = lines_of(alloc, ground, before, now)?;
    write_differences(text, ground.table, front.as_slice(), pairs)
}

/// What each line begins with: the numbers of both lines, and their desk.
fn lines_of(
    alloc: Global,
    ground: &Ground<'_>,
    before: &KeptLine,
    now: &KeptLine,
) -> Result<Vec<u8>, AllocError>
    ensures { IfOk result (λ made. made.items ≡ spec.csv_lines ground.now.session.now before.now now.now) }
{
    let mut made = Vec::new(alloc);
    made.extend_from_slice(Buffer::new().format(before.block.line).as_bytes())?;
    made.push(b',')?;
    made.extend_from_slice(Buffer::new().format(now.block.line).as_bytes())?;
    write_next_field(&mut made, ground.desk_at(now).as_bytes())?;
    Ok(made)
}

/// The pairs of each change.
fn write_differences(
    text: &mut Vec<u8>,
    table: &Table,
    front: &[u8],
    pairs: &Differences,
) -> Result<(), AllocError>
    ensures { OnOk result (text.new.items
        ≡ text.old.items ++ spec.differences_values table.now front.now pairs.now) }
{
    write_lines(
        text,
        table,
        front,
        Change::TurnedRound,
        pairs.turned.as_slice(),
    )?;
    write_lines(
        text,
        table,
        front,
        Change::NoLonger,
        pairs.no_longer.as_slice(),
    )?;
    write_lines(text, table, front, Change::Stayed, pairs.stayed.as_slice())?;
    write_lines(text, table, front, Change::New, pairs.new.as_slice())
}

fn write_lines(
    text: &mut Vec<u8>,
    table: &Table,
    front: &[u8],
    change: Change,
    pairs: &[(usize, usize)],
) -> Result<(), AllocError>
    ensures { OnOk result (text.new.items
        ≡ text.old.items ++ spec.csv_change table.now front.now change pairs.now) }
{
    'pairs: for pair in pairs {
        write_line(text, table, front, change, *pair)?;
    }
    Ok(())
}

fn write_line(
    text: &mut Vec<u8>,
    table: &Table,
    front: &[u8],
    change: Change,
    pair: (usize, usize),
) -> Result<(), AllocError>
    ensures { OnOk result (text.new.items ≡ text.old.items ++ spec.csv_line table.now front.now change pair) }
{
    text.extend_from_slice(front)?;
    text.extend_from_slice(change_word(change))?;
    write_pair(text, table, pair)
}

fn change_word(change: Change) -> &'static [u8]
    ensures { result.now ≡ spec.change_word change }
{
    match change {
        Change::TurnedRound => b",turned round",
        Change::NoLonger => b",no longer",
        Change::Stayed => b",stayed",
        Change::New => b",new",
    }
}

fn write_pair(text: &mut Vec<u8>, table: &Table, pair: (usize, usize)) -> Result<(), AllocError>
    ensures { OnOk result (text.new.items ≡ text.old.items ++ spec.csv_pair table.now pair) }
{
    write_next_field(text, id_bytes(table, pair.0))?;
    write_next_field(text, id_bytes(table, pair.1))?;
    text.push(b'\n')?;
    Ok(())
}
