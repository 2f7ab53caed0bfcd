//! The alternatives of which a relation says nothing.

ghost use Rattle.std.specs.Prelude.{◌≡◌, ◌++◌, length, OnOk, IfOk};
ghost use Rattle.std.specs.List.{list_any};
ghost use Rattle.ror_show_find_relation.specs.Relations.{some_below};
ghost use Rattle.ror_show_kit.specs.Layout.{room_behind, room_left, wrapped};
ghost use Rattle.ror_show_text_relation.specs.Apart as spec;
ghost use Rattle.ror_show_text_relation.specs.Text as texts;

use ror_show_find_relation::Cell;
use ror_show_kit::{id_bytes, room_behind, write_word};
use ror_table::Table;
use ror_text::Items;
use std::alloc::AllocError;

/// The margin of lines that go on.
const MARGIN: usize = 8;

/// The columns before the first id.
const BEFORE: usize = 19;

/// Whether no cell of an alternative's row says that the one of two is at least as good as the other by every function.
pub(crate) fn is_apart(rows: &[Items<Cell>], a: usize) -> bool
    ensures { result ≡ spec.is_apart rows.now a }
{
    match rows.get(a) {
        Some(row) => is_silent(row.as_slice()),
        None => false,
    }
}

fn is_silent(row: &[Cell]) -> bool
    ensures { result ≡ spec.is_silent row.now }
{
    !has_something(row)
}

fn has_something(row: &[Cell]) -> bool
    ensures { result ≡ list_any spec.says_something row.now }
{
    row.iter().any(|cell| says_something(*cell))
}

fn says_something(cell: Cell) -> bool
    ensures { result ≡ spec.says_something cell }
{
    match cell {
        Cell::AlwaysBetter
        | Cell::AtLeastAsGood
        | Cell::AlwaysEqual
        | Cell::AtMostAsGood
        | Cell::NeverAsGood => true,
        _ => false,
    }
}

/// Adds a line with those of which nothing is known, where there are any.
pub(crate) fn write_apart(
    text: &mut Vec<u8>,
    table: &Table,
    rows: &[Items<Cell>],
) -> Result<(), AllocError>
    ensures { OnOk result (text.new.items ≡ text.old.items ++ texts.apart_text table.now rows.now) }
{
    if !has_apart(rows, table.alternatives()) {
        return Ok(());
    }
    write_some_apart(text, table, rows)
}

fn write_some_apart(
    text: &mut Vec<u8>,
    table: &Table,
    rows: &[Items<Cell>],
) -> Result<(), AllocError>
    ensures { OnOk result (text.new.items ≡ text.old.items ++ texts.some_apart table.now rows.now) }
{
    text.extend_from_slice(b"     nothing known:")?;
    write_all(text, table, rows)?;
    text.push(b'\n')?;
    Ok(())
}

fn has_apart(rows: &[Items<Cell>], size: usize) -> bool
    ensures { result ≡ some_below (spec.is_apart rows.now) size }
{
    let mut found = false;
    for a in 0..size {
        if is_apart(rows, a) {
            found = true;
        }
    }
    found
}

fn write_all(text: &mut Vec<u8>, table: &Table, rows: &[Items<Cell>]) -> Result<(), AllocError>
    ensures { OnOk result (text.new.items
        ≡ text.old.items ++ wrapped 8 (room_behind 19) (texts.all_apart table.now rows.now)) }
{
    let mut room = room_behind(BEFORE);
    for a in 0..table.alternatives() {
        room = write_one(text, room, table, rows, a)?;
    }
    Ok(())
}

/// The id of the alternative, where nothing is known of it, and what the line has left then.
fn write_one(
    text: &mut Vec<u8>,
    room: usize,
    table: &Table,
    rows: &[Items<Cell>],
    a: usize,
) -> Result<usize, AllocError>
    ensures text { OnOk result (text.new.items ≡ text.old.items ++ wrapped 8 room (texts.apart table.now rows.now a)) }
    ensures room { IfOk result (λ left. left ≡ room_left 8 room (texts.apart table.now rows.now a)) }
{
    if !is_apart(rows, a) {
        return Ok(room);
    }
    write_word(text, MARGIN, room, id_bytes(table, a))
}
