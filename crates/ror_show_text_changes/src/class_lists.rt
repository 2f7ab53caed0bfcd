//! The lists of what became of each alternative.

ghost use Rattle.std.specs.Prelude.{◌≡◌, ◌++◌, ◌∷◌, [], length, map, OnOk, IfOk};
ghost use Rattle.std.specs.List.{flat_map};
ghost use Rattle.ror_show_kit.specs.Layout.{room_behind, room_left, wrapped};
ghost use Rattle.ror_show_text_changes.specs.ClassText as spec;

use ror_show_find_classes::{Change, ClassChangeFound, ClassRow, RowChange, is_same};
use ror_show_kit::{id_bytes, room_behind, write_word};
use ror_show_text_classes::{write_interval, write_list};
use ror_table::Table;
use std::alloc::{AllocError, Global};

/// All lists of what changed from one time to the next.
pub(crate) fn write_found(
    alloc: Global,
    text: &mut Vec<u8>,
    table: &Table,
    change: &ClassChangeFound,
) -> Result<(), AllocError>
    ensures { OnOk result (text.new.items ≡ text.old.items ++ spec.found_text table.now change.entry.now) }
{
    let now_alone = change.now_alone.as_slice();
    let before_alone = change.before_alone.as_slice();
    write_changes(alloc, text, table, change.rows.as_slice())?;
    write_alone(alloc, text, table, b"  asked now alone:", now_alone)?;
    write_alone(alloc, text, table, b"  asked before alone:", before_alone)
}

fn write_changes(
    alloc: Global,
    text: &mut Vec<u8>,
    table: &Table,
    rows: &[RowChange],
) -> Result<(), AllocError>
    ensures { OnOk result (text.new.items ≡ text.old.items ++ spec.change_lists table.now rows.now) }
{
    write_concluded(alloc, text, table, rows)?;
    write_change(alloc, text, table, rows, Change::NotConcluded)
}

fn write_concluded(
    alloc: Global,
    text: &mut Vec<u8>,
    table: &Table,
    rows: &[RowChange],
) -> Result<(), AllocError>
    ensures { OnOk result (text.new.items ≡ text.old.items ++ spec.concluded_lists table.now rows.now) }
{
    write_change(alloc, text, table, rows, Change::Narrowed)?;
    write_change(alloc, text, table, rows, Change::Widened)?;
    write_change(alloc, text, table, rows, Change::Moved)?;
    write_change(alloc, text, table, rows, Change::Stayed)
}

/// The alternatives of a change.
fn write_change(
    alloc: Global,
    text: &mut Vec<u8>,
    table: &Table,
    rows: &[RowChange],
    change: Change,
) -> Result<(), AllocError>
    ensures { OnOk result (text.new.items ≡ text.old.items ++ spec.change_list table.now rows.now change) }
{
    let mut words = Vec::new(alloc);
    write_words(alloc, &mut words, table, rows, change)?;
    write_list(text, change_name(change), &words)
}

fn change_name(change: Change) -> &'static [u8]
    ensures { result.now ≡ spec.change_name change }
{
    match change {
        Change::Stayed => b"  stayed:",
        Change::Narrowed => b"  narrowed:",
        Change::Widened => b"  widened:",
        Change::Moved => b"  moved:",
        Change::NotConcluded => b"  not concluded:",
    }
}

/// The columns of a change's name, behind which its list goes on.
fn margin_of(change: Change) -> usize
    ensures { result ≡ length (spec.change_name change) }
{
    change_name(change).len()
}

fn write_words(
    alloc: Global,
    text: &mut Vec<u8>,
    table: &Table,
    rows: &[RowChange],
    change: Change,
) -> Result<(), AllocError>
    ensures { OnOk result (text.new.items ≡ text.old.items ++ wrapped (length (spec.change_name change))
        (room_behind (length (spec.change_name change))) (flat_map (spec.word_if table.now change) rows.now)) }
{
    let mut room = room_behind(margin_of(change));
    'rows: for row in rows {
        room = write_word_if(alloc, text, room, table, change, row)?;
    }
    Ok(())
}

/// A word on an alternative, where this became of it, and what the line has left then.
fn write_word_if(
    alloc: Global,
    text: &mut Vec<u8>,
    room: usize,
    table: &Table,
    change: Change,
    row: &RowChange,
) -> Result<usize, AllocError>
    ensures text { OnOk result (text.new.items ≡ text.old.items
        ++ wrapped (length (spec.change_name change)) room (spec.word_if table.now change row.entry.now)) }
    ensures room { IfOk result (λ left. left
        ≡ room_left (length (spec.change_name change)) room (spec.word_if table.now change row.entry.now)) }
{
    if !is_same(row.change, change) {
        return Ok(room);
    }
    let word = word_of(alloc, table, row)?;
    write_word(text, margin_of(change), room, &word)
}

fn word_of(alloc: Global, table: &Table, row: &RowChange) -> Result<Vec<u8>, AllocError>
    ensures { IfOk result (λ word. word.items ≡ spec.word_of table.now row.entry.now) }
{
    let mut word = row_text(alloc, table, row.before)?;
    write_now(&mut word, row.change, row.now)?;
    Ok(word)
}

/// An alternative with the classes between which it is.
fn row_text(alloc: Global, table: &Table, row: ClassRow) -> Result<Vec<u8>, AllocError>
    ensures { IfOk result (λ word. word.items ≡ spec.row_text table.now row) }
{
    let mut word = Vec::new(alloc);
    word.push(b' ')?;
    word.extend_from_slice(id_bytes(table, row.alternative))?;
    word.push(b' ')?;
    write_classes(&mut word, row)?;
    Ok(word)
}

/// The classes between which it is now, where they aren't those before.
fn write_now(word: &mut Vec<u8>, change: Change, now: ClassRow) -> Result<(), AllocError>
    ensures { OnOk result (word.new.items ≡ word.old.items ++ spec.now_text change now) }
{
    if change == Change::Stayed {
        return Ok(());
    }
    word.extend_from_slice(b"->")?;
    write_classes(word, now)
}

fn write_classes(word: &mut Vec<u8>, row: ClassRow) -> Result<(), AllocError>
    ensures { OnOk result (word.new.items ≡ word.old.items ++ spec.classes_text row) }
{
    if row.highest == 0 {
        return word.extend_from_slice(b"none");
    }
    write_interval(word, row.lowest, row.highest)
}

/// The alternatives of one time alone, behind the name of their list.
fn write_alone(
    alloc: Global,
    text: &mut Vec<u8>,
    table: &Table,
    name: &[u8],
    rows: &[ClassRow],
) -> Result<(), AllocError>
    ensures { OnOk result (text.new.items ≡ text.old.items ++ spec.alone_list table.now name.now rows.now) }
{
    let mut words = Vec::new(alloc);
    write_each_row(alloc, &mut words, name.len(), table, rows)?;
    write_list(text, name, &words)
}

fn write_each_row(
    alloc: Global,
    text: &mut Vec<u8>,
    margin: usize,
    table: &Table,
    rows: &[ClassRow],
) -> Result<(), AllocError>
    ensures { OnOk result (text.new.items ≡ text.old.items
        ++ wrapped margin (room_behind margin) (map (spec.row_text table.now) rows.now)) }
{
    let mut room = room_behind(margin);
    'rows: for row in rows {
        room = write_row(alloc, text, margin, room, table, *row)?;
    }
    Ok(())
}

/// An alternative with the classes between which it is, and what the line has left then.
fn write_row(
    alloc: Global,
    text: &mut Vec<u8>,
    margin: usize,
    room: usize,
    table: &Table,
    row: ClassRow,
) -> Result<usize, AllocError>
    ensures text { OnOk result (text.new.items
        ≡ text.old.items ++ wrapped margin room (spec.row_text table.now row ∷ [])) }
    ensures room { IfOk result (λ left. left ≡ room_left margin room (spec.row_text table.now row ∷ [])) }
{
    let word = row_text(alloc, table, row)?;
    write_word(text, margin, room, &word)
}
