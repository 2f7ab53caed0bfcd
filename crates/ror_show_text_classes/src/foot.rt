//! How many alternatives are settled, and which ones are open.

ghost use Rattle.std.specs.Prelude.{◌≡◌, ◌++◌, OnOk, IfOk};
ghost use Rattle.std.specs.List.{flat_map};
ghost use Rattle.ror_show_kit.specs.Layout.{room_behind, room_left, wrapped};
ghost use Rattle.ror_show_text_classes.specs.Text as spec;

use crate::table::id_of;
use itoa::Buffer;
use ror_show_find_classes::{ClassLine, ClassRow};
use ror_show_kit::{room_behind, write_count, write_word};
use ror_table::Table;
use std::alloc::{AllocError, Global};

/// The margin of lines that go on.
const MARGIN: usize = 7;

/// How many of the rows' alternatives are settled, and which ones are open; or, where no function agrees, that nothing is said.
pub(crate) fn write_foot(
    alloc: Global,
    text: &mut Vec<u8>,
    table: &Table,
    rows: &[ClassLine],
) -> Result<(), AllocError>
    ensures { OnOk result (text.new.items ≡ text.old.items ++ spec.foot_text table.now rows.now) }
{
    if is_contradictory(rows) {
        text.extend_from_slice(
            b"\n  no function agrees with the statements: nothing is said of classes\n",
        )
    } else {
        write_some_foot(alloc, text, table, rows)
    }
}

fn is_contradictory(rows: &[ClassLine]) -> bool
    ensures { result ≡ spec.is_contradictory rows.now }
{
    rows.iter().any(|row| row.row.contradictory)
}

fn write_some_foot(
    alloc: Global,
    text: &mut Vec<u8>,
    table: &Table,
    rows: &[ClassLine],
) -> Result<(), AllocError>
    ensures { OnOk result (text.new.items ≡ text.old.items ++ spec.some_foot table.now rows.now) }
{
    write_settled(text, settled_among(rows), rows.len())?;
    write_open(alloc, text, table, rows)
}

fn settled_among(rows: &[ClassLine]) -> usize
    ensures { result ≡ spec.settled_among rows.now }
{
    rows.iter().filter(|row| row.row.settled).count()
}

fn write_settled(text: &mut Vec<u8>, settled: usize, asked: usize) -> Result<(), AllocError>
    ensures { OnOk result (text.new.items ≡ text.old.items ++ spec.settled_text settled asked) }
{
    write_count(text, b"\n  settled: ", settled)?;
    write_count(text, b" of ", asked)?;
    text.extend_from_slice(b"\n")
}

/// The open ones, with the classes between which they are.
fn write_open(
    alloc: Global,
    text: &mut Vec<u8>,
    table: &Table,
    rows: &[ClassLine],
) -> Result<(), AllocError>
    ensures { OnOk result (text.new.items ≡ text.old.items ++ spec.open_text table.now rows.now) }
{
    let mut words = Vec::new(alloc);
    write_each_open(alloc, &mut words, table, rows)?;
    write_list(text, b"  open:", &words)
}

/// Adds a line with the words of a list behind its name, or that there are none.
///
/// # Errors
///
/// Only want of memory.
pub fn write_list(text: &mut Vec<u8>, name: &[u8], words: &[u8]) -> Result<(), AllocError>
    ensures { OnOk result (text.new.items ≡ text.old.items ++ spec.list_text name.now words.now) }
{
    text.extend_from_slice(name)?;
    text.extend_from_slice(or_none(words))?;
    text.extend_from_slice(b"\n")
}

fn or_none(words: &[u8]) -> &[u8]
    ensures { result.now ≡ spec.or_none words.now }
{
    if words.is_empty() { b" none" } else { words }
}

fn write_each_open(
    alloc: Global,
    text: &mut Vec<u8>,
    table: &Table,
    rows: &[ClassLine],
) -> Result<(), AllocError>
    ensures { OnOk result (text.new.items ≡ text.old.items
        ++ wrapped 7 (room_behind 7) (flat_map (spec.open_word table.now) rows.now)) }
{
    let mut room = room_behind(MARGIN);
    'rows: for row in rows {
        room = write_open_word(alloc, text, room, table, row)?;
    }
    Ok(())
}

/// The alternative of a row, if it is open, and what the line has left then.
fn write_open_word(
    alloc: Global,
    text: &mut Vec<u8>,
    room: usize,
    table: &Table,
    row: &ClassLine,
) -> Result<usize, AllocError>
    ensures text { OnOk result (text.new.items ≡ text.old.items ++ wrapped 7 room (spec.open_word table.now row.now)) }
    ensures room { IfOk result (λ left. left ≡ room_left 7 room (spec.open_word table.now row.now)) }
{
    if !is_open(row.row) {
        return Ok(room);
    }
    let word = class_word(alloc, id_of(table, row), row.row.lowest, row.row.highest)?;
    write_word(text, MARGIN, room, &word)
}

/// Whether it isn't settled, and some class isn't excluded.
fn is_open(row: ClassRow) -> bool
    ensures { result ≡ spec.is_open row }
{
    !row.settled && row.highest != 0
}

/// An id and the classes of an interval, behind a space.
pub(crate) fn class_word(
    alloc: Global,
    id: &[u8],
    lowest: u32,
    highest: u32,
) -> Result<Vec<u8>, AllocError>
    ensures { IfOk result (λ word. word.items ≡ spec.class_word id.now lowest highest) }
{
    let mut word = Vec::new(alloc);
    word.push(b' ')?;
    word.extend_from_slice(id)?;
    word.push(b' ')?;
    write_interval(&mut word, lowest, highest)?;
    Ok(word)
}

/// Adds a class, or the classes from one to another.
///
/// # Errors
///
/// Only want of memory.
pub fn write_interval(word: &mut Vec<u8>, lowest: u32, highest: u32) -> Result<(), AllocError>
    ensures { OnOk result (word.new.items ≡ word.old.items ++ spec.interval lowest highest) }
{
    word.extend_from_slice(Buffer::new().format(lowest).as_bytes())?;
    if lowest == highest {
        return Ok(());
    }
    word.push(b'-')?;
    word.extend_from_slice(Buffer::new().format(highest).as_bytes())
}
