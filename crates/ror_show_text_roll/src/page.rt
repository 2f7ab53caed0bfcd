//! The page of a roll.

ghost use Rattle.std.specs.Prelude.{◌≡◌, ◌++◌, OnOk, codes};
ghost use Rattle.ror_show_ground.specs.Grounds.{ground_of};
ghost use Rattle.ror_show_text_roll.specs.Page as spec;

use crate::rows::{
    write_asked_row, write_entry_row, write_gone_row, write_refused_row, write_taken_row,
};
use crate::words::write_number;
use ror_show_find_roll::{Entry, Gone, RefusedLine, Roll, TakenBack};
use ror_show_ground::Ground;
use std::alloc::{AllocError, Global};

/// Adds the page of a desk's roll after the line with this number: what stands, and what became of the rest. A desk without a
/// name has the empty one. With ids and names of at most 64 bytes, and numbers of at most 6 digits, no line has more than 120
/// columns.
///
/// # Errors
///
/// Only want of memory.
pub(crate) fn write_roll(
    alloc: Global,
    text: &mut Vec<u8>,
    ground: &Ground<'_>,
    desk: &str,
    line: u32,
    roll: &Roll,
) -> Result<(), AllocError>
    ensures { OnOk result (text.new.items
        ≡ text.old.items ++ spec.roll_text (ground_of ground.now) desk.now line roll.now) }
{
    write_standing(alloc, text, ground, desk.as_bytes(), line, roll)?;
    write_rest(alloc, text, ground, roll)
}

/// What stands, and what stands no more.
fn write_standing(
    alloc: Global,
    text: &mut Vec<u8>,
    ground: &Ground<'_>,
    desk: &[u8],
    line: u32,
    roll: &Roll,
) -> Result<(), AllocError>
    ensures { OnOk result (text.new.items
        ≡ text.old.items ++ spec.standing_text (ground_of ground.now) desk.now line roll.now) }
{
    write_head(text, desk, line)?;
    write_entries(alloc, text, ground, roll.entries.as_slice())?;
    write_all_gone(alloc, text, ground, roll.gone.as_slice())
}

/// What was taken back, refused, and asked when nothing stood.
fn write_rest(
    alloc: Global,
    text: &mut Vec<u8>,
    ground: &Ground<'_>,
    roll: &Roll,
) -> Result<(), AllocError>
    ensures { OnOk result (text.new.items
        ≡ text.old.items ++ spec.rest_text (ground_of ground.now) roll.now) }
{
    write_all_taken(alloc, text, ground, roll.taken_back.as_slice())?;
    write_all_refused(alloc, text, ground, roll.refused.as_slice())?;
    write_all_asked(alloc, text, ground, roll.asked_of_nothing.as_slice())
}

/// The desk, and the line after which this is its roll.
fn write_head(text: &mut Vec<u8>, desk: &[u8], line: u32) -> Result<(), AllocError>
    ensures { OnOk result (text.new.items ≡ text.old.items ++ spec.head_text desk.now line) }
{
    write_desk(text, desk)?;
    text.extend_from_slice(b"  after line")?;
    write_number(text, line)?;
    text.extend_from_slice(b"\n")
}

fn write_desk(text: &mut Vec<u8>, desk: &[u8]) -> Result<(), AllocError>
    ensures { OnOk result (text.new.items ≡ text.old.items ++ spec.desk_text desk.now) }
{
    if desk.is_empty() {
        return text.extend_from_slice(b"(no name)");
    }
    text.extend_from_slice(b"@")?;
    text.extend_from_slice(desk)
}

/// What stands above so many rows.
fn write_title(text: &mut Vec<u8>, name: &[u8], count: usize) -> Result<(), AllocError>
    ensures { OnOk result (text.new.items ≡ text.old.items ++ spec.title name.now count) }
{
    text.extend_from_slice(b"  ")?;
    text.extend_from_slice(name)?;
    if count == 0 {
        return text.extend_from_slice(b": none\n");
    }
    text.extend_from_slice(b"\n")
}

fn gone_name() -> &'static [u8]
    ensures { result.now ≡ codes "stands no more" }
{
    b"stands no more"
}

fn taken_name() -> &'static [u8]
    ensures { result.now ≡ codes "taken back" }
{
    b"taken back"
}

/// What stands.
fn write_entries(
    alloc: Global,
    text: &mut Vec<u8>,
    ground: &Ground<'_>,
    entries: &[Entry],
) -> Result<(), AllocError>
    ensures { OnOk result (text.new.items
        ≡ text.old.items ++ spec.entries_text (ground_of ground.now) entries.now) }
{
    write_title(text, b"stands", entries.len())?;
    'entries: for entry in entries {
        write_entry_row(alloc, text, ground, entry)?;
    }
    Ok(())
}

/// What was withdrawn or dropped.
fn write_all_gone(
    alloc: Global,
    text: &mut Vec<u8>,
    ground: &Ground<'_>,
    gone: &[Gone],
) -> Result<(), AllocError>
    ensures { OnOk result (text.new.items
        ≡ text.old.items ++ spec.gone_rows (ground_of ground.now) gone.now) }
{
    write_title(text, gone_name(), gone.len())?;
    'gone: for one in gone {
        write_gone_row(alloc, text, ground, one)?;
    }
    Ok(())
}

/// What was taken back.
fn write_all_taken(
    alloc: Global,
    text: &mut Vec<u8>,
    ground: &Ground<'_>,
    taken_back: &[TakenBack],
) -> Result<(), AllocError>
    ensures { OnOk result (text.new.items
        ≡ text.old.items ++ spec.taken_rows (ground_of ground.now) taken_back.now) }
{
    write_title(text, taken_name(), taken_back.len())?;
    'taken: for taken in taken_back {
        write_taken_row(alloc, text, ground, taken)?;
    }
    Ok(())
}

/// What was refused.
fn write_all_refused(
    alloc: Global,
    text: &mut Vec<u8>,
    ground: &Ground<'_>,
    refused: &[RefusedLine],
) -> Result<(), AllocError>
    ensures { OnOk result (text.new.items
        ≡ text.old.items ++ spec.refused_rows (ground_of ground.now) refused.now) }
{
    write_title(text, b"refused", refused.len())?;
    'refused: for line in refused {
        write_refused_row(alloc, text, ground, line)?;
    }
    Ok(())
}

/// What was asked when nothing stood.
fn write_all_asked(
    alloc: Global,
    text: &mut Vec<u8>,
    ground: &Ground<'_>,
    places: &[usize],
) -> Result<(), AllocError>
    ensures { OnOk result (text.new.items
        ≡ text.old.items ++ spec.asked_rows (ground_of ground.now) places.now) }
{
    write_title(text, b"asked when nothing stood", places.len())?;
    'places: for place in places {
        write_asked_row(alloc, text, ground, *place)?;
    }
    Ok(())
}
