//! The rows of a roll's page.

ghost use Rattle.std.specs.Prelude.{◌≡◌, ◌++◌, OnOk};
ghost use Rattle.ror_show_ground.specs.Grounds.{ground_of};
ghost use Rattle.ror_show_text_roll.specs.Page as spec;

use crate::origins::{
    write_gone, write_line, write_origin, write_refused, write_said, write_source_statement,
    write_taken,
};
use crate::row::write_row;
use ror_show_find_roll::{Entry, Gone, RefusedLine, TakenBack};
use ror_show_ground::Ground;
use std::alloc::{AllocError, Global};

/// Adds the row of a statement that stands.
pub(crate) fn write_entry_row(
    alloc: Global,
    text: &mut Vec<u8>,
    ground: &Ground<'_>,
    entry: &Entry,
) -> Result<(), AllocError>
    ensures { OnOk result (text.new.items
        ≡ text.old.items ++ spec.entry_row (ground_of ground.now) entry.now) }
{
    let mut statement = Vec::new(alloc);
    write_source_statement(&mut statement, ground, entry.number, entry.said)?;
    let mut origin = Vec::new(alloc);
    write_origin(&mut origin, ground, entry)?;
    write_row(text, Some(entry.number), &statement, &origin)
}

/// Adds the row of a statement that stands no more.
pub(crate) fn write_gone_row(
    alloc: Global,
    text: &mut Vec<u8>,
    ground: &Ground<'_>,
    gone: &Gone,
) -> Result<(), AllocError>
    ensures { OnOk result (text.new.items
        ≡ text.old.items ++ spec.gone_row (ground_of ground.now) gone.now) }
{
    let mut statement = Vec::new(alloc);
    write_source_statement(&mut statement, ground, gone.entry.number, gone.entry.said)?;
    let mut end = Vec::new(alloc);
    write_gone(&mut end, ground, gone)?;
    write_row(text, Some(gone.entry.number), &statement, &end)
}

/// Adds the row of a line that was taken back.
pub(crate) fn write_taken_row(
    alloc: Global,
    text: &mut Vec<u8>,
    ground: &Ground<'_>,
    taken: &TakenBack,
) -> Result<(), AllocError>
    ensures { OnOk result (text.new.items
        ≡ text.old.items ++ spec.taken_row (ground_of ground.now) taken.now) }
{
    let mut said = Vec::new(alloc);
    write_said(&mut said, ground, taken.taken)?;
    let mut lines = Vec::new(alloc);
    write_taken(&mut lines, ground, taken)?;
    write_row(text, None, &said, &lines)
}

/// Adds the row of a line that was refused.
pub(crate) fn write_refused_row(
    alloc: Global,
    text: &mut Vec<u8>,
    ground: &Ground<'_>,
    refused: &RefusedLine,
) -> Result<(), AllocError>
    ensures { OnOk result (text.new.items
        ≡ text.old.items ++ spec.refused_row (ground_of ground.now) refused.now) }
{
    let mut said = Vec::new(alloc);
    write_said(&mut said, ground, refused.place)?;
    let mut why = Vec::new(alloc);
    write_refused(&mut why, ground, refused)?;
    write_row(text, None, &said, &why)
}

/// Adds the row of a line that was answered when nothing stood.
pub(crate) fn write_asked_row(
    alloc: Global,
    text: &mut Vec<u8>,
    ground: &Ground<'_>,
    place: usize,
) -> Result<(), AllocError>
    ensures { OnOk result (text.new.items
        ≡ text.old.items ++ spec.asked_row (ground_of ground.now) place) }
{
    let mut said = Vec::new(alloc);
    write_said(&mut said, ground, place)?;
    let mut line = Vec::new(alloc);
    write_line(&mut line, ground, place)?;
    write_row(text, None, &said, &line)
}
