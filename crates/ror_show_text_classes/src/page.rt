//! The sections of all times.

ghost use Rattle.std.specs.Prelude.{◌≡◌, ◌++◌, OnOk};
ghost use Rattle.ror_show_ground.specs.Grounds.{ground_of};
ghost use Rattle.ror_show_text_classes.specs.Pages as spec;

use crate::bounds::write_bounds;
use crate::time::write_time;
use ror_show_find_reasons::ClassesFound;
use ror_show_ground::Ground;
use std::alloc::{AllocError, Global};

/// Adds a section for each time that is found, in order, with an empty line between two: the first and the last line, the desk, the
/// numbers of what stood, where that is kept, a row for each line in the order of the table's alternatives, which of them are settled and
/// open, and which alternatives are assigned by what stood. Classes stand in parts of as many columns as fit beside the longest id, at
/// least one and at most 25. Below stand the bounds that are found: of the least class that is left the numbers of statements that exclude
/// the class below it, and of the greatest one those that exclude the class above.
///
/// # Errors
///
/// Only want of memory.
pub fn write_classes(
    alloc: Global,
    text: &mut Vec<u8>,
    ground: &Ground<'_>,
    found: &[ClassesFound],
) -> Result<(), AllocError>
    ensures { OnOk result (text.new.items ≡ text.old.items ++ spec.classes_text (ground_of ground.now) found.now) }
{
    for number in 0..found.len() {
        write_part(alloc, text, ground, found, number)?;
    }
    Ok(())
}

/// The section with this number, behind an empty line where it isn't the first.
fn write_part(
    alloc: Global,
    text: &mut Vec<u8>,
    ground: &Ground<'_>,
    found: &[ClassesFound],
    number: usize,
) -> Result<(), AllocError>
    ensures { OnOk result (text.new.items
        ≡ text.old.items ++ spec.classes_part (ground_of ground.now) found.now number) }
{
    let Some(classes) = found.get(number) else {
        return Ok(());
    };
    write_classes_of(alloc, text, ground, number, classes)
}

fn write_classes_of(
    alloc: Global,
    text: &mut Vec<u8>,
    ground: &Ground<'_>,
    number: usize,
    classes: &ClassesFound,
) -> Result<(), AllocError>
    ensures { OnOk result (text.new.items
        ≡ text.old.items ++ spec.classes_of (ground_of ground.now) number classes.now) }
{
    write_gap(text, number)?;
    write_time(alloc, text, ground, &classes.time)?;
    let rows = classes.time.rows.as_slice();
    write_bounds(alloc, text, ground.table, rows, classes.bounds.as_slice())
}

/// Adds an empty line, where what comes isn't the first of its kind: where its number isn't 0.
///
/// # Errors
///
/// Only want of memory.
pub fn write_gap(text: &mut Vec<u8>, number: usize) -> Result<(), AllocError>
    ensures { OnOk result (text.new.items ≡ text.old.items ++ spec.gap number) }
{
    if number > 0 {
        text.push(b'\n')?;
    }
    Ok(())
}
