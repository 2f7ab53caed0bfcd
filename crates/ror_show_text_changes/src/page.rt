//! What changed in relations and in classes.

ghost use Rattle.std.specs.Prelude.{◌≡◌, ◌++◌, OnOk};
ghost use Rattle.ror_show_ground.specs.Grounds.{ground_of};
ghost use Rattle.ror_show_text_changes.specs.Pages as spec;

use crate::classes::write_class_changes;
use crate::relations::write_relation_changes;
use ror_show_find_classes::{ClassChangeFound, ClassTime};
use ror_show_find_reasons::ChangeFound;
use ror_show_ground::Ground;
use std::alloc::{AllocError, Global};

/// Adds what changed from one relation of a desk to the next, and behind it what changed in classes from one of these times to the next,
/// with an empty line between two texts of which none is empty, and between any two changes.
///
/// # Errors
///
/// Only want of memory.
pub fn write_changes(
    alloc: Global,
    text: &mut Vec<u8>,
    ground: &Ground<'_>,
    relations: &[ChangeFound],
    times: &[ClassTime],
    classes: &[ClassChangeFound],
) -> Result<(), AllocError>
    ensures { OnOk result (text.new.items ≡ text.old.items
        ++ spec.changes_text (ground_of ground.now) relations.now times.now classes.now) }
{
    let mut one = Vec::new(alloc);
    write_relation_changes(alloc, &mut one, ground, relations)?;
    let mut other = Vec::new(alloc);
    write_class_changes(alloc, &mut other, ground, times, classes)?;
    write_behind(text, &one, &other)
}

/// One text and another, with an empty line between two of which none is empty.
fn write_behind(text: &mut Vec<u8>, one: &[u8], other: &[u8]) -> Result<(), AllocError>
    ensures { OnOk result (text.new.items ≡ text.old.items ++ spec.behind one.now other.now) }
{
    text.extend_from_slice(one)?;
    if one.is_empty() || other.is_empty() {
        return text.extend_from_slice(other);
    }
    text.push(b'\n')?;
    text.extend_from_slice(other)
}
