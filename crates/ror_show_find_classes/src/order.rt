//! The rows of a time in the order of the table's alternatives.

ghost use Rattle.std.specs.Prelude.{◌≡◌, ◌++◌, IfOk, OnOk};
ghost use Rattle.ror_show_find_classes.specs.Rows as spec;

use crate::sign::alternative_of;
use ror_bench::KeptLine;
use ror_show_ground::answers_of;
use ror_table::Table;
use std::alloc::{AllocError, Global};

/// These places of kept lines in the order of the table's alternatives, those of one alternative as they come.
///
/// # Errors
///
/// Only want of memory.
pub fn in_order(
    alloc: Global,
    table: &Table,
    kept: &[KeptLine],
    places: &[usize],
) -> Result<Vec<usize>, AllocError>
    ensures { IfOk result (λ made. made.items ≡ spec.in_order table.now kept.now places.now) }
{
    let mut made = Vec::new(alloc);
    for a in 0..table.alternatives() {
        push_of(&mut made, kept, places, a)?;
    }
    Ok(made)
}

/// Adds those of an alternative.
fn push_of(
    made: &mut Vec<usize>,
    kept: &[KeptLine],
    places: &[usize],
    a: usize,
) -> Result<(), AllocError>
    ensures { OnOk result (made.new.items ≡ made.old.items ++ spec.places_of kept.now places.now a) }
{
    'places: for place in places {
        push_if_of(made, kept, a, *place)?;
    }
    Ok(())
}

fn push_if_of(
    made: &mut Vec<usize>,
    kept: &[KeptLine],
    a: usize,
    place: usize,
) -> Result<(), AllocError>
    ensures { OnOk result (made.new.items ≡ made.old.items ++ spec.if_of kept.now a place) }
{
    if is_of(kept, a, place) {
        made.push(place)?;
    }
    Ok(())
}

/// Whether the line at a place asks for this alternative.
fn is_of(kept: &[KeptLine], a: usize, place: usize) -> bool
    ensures { result ≡ spec.is_of kept.now a place }
{
    match kept.get(place) {
        Some(line) => alternative_of(answers_of(&line.block.body)) == a,
        None => false,
    }
}
