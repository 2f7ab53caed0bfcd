//! The lines of a desk among those that a check kept.

ghost use Rattle.std.specs.Prelude.{slice_get, ◌≡◌, [], ◌∷◌, ◌++◌, if◌then◌else◌, IfOk, OnOk};
ghost use Rattle.ror_show_find_roll.specs.Steps as spec;

use crate::step::Step;
use ror_bench::KeptLine;
use ror_session::Line;
use std::alloc::{AllocError, Global};

/// The lines of a desk, by its place among the session's desks, among the lines of the session that a check kept, in order. Where
/// it kept the block of each line, these are all lines of the desk.
///
/// # Errors
///
/// Only want of memory.
pub fn steps_of<'a>(
    alloc: Global,
    lines: &[Line],
    desk: u32,
    kept: &'a [KeptLine],
) -> Result<Vec<Step<'a>>, AllocError>
    ensures { IfOk result (λ steps. steps.items ≡ spec.kept_turns lines.now desk kept.now) }
{
    let mut steps = Vec::new(alloc);
    'kept: for line in kept {
        push_step(&mut steps, lines, desk, line)?;
    }
    Ok(steps)
}

/// Adds a line that was kept, where it is one of the desk's.
fn push_step<'a>(
    steps: &mut Vec<Step<'a>>,
    lines: &[Line],
    desk: u32,
    kept: &'a KeptLine,
) -> Result<(), AllocError>
    ensures { OnOk result (steps.new.items
        ≡ steps.old.items ++ spec.kept_turn lines.now desk kept.now) }
{
    push_own(steps, is_own(lines, desk, kept.place), kept)
}

/// Whether the line at a place is the desk's.
fn is_own(lines: &[Line], desk: u32, place: usize) -> bool
    ensures { result ≡ spec.is_own desk (slice_get lines.now place) }
{
    match lines.get(place) {
        Some(line) => line.desk == desk,
        None => false,
    }
}

/// Adds a line that was kept, if it is the desk's own.
fn push_own<'a>(steps: &mut Vec<Step<'a>>, own: bool, kept: &'a KeptLine) -> Result<(), AllocError>
    ensures { OnOk result (steps.new.items ≡ steps.old.items
        ++ (if own then record { place = kept.now.place; body = kept.now.block.body } ∷ [] else [])) }
{
    if !own {
        return Ok(());
    }
    steps.push(Step::new(kept.place, &kept.block.body))?;
    Ok(())
}
