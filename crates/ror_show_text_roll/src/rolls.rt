//! The rolls of desks.

ghost use Rattle.std.specs.Prelude.{◌≡◌, ◌++◌, OnOk};
ghost use Rattle.ror_show_ground.specs.Grounds.{ground_of};
ghost use Rattle.ror_show_text_roll.specs.Pages as spec;

use crate::page::write_roll;
use ror_session::Line;
use ror_show_find_roll::RollFound;
use ror_show_ground::Ground;
use std::alloc::{AllocError, Global};

/// Adds the roll of each desk, after the line that is meant or the last one, and an empty line behind each.
///
/// # Errors
///
/// Only want of memory.
pub fn write_rolls(
    alloc: Global,
    text: &mut Vec<u8>,
    ground: &Ground<'_>,
    line: Option<u32>,
    found: &[RollFound],
) -> Result<(), AllocError>
    ensures { OnOk result (text.new.items ≡ text.old.items ++ spec.rolls_text (ground_of ground.now) line found.now) }
{
    'desks: for roll in found {
        write_found(alloc, text, ground, line, roll)?;
    }
    Ok(())
}

/// The roll of a desk, and an empty line behind it.
#[tactic(auto, unfolding(crate::specs::Pages::roll_words))]
fn write_found(
    alloc: Global,
    text: &mut Vec<u8>,
    ground: &Ground<'_>,
    line: Option<u32>,
    found: &RollFound,
) -> Result<(), AllocError>
    ensures { OnOk result (text.new.items ≡ text.old.items ++ spec.roll_words (ground_of ground.now) line found.now) }
{
    let desk = ground.desk_name(found.desk);
    write_roll(
        alloc,
        text,
        ground,
        desk,
        line_of(line, ground.session.lines.as_slice()),
        &found.roll,
    )?;
    text.push(b'\n')?;
    Ok(())
}

/// The line that is meant, or the last one.
fn line_of(meant: Option<u32>, lines: &[Line]) -> u32
    ensures { result ≡ spec.line_of meant lines.now }
{
    match meant {
        Some(line) => line,
        None => last_number(lines),
    }
}

/// The number of the last line.
fn last_number(lines: &[Line]) -> u32
    ensures { result ≡ spec.last_number lines.now }
{
    match lines.last() {
        Some(line) => line.number,
        None => 0,
    }
}
