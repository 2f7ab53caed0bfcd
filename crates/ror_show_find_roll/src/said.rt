//! Which line said each statement that stood at a line.

ghost use Rattle.std.specs.Prelude.{◌≡◌, ◌≤◌, ◌<◌, length, IfOk};
ghost use Rattle.ror_show_ground.specs.Grounds.{ground_of, IsJudged};
ghost use Rattle.ror_show_find_roll.specs.Said as spec;

use crate::roll::{Entry, Source, roll_of};
use crate::steps::steps_of;
use ror_bench::KeptLine;
use ror_session::Line;
use ror_show_ground::Ground;
use ror_statement::MOST_STATEMENTS;
use ror_text::Items;
use std::alloc::{AllocError, Global};

/// For each statement that stands at the desk of a kept line before it, in order, the number of the line that said it, and none where it
/// came with the table's file. So many lines were kept before it.
///
/// # Errors
///
/// Only want of memory.
pub fn said_before(
    alloc: Global,
    ground: &Ground<'_>,
    line: &KeptLine,
    place: usize,
) -> Result<Items<Option<u32>>, AllocError>
    requires judged { IsJudged (ground_of ground.now) }
    requires there { place < length ground.now.kept.now }
    ensures { IfOk result (λ said. said ≡ spec.said_at (ground_of ground.now) line.now place) }
{
    let said = said_lines(
        alloc,
        ground.session.lines.as_slice(),
        ground.opening.len(),
        ground.desk_of(line),
        &ground.kept[..place],
    )?;
    Ok(Items::from(said))
}

/// The same, at a desk after these lines, at which so many statements stood at first.
fn said_lines(
    alloc: Global,
    lines: &[Line],
    opening: usize,
    desk: u32,
    before: &[KeptLine],
) -> Result<Vec<Option<u32>>, AllocError>
    requires { opening ≤ MOST_STATEMENTS }
    ensures { IfOk result (λ said. said.items ≡ spec.said_lines lines.now opening desk before.now) }
{
    let steps = steps_of(alloc, lines, desk, before)?;
    let roll = roll_of(alloc, opening, &steps)?;
    lines_of(alloc, lines, roll.entries.as_slice())
}

fn lines_of(
    alloc: Global,
    lines: &[Line],
    entries: &[Entry],
) -> Result<Vec<Option<u32>>, AllocError>
    ensures { IfOk result (λ said. said.items ≡ spec.lines_of lines.now entries.now) }
{
    let mut said = Vec::new(alloc);
    for entry in entries {
        said.push(said_by(lines, entry.said))?;
    }
    Ok(said)
}

fn said_by(lines: &[Line], source: Source) -> Option<u32>
    ensures { result ≡ spec.said_by lines.now source }
{
    match source {
        Source::File => None,
        Source::Line(place) => number_at(lines, place),
    }
}

fn number_at(lines: &[Line], place: usize) -> Option<u32>
    ensures { result ≡ spec.number_at lines.now place }
{
    match lines.get(place) {
        Some(line) => Some(line.number),
        None => None,
    }
}
