//! Sessions that may be put on levels: those of one desk, without repairs.

ghost use Rattle.std.specs.Prelude.{◌≡◌, ◌↔◌, IsTrue, IfOk, MatchOption};
ghost use Rattle.ror_session.specs.Sound.{IsSound};
ghost use Rattle.ror_frame.specs.States.{shelf_state};
ghost use Rattle.ror_frame.specs.Stops.{counted};
ghost use Rattle.ror_frame.specs.Courses.{IsFetch};
ghost use Rattle.ror_frame.specs.Inputs.{ReadsSuited, RefusesSuited};
ghost use Rattle.ror_work_levels.specs.Suiting as suiting;
ghost use Rattle.ror_work_levels.specs.Suiting.{AreFit, IsFirstUnfit, IsUnfitAt};

use ror_frame::{Refusal, Stop, fetch_session};
use ror_io::Shelf;
use ror_session::{Command, Line, Session};
use ror_words::FileNames;
use std::alloc::Global;

/// Fetches and reads a session of one desk that doesn't repair.
///
/// # Errors
///
/// What is at fault first in the bytes, or else the first line that repairs or is of another desk than the first line; and where
/// nothing is fetched, the shelf's fault.
pub(crate) fn fetch_fit<F: Shelf>(
    alloc: Global,
    names: &FileNames<'_>,
    shelf: &mut F,
) -> Result<Session, Stop>
    ensures fetch { IsFetch names.now.session.now (counted 2) (ReadsSuited IsFirstUnfit) (RefusesSuited IsFirstUnfit)
        (shelf_state (F.told shelf.old) (F.faults shelf.old) (F.fetch_count shelf.old))
        (shelf_state (F.told shelf.new) (F.faults shelf.new) (F.fetch_count shelf.new)) result }
    ensures sound { IfOk result IsSound }
    ensures fit { IfOk result (λ session. AreFit session.lines) }
{
    let session = fetch_session(alloc, names, shelf)?;
    match first_unfit(session.lines.as_slice()) {
        None => Ok(session),
        Some(line) => Err(Stop::At(Refusal::Unsuited(line))),
    }
}

/// The desk of the first line.
pub(crate) fn first_desk(lines: &[Line]) -> u32
    ensures { result ≡ suiting.first_desk lines.now }
{
    match lines {
        [] => 0,
        [line, ..] => line.desk,
    }
}

/// The number of the first line that repairs or is of another desk than the first line, if there is one.
fn first_unfit(lines: &[Line]) -> Option<u32>
    ensures { MatchOption result (AreFit lines.now) (IsFirstUnfit lines.now) }
{
    let desk = first_desk(lines);
    for line in lines {
        if is_unfit(desk, line) {
            return Some(line.number);
        }
    }
    None
}

/// Whether the line repairs, or is of another desk than this one.
fn is_unfit(desk: u32, line: &Line) -> bool
    ensures { IsTrue result ↔ IsUnfitAt desk line.now }
{
    matches!(line.command, Command::Repair) || line.desk != desk
}
