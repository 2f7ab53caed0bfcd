//! What stands when a session is over, and the levels on which it is put.

ghost use Rattle.std.specs.Prelude.{◌≡◌, ◌≤◌, max, length, IfOk};
ghost use Rattle.ror_statement.specs.Statements.{statements_in};
ghost use Rattle.ror_value.specs.Over.{IsLawfulIn};
ghost use Rattle.ror_session.specs.Sound.{IsSound};
ghost use Rattle.ror_session.specs.declared.limits.TheConstants.{MOST_DESKS};
ghost use Rattle.ror_confidence.specs.Levels.{AreLevelsOf};
ghost use Rattle.ror_frame.specs.States.{shelf_state};
ghost use Rattle.ror_frame.specs.Stops.{counted};
ghost use Rattle.ror_frame.specs.Courses.{IsFetch, ReadAs};
ghost use Rattle.ror_work_levels.specs.Suiting.{AreFit, IsStanding};
ghost use Rattle.ror_work_levels.specs.Steps.{ReadsOver, RefusesOver};

use crate::fit::first_desk;
use ror_bench::Bench;
use ror_closing::closing_standing;
use ror_confidence::{Levels, LevelsFault, MOST_LEVELS_BYTES, read_levels};
use ror_frame::{Refusal, Stop, fetch_whole};
use ror_io::Shelf;
use ror_session::Session;
use ror_statement::Numbered;
use ror_xmcda::Input;
use std::alloc::{AllocError, Global};

/// A bench over the input's table, and what stands at the desk of a session's lines when it is over. Its one error is want of
/// memory.
pub(crate) fn standing_of(
    alloc: Global,
    input: Input,
    session: &Session,
) -> Result<(Bench, Vec<Numbered>), AllocError>
    requires lawful { IsLawfulIn input.table input.opening }
    requires sound { IsSound session.now }
    requires fit { AreFit session.now.lines }
    ensures table { IfOk result (λ x. x.0.table ≡ input.table) }
    ensures standing { IfOk result (λ x. IsStanding input session.now x.1.items) }
    ensures lawful { IfOk result (λ x. IsLawfulIn input.table (statements_in x.1.items)) }
{
    let mut bench = Bench::new(alloc, input, desk_count(session))?;
    let lines = session.lines.as_slice();
    let standing = closing_standing(alloc, &mut bench, first_desk(lines), lines)?;
    Ok((bench, standing))
}

/// How many desks the session names, or one where it names none.
fn desk_count(session: &Session) -> u32
    requires { length session.now.desks ≤ MOST_DESKS }
    ensures { result ≡ max 1 (length session.now.desks) }
{
    let desks = session.desks.len() as u32;
    if desks == 0 { 1 } else { desks }
}

/// Fetches and reads the levels on which these statements are put.
///
/// # Errors
///
/// The first fault of the bytes is, and what the shelf's fault is.
pub(crate) fn fetch_levels<F: Shelf>(
    alloc: Global,
    name: &str,
    shelf: &mut F,
    standing: &[Numbered],
) -> Result<Levels, Stop>
    ensures fetch { IsFetch name.now (counted 3) (ReadsOver standing.now) (RefusesOver standing.now)
        (shelf_state (F.told shelf.old) (F.faults shelf.old) (F.fetch_count shelf.old))
        (shelf_state (F.told shelf.new) (F.faults shelf.new) (F.fetch_count shelf.new)) result }
    ensures levels { IfOk result (AreLevelsOf standing.now) }
{
    let too_long = Refusal::BadLevels(LevelsFault::TooLong);
    let bytes = fetch_whole(alloc, name, MOST_LEVELS_BYTES, too_long, shelf)?;
    levels_in(alloc, standing, bytes.as_slice())
}

/// Reads the bytes of a file of levels.
fn levels_in(alloc: Global, standing: &[Numbered], bytes: &[u8]) -> Result<Levels, Stop>
    ensures reads { ReadAs (counted 3) (ReadsOver standing.now) (RefusesOver standing.now) bytes.now result }
    ensures levels { IfOk result (AreLevelsOf standing.now) }
{
    Ok(read_levels(alloc, standing, bytes)?)
}
