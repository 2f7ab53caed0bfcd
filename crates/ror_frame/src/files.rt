//! Files, fetched and read one after another. After a fault of the shelf nothing more is fetched.

ghost use Rattle.std.specs.Prelude.{IfOk};
ghost use Rattle.ror_value.specs.Over.{IsLawfulIn};
ghost use Rattle.ror_session.specs.Sound.{IsSound};
ghost use Rattle.ror_frame.specs.States.{shelf_state};
ghost use Rattle.ror_frame.specs.Stops.{counted, last, place_of, too_long_report, HidesNone};
ghost use Rattle.ror_frame.specs.Courses.{IsFetch, IsWhole, IsTooLong, ReadAs};
ghost use Rattle.ror_closing.specs.Closing.{AreSuited, IsFirstUnsuited};
ghost use Rattle.ror_frame.specs.Inputs.{ReadsTable, RefusesTable, ReadsSession, RefusesSession, ReadsSuited, RefusesSuited};

use crate::stop::{Refusal, Stop};
use ror_bench::{MOST_REPORT_BYTES, Reason, Rejection};
use ror_closing::first_unsuited;
use ror_io::{Fetched, Shelf};
use ror_session::{Session, SessionFault, read_session};
use ror_table::{TableFault, TableKind};
use ror_text::lines::MOST_TEXT_BYTES;
use ror_words::FileNames;
use ror_xmcda::{Input, read_input};
use std::alloc::Global;

/// Fetches a file whole. One of more bytes than `most` is refused for `too_long`.
///
/// # Errors
///
/// Besides, the shelf's faults are.
pub fn fetch_whole<F: Shelf>(
    alloc: Global,
    name: &str,
    most: usize,
    too_long: Refusal,
    shelf: &mut F,
) -> Result<Vec<u8>, Stop>
    requires { HidesNone too_long }
    ensures { IsFetch name.now (place_of too_long) (IsWhole most) (IsTooLong most too_long)
        (shelf_state (F.told shelf.old) (F.faults shelf.old) (F.fetch_count shelf.old))
        (shelf_state (F.told shelf.new) (F.faults shelf.new) (F.fetch_count shelf.new)) result }
{
    let fetched = shelf.fetch(alloc, name, most)?;
    match fetched {
        Fetched::Whole(bytes) => Ok(bytes),
        Fetched::Longer => Err(Stop::At(too_long)),
    }
}

/// Fetches a report whole. One of more bytes than a report may have is rejected.
///
/// # Errors
///
/// Besides, the shelf's faults are.
pub fn fetch_report<F: Shelf>(alloc: Global, name: &str, shelf: &mut F) -> Result<Vec<u8>, Stop>
    ensures { IsFetch name.now last (IsWhole MOST_REPORT_BYTES) (IsTooLong MOST_REPORT_BYTES too_long_report)
        (shelf_state (F.told shelf.old) (F.faults shelf.old) (F.fetch_count shelf.old))
        (shelf_state (F.told shelf.new) (F.faults shelf.new) (F.fetch_count shelf.new)) result }
{
    let too_long = Refusal::Rejected(Rejection {
        block: 0,
        reason: Reason::TooLong,
    });
    fetch_whole(alloc, name, MOST_REPORT_BYTES, too_long, shelf)
}

/// Fetches and reads the table, and the statements that come with it.
///
/// # Errors
///
/// The first fault of the bytes is, and what the shelf's fault is.
pub fn fetch_table<F: Shelf>(
    alloc: Global,
    names: &FileNames<'_>,
    shelf: &mut F,
) -> Result<Input, Stop>
    ensures fetch { IsFetch names.now.table.now (counted 1)
        (ReadsTable names.now.best_first) (RefusesTable names.now.best_first)
        (shelf_state (F.told shelf.old) (F.faults shelf.old) (F.fetch_count shelf.old))
        (shelf_state (F.told shelf.new) (F.faults shelf.new) (F.fetch_count shelf.new)) result }
    ensures lawful { IfOk result (λ input. IsLawfulIn input.table input.opening) }
{
    let too_long = Refusal::BadTable(TableFault {
        kind: TableKind::TooLong,
        line: 0,
    });
    let bytes = fetch_whole(alloc, names.table, MOST_TEXT_BYTES, too_long, shelf)?;
    table_in(alloc, bytes.as_slice(), names.best_first)
}

/// Fetches and reads the session.
///
/// # Errors
///
/// The first fault of the bytes is, and what the shelf's fault is.
pub fn fetch_session<F: Shelf>(
    alloc: Global,
    names: &FileNames<'_>,
    shelf: &mut F,
) -> Result<Session, Stop>
    ensures fetch { IsFetch names.now.session.now (counted 2) ReadsSession RefusesSession
        (shelf_state (F.told shelf.old) (F.faults shelf.old) (F.fetch_count shelf.old))
        (shelf_state (F.told shelf.new) (F.faults shelf.new) (F.fetch_count shelf.new)) result }
    ensures sound { IfOk result IsSound }
{
    let too_long = Refusal::BadSession(SessionFault::TooLong);
    let bytes = fetch_whole(alloc, names.session, MOST_TEXT_BYTES, too_long, shelf)?;
    session_in(alloc, bytes.as_slice())
}

/// Fetches and reads a session without an unsuited line.
///
/// # Errors
///
/// What is at fault first in the bytes, or else the first unsuited line; and where nothing is fetched, the shelf's fault.
pub fn fetch_suited<F: Shelf>(
    alloc: Global,
    names: &FileNames<'_>,
    shelf: &mut F,
) -> Result<Session, Stop>
    ensures fetch { IsFetch names.now.session.now (counted 2) (ReadsSuited IsFirstUnsuited) (RefusesSuited IsFirstUnsuited)
        (shelf_state (F.told shelf.old) (F.faults shelf.old) (F.fetch_count shelf.old))
        (shelf_state (F.told shelf.new) (F.faults shelf.new) (F.fetch_count shelf.new)) result }
    ensures sound { IfOk result IsSound }
    ensures suited { IfOk result (λ session. AreSuited session.lines) }
{
    let session = fetch_session(alloc, names, shelf)?;
    match first_unsuited(session.lines.as_slice()) {
        None => Ok(session),
        Some(line) => Err(Stop::At(Refusal::Unsuited(line))),
    }
}

/// Reads the bytes of a table.
fn table_in(alloc: Global, bytes: &[u8], best_first: bool) -> Result<Input, Stop>
    ensures reads { ReadAs (counted 1) (ReadsTable best_first) (RefusesTable best_first) bytes.now result }
    ensures lawful { IfOk result (λ input. IsLawfulIn input.table input.opening) }
{
    Ok(read_input(alloc, bytes, best_first)?)
}

/// Reads the bytes of a session.
fn session_in(alloc: Global, bytes: &[u8]) -> Result<Session, Stop>
    ensures reads { ReadAs (counted 2) ReadsSession RefusesSession bytes.now result }
    ensures sound { IfOk result IsSound }
{
    Ok(read_session(alloc, bytes)?)
}
