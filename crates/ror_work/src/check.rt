//! A check: the three files are fetched in order, and the report is accepted or rejected.

ghost use Rattle.std.specs.Prelude.{◌≤◌, length};
ghost use Rattle.ror_value.specs.Over.{IsLawfulIn};
ghost use Rattle.ror_session.specs.Sound.{IsSound};
ghost use Rattle.ror_words.specs.Named.{inputs_of};
ghost use Rattle.ror_frame.specs.States.{shelf_state, sink_state};
ghost use Rattle.ror_frame.specs.Courses.{ReadAs, IsWork};
ghost use Rattle.ror_frame.specs.Stops.{last};
ghost use Rattle.ror_work.specs.Checking.{ProvesReport, RefusesReport, check_chore};

use ror_bench::{Accepted, MOST_REPORT_BYTES, check_report};
use ror_frame::{Stop, conclude, fetch_report, fetch_session, fetch_table, opened_desks};
use ror_io::{Shelf, Sink};
use ror_session::Session;
use ror_words::FileNames;
use ror_xmcda::Input;
use std::alloc::Global;

/// Fetches the three files in order, each once those before it were read, and writes the line of a report that is accepted. It
/// says whether anything is too wide.
///
/// # Errors
///
/// The first file whose bytes are refused is, and what is at fault in it; or a fault of the outside.
pub fn check_files<F: Shelf, O: Sink>(
    alloc: Global,
    names: &FileNames<'_>,
    report: &str,
    shelf: &mut F,
    out: &mut O,
) -> Result<bool, Stop>
    ensures { IsWork 0 (check_chore (inputs_of names.now) report.now).files
        (check_chore (inputs_of names.now) report.now).course
        (shelf_state (F.told shelf.old) (F.faults shelf.old) (F.fetch_count shelf.old))
        (shelf_state (F.told shelf.new) (F.faults shelf.new) (F.fetch_count shelf.new))
        (sink_state (O.written out.old) (O.faults out.old))
        (sink_state (O.written out.new) (O.faults out.new)) result }
{
    let input = fetch_table(alloc, names, shelf)?;
    let session = fetch_session(alloc, names, shelf)?;
    let bytes = fetch_report(alloc, report, shelf)?;
    let accepted = answers_in(alloc, input, &session, bytes.as_slice())?;
    conclude(out, accepted)
}

/// Checks the bytes of a report, and counts its answers.
fn answers_in(
    alloc: Global,
    input: Input,
    session: &Session,
    bytes: &[u8],
) -> Result<Accepted, Stop>
    requires lawful { IsLawfulIn input.table input.opening }
    requires sound { IsSound session.now }
    requires within { length bytes.now ≤ MOST_REPORT_BYTES }
    ensures { ReadAs last (ProvesReport input session.now) (RefusesReport input session.now) bytes.now result }
{
    let bench = opened_desks(alloc, input, session)?;
    let lines = session.lines.as_slice();
    Ok(check_report(alloc, bench, lines, bytes)?)
}
