//! The check of a report of ranks: the three files are fetched in order, and the report is accepted or
//! rejected.

ghost use Rattle.std.specs.Prelude.{◌≤◌, length};
ghost use Rattle.ror_session.specs.Sound.{IsSound};
ghost use Rattle.ror_value.specs.Over.{IsLawfulIn};
ghost use Rattle.ror_closing.specs.Closing.{AreSuited};
ghost use Rattle.ror_words.specs.Named.{inputs_of};
ghost use Rattle.ror_frame.specs.States.{shelf_state, sink_state};
ghost use Rattle.ror_frame.specs.Courses.{ReadAs, IsWork};
ghost use Rattle.ror_frame.specs.Stops.{last};
ghost use Rattle.ror_work_ranks.specs.Ranking.{ProvesRanks, RefusesRanks, check_ranks_chore};

use crate::judge::RanksJudge;
use ror_bench::{Accepted, MOST_REPORT_BYTES};
use ror_entries::check_headed;
use ror_frame::{Stop, closed_desks, conclude, fetch_report, fetch_suited, fetch_table};
use ror_io::{Shelf, Sink};
use ror_ranks_text::header;
use ror_session::Session;
use ror_words::FileNames;
use ror_xmcda::Input;
use std::alloc::Global;

/// Fetches the three files in order, each once those before it were read, and writes the line of a report of extreme
/// ranks that is accepted. It says whether anything is too wide.
///
/// # Errors
///
/// The first file whose bytes are refused is, and what is at fault in it, or the session's first unsuited line; or a fault of the
/// outside.
pub fn check_ranks_files<F: Shelf, O: Sink>(
    alloc: Global,
    names: &FileNames<'_>,
    report: &str,
    shelf: &mut F,
    out: &mut O,
) -> Result<bool, Stop>
    ensures { IsWork 0 (check_ranks_chore (inputs_of names.now) report.now).files
        (check_ranks_chore (inputs_of names.now) report.now).course
        (shelf_state (F.told shelf.old) (F.faults shelf.old) (F.fetch_count shelf.old))
        (shelf_state (F.told shelf.new) (F.faults shelf.new) (F.fetch_count shelf.new))
        (sink_state (O.written out.old) (O.faults out.old))
        (sink_state (O.written out.new) (O.faults out.new)) result }
{
    let input = fetch_table(alloc, names, shelf)?;
    let session = fetch_suited(alloc, names, shelf)?;
    let bytes = fetch_report(alloc, report, shelf)?;
    let accepted = entries_in(alloc, input, session, bytes.as_slice())?;
    conclude(out, accepted)
}

/// Checks the bytes of a report, and counts its entries.
fn entries_in(alloc: Global, input: Input, session: Session, bytes: &[u8]) -> Result<Accepted, Stop>
    requires lawful { IsLawfulIn input.table input.opening }
    requires sound { IsSound session }
    requires suited { AreSuited session.lines }
    requires within { length bytes.now ≤ MOST_REPORT_BYTES }
    ensures { ReadAs last (ProvesRanks input session) (RefusesRanks input session) bytes.now result }
{
    let (bench, lists) = closed_desks(alloc, input, &session)?;
    let mut judge = RanksJudge::new(bench, session.desks, lists, bytes);
    Ok(check_headed(alloc, &mut judge, header())?)
}
