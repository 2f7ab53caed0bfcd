//! The check of a report of spans: the four files are fetched in order, and the report is accepted or rejected.

ghost use Rattle.std.specs.Prelude.{◌≡◌, ◌≤◌, length};
ghost use Rattle.ror_statement.specs.Statements.{statements_in};
ghost use Rattle.ror_value.specs.Over.{IsLawfulIn};
ghost use Rattle.ror_confidence.specs.Levels.{AreLevelsOf, level_lists};
ghost use Rattle.ror_words.specs.Named.{inputs_of};
ghost use Rattle.ror_frame.specs.States.{shelf_state, sink_state};
ghost use Rattle.ror_frame.specs.Courses.{IsFetch, ReadAs, IsWork};
ghost use Rattle.ror_frame.specs.Stops.{last};
ghost use Rattle.ror_work_levels.specs.Levels.{check_levels_chore};
ghost use Rattle.ror_work_levels.specs.Steps.{ProvesOver, RejectsOver};

use crate::fit::fetch_fit;
use crate::judge::SpanJudge;
use crate::scale::{fetch_levels, standing_of};
use ror_bench::{Accepted, Bench, MOST_REPORT_BYTES};
use ror_confidence::Levels;
use ror_entries::check_headed;
use ror_frame::{Stop, conclude, fetch_report, fetch_table};
use ror_io::{Shelf, Sink};
use ror_spans::header;
use ror_statement::Numbered;
use ror_words::FileNames;
use std::alloc::Global;

/// Fetches the four files in order, each once those before it were read, and writes the line of a report of spans that is
/// accepted. It says whether anything is too wide.
///
/// # Errors
///
/// The first file whose bytes are refused is, and what is at fault in it, or the session's first line that repairs or is of another
/// desk; or a fault of the outside.
pub fn check_levels_files<F: Shelf, O: Sink>(
    alloc: Global,
    names: &FileNames<'_>,
    levels: &str,
    report: &str,
    shelf: &mut F,
    out: &mut O,
) -> Result<bool, Stop>
    ensures { IsWork 0 (check_levels_chore (inputs_of names.now) levels.now report.now).files
        (check_levels_chore (inputs_of names.now) levels.now report.now).course
        (shelf_state (F.told shelf.old) (F.faults shelf.old) (F.fetch_count shelf.old))
        (shelf_state (F.told shelf.new) (F.faults shelf.new) (F.fetch_count shelf.new))
        (sink_state (O.written out.old) (O.faults out.old))
        (sink_state (O.written out.new) (O.faults out.new)) result }
{
    let input = fetch_table(alloc, names, shelf)?;
    let session = fetch_fit(alloc, names, shelf)?;
    let (bench, standing) = standing_of(alloc, input, &session)?;
    let put = fetch_levels(alloc, levels, shelf, standing.as_slice())?;
    let accepted = fetch_spans(alloc, report, shelf, bench, standing.as_slice(), &put)?;
    conclude(out, accepted)
}

/// Fetches and checks the report over these levels of the statements, and counts its answers.
fn fetch_spans<F: Shelf>(
    alloc: Global,
    report: &str,
    shelf: &mut F,
    bench: Bench,
    standing: &[Numbered],
    levels: &Levels,
) -> Result<Accepted, Stop>
    requires lawful { IsLawfulIn bench.table (statements_in standing.now) }
    requires levels { AreLevelsOf standing.now levels.now }
    ensures { IsFetch report.now last (ProvesOver bench.table (level_lists standing.now levels.now))
        (RejectsOver bench.table (level_lists standing.now levels.now))
        (shelf_state (F.told shelf.old) (F.faults shelf.old) (F.fetch_count shelf.old))
        (shelf_state (F.told shelf.new) (F.faults shelf.new) (F.fetch_count shelf.new)) result }
{
    let bytes = fetch_report(alloc, report, shelf)?;
    spans_in(alloc, bench, standing, levels, bytes.as_slice())
}

/// Checks the bytes of a report, and counts its answers.
fn spans_in(
    alloc: Global,
    bench: Bench,
    standing: &[Numbered],
    levels: &Levels,
    bytes: &[u8],
) -> Result<Accepted, Stop>
    requires lawful { IsLawfulIn bench.table (statements_in standing.now) }
    requires levels { AreLevelsOf standing.now levels.now }
    requires within { length bytes.now ≤ MOST_REPORT_BYTES }
    ensures { ReadAs last (ProvesOver bench.table (level_lists standing.now levels.now))
        (RejectsOver bench.table (level_lists standing.now levels.now)) bytes.now result }
{
    let mut judge = SpanJudge::new(alloc, bench, standing, levels, bytes)?;
    Ok(check_headed(alloc, &mut judge, header())?)
}
