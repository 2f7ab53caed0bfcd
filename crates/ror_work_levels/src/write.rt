//! The writing of a report of spans.

ghost use Rattle.std.specs.Prelude.{◌≡◌};
ghost use Rattle.ror_pivot.specs.Answers.{most_of};
ghost use Rattle.ror_statement.specs.Statements.{statements_in};
ghost use Rattle.ror_value.specs.Over.{IsLawfulIn};
ghost use Rattle.ror_confidence.specs.Levels.{AreLevelsOf, level_lists};
ghost use Rattle.ror_words.specs.Named.{inputs_of};
ghost use Rattle.ror_frame.specs.States.{shelf_state, sink_state};
ghost use Rattle.ror_frame.specs.Courses.{IsWork};
ghost use Rattle.ror_work_levels.specs.Levels.{levels_chore};
ghost use Rattle.ror_work_levels.specs.Steps.{WritesOver};

use crate::fit::fetch_fit;
use crate::maker::SpanMaker;
use crate::scale::{fetch_levels, standing_of};
use ror_bench::Bench;
use ror_confidence::Levels;
use ror_entries::{EntriesStop, write_headed};
use ror_frame::{Stop, fetch_table};
use ror_io::{Shelf, Sink};
use ror_pivot::Bits;
use ror_spans::header;
use ror_statement::Numbered;
use ror_words::FileNames;
use std::alloc::Global;

/// Fetches table, session and levels, each once those before it were read, and writes the report of the spans at a width. It says
/// whether anything is too wide.
///
/// # Errors
///
/// The first file whose bytes are refused is, and what is at fault in it, or the session's first line that repairs or is of another
/// desk; or a fault of the outside.
pub fn levels_files<F: Shelf, O: Sink>(
    alloc: Global,
    names: &FileNames<'_>,
    levels: &str,
    bits: Bits,
    shelf: &mut F,
    out: &mut O,
) -> Result<bool, Stop>
    ensures { IsWork 0 (levels_chore (inputs_of names.now) levels.now bits).files
        (levels_chore (inputs_of names.now) levels.now bits).course
        (shelf_state (F.told shelf.old) (F.faults shelf.old) (F.fetch_count shelf.old))
        (shelf_state (F.told shelf.new) (F.faults shelf.new) (F.fetch_count shelf.new))
        (sink_state (O.written out.old) (O.faults out.old))
        (sink_state (O.written out.new) (O.faults out.new)) result }
{
    let input = fetch_table(alloc, names, shelf)?;
    let session = fetch_fit(alloc, names, shelf)?;
    let (bench, standing) = standing_of(alloc, input, &session)?;
    let put = fetch_levels(alloc, levels, shelf, standing.as_slice())?;
    write_spans(alloc, bench, standing.as_slice(), &put, bits, out)
}

/// Writes the report of the spans over these levels of the statements at a width, and says whether anything is too wide.
fn write_spans<O: Sink>(
    alloc: Global,
    bench: Bench,
    standing: &[Numbered],
    levels: &Levels,
    bits: Bits,
    out: &mut O,
) -> Result<bool, Stop>
    requires lawful { IsLawfulIn bench.table (statements_in standing.now) }
    requires levels { AreLevelsOf standing.now levels.now }
    ensures { WritesOver (most_of bits) bench.table (level_lists standing.now levels.now)
        (sink_state (O.written out.old) (O.faults out.old))
        (sink_state (O.written out.new) (O.faults out.new)) result }
{
    let mut maker = SpanMaker::new(alloc, bench, standing, levels, bits)?;
    write_report(alloc, &mut maker, out)
}

/// Writes the first line, the entries and the last line.
fn write_report<O: Sink>(alloc: Global, maker: &mut SpanMaker, out: &mut O) -> Result<bool, Stop>
    ensures { WritesOver maker.old.most maker.old.table maker.old.lists
        (sink_state (O.written out.old) (O.faults out.old))
        (sink_state (O.written out.new) (O.faults out.new)) result }
{
    match write_headed(alloc, header(), maker, out) {
        Ok(wide) => Ok(wide),
        Err(EntriesStop::Write) => Err(Stop::WriteFault),
        Err(EntriesStop::Memory) => Err(Stop::Memory),
    }
}
