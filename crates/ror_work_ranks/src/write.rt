//! The writing of a report of ranks.

ghost use Rattle.ror_pivot.specs.Answers.{most_of};
ghost use Rattle.ror_session.specs.Sound.{IsSound};
ghost use Rattle.ror_table.specs.Table.{IsTable};
ghost use Rattle.ror_value.specs.Over.{IsLawfulIn};
ghost use Rattle.ror_closing.specs.Closing.{AreSuited};
ghost use Rattle.ror_words.specs.Named.{inputs_of};
ghost use Rattle.ror_frame.specs.States.{shelf_state, sink_state};
ghost use Rattle.ror_frame.specs.Courses.{WritesDue, IsWork};
ghost use Rattle.ror_work_ranks.specs.Ranking.{ranks_output, ranks_chore};

use crate::maker::RanksMaker;
use ror_entries::{EntriesStop, write_headed};
use ror_frame::{Stop, closed_desks, fetch_suited, fetch_table};
use ror_io::{Shelf, Sink};
use ror_pivot::Bits;
use ror_ranks_text::header;
use ror_session::Session;
use ror_words::FileNames;
use ror_xmcda::Input;
use std::alloc::Global;

/// Fetches table and session, each once those before it were read, and writes the report of the ranks at a
/// width. It says whether anything is too wide.
///
/// # Errors
///
/// The first file whose bytes are refused is, and what is at fault in it, or the session's first unsuited line; or a fault of the
/// outside.
pub fn ranks_files<F: Shelf, O: Sink>(
    alloc: Global,
    names: &FileNames<'_>,
    bits: Bits,
    shelf: &mut F,
    out: &mut O,
) -> Result<bool, Stop>
    ensures { IsWork 0 (ranks_chore (inputs_of names.now) bits).files
        (ranks_chore (inputs_of names.now) bits).course
        (shelf_state (F.told shelf.old) (F.faults shelf.old) (F.fetch_count shelf.old))
        (shelf_state (F.told shelf.new) (F.faults shelf.new) (F.fetch_count shelf.new))
        (sink_state (O.written out.old) (O.faults out.old))
        (sink_state (O.written out.new) (O.faults out.new)) result }
{
    let input = fetch_table(alloc, names, shelf)?;
    let session = fetch_suited(alloc, names, shelf)?;
    write_report(alloc, input, session, bits, out)
}

/// Writes the report of a session over an input at a width, and says whether anything is too wide. The lists of all desks are closed
/// before the first byte is written.
fn write_report<O: Sink>(
    alloc: Global,
    input: Input,
    session: Session,
    bits: Bits,
    out: &mut O,
) -> Result<bool, Stop>
    requires table { IsTable input.table }
    requires lawful { IsLawfulIn input.table input.opening }
    requires sound { IsSound session }
    requires suited { AreSuited session.lines }
    ensures { WritesDue (ranks_output (most_of bits) input session)
        (sink_state (O.written out.old) (O.faults out.old))
        (sink_state (O.written out.new) (O.faults out.new)) result }
{
    let (bench, lists) = closed_desks(alloc, input, &session)?;
    let mut maker = RanksMaker::new(alloc, bench, session.desks, lists, bits);
    match write_headed(alloc, header(), &mut maker, out) {
        Ok(wide) => Ok(wide),
        Err(EntriesStop::Write) => Err(Stop::WriteFault),
        Err(EntriesStop::Memory) => Err(Stop::Memory),
    }
}
