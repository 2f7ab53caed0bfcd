//! The report of a session: its header, the block of each line, each written before the next line is taken, and its end.

ghost use Rattle.std.specs.Prelude.{◌≡◌, ◌≤◌, length, OnOk};
ghost use Rattle.std.specs.List.{AllByRecursion};
ghost use Rattle.ror_session.specs.declared.limits.TheConstants.{MOST_LINES};
ghost use Rattle.ror_session.specs.Sound.{IsSound};
ghost use Rattle.ror_value.specs.Over.{IsLawfulIn};
ghost use Rattle.ror_bench.specs.Bench.{IsLawfulBench, LeavesNumbers};
ghost use Rattle.ror_bench.specs.Blocks.{HasText};
ghost use Rattle.ror_bench.specs.Reports.{NamesADesk};
ghost use Rattle.ror_report.specs.Text.{block_text};
ghost use Rattle.ror_words.specs.Named.{inputs_of};
ghost use Rattle.ror_frame.specs.States.{shelf_state, sink_state};
ghost use Rattle.ror_frame.specs.Courses.{WritesDue, IsWork};
ghost use Rattle.ror_frame.specs.Inputs.{bench_for};
ghost use Rattle.ror_pivot.specs.Answers.{most_of};
ghost use Rattle.ror_work.specs.Replaying.{report_output, replay_chore, WritesText, MakesBlocks};

use ror_bench::{Bench, has_wide};
use ror_frame::{Stop, fetch_session, fetch_table, opened_desks};
use ror_io::{Shelf, Sink, write_all};
use ror_pivot::Bits;
use ror_report::{Block, header, print_block, print_end};
use ror_session::{Line, Session};
use ror_table::Table;
use ror_words::FileNames;
use ror_xmcda::Input;
use std::alloc::Global;

/// Fetches table and session, each once those before it were read, and writes the report of the session at a width. It says
/// whether anything is too wide.
///
/// # Errors
///
/// The first file whose bytes are refused is, and what is at fault in it; or a fault of the outside.
pub fn replay_files<F: Shelf, O: Sink>(
    alloc: Global,
    names: &FileNames<'_>,
    bits: Bits,
    shelf: &mut F,
    out: &mut O,
) -> Result<bool, Stop>
    ensures { IsWork 0 (replay_chore (inputs_of names.now) bits).files
        (replay_chore (inputs_of names.now) bits).course
        (shelf_state (F.told shelf.old) (F.faults shelf.old) (F.fetch_count shelf.old))
        (shelf_state (F.told shelf.new) (F.faults shelf.new) (F.fetch_count shelf.new))
        (sink_state (O.written out.old) (O.faults out.old))
        (sink_state (O.written out.new) (O.faults out.new)) result }
{
    let input = fetch_table(alloc, names, shelf)?;
    let session = fetch_session(alloc, names, shelf)?;
    write_report(alloc, input, &session, bits, out)
}

/// Writes the report of a session over an input at a width, and says whether anything is too wide. There is room for all revisions
/// before the first byte is written. Each block is written before the next line is taken, and after a write that failed nothing
/// more is.
fn write_report<O: Sink>(
    alloc: Global,
    input: Input,
    session: &Session,
    bits: Bits,
    out: &mut O,
) -> Result<bool, Stop>
    requires lawful { IsLawfulIn input.table input.opening }
    requires sound { IsSound session.now }
    ensures { WritesDue (report_output (most_of bits) (bench_for input session.now) session.now.lines)
        (sink_state (O.written out.old) (O.faults out.old))
        (sink_state (O.written out.new) (O.faults out.new)) result }
{
    let desks = session.desks.len() as u32;
    let lines = session.lines.as_slice();
    let mut bench = opened_desks(alloc, input, session)?;
    bench.make_room(desks, lines)?;
    write_lines(alloc, &mut bench, lines, bits, out)
}

/// Writes the report of these lines over a bench, and says whether anything is too wide.
fn write_lines<O: Sink>(
    alloc: Global,
    bench: &mut Bench,
    lines: &[Line],
    bits: Bits,
    out: &mut O,
) -> Result<bool, Stop>
    requires desks { AllByRecursion (NamesADesk (length bench.old.state)) lines.now }
    requires numbers { AllByRecursion (LeavesNumbers (length lines.now)) bench.old.state }
    requires few { length lines.now ≤ MOST_LINES }
    requires lawful { IsLawfulBench bench.old }
    ensures { WritesDue (report_output (most_of bits) bench.old lines.now) (sink_state (O.written out.old) (O.faults out.old))
        (sink_state (O.written out.new) (O.faults out.new)) result }
{
    write_all(out, header())?;
    let wide = write_blocks(alloc, bench, lines, bits, out)?;
    let end = print_end(alloc, lines.len() as u32)?;
    write_all(out, end.as_slice())?;
    Ok(wide)
}

/// Writes the block of each line, and says whether anything is too wide.
fn write_blocks<O: Sink>(
    alloc: Global,
    bench: &mut Bench,
    lines: &[Line],
    bits: Bits,
    out: &mut O,
) -> Result<bool, Stop>
    requires desks { AllByRecursion (NamesADesk (length bench.old.state)) lines.now }
    requires numbers { AllByRecursion (LeavesNumbers (length lines.now)) bench.old.state }
    ensures { MakesBlocks (most_of bits) bench.old lines.now (sink_state (O.written out.old) (O.faults out.old))
        (sink_state (O.written out.new) (O.faults out.new)) result }
{
    let mut wide = false;
    for line in lines {
        let block = bench.step(line, bits)?;
        let written = write_block(alloc, bench.table(), &block, out);
        let here = has_wide(&block);
        // What is dropped on some paths alone takes long to prove.
        drop(block);
        written?;
        wide = wide || here;
    }
    Ok(wide)
}

/// Writes the text of a block.
fn write_block<O: Sink>(
    alloc: Global,
    table: &Table,
    block: &Block,
    out: &mut O,
) -> Result<(), Stop>
    requires { HasText table.now block.now }
    ensures { WritesText (block_text table.now block.now) (O.faults out.old) (O.faults out.new)
        (O.written out.old) (O.written out.new) result }
{
    let text = print_block(alloc, table, block)?;
    write_all(out, text.as_slice())?;
    Ok(())
}
