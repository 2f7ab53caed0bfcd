//! The report of a session as JSON: all its blocks are made, and then their text is written.

ghost use Rattle.std.specs.Prelude.{◌≡◌, ◌≤◌, ◌++◌, [], ◌∷◌, length, string_bytes, nat_lt, IfOk};
ghost use Rattle.std.specs.List.{AllByRecursion, list_any};
ghost use Rattle.ror_session.specs.Sound.{IsSound};
ghost use Rattle.ror_value.specs.Over.{IsLawfulIn};
ghost use Rattle.ror_bench.specs.Bench.{IsLawfulBench, LeavesNumbers};
ghost use Rattle.ror_bench.specs.Blocks.{HasText, has_wide};
ghost use Rattle.ror_bench.specs.Replays.{AreBlocksAt};
ghost use Rattle.ror_bench.specs.Reports.{NamesADesk};
ghost use Rattle.ror_words.specs.Named.{inputs_of};
ghost use Rattle.ror_frame.specs.States.{shelf_state, sink_state};
ghost use Rattle.ror_frame.specs.Courses.{WritesDue, IsWork};
ghost use Rattle.ror_frame.specs.Inputs.{bench_for};
ghost use Rattle.ror_pivot.specs.Answers.{most_of};
ghost use Rattle.ror_work_json.specs.Json.{json_output, replay_json_chore};
ghost use Rattle.ror_work_json.specs.Steps.{IsJsonText};

use ror_bench::{Bench, has_wide};
use ror_frame::{Stop, fetch_session, fetch_table, opened_desks};
use ror_io::{Shelf, Sink, write_pieces};
use ror_json::to_text;
use ror_pivot::Bits;
use ror_report::Block;
use ror_session::{Line, Session};
use ror_words::FileNames;
use ror_xmcda::Input;
use std::alloc::{AllocError, Global};

/// Fetches table and session, each once those before it were read, and writes the report of the session at a width, as JSON. It
/// says whether anything is too wide.
///
/// # Errors
///
/// The first file whose bytes are refused is, and what is at fault in it; or a fault of the outside. Where memory ran out nothing
/// was written.
pub fn replay_json_files<F: Shelf, O: Sink>(
    alloc: Global,
    names: &FileNames<'_>,
    bits: Bits,
    shelf: &mut F,
    out: &mut O,
) -> Result<bool, Stop>
    ensures { IsWork 0 (replay_json_chore (inputs_of names.now) bits).files
        (replay_json_chore (inputs_of names.now) bits).course
        (shelf_state (F.told shelf.old) (F.faults shelf.old) (F.fetch_count shelf.old))
        (shelf_state (F.told shelf.new) (F.faults shelf.new) (F.fetch_count shelf.new))
        (sink_state (O.written out.old) (O.faults out.old))
        (sink_state (O.written out.new) (O.faults out.new)) result }
{
    let input = fetch_table(alloc, names, shelf)?;
    let session = fetch_session(alloc, names, shelf)?;
    write_json(alloc, input, &session, bits, out)
}

/// Writes the report of a session over an input at a width, and says whether anything is too wide. The whole text is there before
/// the first byte is written.
fn write_json<O: Sink>(
    alloc: Global,
    input: Input,
    session: &Session,
    bits: Bits,
    out: &mut O,
) -> Result<bool, Stop>
    requires lawful { IsLawfulIn input.table input.opening }
    requires sound { IsSound session.now }
    ensures { WritesDue (json_output (most_of bits) (bench_for input session.now) session.now.lines)
        (sink_state (O.written out.old) (O.faults out.old))
        (sink_state (O.written out.new) (O.faults out.new)) result }
{
    // A text is read as what was written only over a table, and each table has alternatives.
    prove!(input.table.alternatives() > 0);
    let mut bench = opened_desks(alloc, input, session)?;
    let (text, wide) = text_of(alloc, &mut bench, session.lines.as_slice(), bits)?;
    write_pieces(out, &[text.as_bytes(), b"\n"])?;
    Ok(wide)
}

/// The compact text of the report of these lines over a bench, and whether anything is too wide.
fn text_of(
    alloc: Global,
    bench: &mut Bench,
    lines: &[Line],
    bits: Bits,
) -> Result<(String, bool), AllocError>
    requires desks { AllByRecursion (NamesADesk (length bench.old.state)) lines.now }
    requires numbers { AllByRecursion (LeavesNumbers (length lines.now)) bench.old.state }
    requires lawful { IsLawfulBench bench.old }
    ensures { IfOk result (λ x. IsJsonText (most_of bits) bench.old lines.now (string_bytes x.0) x.1) }
{
    let blocks = blocks_of(alloc, bench, lines, bits)?;
    let text = to_text(alloc, bench.table(), blocks.as_slice())?;
    let wide = has_wide_block(blocks.as_slice());
    Ok((text, wide))
}

/// The block of each line, in order.
fn blocks_of(
    alloc: Global,
    bench: &mut Bench,
    lines: &[Line],
    bits: Bits,
) -> Result<Vec<Block>, AllocError>
    requires desks { AllByRecursion (NamesADesk (length bench.old.state)) lines.now }
    requires numbers { AllByRecursion (LeavesNumbers (length lines.now)) bench.old.state }
    ensures made { IfOk result (λ blocks. AreBlocksAt (most_of bits) bench.old lines.now blocks.items) }
    ensures text { IfOk result (λ blocks. AllByRecursion (HasText bench.old.table) blocks.items) }
    ensures table { bench.new.table ≡ bench.old.table }
{
    let mut blocks = Vec::with_capacity(alloc, lines.len())?;
    for line in lines {
        let block = bench.step(line, bits)?;
        blocks.push(block)?;
    }
    Ok(blocks)
}

/// Whether anything in one of the blocks is too wide.
fn has_wide_block(blocks: &[Block]) -> bool
    ensures { result ≡ list_any has_wide blocks.now }
{
    blocks.iter().any(|block| has_wide(block))
}
