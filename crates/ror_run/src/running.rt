//! A run, from its words to its status.

ghost use Rattle.std.specs.Prelude.{◌≤◌, map};
ghost use Rattle.std.specs.String.{string_bytes};
ghost use Rattle.ror_frame.specs.States.{shelf_state, sink_state};
ghost use Rattle.ror_words.specs.WordTable.{IsByTable};
ghost use Rattle.ror_words.specs.Named.{given_with};
ghost use Rattle.ror_frame.specs.Courses.{IsWork};
ghost use Rattle.ror_run.specs.Chores.{chore_by};
ghost use Rattle.ror_frame.specs.Statuses.{status_text};
ghost use Rattle.ror_frame.specs.Runs.{Says};
ghost use Rattle.ror_run.specs.Running.{IsRun};

use ror_frame::{Status, Stop, write_status};
use ror_generate::generate;
use ror_io::{Shelf, Sink};
use ror_words::{Arguments, CommandWord, words_in_table};
use ror_work::{check_files, replay_files};
use ror_work_discriminate::{check_discriminate_files, discriminate_files};
use ror_work_group::{check_group_files, group_files};
use ror_work_json::{check_json_files, replay_json_files};
use ror_work_levels::{check_levels_files, levels_files};
use ror_work_ranks::{check_ranks_files, ranks_files};
use std::alloc::Global;

/// Runs the command that the words name, over files, standard output and standard error.
pub fn run<F: Shelf, O: Sink, E: Sink>(
    alloc: Global,
    words: &[String],
    shelf: &mut F,
    out: &mut O,
    err: &mut E,
) -> Status
    ensures run { IsRun (map string_bytes words.now)
        (shelf_state (F.told shelf.old) (F.faults shelf.old) (F.fetch_count shelf.old))
        (shelf_state (F.told shelf.new) (F.faults shelf.new) (F.fetch_count shelf.new))
        (sink_state (O.written out.old) (O.faults out.old))
        (sink_state (O.written out.new) (O.faults out.new)) result }
    ensures table { IsByTable (map string_bytes words.now) }
    ensures err_never_falls { E.faults err.old ≤ E.faults err.new }
    ensures errors { Says (E.faults err.old) (E.faults err.new)
        (E.written err.old) (E.written err.new) (status_text result) }
{
    let status = status_of(alloc, words, shelf, out);
    // What fails there changes no status.
    let _ = write_status(err, &status);
    status
}

/// The status of a run, whose output is written.
fn status_of<F: Shelf, O: Sink>(
    alloc: Global,
    words: &[String],
    shelf: &mut F,
    out: &mut O,
) -> Status
    ensures run { IsRun (map string_bytes words.now)
        (shelf_state (F.told shelf.old) (F.faults shelf.old) (F.fetch_count shelf.old))
        (shelf_state (F.told shelf.new) (F.faults shelf.new) (F.fetch_count shelf.new))
        (sink_state (O.written out.old) (O.faults out.old))
        (sink_state (O.written out.new) (O.faults out.new)) result }
{
    match words_in_table(words) {
        Some((row, arguments)) => Status::after(work_on(
            alloc,
            row.command,
            &arguments,
            shelf,
            out,
        )),
        None => Status::Usage,
    }
}

/// The work of a command: whether anything is too wide, or where it stopped.
fn work_on<F: Shelf, O: Sink>(
    alloc: Global,
    command: CommandWord,
    arguments: &Arguments<'_>,
    shelf: &mut F,
    out: &mut O,
) -> Result<bool, Stop>
    ensures { IsWork 0 (chore_by command (given_with arguments.now)).files (chore_by command (given_with arguments.now)).course
        (shelf_state (F.told shelf.old) (F.faults shelf.old) (F.fetch_count shelf.old))
        (shelf_state (F.told shelf.new) (F.faults shelf.new) (F.fetch_count shelf.new))
        (sink_state (O.written out.old) (O.faults out.old))
        (sink_state (O.written out.new) (O.faults out.new)) result }
{
    let inputs = arguments.inputs();
    let bits = arguments.width();
    let third = arguments.name(2);
    match command {
        CommandWord::Replay => replay_files(alloc, &inputs, bits, shelf, out),
        CommandWord::Check => check_files(alloc, &inputs, third, shelf, out),
        CommandWord::Generate => generate(alloc, arguments.number(), out),
        CommandWord::Group => group_files(alloc, &inputs, bits, shelf, out),
        CommandWord::CheckGroup => check_group_files(alloc, &inputs, third, shelf, out),
        CommandWord::Discriminate => discriminate_files(alloc, &inputs, bits, shelf, out),
        CommandWord::CheckDiscriminate => {
            check_discriminate_files(alloc, &inputs, third, shelf, out)
        }
        CommandWord::Ranks => ranks_files(alloc, &inputs, bits, shelf, out),
        CommandWord::CheckRanks => check_ranks_files(alloc, &inputs, third, shelf, out),
        CommandWord::Levels => levels_files(alloc, &inputs, third, bits, shelf, out),
        CommandWord::CheckLevels => {
            check_levels_files(alloc, &inputs, third, arguments.name(3), shelf, out)
        }
        CommandWord::ReplayJson => replay_json_files(alloc, &inputs, bits, shelf, out),
        CommandWord::CheckJson => check_json_files(alloc, &inputs, third, shelf, out),
    }
}
