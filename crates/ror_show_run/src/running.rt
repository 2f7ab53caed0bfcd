//! A run, from its words to its status.

ghost use Rattle.std.specs.Prelude.{◌≡◌, ◌≤◌, map};
ghost use Rattle.std.specs.String.{string_bytes};
ghost use Rattle.ror_frame.specs.Courses.{IsWork};
ghost use Rattle.ror_frame.specs.Printing.{Prints};
ghost use Rattle.ror_frame.specs.States.{shelf_state, sink_state};
ghost use Rattle.ror_frame.specs.Runs.{IsRunBy};
ghost use Rattle.ror_show_advice.specs.Apart.{StandsApart};
ghost use Rattle.ror_show_words.specs.Words.{asked};
ghost use Rattle.ror_show_words.specs.Named.{asked_with};
ghost use Rattle.ror_show_run.specs.Chores.{chore_of, status_line};
ghost use Rattle.ror_show_run.specs.Saying.{GrowsApart, SaysFirst, is_import, wants_help};

use crate::group::show_group;
use crate::helping::help_on;
use crate::keeping::KeepingShelf;
use crate::sheet::{SheetFiles, show_sheet};
use crate::show::show_page;
use ror_frame::{Status, Stop, write_status};
use ror_io::{Shelf, Sink, SinkFault, write_all};
use ror_show_check::check_certificates;
use ror_show_import::import_sheet;
use ror_show_words::{Asked, WordsFault, read_words, usage};
use std::alloc::Global;

/// Writes the page that the words name, over files, standard output and standard error. Behind the line of a status that says of a
/// file or of the words that they are at fault stands what may help, and behind an import how the sheet was read, by the bytes that were
/// fetched: no file is fetched for that.
pub fn run<F: Shelf, O: Sink, E: Sink>(
    alloc: Global,
    words: &[String],
    shelf: &mut KeepingShelf<F>,
    out: &mut O,
    err: &mut E,
) -> Status
    ensures run { IsRunBy chore_of (asked (map string_bytes words.now))
        (shelf_state (F.told shelf.old.shelf) (F.faults shelf.old.shelf) (F.fetch_count shelf.old.shelf))
        (shelf_state (F.told shelf.new.shelf) (F.faults shelf.new.shelf) (F.fetch_count shelf.new.shelf))
        (sink_state (O.written out.old) (O.faults out.old))
        (sink_state (O.written out.new) (O.faults out.new)) result }
    ensures err_never_falls { E.faults err.old ≤ E.faults err.new }
    ensures errors { SaysFirst (map string_bytes words.now) result (E.faults err.old) (E.faults err.new)
        (E.written err.old) (E.written err.new) }
{
    let status = status_of(alloc, words, shelf, out);
    say(alloc, words, &status, shelf.kept(), shelf.fetches(), err);
    status
}

/// Writes the line of a status, and what may help behind it. What fails there changes no status.
fn say<E: Sink>(
    alloc: Global,
    words: &[String],
    status: &Status,
    kept: Option<&[u8]>,
    fetches: usize,
    err: &mut E,
)
    ensures err_never_falls { E.faults err.old ≤ E.faults err.new }
    ensures errors { SaysFirst (map string_bytes words.now) status.now (E.faults err.old) (E.faults err.new)
        (E.written err.old) (E.written err.new) }
{
    let Ok(()) = write_line(err, status) else {
        return;
    };
    if wants_help(words, status) {
        let helps = help_on(alloc, words, status, kept, fetches);
        write_help(err, helps.as_slice());
    }
}

/// Writes what may help.
fn write_help<E: Sink>(err: &mut E, helps: &[u8])
    requires { StandsApart helps.now }
    ensures err_never_falls { E.faults err.old ≤ E.faults err.new }
    ensures grows { GrowsApart (E.written err.old) (E.written err.new) }
{
    let _ = write_all(err, helps);
}

/// Whether anything helps.
fn wants_help(words: &[String], status: &Status) -> bool
    ensures { result ≡ wants_help (map string_bytes words.now) status.now }
{
    match status {
        Status::Usage
        | Status::BadTable(_)
        | Status::BadSession(_)
        | Status::Rejected(_)
        | Status::ReadFault => true,
        Status::Done => is_import(words),
        _ => false,
    }
}

/// Whether the words are of an import, which tells how the sheet was read.
fn is_import(words: &[String]) -> bool
    ensures { result ≡ is_import (map string_bytes words.now) }
{
    match words.first() {
        Some(word) => word.as_str() == "import",
        None => false,
    }
}

/// The status of a run, whose output is written.
fn status_of<F: Shelf, O: Sink>(
    alloc: Global,
    words: &[String],
    shelf: &mut F,
    out: &mut O,
) -> Status
    ensures run { IsRunBy chore_of (asked (map string_bytes words.now))
        (shelf_state (F.told shelf.old) (F.faults shelf.old) (F.fetch_count shelf.old))
        (shelf_state (F.told shelf.new) (F.faults shelf.new) (F.fetch_count shelf.new))
        (sink_state (O.written out.old) (O.faults out.old))
        (sink_state (O.written out.new) (O.faults out.new)) result }
{
    match read_words(alloc, words) {
        Ok(asked) => Status::after(work_on(alloc, &asked, shelf, out)),
        Err(WordsFault::Unknown) => Status::Usage,
        Err(WordsFault::Memory) => Status::Memory,
    }
}

/// The work of a page: whether anything is too wide, or where it stopped.
fn work_on<F: Shelf, O: Sink>(
    alloc: Global,
    asked: &Asked<'_>,
    shelf: &mut F,
    out: &mut O,
) -> Result<bool, Stop>
    ensures { IsWork 0 (chore_of (asked_with asked.now)).files (chore_of (asked_with asked.now)).course
        (shelf_state (F.told shelf.old) (F.faults shelf.old) (F.fetch_count shelf.old))
        (shelf_state (F.told shelf.new) (F.faults shelf.new) (F.fetch_count shelf.new))
        (sink_state (O.written out.old) (O.faults out.old))
        (sink_state (O.written out.new) (O.faults out.new)) result }
{
    match asked {
        Asked::OfReport(page, words) => show_page(alloc, *page, words, shelf, out),
        Asked::OfGroup(words) => show_group(alloc, words, shelf, out),
        Asked::OfFiles(words) => {
            let files = SheetFiles {
                table: words.table,
                session: words.session,
                best_first: words.best_first,
            };
            show_sheet(alloc, &files, shelf, out)
        }
        Asked::OfCheck(words) => check_certificates(alloc, words, shelf, out),
        Asked::OfSpreadsheet(words) => import_sheet(alloc, words, shelf, out),
    }
}

/// Writes the line of the status. To write it takes no memory.
fn write_line<S: Sink>(sink: &mut S, status: &Status) -> Result<(), SinkFault>
    ensures { Prints (S.faults sink.old) (S.faults sink.new)
        (S.written sink.old) (S.written sink.new) (status_line status.now) result }
{
    match status {
        Status::Usage => write_all(sink, usage().as_bytes()),
        _ => write_status(sink, status),
    }
}
