//! The course: the file is fetched, and the text of a table is written.

ghost use Rattle.std.specs.Prelude.{◌≡◌, false, IfOk};
ghost use Rattle.ror_frame.specs.Courses.{IsFetch, IsWork, ReadAs, WritesDue};
ghost use Rattle.ror_frame.specs.Inputs.{line_output};
ghost use Rattle.ror_frame.specs.States.{shelf_state, sink_state};
ghost use Rattle.ror_frame.specs.Stops.{counted};
ghost use Rattle.ror_show_import.specs.Importing as spec;
ghost use Rattle.ror_show_import.specs.Importing.{ReadsSpreadsheet, RefusesSpreadsheet, import_chore, options_in};
ghost use Rattle.ror_show_words.specs.Named.{import_words_of};

use ror_frame::{Refusal, Stop, fetch_whole};
use ror_io::{Shelf, Sink, write_all};
use ror_show_cells::{SheetError, table_fault};
use ror_show_spreadsheet::{Imported, Options, import};
use ror_show_words::ImportWords;
use ror_table::{TableFault, TableKind};
use ror_text::lines::MOST_TEXT_BYTES;
use std::alloc::Global;

/// Fetches a spreadsheet, and writes the text of a plain table that is read as the table of the spreadsheet. What it gives, `false`, says
/// that nothing is left to say.
///
/// # Errors
///
/// What is at fault first in the bytes, as a fault of a table with the row for the line; or a fault of the outside.
pub fn import_sheet<F: Shelf, O: Sink>(
    alloc: Global,
    words: &ImportWords<'_>,
    shelf: &mut F,
    out: &mut O,
) -> Result<bool, Stop>
    ensures { IsWork 0 (import_chore (import_words_of words.now)).files (import_chore (import_words_of words.now)).course
        (shelf_state (F.told shelf.old) (F.faults shelf.old) (F.fetch_count shelf.old))
        (shelf_state (F.told shelf.new) (F.faults shelf.new) (F.fetch_count shelf.new))
        (sink_state (O.written out.old) (O.faults out.old))
        (sink_state (O.written out.new) (O.faults out.new)) result }
{
    let imported = fetch_imported(alloc, words, shelf)?;
    write_text(out, imported.text.as_slice())
}

/// Fetches a spreadsheet and reads it.
fn fetch_imported<F: Shelf>(
    alloc: Global,
    words: &ImportWords<'_>,
    shelf: &mut F,
) -> Result<Imported, Stop>
    ensures { IsFetch words.now.file.now (counted 1) (ReadsSpreadsheet (options_in (import_words_of words.now)))
        (RefusesSpreadsheet (options_in (import_words_of words.now)))
        (shelf_state (F.told shelf.old) (F.faults shelf.old) (F.fetch_count shelf.old))
        (shelf_state (F.told shelf.new) (F.faults shelf.new) (F.fetch_count shelf.new)) result }
{
    let too_long = Refusal::BadTable(TableFault {
        kind: TableKind::TooLong,
        line: 0,
    });
    let bytes = fetch_whole(alloc, words.file, MOST_TEXT_BYTES, too_long, shelf)?;
    imported_in(alloc, bytes.as_slice(), words)
}

/// Reads the bytes of a spreadsheet.
fn imported_in(alloc: Global, bytes: &[u8], words: &ImportWords<'_>) -> Result<Imported, Stop>
    ensures { ReadAs (counted 1) (ReadsSpreadsheet (options_in (import_words_of words.now)))
        (RefusesSpreadsheet (options_in (import_words_of words.now))) bytes.now result }
{
    match import(alloc, bytes, &options_of(words)) {
        Ok(imported) => Ok(imported),
        Err(error) => Err(stop_at(error)),
    }
}

pub(crate) fn options_of<'a>(words: &ImportWords<'a>) -> Options<'a>
    ensures { spec.named_by result ≡ options_in (import_words_of words.now) }
{
    Options {
        min: words.min,
        max: words.max,
        linear: words.linear,
    }
}

/// The stop of a spreadsheet that is no table.
fn stop_at(error: SheetError) -> Stop
    ensures { result ≡ spec.stop_at_sheet error }
{
    match error {
        SheetError::Bad(fault) => Stop::At(Refusal::BadTable(table_fault(fault))),
        SheetError::Memory => Stop::Memory,
    }
}

/// Writes a text, of which nothing is too wide. What it gives says that nothing is left to say.
fn write_text<O: Sink>(out: &mut O, text: &[u8]) -> Result<bool, Stop>
    ensures { WritesDue (line_output false text.now (Unit {0})) (sink_state (O.written out.old) (O.faults out.old))
        (sink_state (O.written out.new) (O.faults out.new)) result }
{
    write_all(out, text)?;
    Ok(false)
}
