//! The course of the sheet: the files are fetched in order, and what was read of them is written.

ghost use Rattle.std.specs.Prelude.{[], ◌∷◌, IfOk};
ghost use Rattle.ror_value.specs.Over.{IsLawfulIn};
ghost use Rattle.ror_frame.specs.States.{shelf_state, sink_state};
ghost use Rattle.ror_frame.specs.Courses.{IsWork, ReadAs, WritesDue};
ghost use Rattle.ror_frame.specs.Inputs.{ReadsTable, RefusesTable};
ghost use Rattle.ror_frame.specs.Stops.{counted};
ghost use Rattle.ror_show_run.specs.Named.{sheet_names_of};
ghost use Rattle.ror_show_run.specs.Sheets.{session_course, sheet_chore, sheet_output};
ghost use Rattle.ror_show_sheet.specs.Beside.{IsSheet};

use crate::writing::write_text;
use ror_frame::{Refusal, Stop, fetch_session, fetch_whole};
use ror_io::{Shelf, Sink};
use ror_session::Session;
use ror_show_hints::glance_at;
use ror_show_sheet::write_sheet;
use ror_table::{TableFault, TableKind};
use ror_text::lines::MOST_TEXT_BYTES;
use ror_words::FileNames;
use ror_xmcda::{Input, read_input};
use std::alloc::{AllocError, Global};

/// The files of a sheet.
#[derive(Clone, Copy, Debug)]
pub(crate) struct SheetFiles<'a> {
    /// The file with the table.
    pub(crate) table: &'a str,
    /// The file with the session, where there is one.
    pub(crate) session: Option<&'a str>,
    /// Whether the ranks of the table's categories begin with the best one.
    pub(crate) best_first: bool,
}

/// What a sheet is of: the table's bytes, and what they are read as.
#[derive(Clone, Copy)]
struct Papers<'a> {
    bytes: &'a [u8],
    input: &'a Input,
    best_first: bool,
}

/// Fetches the table, and the session where one is named, once the table was read, and writes the sheet. What it gives, `false`, says
/// that nothing is left to say.
///
/// # Errors
///
/// The first file whose bytes are refused is, and what is at fault in it; or a fault of the outside.
pub(crate) fn show_sheet<F: Shelf, O: Sink>(
    alloc: Global,
    files: &SheetFiles<'_>,
    shelf: &mut F,
    out: &mut O,
) -> Result<bool, Stop>
    ensures { IsWork 0 (sheet_chore (sheet_names_of files.now)).files (sheet_chore (sheet_names_of files.now)).course
        (shelf_state (F.told shelf.old) (F.faults shelf.old) (F.fetch_count shelf.old))
        (shelf_state (F.told shelf.new) (F.faults shelf.new) (F.fetch_count shelf.new))
        (sink_state (O.written out.old) (O.faults out.old))
        (sink_state (O.written out.new) (O.faults out.new)) result }
{
    let too_long = Refusal::BadTable(TableFault {
        kind: TableKind::TooLong,
        line: 0,
    });
    let bytes = fetch_whole(alloc, files.table, MOST_TEXT_BYTES, too_long, shelf)?;
    let input = read_table(alloc, bytes.as_slice(), files.best_first)?;
    let papers = Papers {
        bytes: bytes.as_slice(),
        input: &input,
        best_first: files.best_first,
    };
    match files.session {
        Some(name) => show_session(alloc, &papers, name, shelf, out),
        None => show_page(alloc, &papers, None, out),
    }
}

/// Reads the bytes of a table.
///
/// # Errors
///
/// What is at fault in them first, or want of memory.
pub(crate) fn read_table(alloc: Global, bytes: &[u8], best_first: bool) -> Result<Input, Stop>
    ensures lawful { IfOk result (λ input. IsLawfulIn input.table input.opening) }
    ensures read { ReadAs (counted 1) (ReadsTable best_first) (RefusesTable best_first) bytes.now result }
{
    Ok(read_input(alloc, bytes, best_first)?)
}

/// Fetches the session, and writes the sheet of table and session.
fn show_session<F: Shelf, O: Sink>(
    alloc: Global,
    papers: &Papers<'_>,
    name: &str,
    shelf: &mut F,
    out: &mut O,
) -> Result<bool, Stop>
    ensures { IsWork 1 (name.now ∷ []) (session_course name.now papers.now.input.now)
        (shelf_state (F.told shelf.old) (F.faults shelf.old) (F.fetch_count shelf.old))
        (shelf_state (F.told shelf.new) (F.faults shelf.new) (F.fetch_count shelf.new))
        (sink_state (O.written out.old) (O.faults out.old))
        (sink_state (O.written out.new) (O.faults out.new)) result }
{
    let names = FileNames {
        table: name,
        session: name,
        best_first: papers.best_first,
    };
    let session = fetch_session(alloc, &names, shelf)?;
    show_page(alloc, papers, Some(&session), out)
}

/// Writes the sheet. What it gives says that nothing is left to say.
fn show_page<O: Sink>(
    alloc: Global,
    papers: &Papers<'_>,
    session: Option<&Session>,
    out: &mut O,
) -> Result<bool, Stop>
    ensures { WritesDue (sheet_output papers.now.input.now) (sink_state (O.written out.old) (O.faults out.old))
        (sink_state (O.written out.new) (O.faults out.new)) result }
{
    let text = sheet_of(alloc, papers, session)?;
    write_text(out, text.as_slice())
}

fn sheet_of(
    alloc: Global,
    papers: &Papers<'_>,
    session: Option<&Session>,
) -> Result<Vec<u8>, AllocError>
    ensures { IfOk result (λ text. IsSheet papers.now.input.now text.items) }
{
    let seen = glance_at(alloc, papers.bytes)?;
    let mut text = Vec::new(alloc);
    let input = papers.input;
    write_sheet(alloc, &mut text, input, &seen, papers.best_first, session)?;
    Ok(text)
}
