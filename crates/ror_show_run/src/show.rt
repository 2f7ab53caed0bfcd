//! The course of a page: the three files are fetched in order, and the page of the report is written.

ghost use Rattle.std.specs.Prelude.{◌≡◌, [], ◌∷◌, IfOk};
ghost use Rattle.ror_value.specs.Over.{IsLawfulIn};
ghost use Rattle.ror_session.specs.Sound.{IsSound};
ghost use Rattle.ror_frame.specs.States.{shelf_state, sink_state};
ghost use Rattle.ror_frame.specs.Courses.{IsWork, WritesDue};
ghost use Rattle.ror_show_words.specs.Named.{page_words_of};
ghost use Rattle.ror_show_run.specs.Courses.{page_output, report_course, session_course, page_chore};
ghost use Rattle.ror_show_ground.specs.Grounds.{ground_of, IsJudged};
ghost use Rattle.ror_show_pages.specs.Pages.{page_of};

use crate::report::fetch_kept;
use crate::sheet::read_table;
use crate::writing::write_text;
use ror_bench::Bench;
use ror_frame::{Refusal, Stop, fetch_session, fetch_whole};
use ror_io::{Shelf, Sink};
use ror_session::Session;
use ror_show_ground::Ground;
use ror_show_pages::{Meant, keeps, names_for, page_text, shown_with};
use ror_show_words::{Page, PageWords};
use ror_statement::Statement;
use ror_table::{TableFault, TableKind};
use ror_text::lines::MOST_TEXT_BYTES;
use ror_words::FileNames;
use ror_xmcda::Input;
use std::alloc::{AllocError, Global};

/// The page that is asked for, and the bytes of the table's file, which were fetched first.
#[derive(Clone, Copy)]
struct Begun<'b, 'a> {
    page: Page,
    words: &'b PageWords<'a>,
    file: &'b [u8],
}

/// Fetches table, session and report in order, each once those before it were read, and writes the page of a report that a check
/// accepts, and behind a text the names that a table in XMCDA has beside ids. What it gives, `false`, says that nothing is left to say.
///
/// # Errors
///
/// The first file whose bytes are refused is, and what is at fault in it; or a fault of the outside.
pub(crate) fn show_page<F: Shelf, O: Sink>(
    alloc: Global,
    page: Page,
    words: &PageWords<'_>,
    shelf: &mut F,
    out: &mut O,
) -> Result<bool, Stop>
    ensures { IsWork 0 (page_chore page (page_words_of words.now)).files (page_chore page (page_words_of words.now)).course
        (shelf_state (F.told shelf.old) (F.faults shelf.old) (F.fetch_count shelf.old))
        (shelf_state (F.told shelf.new) (F.faults shelf.new) (F.fetch_count shelf.new))
        (sink_state (O.written out.old) (O.faults out.old))
        (sink_state (O.written out.new) (O.faults out.new)) result }
{
    let too_long = Refusal::BadTable(TableFault {
        kind: TableKind::TooLong,
        line: 0,
    });
    let file = fetch_whole(alloc, words.table, MOST_TEXT_BYTES, too_long, shelf)?;
    let input = read_table(alloc, file.as_slice(), words.best_first)?;
    let begun = Begun {
        page,
        words,
        file: file.as_slice(),
    };
    show_report(alloc, &begun, input, shelf, out)
}

/// Fetches session and report, once the table was read of its file, and writes the page.
fn show_report<F: Shelf, O: Sink>(
    alloc: Global,
    begun: &Begun<'_, '_>,
    input: Input,
    shelf: &mut F,
    out: &mut O,
) -> Result<bool, Stop>
    requires lawful { IsLawfulIn input.table input.opening }
    ensures { IsWork 1 (begun.now.words.now.session.now ∷ begun.now.words.now.report.now ∷ [])
        (session_course (page_of begun.now.page begun.now.words.now.form) (page_words_of begun.now.words.now) begun.now.file.now input)
        (shelf_state (F.told shelf.old) (F.faults shelf.old) (F.fetch_count shelf.old))
        (shelf_state (F.told shelf.new) (F.faults shelf.new) (F.fetch_count shelf.new))
        (sink_state (O.written out.old) (O.faults out.old))
        (sink_state (O.written out.new) (O.faults out.new)) result }
{
    let words = begun.words;
    let files = FileNames {
        table: words.table,
        session: words.session,
        best_first: words.best_first,
    };
    let session = fetch_session(alloc, &files, shelf)?;
    show_session(alloc, begun, input, &session, shelf, out)
}

/// Fetches the report, once table and session were read, and writes the page.
fn show_session<F: Shelf, O: Sink>(
    alloc: Global,
    begun: &Begun<'_, '_>,
    input: Input,
    session: &Session,
    shelf: &mut F,
    out: &mut O,
) -> Result<bool, Stop>
    requires lawful { IsLawfulIn input.table input.opening }
    requires sound { IsSound session.now }
    ensures { IsWork 2 (begun.now.words.now.report.now ∷ [])
        (report_course (page_of begun.now.page begun.now.words.now.form) (page_words_of begun.now.words.now) begun.now.file.now input
        session.now)
        (shelf_state (F.told shelf.old) (F.faults shelf.old) (F.fetch_count shelf.old))
        (shelf_state (F.told shelf.new) (F.faults shelf.new) (F.fetch_count shelf.new))
        (sink_state (O.written out.old) (O.faults out.old))
        (sink_state (O.written out.new) (O.faults out.new)) result }
{
    let words = begun.words;
    let meant = Meant {
        page: begun.page,
        form: words.form,
        line: words.line,
        desk: words.desk,
    };
    let keep = keeps(alloc, &meant, session)?;
    let opening = opening_of(alloc, &input)?;
    let mut bench = Bench::new(alloc, input, session.desks.len() as u32)?;
    let kept = fetch_kept(
        alloc,
        words.report,
        shelf,
        &mut bench,
        session,
        keep.as_slice(),
    )?;
    let ground = Ground {
        table: bench.table(),
        session,
        opening: opening.as_slice(),
        kept: kept.as_slice(),
    };
    write_page(alloc, begun, &ground, out)
}

/// Writes the page of the ground, and behind it the names that the table's file has. What it gives says that nothing is left to say.
fn write_page<O: Sink>(
    alloc: Global,
    begun: &Begun<'_, '_>,
    ground: &Ground<'_>,
    out: &mut O,
) -> Result<bool, Stop>
    requires { IsJudged (ground_of ground.now) }
    ensures { WritesDue (page_output (page_of begun.now.page begun.now.words.now.form) (page_words_of begun.now.words.now)
        begun.now.file.now (ground_of ground.now) (Unit {0}))
        (sink_state (O.written out.old) (O.faults out.old))
        (sink_state (O.written out.new) (O.faults out.new)) result }
{
    let words = begun.words;
    let page = page_text(alloc, begun.page, words, ground)?;
    let names = names_for(alloc, begun.page, words, begun.file, ground.table)?;
    let text = shown_with(
        alloc,
        words.form,
        begun.file,
        page.as_slice(),
        names.as_slice(),
    )?;
    write_text(out, text.as_slice())
}

/// The statements that come with the table's file.
fn opening_of(alloc: Global, input: &Input) -> Result<Vec<Statement>, AllocError>
    ensures { IfOk result (λ list. list.items ≡ input.now.opening) }
{
    let mut opening = Vec::new(alloc);
    opening.extend_from_slice(input.opening.as_slice())?;
    Ok(opening)
}
