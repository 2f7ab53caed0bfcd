//! The course of the page of a group: the three files are fetched in order, and the page of the group's report is written.

ghost use Rattle.std.specs.Prelude.{◌≡◌, ◌≤◌, [], ◌∷◌, length, IfOk};
ghost use Rattle.std.specs.List.{AllByRecursion};
ghost use Rattle.ror_table.specs.Table.{IsTable};
ghost use Rattle.ror_value.specs.declared.input.Input.{Input};
ghost use Rattle.ror_value.specs.Over.{IsLawfulIn};
ghost use Rattle.ror_session.specs.Sound.{IsSound};
ghost use Rattle.ror_closing.specs.Closing.{AreClosingLists, AreSuited};
ghost use Rattle.ror_frame.specs.States.{shelf_state, sink_state};
ghost use Rattle.ror_frame.specs.Courses.{IsFetch, IsWork};
ghost use Rattle.ror_frame.specs.Inputs.{bench_for};
ghost use Rattle.ror_frame.specs.Stops.{last};
ghost use Rattle.ror_work_group.specs.Group.{KeepsGroup, RefusesGroup};
ghost use Rattle.ror_show_words.specs.Named.{page_words_of};
ghost use Rattle.ror_show_find_group.specs.Grounds.{group_ground_of};
ghost use Rattle.ror_show_run.specs.Groups as spec;
ghost use Rattle.ror_show_run.specs.Groups.{IsGroupPage, PageOf, group_page_chore, report_course, session_course};

use crate::sheet::read_table;
use crate::writing::write_text;
use ror_frame::{Refusal, Stop, closed_desks, fetch_report, fetch_suited, fetch_whole};
use ror_group::Entry;
use ror_io::{Shelf, Sink};
use ror_session::Session;
use ror_show_find_group::{GroupFound, GroupGround, find_group};
use ror_show_pages::{names_for, shown_with};
use ror_show_text_group::{write_group, write_group_csv, write_group_dot};
use ror_show_words::{Form, Page, PageWords};
use ror_statement::Statement;
use ror_table::{Table, TableFault, TableKind};
use ror_text::Items;
use ror_text::lines::MOST_TEXT_BYTES;
use ror_words::FileNames;
use ror_work_group::keep_group;
use ror_xmcda::Input;
use std::alloc::{AllocError, Global};

/// The words of the page, and the bytes of the table's file, which were fetched first.
#[derive(Clone, Copy)]
struct Begun<'b, 'a> {
    words: &'b PageWords<'a>,
    file: &'b [u8],
}

/// Fetches table, session and report in order, each once those before it were read, and writes the page of a group's report that a check
/// accepts, and behind a text the names that a table in XMCDA has beside ids. What it gives, `false`, says that nothing is left to say.
///
/// # Errors
///
/// The first file whose bytes are refused is, and what is at fault in it, or the session's first line that repairs; or a fault of the
/// outside.
pub(crate) fn show_group<F: Shelf, O: Sink>(
    alloc: Global,
    words: &PageWords<'_>,
    shelf: &mut F,
    out: &mut O,
) -> Result<bool, Stop>
    ensures { IsWork 0 (group_page_chore (page_words_of words.now)).files (group_page_chore (page_words_of words.now)).course
        (shelf_state (F.told shelf.old) (F.faults shelf.old) (F.fetch_count shelf.old))
        (shelf_state (F.told shelf.new) (F.faults shelf.new) (F.fetch_count shelf.new))
        (sink_state (O.written out.old) (O.faults out.old))
        (sink_state (O.written out.new) (O.faults out.new)) result }
{
    let too_long = Refusal::BadTable(TableFault {
        kind: TableKind::TooLong,
        line: 0,
    });
    let file = fetch_whole(alloc, words.table, MOST_TEXT_BYTES, too_long, shelf)?;
    let input = read_table(alloc, file.as_slice(), words.best_first)?;
    let begun = Begun {
        words,
        file: file.as_slice(),
    };
    show_judges(alloc, &begun, input, shelf, out)
}

/// Fetches session and report, once the table was read of its file, and writes the page.
fn show_judges<F: Shelf, O: Sink>(
    alloc: Global,
    begun: &Begun<'_, '_>,
    input: Input,
    shelf: &mut F,
    out: &mut O,
) -> Result<bool, Stop>
    requires table { IsTable input.table }
    requires lawful { IsLawfulIn input.table input.opening }
    ensures { IsWork 1 (begun.now.words.now.session.now ∷ begun.now.words.now.report.now ∷ [])
        (session_course (page_words_of begun.now.words.now) begun.now.file.now input)
        (shelf_state (F.told shelf.old) (F.faults shelf.old) (F.fetch_count shelf.old))
        (shelf_state (F.told shelf.new) (F.faults shelf.new) (F.fetch_count shelf.new))
        (sink_state (O.written out.old) (O.faults out.old))
        (sink_state (O.written out.new) (O.faults out.new)) result }
{
    let words = begun.words;
    let files = FileNames {
        table: words.table,
        session: words.session,
        best_first: words.best_first,
    };
    let session = fetch_suited(alloc, &files, shelf)?;
    show_entries(alloc, begun, input, &session, shelf, out)
}

/// Fetches the report, once table and session were read, and writes the page.
fn show_entries<F: Shelf, O: Sink>(
    alloc: Global,
    begun: &Begun<'_, '_>,
    input: Input,
    session: &Session,
    shelf: &mut F,
    out: &mut O,
) -> Result<bool, Stop>
    requires table { IsTable input.table }
    requires lawful { IsLawfulIn input.table input.opening }
    requires sound { IsSound session.now }
    requires suited { AreSuited session.now.lines }
    ensures { IsWork 2 (begun.now.words.now.report.now ∷ [])
        (report_course (page_words_of begun.now.words.now) begun.now.file.now input session.now)
        (shelf_state (F.told shelf.old) (F.faults shelf.old) (F.fetch_count shelf.old))
        (shelf_state (F.told shelf.new) (F.faults shelf.new) (F.fetch_count shelf.new))
        (sink_state (O.written out.old) (O.faults out.old))
        (sink_state (O.written out.new) (O.faults out.new)) result }
{
    let report = begun.words.report;
    let (bench, lists) = closed_desks(alloc, input, session)?;
    let lists = lists.as_slice();
    let entries = fetch_entries(alloc, report, shelf, bench.table(), session, lists)?;
    let ground = GroupGround {
        table: bench.table(),
        desks: session.desks.as_slice(),
        lists,
        entries: entries.as_slice(),
    };
    let text = text_of(alloc, begun, &ground)?;
    write_text(out, text.as_slice())
}

/// Fetches the report, and checks it over a table and what stands at the session's desks at the end. What it gives is the report's entries.
fn fetch_entries<F: Shelf>(
    alloc: Global,
    report: &str,
    shelf: &mut F,
    table: &Table,
    session: &Session,
    lists: &[Items<Statement>],
) -> Result<Items<Entry>, Stop>
    requires lawful { AllByRecursion (IsLawfulIn table.now) lists.now }
    requires few { length lists.now ≤ 64 }
    ensures { (i : Input) → i.table ≡ table.now → AreClosingLists (bench_for i session.now) session.now.lines lists.now
        → IsFetch report.now last (KeepsGroup i session.now) (RefusesGroup i session.now)
        (shelf_state (F.told shelf.old) (F.faults shelf.old) (F.fetch_count shelf.old))
        (shelf_state (F.told shelf.new) (F.faults shelf.new) (F.fetch_count shelf.new)) result }
{
    let bytes = fetch_report(alloc, report, shelf)?;
    keep_group(alloc, table, session, lists, bytes.as_slice())
}

/// The page of the entries, and behind it the names that the table's file has.
fn text_of(
    alloc: Global,
    begun: &Begun<'_, '_>,
    ground: &GroupGround<'_>,
) -> Result<Vec<u8>, AllocError>
    requires { length ground.now.lists.now ≤ 64 }
    ensures { IfOk result (λ text. PageOf (page_words_of begun.now.words.now) begun.now.file.now (group_ground_of ground.now) text.items) }
{
    let words = begun.words;
    let page = group_page(alloc, words.form, ground)?;
    // Like the page of a relation it names alternatives alone.
    let names = names_for(alloc, Page::Relation, words, begun.file, ground.table)?;
    shown_with(
        alloc,
        words.form,
        begun.file,
        page.as_slice(),
        names.as_slice(),
    )
}

/// What is found of the entries, in a form.
fn group_page(alloc: Global, form: Form, ground: &GroupGround<'_>) -> Result<Vec<u8>, AllocError>
    requires { length ground.now.lists.now ≤ 64 }
    ensures { IfOk result (λ text. IsGroupPage form (group_ground_of ground.now) text.items) }
{
    let found = find_group(alloc, ground)?;
    group_in(alloc, form, ground, &found)
}

fn group_in(
    alloc: Global,
    form: Form,
    ground: &GroupGround<'_>,
    found: &GroupFound,
) -> Result<Vec<u8>, AllocError>
    requires { length found.now.judges ≤ 64 }
    ensures { IfOk result (λ text. text.items ≡ spec.group_in form (group_ground_of ground.now) found.now) }
{
    let mut text = Vec::new(alloc);
    match form {
        Form::Text => write_group(&mut text, ground.table, ground.desks, found)?,
        Form::Csv => write_group_csv(&mut text, ground.table, ground.desks, found)?,
        Form::Dot => write_group_dot(&mut text, ground.table, found)?,
        _ => {}
    }
    Ok(text)
}
