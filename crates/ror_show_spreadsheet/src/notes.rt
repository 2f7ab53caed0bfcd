//! What is told of a spreadsheet: how it was read, which ids stand for names, and where a fault is.

ghost use Rattle.std.specs.Prelude.{◌≡◌, ◌+◌, ◌<◌, ◌^◌, ◌++◌, length, OnOk};
ghost use Rattle.ror_show_spreadsheet.specs.Import.{before_of};
ghost use Rattle.ror_show_spreadsheet.specs.Notes as spec;
ghost use Rattle.ror_show_cells.specs.Sheet.{sheet_with};

use crate::columns::words_of;
use crate::importing::{before_of, rows_behind};
use crate::names::{column_id, row_id};
use itoa::Buffer;
use ror_show_cells::{
    CellTest, Numerals, OptionName, Row, Separator, SheetFault, SheetKind, Spreadsheet, any_cell,
};
use ror_table::What;
use std::alloc::{AllocError, Global};

/// How many bytes of a cell are shown at most.
const MOST_SHOWN: usize = 64;

/// Adds what separates the cells of a sheet and how its numbers are written, and each name that isn't its own id, behind its id.
///
/// # Errors
///
/// Only want of memory.
#[tactic(auto, unfolding(crate::specs::Notes::notes_text))]
pub fn write_notes(
    alloc: Global,
    text: &mut Vec<u8>,
    sheet: &Spreadsheet,
    numerals: Numerals,
) -> Result<(), AllocError>
    ensures { OnOk result (text.new.items ≡ text.old.items ++ spec.notes_text (sheet_with sheet.now) numerals) }
{
    write_layout(text, sheet.separator, numerals.mark)?;
    let rows = sheet.rows.as_slice();
    if let Some(head) = rows.first() {
        write_column_notes(alloc, text, head)?;
    }
    let before = before_of(words_of(rows));
    write_row_notes(alloc, text, before, rows_behind(before, rows))
}

#[tactic(auto, unfolding(crate::specs::Notes::layout_text))]
fn write_layout(text: &mut Vec<u8>, separator: Separator, mark: u8) -> Result<(), AllocError>
    ensures { OnOk result (text.new.items ≡ text.old.items ++ spec.layout_text separator mark) }
{
    text.extend_from_slice(b"cells between ")?;
    text.extend_from_slice(separator_words(separator))?;
    text.extend_from_slice(b", decimals with a ")?;
    text.extend_from_slice(mark_words(mark))?;
    text.extend_from_slice(b"\n")
}

fn separator_words(separator: Separator) -> &'static [u8]
    ensures { result.now ≡ spec.separator_words separator }
{
    match separator {
        Separator::Comma => b"commas",
        Separator::Semicolon => b"semicolons",
        Separator::Tab => b"tabs",
    }
}

fn mark_words(mark: u8) -> &'static [u8]
    ensures { result.now ≡ spec.mark_words mark }
{
    if mark == b',' { b"comma" } else { b"point" }
}

/// Adds the names of criteria that aren't their own ids.
fn write_column_notes(alloc: Global, text: &mut Vec<u8>, head: &Row) -> Result<(), AllocError>
    ensures { OnOk result (text.new.items ≡ text.old.items ++ spec.column_notes head.now) }
{
    for place in 1..head.width() {
        write_column_note(alloc, text, place, head.cell(place))?;
    }
    Ok(())
}

#[tactic(auto, unfolding(crate::specs::Notes::column_note))]
fn write_column_note(
    alloc: Global,
    text: &mut Vec<u8>,
    place: usize,
    name: &[u8],
) -> Result<(), AllocError>
    requires { place + 1 < 2 ^ 64 }
    ensures { OnOk result (text.new.items ≡ text.old.items ++ spec.column_note place name.now) }
{
    let id = column_id(alloc, place + 1, name)?;
    write_note(text, &id, name)
}

/// Adds the names of alternatives that aren't their own ids.
fn write_row_notes(
    alloc: Global,
    text: &mut Vec<u8>,
    before: usize,
    rows: &[Row],
) -> Result<(), AllocError>
    requires { before + length rows.now < 2 ^ 64 }
    ensures { OnOk result (text.new.items ≡ text.old.items ++ spec.row_notes before rows.now) }
{
    for (place, row) in rows.iter().enumerate() {
        write_row_note(alloc, text, before, place, row)?;
    }
    Ok(())
}

#[tactic(auto, unfolding(crate::specs::Notes::row_note))]
fn write_row_note(
    alloc: Global,
    text: &mut Vec<u8>,
    before: usize,
    place: usize,
    row: &Row,
) -> Result<(), AllocError>
    requires { before + place + 1 < 2 ^ 64 }
    ensures { OnOk result (text.new.items ≡ text.old.items ++ spec.row_note before (place, row.now)) }
{
    if !any_cell(CellTest::HasText, 0, row) {
        return Ok(());
    }
    let id = row_id(alloc, before + place + 1, row.cell(0))?;
    write_note(text, &id, row.cell(0))
}

/// Adds a name behind its id, where they differ.
#[tactic(auto, unfolding(crate::specs::Notes::note_text))]
fn write_note(text: &mut Vec<u8>, id: &[u8], name: &[u8]) -> Result<(), AllocError>
    ensures { OnOk result (text.new.items ≡ text.old.items ++ spec.note_text id.now name.now) }
{
    if id == name {
        return Ok(());
    }
    text.extend_from_slice(b"name     ")?;
    text.extend_from_slice(id)?;
    write_there(text, name)?;
    text.extend_from_slice(b"\n")
}

/// Adds a text of a sheet, with question marks for what would end a line or steer a screen.
fn write_shown(text: &mut Vec<u8>, name: &[u8]) -> Result<(), AllocError>
    ensures { OnOk result (text.new.items ≡ text.old.items ++ spec.shown name.now) }
{
    'bytes: for byte in name {
        text.push(shown_byte(*byte))?;
    }
    Ok(())
}

fn shown_byte(byte: u8) -> u8
    ensures { result ≡ spec.shown_byte byte }
{
    if byte < 0x20 || byte == 0x7F {
        b'?'
    } else {
        byte
    }
}

/// Adds where a fault of a sheet with these rows is, what stands there, and what helps, in words of which nothing is promised.
///
/// # Errors
///
/// Only want of memory.
pub fn write_fault(text: &mut Vec<u8>, rows: &[Row], fault: SheetFault) -> Result<(), AllocError>
    ensures { OnOk result (spec.AddsFault rows.now fault text.old.items text.new.items) }
{
    write_place(text, rows, fault)?;
    text.extend_from_slice(b"likely   ")?;
    text.extend_from_slice(likely(fault.kind))?;
    text.extend_from_slice(b"\n")
}

#[tactic(auto, unfolding(crate::specs::Notes::place_text))]
fn write_place(text: &mut Vec<u8>, rows: &[Row], fault: SheetFault) -> Result<(), AllocError>
    ensures { OnOk result (text.new.items ≡ text.old.items ++ spec.place_text rows.now fault) }
{
    if fault.row == 0 {
        return Ok(());
    }
    write_number(text, b"row ", fault.row)?;
    if fault.column > 0 {
        write_number(text, b", column ", fault.column)?;
        write_there(text, there(rows, fault))?;
    }
    text.extend_from_slice(b"\n")
}

/// Adds what stands in the cell of a fault, if anything does; of a long text only its length.
#[tactic(auto, unfolding(crate::specs::Notes::there_text))]
fn write_there(text: &mut Vec<u8>, cell: &[u8]) -> Result<(), AllocError>
    ensures { OnOk result (text.new.items ≡ text.old.items ++ spec.there_text cell.now) }
{
    if cell.is_empty() {
        return Ok(());
    }
    if cell.len() > MOST_SHOWN {
        return write_length(text, cell.len());
    }
    text.extend_from_slice(b": `")?;
    write_shown(text, cell)?;
    text.extend_from_slice(b"`")
}

#[tactic(auto, unfolding(crate::specs::Notes::length_text))]
fn write_length(text: &mut Vec<u8>, length: usize) -> Result<(), AllocError>
    ensures { OnOk result (text.new.items ≡ text.old.items ++ spec.length_text length) }
{
    write_number(text, b": a text of ", length)?;
    text.extend_from_slice(b" bytes")
}

/// The cell of a fault; empty where there is none.
fn there(rows: &[Row], fault: SheetFault) -> &[u8]
    ensures { result.now ≡ spec.there rows.now fault }
{
    match rows.get(fault.row.saturating_sub(1)) {
        Some(row) => row.cell(fault.column.saturating_sub(1)),
        None => &[],
    }
}

fn write_number(text: &mut Vec<u8>, before: &[u8], number: usize) -> Result<(), AllocError>
    ensures { OnOk result (text.new.items ≡ text.old.items ++ spec.numbered before.now number) }
{
    text.extend_from_slice(before)?;
    text.extend_from_slice(Buffer::new().format(number).as_bytes())
}

/// What is likely, and what helps.
fn likely(kind: SheetKind) -> &'static [u8] {
    match kind {
        SheetKind::Utf16 => b"UTF-16, as Excel writes `Unicode text`: save as `CSV UTF-8`",
        SheetKind::NotUtf8 =>
            b"Latin-1: save as UTF-8, or convert by `iconv -f ISO-8859-1 -t UTF-8`",
        SheetKind::Nul => b"UTF-16 without its mark, or no text: save as `CSV UTF-8`",
        SheetKind::TooLong => b"another file: at most 16,777,216 bytes",
        SheetKind::TooManyRows =>
            b"rows that aren't alternatives: at most 1,000 rows, and 200 alternatives",
        SheetKind::TooMany(what) => most_of(what),
        SheetKind::Empty => b"no row behind the names and the directions: each is an alternative",
        SheetKind::WideScale => {
            b"a linear criterion without a common measure below 10^18: round its numbers, or leave `linear` out"
        }
        SheetKind::OneColumn | SheetKind::Ragged | SheetKind::NoName | SheetKind::RepeatedId => {
            likely_shape(kind)
        }
        SheetKind::BadDirection
        | SheetKind::NoDirection
        | SheetKind::TwoDirections
        | SheetKind::UnknownName(_) => likely_direction(kind),
        _ => likely_number(kind),
    }
}

fn most_of(what: What) -> &'static [u8] {
    match what {
        What::Alternatives =>
            b"too many alternatives, at most 200: leave out those that others dominate",
        What::Criteria => b"too many criteria, at most 64",
        What::Steps => {
            b"more than 2,000 steps of all criteria: round a criterion to fewer levels, or make it `linear`"
        }
        _ => b"too many",
    }
}

fn likely_shape(kind: SheetKind) -> &'static [u8] {
    match kind {
        SheetKind::OneColumn => {
            b"no comma, semicolon or tab in the first row: it has a name for the first column and for each criterion"
        }
        SheetKind::Ragged => {
            b"a separator in a cell without quotation marks, or too few cells: the first row says how many"
        }
        SheetKind::NoName => b"no name",
        _ => b"a name that an earlier one has, or that gets the same id: rename one",
    }
}

fn likely_direction(kind: SheetKind) -> &'static [u8] {
    match kind {
        SheetKind::BadDirection =>
            b"no direction: write `min` or `max`, or one of them and `linear`, with one blank",
        SheetKind::NoDirection => {
            b"no direction: write `min` or `max` in a second row, or name the criterion by `--min` or `--max`"
        }
        SheetKind::TwoDirections =>
            b"two directions: say it once, in the second row, by `--min` or by `--max`",
        SheetKind::UnknownName(OptionName::Min) =>
            b"`--min` has a name that no criterion has in the first row",
        SheetKind::UnknownName(OptionName::Max) =>
            b"`--max` has a name that no criterion has in the first row",
        _ => b"`--linear` has a name that no criterion has in the first row",
    }
}

fn likely_number(kind: SheetKind) -> &'static [u8] {
    match kind {
        SheetKind::NoValue =>
            b"no number: fill the cell, or leave out the alternative or the criterion",
        SheetKind::Thousands => {
            b"a mark between thousands, or one that may be meant so: format the numbers without, or with two decimals"
        }
        SheetKind::OtherMark => {
            b"another decimal mark: a point between commas; between semicolons or tabs a comma, if a number has one"
        }
        SheetKind::Exponent =>
            b"an exponent: format the cells as plain numbers, as 100000 for 1e+05",
        SheetKind::TooManyDigits =>
            b"more than 18 digits: round in the sheet, or take another unit",
        _ => b"no number: a whole number or a decimal has to stand here",
    }
}
