//! A spreadsheet, read as a table.

ghost use Rattle.std.specs.Prelude.{◌≡◌, ◌<◌, ◌≤◌, ◌+◌, ◌^◌, length, option_map, IfOk};
ghost use Rattle.ror_text.specs.Reading.{Gives};
ghost use Rattle.ror_table.specs.Table.{IsTable};
ghost use Rattle.ror_show_cells.specs.Faults.{sheet_fault};
ghost use Rattle.ror_show_spreadsheet.specs.Import as spec;
ghost use Rattle.ror_show_spreadsheet.specs.Options.{options_with};
ghost use Rattle.ror_show_cells.specs.Sheet.{sheet_with};

use crate::columns::{Reading, check_options, even_row, even_words, read_columns, words_of};
use crate::drafts::draft_error;
use crate::lines::{Layout, read_rows};
use crate::options::Options;
use ror_show_cells::{
    Numerals, Row, SheetError, SheetKind, Spreadsheet, bad, numerals_of, read_spreadsheet,
};
use ror_table::Table;
use ror_text::Items;
use ror_text::reading::refuse_if;
use std::alloc::Global;

/// What a spreadsheet is read as.
#[derive(Drop)]
pub struct Imported {
    /// How its numbers are written.
    pub numerals: Numerals,
    pub table: Table,
    /// The text of a plain table that is read as this table.
    pub text: Items<u8>,
}

/// The table of a spreadsheet's bytes, and the text of a plain table that is read as the same table.
///
/// # Errors
///
/// The first fault, want of memory aside: of the bytes, of the first row and the row of directions, column by column, of the options, and
/// of the other rows.
#[tactic(auto, unfolding(crate::specs::Import::imported_of))]
pub fn import(alloc: Global, bytes: &[u8], options: &Options<'_>) -> Result<Imported, SheetError>
    ensures exact { Gives (λ x. x) sheet_fault result (spec.imported_of (options_with options.now) bytes.now) }
    ensures table { IfOk result (λ x. IsTable x.table) }
{
    let sheet = read_spreadsheet(alloc, bytes)?;
    import_rows(alloc, &sheet, options)
}

/// The table of a spreadsheet, and the text of a plain table that is read as the same table.
///
/// # Errors
///
/// The first fault, as [`import`] gives it.
#[tactic(auto, unfolding(crate::specs::Import::imported_in))]
pub fn import_rows(
    alloc: Global,
    sheet: &Spreadsheet,
    options: &Options<'_>,
) -> Result<Imported, SheetError>
    ensures exact { Gives (λ x. x) sheet_fault result
        (spec.imported_in (options_with options.now) (sheet_with sheet.now)) }
    ensures table { IfOk result (λ x. IsTable x.table) }
{
    let rows = sheet.rows.as_slice();
    let head = head_of(rows)?;
    let words = words_of(rows);
    even_words(head.width(), words)?;
    let mut reading = read_columns(alloc, options, head, words)?;
    check_options(alloc, options, head)?;
    let before = before_of(words);
    let body = rows_behind(before, rows);
    let layout = Layout {
        numerals: numerals_of(sheet.separator, body),
        width: head.width(),
        before,
    };
    read_rows(alloc, layout, &mut reading, body)?;
    whole(layout.numerals, reading)
}

/// The row of names.
fn head_of(rows: &[Row]) -> Result<&Row, SheetError>
    ensures exact { Gives (λ row. row.now) sheet_fault result (spec.head_of rows.now) }
    ensures wide { IfOk result (λ row. 2 ≤ length row.now) }
{
    let Some(head) = rows.first() else {
        return Err(bad(SheetKind::OneColumn, 1, 1));
    };
    refuse_if(head.width() < 2, bad(SheetKind::OneColumn, 1, 1))?;
    Ok(head)
}

pub(crate) fn before_of(words: Option<&Row>) -> usize
    ensures number { result ≡ spec.before_of (option_map (λ row. row.now) words.entry) }
    ensures few { result ≤ 2 }
{
    if words.is_some() { 2 } else { 1 }
}

/// The rows behind so many; none where there are fewer.
pub(crate) fn rows_behind(before: usize, rows: &[Row]) -> &[Row]
    requires { before ≤ 2 }
    ensures rows { result.now ≡ spec.rows_behind before rows.now }
    ensures fits { before + length result.now < 2 ^ 64 }
{
    if before <= rows.len() {
        &rows[before..]
    } else {
        &[]
    }
}

/// What was read, as a table.
#[tactic(auto, unfolding(crate::specs::Import::whole))]
fn whole(numerals: Numerals, reading: Reading) -> Result<Imported, SheetError>
    ensures exact { Gives (λ x. x) sheet_fault result (spec.whole numerals (spec.reading_with reading)) }
    ensures table { IfOk result (λ x. IsTable x.table) }
{
    let Reading { draft, text } = reading;
    match draft.finish() {
        Ok(table) => Ok(Imported {
            numerals,
            table,
            text: Items::from(text),
        }),
        Err(fault) => Err(draft_error(fault, 0, 0)),
    }
}
