//! A spreadsheet: its rows, and what separates their cells.

ghost use Rattle.std.specs.Prelude.{◌≡◌, ◌≤◌, length, nat_lt, not, IfOk};
ghost use Rattle.std.specs.Str.{is_utf8};
ghost use Rattle.ror_text.specs.declared.lines.TheConstants.{MOST_TEXT_BYTES};
ghost use Rattle.ror_text.specs.Lines.{bad_utf8_line};
ghost use Rattle.ror_text.specs.Reading.{Gives, refuse};
ghost use Rattle.ror_show_cells.specs.declared.fault.SheetKind.TheVariants.{NotUtf8};
ghost use Rattle.ror_show_cells.specs.Faults.{sheet_fault, fault_at};
ghost use Rattle.ror_show_cells.specs.Sheet as spec;

use crate::fault::{SheetError, SheetKind, bad};
use crate::row::Row;
use crate::rows::{rows_of, separator_of};
use crate::separator::Separator;
use ror_text::lines::{MOST_TEXT_BYTES, bad_utf8_line, line_number};
use ror_text::reading::refuse_if;
use std::alloc::Global;

/// How many rows a spreadsheet has at most, those without anything among them.
pub const MOST_ROWS: usize = 1000;

/// A spreadsheet: its rows, and what separates their cells.
#[derive(Drop)]
pub struct Spreadsheet {
    pub separator: Separator,
    pub rows: Vec<Row>,
}

/// The rows of a spreadsheet's bytes, which may begin with a byte order mark.
///
/// # Errors
///
/// The first of these faults, want of memory aside: more than 16,777,216 bytes, UTF-16 or other bytes that are no UTF-8, a byte 0, and more
/// than 1,000 rows.
#[tactic(auto, unfolding(crate::specs::Sheet::sheet_of))]
pub fn read_spreadsheet(alloc: Global, bytes: &[u8]) -> Result<Spreadsheet, SheetError>
    ensures exact { Gives spec.sheet_with sheet_fault result (spec.sheet_of bytes.now) }
    ensures few { IfOk result (λ sheet. length sheet.rows.items ≤ MOST_ROWS) }
{
    refuse_if(bytes.len() > MOST_TEXT_BYTES, bad(SheetKind::TooLong, 0, 0))?;
    refuse_if(is_utf16(bytes), bad(SheetKind::Utf16, 1, 0))?;
    check_utf8(bytes)?;
    check_nul(bytes)?;
    let separator = separator_of(alloc, bytes)?;
    let rows = rows_of(alloc, separator, bytes)?;
    refuse_if(
        rows.len() > MOST_ROWS,
        bad(SheetKind::TooManyRows, MOST_ROWS + 1, 0),
    )?;
    Ok(Spreadsheet { separator, rows })
}

/// Whether the bytes begin as those of UTF-16 do.
fn is_utf16(bytes: &[u8]) -> bool
    ensures { result ≡ spec.is_utf16 bytes.now }
{
    matches!(bytes, [0xFF, 0xFE, ..] | [0xFE, 0xFF, ..])
}

/// Whether the bytes are UTF-8.
fn check_utf8(bytes: &[u8]) -> Result<(), SheetError>
    requires { length bytes.now ≤ MOST_TEXT_BYTES }
    ensures { Gives (λ _. tt) sheet_fault result
        (refuse (fault_at NotUtf8 (bad_utf8_line bytes.now) 0) (not (is_utf8 bytes.now))) }
{
    match bad_utf8_line(bytes) {
        None => Ok(()),
        Some(line) => Err(bad(SheetKind::NotUtf8, line as usize, 0)),
    }
}

/// Whether there is no byte 0.
fn check_nul(bytes: &[u8]) -> Result<(), SheetError>
    requires { length bytes.now ≤ MOST_TEXT_BYTES }
    ensures { Gives (λ _. tt) sheet_fault result (spec.no_nul bytes.now) }
{
    match nul_place(bytes) {
        None => Ok(()),
        Some(place) => Err(bad(SheetKind::Nul, line_number(bytes, place) as usize, 0)),
    }
}

/// The place of the first byte 0.
fn nul_place(bytes: &[u8]) -> Option<usize>
    ensures place { result ≡ spec.nul_place bytes.now }
{
    bytes.iter().position(|byte| *byte == 0)
}
