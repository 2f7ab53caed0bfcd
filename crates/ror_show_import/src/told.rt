//! What is told of a spreadsheet on standard error.

ghost use Rattle.std.specs.Prelude.{◌≡◌, ◌∷◌, ◌++◌, [], IfOk};
ghost use Rattle.ror_show_cells.specs.declared.fault.SheetKind.TheVariants.{TooLong};
ghost use Rattle.ror_show_cells.specs.Faults.{whole_fault};
ghost use Rattle.ror_show_import.specs.Importing.{options_in};
ghost use Rattle.ror_show_import.specs.Telling as spec;
ghost use Rattle.ror_show_sheet.specs.Beside.{IsSheet};
ghost use Rattle.ror_show_spreadsheet.specs.Options.{options_with};
ghost use Rattle.ror_show_cells.specs.Sheet.{sheet_with};
ghost use Rattle.ror_show_words.specs.Named.{import_words_of};

use crate::import::options_of;
use ror_show_cells::{SheetError, SheetFault, SheetKind, Spreadsheet, read_spreadsheet};
use ror_show_hints::glance_at;
use ror_show_sheet::write_sheet;
use ror_show_spreadsheet::{Imported, Options, import_rows, write_fault, write_notes};
use ror_show_words::ImportWords;
use ror_statement::Statement;
use ror_text::Items;
use ror_value::Input;
use std::alloc::{AllocError, Global};

/// What is told of a spreadsheet with these bytes, behind an empty line: how it was read, the ids of names, and what was read; or its
/// first fault.
///
/// # Errors
///
/// Only want of memory.
pub fn told_of(alloc: Global, bytes: &[u8], words: &ImportWords<'_>) -> Result<Vec<u8>, AllocError>
    ensures told { IfOk result (λ text. spec.Tells (options_in (import_words_of words.now)) bytes.now text.items) }
    ensures begins { IfOk result (λ text. spec.IsBehindLine text.items) }
{
    match read_spreadsheet(alloc, bytes) {
        Ok(sheet) => told_of_sheet(alloc, &sheet, &options_of(words)),
        Err(SheetError::Bad(fault)) => told_of_bytes(alloc, fault),
        Err(SheetError::Memory) => Err(AllocError),
    }
}

/// What is told of a file of more bytes than a spreadsheet may have, behind an empty line.
///
/// # Errors
///
/// Only want of memory.
pub fn told_of_long(alloc: Global) -> Result<Vec<u8>, AllocError>
    ensures told { IfOk result (λ text. spec.TellsFault [] (whole_fault TooLong) text.items) }
    ensures begins { IfOk result (λ text. spec.IsBehindLine text.items) }
{
    let fault = SheetFault {
        kind: SheetKind::TooLong,
        row: 0,
        column: 0,
    };
    told_of_bytes(alloc, fault)
}

/// What is told of bytes that are no spreadsheet.
fn told_of_bytes(alloc: Global, fault: SheetFault) -> Result<Vec<u8>, AllocError>
    ensures { IfOk result (λ text. spec.TellsFault [] fault text.items) }
{
    let mut text = Vec::from_slice(alloc, b"\n")?;
    write_fault(&mut text, &[], fault)?;
    Ok(text)
}

fn told_of_sheet(
    alloc: Global,
    sheet: &Spreadsheet,
    options: &Options<'_>,
) -> Result<Vec<u8>, AllocError>
    ensures { IfOk result (λ text. spec.TellsSheet (options_with options.now) (sheet_with sheet.now) text.items) }
{
    match import_rows(alloc, sheet, options) {
        Ok(imported) => told_of_table(alloc, sheet, imported),
        Err(SheetError::Bad(fault)) => told_of_fault(alloc, sheet, fault),
        Err(SheetError::Memory) => Err(AllocError),
    }
}

fn told_of_fault(
    alloc: Global,
    sheet: &Spreadsheet,
    fault: SheetFault,
) -> Result<Vec<u8>, AllocError>
    ensures { IfOk result (λ text. spec.TellsFault (sheet_with sheet.now).rows fault text.items) }
{
    let mut text = Vec::from_slice(alloc, b"\n")?;
    write_fault(&mut text, sheet.rows.as_slice(), fault)?;
    Ok(text)
}

fn told_of_table(
    alloc: Global,
    sheet: &Spreadsheet,
    imported: Imported,
) -> Result<Vec<u8>, AllocError>
    ensures { IfOk result (λ text. spec.TellsTable (sheet_with sheet.now) imported text.items) }
{
    let mut text = Vec::from_slice(alloc, b"\n")?;
    write_notes(alloc, &mut text, sheet, imported.numerals)?;
    let Imported {
        table,
        text: lines,
        ..
    } = imported;
    let input = Input {
        table,
        opening: Items::from(Vec::<Statement>::new(alloc)),
    };
    let page = page_of(alloc, &input, lines.as_slice())?;
    text.extend_from_slice(&page)?;
    Ok(text)
}

/// The page of what was read of a table with this text.
fn page_of(alloc: Global, input: &Input, lines: &[u8]) -> Result<Vec<u8>, AllocError>
    ensures { IfOk result (λ text. IsSheet input.now text.items) }
{
    let seen = glance_at(alloc, lines)?;
    let mut text = Vec::new(alloc);
    write_sheet(alloc, &mut text, input, &seen, false, None)?;
    Ok(text)
}
