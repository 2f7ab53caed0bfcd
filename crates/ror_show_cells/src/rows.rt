//! The rows of a spreadsheet's bytes.

ghost use Rattle.std.specs.Prelude.{◌≡◌, ◌<◌, length, nat_lt, slice_index_or, [], IfOk};
ghost use Rattle.csv.specs.Machine.{next_record};
ghost use Rattle.ror_show_cells.specs.Rows as spec;

use crate::row::Row;
use crate::separator::{Separator, byte_of};
use crate::spreadsheet::MOST_ROWS;
use csv::{ByteRecord, ReaderBuilder};
use std::alloc::{AllocError, Global};

/// What separates the cells: the first of tab, semicolon and comma that cuts the first row, and the comma where none does.
#[tactic(auto, unfolding(crate::specs::Rows::separator_of))]
pub(crate) fn separator_of(alloc: Global, bytes: &[u8]) -> Result<Separator, AllocError>
    ensures { IfOk result (λ separator. separator ≡ spec.separator_of bytes.now) }
{
    if cuts(alloc, Separator::Tab, bytes)? {
        return Ok(Separator::Tab);
    }
    if cuts(alloc, Separator::Semicolon, bytes)? {
        return Ok(Separator::Semicolon);
    }
    Ok(Separator::Comma)
}

/// Whether the first row has two cells or more.
fn cuts(alloc: Global, separator: Separator, bytes: &[u8]) -> Result<bool, AllocError>
    ensures { IfOk result (λ b. b ≡ spec.cuts separator bytes.now) }
{
    Ok(first_width(alloc, separator, bytes)? > 1)
}

/// How many cells the first row has, and 0 where there is none.
fn first_width(alloc: Global, separator: Separator, bytes: &[u8]) -> Result<usize, AllocError>
    ensures { IfOk result (λ n. n ≡ spec.first_width separator bytes.now) }
{
    let mut reader = ReaderBuilder::new()
        .has_headers(false)
        .flexible(true)
        .delimiter(byte_of(separator))
        .from_reader(alloc, bytes);
    let mut cells = ByteRecord::new(alloc);
    match reader.read_byte_record(&mut cells) {
        Ok(true) => Ok(cells.len()),
        Ok(false) => Ok(0),
        Err(_) => Err(AllocError),
    }
}

/// The rows, or the first of them, one more than a sheet may have. Of a cell nothing is kept that is white at its ends.
pub(crate) fn rows_of(
    alloc: Global,
    separator: Separator,
    bytes: &[u8],
) -> Result<Vec<Row>, AllocError>
    ensures { IfOk result (λ rows. rows.items ≡ spec.rows_of separator bytes.now) }
{
    let reader = ReaderBuilder::new()
        .has_headers(false)
        .flexible(true)
        .delimiter(byte_of(separator))
        .from_reader(alloc, bytes);
    let mut rows = Vec::new(alloc);
    for next in reader.into_byte_records() {
        if rows.len() > MOST_ROWS {
            return Ok(rows);
        }
        let Ok(cells) = next else {
            return Err(AllocError);
        };
        rows.push(trimmed(cells)?)?;
    }
    Ok(rows)
}

/// The row without what is white at the ends of its cells.
fn trimmed(raw: ByteRecord) -> Result<Row, AllocError>
    ensures { IfOk result (λ row. row ≡ spec.trimmed_cells (spec.cells_of raw)) }
{
    let mut cells = raw;
    cells.trim()?;
    Ok(Row::from(cells))
}
