//! The ids that names get.

ghost use Rattle.std.specs.Prelude.{◌≡◌, IfOk};
ghost use Rattle.ror_show_spreadsheet.specs.Names as spec;

use itoa::Buffer;
use ror_text::ids::is_id;
use std::alloc::{AllocError, Global};

/// The id of the criterion with this name, in the column of this number.
pub(crate) fn column_id(alloc: Global, column: usize, name: &[u8]) -> Result<Vec<u8>, AllocError>
    ensures { IfOk result (λ id. id.items ≡ spec.column_id column name.now) }
{
    id_for(alloc, b"column", column, name)
}

/// The id of the alternative with this name, in the row of this number.
pub(crate) fn row_id(alloc: Global, row: usize, name: &[u8]) -> Result<Vec<u8>, AllocError>
    ensures { IfOk result (λ id. id.items ≡ spec.row_id row name.now) }
{
    id_for(alloc, b"row", row, name)
}

/// The name with low lines for blanks, where that is an id; else this word and the number.
#[tactic(auto, unfolding(crate::specs::Names::id_for))]
fn id_for(alloc: Global, word: &[u8], number: usize, name: &[u8]) -> Result<Vec<u8>, AllocError>
    ensures { IfOk result (λ id. id.items ≡ spec.id_for word.now number name.now) }
{
    let tidy = tidy(alloc, name)?;
    if is_id(&tidy) {
        return Ok(tidy);
    }
    let mut id = Vec::from_slice(alloc, word)?;
    id.extend_from_slice(Buffer::new().format(number).as_bytes())?;
    Ok(id)
}

/// The name with low lines for what no id may have.
fn tidy(alloc: Global, name: &[u8]) -> Result<Vec<u8>, AllocError>
    ensures { IfOk result (λ id. id.items ≡ spec.tidy name.now) }
{
    let mut tidy = Vec::new(alloc);
    'bytes: for byte in name {
        tidy.push(tidy_byte(*byte))?;
    }
    Ok(tidy)
}

fn tidy_byte(byte: u8) -> u8
    ensures { result ≡ spec.tidy_byte byte }
{
    if byte < 0x21 || byte == 0x7F {
        b'_'
    } else {
        byte
    }
}
