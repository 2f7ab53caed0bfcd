//! Small questions on cells.

ghost use Rattle.std.specs.Prelude.{◌≡◌, ◌-◌, position, ◌==◌, IfOk, map};
ghost use Rattle.std.specs.Char.{is_ascii_digit};
ghost use Rattle.std.specs.List.{list_all, list_any, count_by};
ghost use Rattle.ror_show_cells.specs.Looks as spec;

use std::alloc::{AllocError, Global};

/// Whether a cell has this byte.
pub(crate) fn has(byte: u8, cell: &[u8]) -> bool
    ensures { result ≡ spec.has byte cell.now }
{
    cell.iter().any(|other| *other == byte)
}

/// A number without its sign.
pub(crate) fn unsigned(cell: &[u8]) -> &[u8]
    ensures { result.now ≡ spec.unsigned cell.now }
{
    match cell {
        [b'+', rest @ ..] | [b'-', rest @ ..] => rest,
        _ => cell,
    }
}

pub(crate) fn begins_with_digit(cell: &[u8]) -> bool
    ensures { result ≡ spec.begins_with_digit cell.now }
{
    match cell {
        [first, ..] => first.is_ascii_digit(),
        [] => false,
    }
}

/// How many digits a cell has.
pub(crate) fn digit_count(cell: &[u8]) -> usize
    ensures { result ≡ count_by is_ascii_digit cell.now }
{
    cell.iter().filter(|byte| byte.is_ascii_digit()).count()
}

/// Whether a cell is of digits alone, one or more.
pub(crate) fn are_digits(cell: &[u8]) -> bool
    ensures { result ≡ spec.are_digits cell.now }
{
    !cell.is_empty() && all_digits(cell)
}

fn all_digits(cell: &[u8]) -> bool
    ensures { result ≡ list_all is_ascii_digit cell.now }
{
    cell.iter().all(|byte| byte.is_ascii_digit())
}

/// Whether each byte is a digit or this one.
pub(crate) fn is_of_digits_and(mark: u8, cell: &[u8]) -> bool
    ensures { result ≡ spec.is_of_digits_and mark cell.now }
{
    cell.iter()
        .all(|byte| byte.is_ascii_digit() || *byte == mark)
}

/// Whether each byte is a digit or a mark, as may stand between thousands.
pub(crate) fn is_of_digits_and_marks(cell: &[u8]) -> bool
    ensures { result ≡ list_all spec.is_digit_or_mark cell.now }
{
    cell.iter().all(|byte| is_digit_or_mark(*byte))
}

fn is_digit_or_mark(byte: u8) -> bool
    ensures { result ≡ spec.is_digit_or_mark byte }
{
    byte.is_ascii_digit()
        || byte == b','
        || byte == b'.'
        || byte == b'\''
        || byte == b' '
        || byte >= 128
}

/// The runs of digits in a cell.
pub(crate) fn runs(alloc: Global, cell: &[u8]) -> Result<Vec<&[u8]>, AllocError>
    ensures { IfOk result (λ runs. map (λ run. run.now) runs.items ≡ spec.runs cell.now) }
{
    cell.split(|byte| !byte.is_ascii_digit())
        .filter(|run| !run.is_empty())
        .collect(alloc)
}

/// The place of the first byte of this sort.
pub(crate) fn place_of(byte: u8, cell: &[u8]) -> Option<usize>
    ensures { result ≡ position (λ other. other == byte) cell.now }
{
    cell.iter().position(|other| *other == byte)
}
