//! Why a cell is no number.

ghost use Rattle.std.specs.Prelude.{◌≡◌, map, IfOk};
ghost use Rattle.ror_show_cells.specs.Numbers as spec;

use crate::fault::SheetKind;
use crate::looks::{
    begins_with_digit, digit_count, has, is_of_digits_and, is_of_digits_and_marks, runs, unsigned,
};
use crate::numbers::{Numerals, other_mark};
use std::alloc::{AllocError, Global};

/// What is at fault in a cell that is no number.
#[tactic(auto, unfolding(crate::specs::Numbers::kind_of))]
pub fn kind_of(alloc: Global, numerals: Numerals, cell: &[u8]) -> Result<SheetKind, AllocError>
    ensures { IfOk result (λ kind. kind ≡ spec.kind_of numerals cell.now) }
{
    if cell.is_empty() {
        return Ok(SheetKind::NoValue);
    }
    if is_grouped(alloc, cell)? {
        return Ok(SheetKind::Thousands);
    }
    if begins_with_digit(unsigned(cell)) && has(other_mark(numerals.mark), cell) {
        return Ok(SheetKind::OtherMark);
    }
    if is_exponent(cell) {
        return Ok(SheetKind::Exponent);
    }
    if has_many_digits(numerals.mark, cell) {
        return Ok(SheetKind::TooManyDigits);
    }
    Ok(SheetKind::NoNumber)
}

/// Whether there are marks between groups of three digits.
fn is_grouped(alloc: Global, cell: &[u8]) -> Result<bool, AllocError>
    ensures { IfOk result (λ b. b ≡ spec.is_grouped cell.now) }
{
    let number = unsigned(cell);
    let runs = runs(alloc, number)?;
    Ok(is_of_digits_and_marks(number) && are_thousands(&runs))
}

fn are_thousands(runs: &[&[u8]]) -> bool
    ensures { result ≡ spec.are_thousands (map (λ run. run.now) runs.now) }
{
    match runs {
        [first, second, ..] => first.len() <= 3 && second.len() == 3,
        _ => false,
    }
}

fn is_exponent(cell: &[u8]) -> bool
    ensures { result ≡ spec.is_exponent cell.now }
{
    begins_with_digit(unsigned(cell)) && (has(b'e', cell) || has(b'E', cell))
}

fn has_many_digits(mark: u8, cell: &[u8]) -> bool
    ensures { result ≡ spec.has_many_digits mark cell.now }
{
    digit_count(cell) > 18 && is_of_digits_and(mark, unsigned(cell))
}
