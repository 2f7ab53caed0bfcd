//! Which cells are numbers, and of which value.

ghost use Rattle.std.specs.Prelude.{◌≡◌, None, Some, MatchOption, IfOk, IfSome};
ghost use Rattle.ror_table.specs.Amounts.{IsAmount};
ghost use Rattle.ror_table.specs.Spellings.{split_at_byte};
ghost use Rattle.ror_show_cells.specs.Numbers as spec;

use crate::looks::{are_digits, has, place_of, unsigned};
use crate::row::Row;
use crate::separator::Separator;
use ror_table::{Amount, read_real};
use std::alloc::{AllocError, Global};

/// How the numbers of a sheet are written.
#[derive(Clone, Copy, Debug, PartialEq, Eq)]
pub struct Numerals {
    /// The decimal mark, a point or a comma.
    pub mark: u8,
    /// Whether some number shows that it is one: where it could as well stand between thousands in each, it is taken for neither.
    pub shown: bool,
}

/// What is asked of a cell.
#[derive(Clone, Copy, Debug)]
pub enum CellTest {
    /// It isn't empty.
    HasText,
    /// It says a direction.
    SaysScale,
    /// It has this byte.
    Has(u8),
    /// It shows that this is the decimal mark.
    Shows(u8),
}

/// How the numbers of these rows are written.
#[tactic(auto, unfolding(crate::specs::Numbers::numerals_of))]
pub fn numerals_of(separator: Separator, rows: &[Row]) -> Numerals
    ensures { result ≡ spec.numerals_of separator rows.now }
{
    let mark = mark_of(separator, rows);
    Numerals {
        mark,
        shown: any_number(CellTest::Shows(mark), rows),
    }
}

fn mark_of(separator: Separator, rows: &[Row]) -> u8
    ensures { result ≡ spec.mark_of separator rows.now }
{
    match separator {
        Separator::Comma => b'.',
        Separator::Semicolon | Separator::Tab => {
            if any_number(CellTest::Has(b','), rows) {
                b','
            } else {
                b'.'
            }
        }
    }
}

/// Whether a cell behind the first of some row passes the test.
fn any_number(test: CellTest, rows: &[Row]) -> bool
    ensures { result ≡ spec.any_number test rows.now }
{
    rows.iter().any(|row| any_cell(test, 1, row))
}

/// Whether some cell from this place on passes the test.
pub fn any_cell(test: CellTest, from: usize, row: &Row) -> bool
    ensures { result ≡ spec.any_cell test from row.now }
{
    for place in from..row.width() {
        if passes(test, row.cell(place)) {
            return true;
        }
    }
    false
}

fn passes(test: CellTest, cell: &[u8]) -> bool
    ensures { result ≡ spec.passes test cell.now }
{
    match test {
        CellTest::HasText => !cell.is_empty(),
        CellTest::SaysScale => crate::scales::scale_in(cell).is_some(),
        CellTest::Has(byte) => has(byte, cell),
        CellTest::Shows(mark) => shows(mark, cell),
    }
}

/// Whether a cell shows that this is the decimal mark.
fn shows(mark: u8, cell: &[u8]) -> bool
    ensures { result ≡ spec.shows mark cell.now }
{
    is_decimal(mark, cell) && !may_group(mark, cell)
}

fn is_decimal(mark: u8, cell: &[u8]) -> bool
    ensures { result ≡ spec.is_decimal mark cell.now }
{
    match parts(mark, cell) {
        Some((before, behind)) => are_digits(before) && are_digits(behind),
        None => false,
    }
}

/// Whether the mark may stand between thousands as well as before decimals.
fn may_group(mark: u8, cell: &[u8]) -> bool
    ensures { result ≡ spec.may_group mark cell.now }
{
    match parts(mark, cell) {
        Some((before, behind)) => are_groups(before, behind),
        None => false,
    }
}

fn are_groups(before: &[u8], behind: &[u8]) -> bool
    ensures { result ≡ spec.are_groups (before.now, behind.now) }
{
    are_digits(before)
        && are_digits(behind)
        && before.len() <= 3
        && behind.len() == 3
        && !begins_with_zero(before)
}

fn begins_with_zero(digits: &[u8]) -> bool
    ensures { result ≡ spec.begins_with_zero digits.now }
{
    matches!(digits, [b'0', ..])
}

/// A number without its sign, before and behind the mark.
fn parts(mark: u8, cell: &[u8]) -> Option<(&[u8], &[u8])>
    ensures { MatchOption result (spec.parts mark cell.now ≡ None)
        (λ parts. spec.parts mark cell.now ≡ Some (parts.0.now, parts.1.now)) }
{
    let number = unsigned(cell);
    let place = place_of(mark, number)?;
    Some((&number[..place], &number[place + 1..]))
}

/// The amount of a cell, of which this is the word with a point for the mark.
#[tactic(auto, unfolding(crate::specs::Numbers::amount_in))]
pub fn amount_in(numerals: Numerals, cell: &[u8], word: &[u8]) -> Option<Amount>
    requires { word.now ≡ spec.word_of numerals.mark cell.now }
    ensures value { result ≡ spec.amount_in numerals cell.now }
    ensures amount { IfSome result IsAmount }
{
    if !numerals.shown && may_group(numerals.mark, cell) {
        return None;
    }
    if has(other_mark(numerals.mark), cell) {
        return None;
    }
    read_real(word)
}

/// The other one of comma and point.
pub(crate) fn other_mark(mark: u8) -> u8
    ensures { result ≡ spec.other_mark mark }
{
    if mark == b',' { b'.' } else { b',' }
}

/// The cell with a point for the mark.
pub fn word_of(alloc: Global, mark: u8, cell: &[u8]) -> Result<Vec<u8>, AllocError>
    ensures { IfOk result (λ word. word.items ≡ spec.word_of mark cell.now) }
{
    let mut word = Vec::new(alloc);
    'bytes: for byte in cell {
        word.push(point_for(mark, *byte))?;
    }
    Ok(word)
}

fn point_for(mark: u8, byte: u8) -> u8
    ensures { result ≡ spec.point_for mark byte }
{
    if byte == mark { b'.' } else { byte }
}
