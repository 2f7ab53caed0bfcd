//! Cells and ids by their places, and how many cells say something.

ghost use Rattle.std.specs.Prelude.{◌≡◌, ◌≤◌};
ghost use Rattle.ror_show_find_relation.specs.Relations.{count_below};
ghost use Rattle.ror_show_find_relation.specs.Rows as spec;

use crate::cell::Cell;
use ror_text::Items;

/// The cell of a row and a column, by their places from 0, and [`Cell::Unknown`] past the last one.
pub fn cell_in(rows: &[Items<Cell>], a: usize, b: usize) -> Cell
    ensures { result ≡ spec.cell_in rows.now a b }
{
    let Some(row) = rows.get(a) else {
        return Cell::Unknown;
    };
    match row.as_slice().get(b) {
        Some(cell) => *cell,
        None => Cell::Unknown,
    }
}

/// How many of so many alternatives it is at least as good as by every function.
pub fn over_count(rows: &[Items<Cell>], size: usize, a: usize) -> usize
    ensures { result ≡ spec.over_count rows.now size a }
{
    let mut count = 0;
    for b in 0..size {
        if cell_in(rows, a, b).is_over_another() {
            count += 1;
        }
    }
    count
}

/// How many of them are so to it.
pub fn under_count(rows: &[Items<Cell>], size: usize, a: usize) -> usize
    ensures { result ≡ spec.under_count rows.now size a }
{
    let mut count = 0;
    for b in 0..size {
        if cell_in(rows, b, a).is_over_another() {
            count += 1;
        }
    }
    count
}

/// Of how many pairs of so many alternatives it isn't concluded how they stand.
pub fn unknown_pairs(rows: &[Items<Cell>], size: usize) -> usize
    requires { size ≤ 200 }
    ensures { result ≡ spec.unknown_pairs rows.now size }
{
    pairs_like(Cell::Unknown, rows, size)
}

/// Of how many of them no function agrees with the statements.
pub fn contradictory_pairs(rows: &[Items<Cell>], size: usize) -> usize
    requires { size ≤ 200 }
    ensures { result ≡ spec.contradictory_pairs rows.now size }
{
    pairs_like(Cell::Contradiction, rows, size)
}

/// Whether of some pair of so many alternatives it is concluded that no function agrees with the statements.
pub fn is_contradictory(rows: &[Items<Cell>], size: usize) -> bool
    requires { size ≤ 200 }
    ensures { result ≡ spec.is_contradictory rows.now size }
{
    contradictory_pairs(rows, size) != 0
}

/// Of how many the cell is like this one.
fn pairs_like(cell: Cell, rows: &[Items<Cell>], size: usize) -> usize
    requires { size ≤ 200 }
    ensures { result ≡ spec.pairs_like cell rows.now size }
{
    let mut count = 0;
    for a in 0..size {
        count += like_before(cell, rows, a);
    }
    count
}

/// With how many alternatives before this one.
fn like_before(cell: Cell, rows: &[Items<Cell>], a: usize) -> usize
    ensures is { result ≡ count_below (spec.is_like cell rows.now a) a }
    ensures few { result ≤ a }
{
    let mut count = 0;
    for b in 0..a {
        if cell_in(rows, a, b).sign() == cell.sign() {
            count += 1;
        }
    }
    count
}
