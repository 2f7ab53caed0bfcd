//! What a relation shows: its cells, what is known of it, and how many pairs are decided.

ghost use Rattle.std.specs.Prelude.{◌≡◌, ◌<◌, ◌≤◌, length, map, IfOk};
ghost use Rattle.ror_show_find_relation.specs.Cells as spec;
ghost use Rattle.ror_show_find_relation.specs.Cells.{cell_rows};
ghost use Rattle.ror_show_find_relation.specs.Pages.{IsPageOfCells, IsRelationPage, marks, known};

use crate::cell::{Cell, cell_at};
use crate::counting::decided_pairs;
use crate::dominance::dominance;
use crate::hasse::arrows;
use crate::level::levels;
use crate::relation::Relation;
use ror_proof::Answer;
use ror_table::Table;
use ror_text::Items;
use std::alloc::{AllocError, Global};

/// Of how many pairs of different alternatives something is known.
#[derive(Clone, Copy, Debug, PartialEq, Eq)]
pub struct Counts {
    /// One is at least as good as the other by every compatible function.
    pub decided: usize,
    /// Neither is.
    pub open: usize,
    /// One dominates the other: it is on no criterion worse.
    pub by_dominance: usize,
}

/// What the page of a relation shows.
#[derive(Debug, Drop)]
pub struct RelationPage {
    /// The cell of each two alternatives, row by row.
    pub rows: Items<Items<Cell>>,
    /// The level of each alternative, from 1 on; one that is in a cycle of what is known, or below one, has none.
    pub levels: Items<Option<usize>>,
    /// The pairs of the strict part of what is known between which nothing stands.
    pub arrows: Items<(usize, usize)>,
    pub counts: Counts,
}

/// The page of a relation that was asked of the table's alternatives, by the answers.
///
/// # Errors
///
/// Only want of memory.
pub fn relation_page(
    alloc: Global,
    table: &Table,
    answers: &[Answer],
) -> Result<RelationPage, AllocError>
    ensures { IfOk result (IsRelationPage table.now answers.now) }
{
    let rows = cell_rows(alloc, table.alternatives(), answers)?;
    page_of_cells(alloc, table, rows)
}

/// The page of a relation with these cells, one for each two alternatives, row by row.
///
/// # Errors
///
/// Only want of memory.
pub fn page_of_cells(
    alloc: Global,
    table: &Table,
    rows: Vec<Items<Cell>>,
) -> Result<RelationPage, AllocError>
    requires { length rows.items ≤ 200 }
    ensures { IfOk result (IsPageOfCells table.now rows.items) }
{
    prove!(table.alternatives() <= 200);
    let over = known_relation(alloc, &rows)?;
    let open = open_of(alloc, &rows)?;
    let dominance = dominance(alloc, table)?;
    Ok(RelationPage {
        levels: Items::from(levels(alloc, &over)?),
        arrows: Items::from(arrows(alloc, &over)?),
        counts: Counts {
            decided: decided_pairs(&over),
            open: decided_pairs(&open),
            by_dominance: decided_pairs(&dominance),
        },
        rows: Items::from(rows),
    })
}

fn cell_rows(alloc: Global, size: usize, answers: &[Answer]) -> Result<Vec<Items<Cell>>, AllocError>
    requires { size ≤ 200 }
    ensures { IfOk result (λ made. made.items ≡ cell_rows size answers.now) }
{
    let mut made = Vec::new(alloc);
    for a in 0..size {
        made.push(cells_from(alloc, size, answers, a)?)?;
    }
    Ok(made)
}

fn cells_from(
    alloc: Global,
    size: usize,
    answers: &[Answer],
    a: usize,
) -> Result<Items<Cell>, AllocError>
    requires few { size ≤ 200 }
    requires row { a < size }
    ensures { IfOk result (λ made. made ≡ spec.cells_from size answers.now a) }
{
    let mut made = Vec::new(alloc);
    for b in 0..size {
        made.push(cell_at(size, answers, a, b))?;
    }
    Ok(Items::from(made))
}

/// What is known of a relation by its cells, row by row: which alternative is at least as good as which, by every function.
///
/// # Errors
///
/// Only want of memory.
pub fn known_relation(alloc: Global, rows: &[Items<Cell>]) -> Result<Relation, AllocError>
    ensures { IfOk result (λ made. made ≡ known rows.now) }
{
    let mut made = Vec::new(alloc);
    for row in rows {
        made.push(over_in(alloc, row.as_slice())?)?;
    }
    Ok(Relation::new(made))
}

fn over_in(alloc: Global, row: &[Cell]) -> Result<Items<bool>, AllocError>
    ensures { IfOk result (λ made. made ≡ map spec.is_over row.now) }
{
    let mut made = Vec::new(alloc);
    for cell in row {
        made.push(cell.is_over())?;
    }
    Ok(Items::from(made))
}

/// Which pairs are open.
fn open_of(alloc: Global, rows: &[Items<Cell>]) -> Result<Relation, AllocError>
    ensures { IfOk result (λ made. made ≡ marks spec.is_open rows.now) }
{
    let mut made = Vec::new(alloc);
    for row in rows {
        made.push(open_in(alloc, row.as_slice())?)?;
    }
    Ok(Relation::new(made))
}

fn open_in(alloc: Global, row: &[Cell]) -> Result<Items<bool>, AllocError>
    ensures { IfOk result (λ made. made ≡ map spec.is_open row.now) }
{
    let mut made = Vec::new(alloc);
    for cell in row {
        made.push(cell.is_open())?;
    }
    Ok(Items::from(made))
}
