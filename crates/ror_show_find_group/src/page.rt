//! What a group's report shows.

ghost use Rattle.std.specs.Prelude.{◌≡◌, ◌≤◌, length, map, IfOk};
ghost use Rattle.ror_show_find_group.specs.Grounds.{group_ground_of};
ghost use Rattle.ror_show_find_group.specs.Cells as cells;
ghost use Rattle.ror_show_find_group.specs.Findings as spec;
ghost use Rattle.ror_show_find_group.specs.Findings.{IsGroupFound};

use crate::cell::{GroupCell, group_cell};
use crate::ground::GroupGround;
use crate::judge::{JudgeFound, judges_of};
use crate::pairs::{alone_pairs, differing_pairs};
use ror_show_find_relation::{Cell, RelationPage, page_of_cells};
use ror_text::Items;
use std::alloc::{AllocError, Global};

/// What is found of a group.
#[derive(Debug, Drop)]
pub struct GroupFound {
    /// Each judge, in the order of the desks.
    pub judges: Items<JudgeFound>,
    /// The cell of each two alternatives, row by row, for the judges who are heard.
    pub rows: Items<Items<GroupCell>>,
    /// What holds for all of these, as a relation: a cell says nothing where it isn't the same of each.
    pub common: RelationPage,
    /// The pairs on which they differ, each once.
    pub differing: Items<(usize, usize)>,
    /// For each judge the ordered pairs of which this one alone has the first at least as good.
    pub alone: Items<Items<(usize, usize)>>,
}

/// What the entries of a group's report say of its judges and of all of them together. Judges of whom it is known that no function agrees
/// with what they said aren't heard: what is said of all is said of the others.
///
/// # Errors
///
/// Only want of memory.
pub fn find_group(alloc: Global, ground: &GroupGround<'_>) -> Result<GroupFound, AllocError>
    requires { length ground.now.lists.now ≤ 64 }
    ensures found { IfOk result (IsGroupFound (group_ground_of ground.now)) }
    ensures judges { IfOk result (λ found. length found.judges ≡ length ground.now.lists.now) }
{
    let size = ground.table.alternatives();
    let judges = judges_of(alloc, ground)?;
    let rows = group_rows(alloc, judges.as_slice(), size)?;
    let common = common_rows(alloc, rows.as_slice())?;
    Ok(GroupFound {
        common: page_of_cells(alloc, ground.table, common)?,
        differing: Items::from(differing_pairs(alloc, rows.as_slice(), size)?),
        alone: Items::from(alone_pairs(alloc, judges.as_slice(), size)?),
        rows: Items::from(rows),
        judges: Items::from(judges),
    })
}

fn group_rows(
    alloc: Global,
    judges: &[JudgeFound],
    size: usize,
) -> Result<Vec<Items<GroupCell>>, AllocError>
    ensures { IfOk result (λ made. made.items ≡ cells.group_rows judges.now size) }
{
    let mut made = Vec::new(alloc);
    for a in 0..size {
        made.push(group_row(alloc, judges, size, a)?)?;
    }
    Ok(made)
}

fn group_row(
    alloc: Global,
    judges: &[JudgeFound],
    size: usize,
    a: usize,
) -> Result<Items<GroupCell>, AllocError>
    ensures { IfOk result (λ made. made ≡ cells.group_row judges.now size a) }
{
    let mut made = Vec::new(alloc);
    for b in 0..size {
        made.push(group_cell(judges, a, b))?;
    }
    Ok(Items::from(made))
}

/// What holds for every judge who is heard, by the cells.
fn common_rows(alloc: Global, rows: &[Items<GroupCell>]) -> Result<Vec<Items<Cell>>, AllocError>
    ensures { IfOk result (λ made. made.items ≡ spec.common_rows rows.now) }
{
    let mut made = Vec::new(alloc);
    for row in rows {
        made.push(common_row(alloc, row.as_slice())?)?;
    }
    Ok(made)
}

fn common_row(alloc: Global, row: &[GroupCell]) -> Result<Items<Cell>, AllocError>
    ensures { IfOk result (λ made. made ≡ map spec.common_cell row.now) }
{
    let mut made = Vec::new(alloc);
    for cell in row {
        made.push(common_cell(*cell))?;
    }
    Ok(Items::from(made))
}

fn common_cell(cell: GroupCell) -> Cell
    ensures { result ≡ spec.common_cell cell }
{
    match cell {
        GroupCell::Itself => Cell::Itself,
        GroupCell::AlwaysBetter => Cell::AlwaysBetter,
        GroupCell::AtLeastAsGood => Cell::AtLeastAsGood,
        GroupCell::AlwaysEqual => Cell::AlwaysEqual,
        GroupCell::Open => Cell::Open,
        GroupCell::AtMostAsGood => Cell::AtMostAsGood,
        GroupCell::NeverAsGood => Cell::NeverAsGood,
        _ => Cell::Unknown,
    }
}
