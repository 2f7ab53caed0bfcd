//! What is worked out once of a table: the levels of each criterion, and where its columns begin.

ghost use Rattle.std.specs.Prelude.{◌≡◌, ◌-◌, min, if◌then◌else◌, length, IfOk};
ghost use Rattle.ror_table.specs.Table.{columns};
ghost use Rattle.ror_table.specs.Index.{AreLevels, AreOffsets};

use crate::amount::Amount;
use crate::draft::Draft;
use crate::levels::levels_of;
use std::alloc::AllocError;

/// The levels of each criterion from the worst to the best, how many columns come before each
/// criterion, and how many there are.
#[derive(Drop)]
pub(crate) struct Index {
    pub(crate) levels: Vec<Vec<Amount>>,
    pub(crate) offsets: Vec<usize>,
    pub(crate) columns: usize,
}

/// The levels of each criterion.
fn all_levels(draft: &Draft) -> Result<Vec<Vec<Amount>>, AllocError>
    ensures { IfOk result (λ levels. AreLevels draft.now levels.items) }
{
    let mut all = Vec::new(draft.allocator());
    for i in 0..draft.criteria_count() {
        let performances = draft.performances_on(i)?;
        all.push(levels_of(draft.allocator(), draft.direction(i), &performances)?)?;
    }
    Ok(all)
}

/// How many columns a criterion with so many levels has.
pub(crate) fn width_of(linear: bool, levels: usize) -> usize
    ensures { result ≡ (if linear then min (levels - 1) 1 else levels - 1) }
{
    let steps = levels.saturating_sub(1);
    if linear { steps.min(1) } else { steps }
}

/// Where the columns of each criterion begin, and how many columns there are.
fn offsets_of(draft: &Draft, levels: &[Vec<Amount>]) -> Result<(Vec<usize>, usize), AllocError>
    requires { AreLevels draft.now levels.now }
    ensures { IfOk result (λ r. AreOffsets draft.now r.0.items r.1) }
{
    let mut offsets = Vec::new(draft.allocator());
    let mut columns = 0;
    for i in 0..draft.criteria_count() {
        offsets.push(columns)?;
        columns += width_of(draft.is_linear(i), levels[i].len());
    }
    Ok((offsets, columns))
}

/// The index of a draft.
pub(crate) fn index_of(draft: &Draft) -> Result<Index, AllocError>
    ensures levels { IfOk result (λ index. AreLevels draft.now index.levels.items) }
    ensures offsets { IfOk result
        (λ index. AreOffsets draft.now index.offsets.items index.columns) }
    ensures total { IfOk result (λ index. index.columns ≡ columns draft.now) }
{
    let levels = all_levels(draft)?;
    let (offsets, columns) = offsets_of(draft, &levels)?;
    Ok(Index {
        levels,
        offsets,
        columns,
    })
}
