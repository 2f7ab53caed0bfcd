//! The pairs of each change, as a value.

ghost use Rattle.std.specs.Prelude.{◌≡◌, IfOk};
ghost use Rattle.ror_show_find_relation.specs.Brought as section;
ghost use Rattle.ror_show_find_relation.specs.Differences.{AreDifferences};

use crate::change::Change;
use crate::list::changed_pairs;
use crate::relation::Relation;
use ror_text::Items;
use std::alloc::{AllocError, Global};

/// The pairs of each change from one relation to another.
#[derive(Debug, Drop)]
pub struct Differences {
    /// As they were before; now each leads the other way alone.
    pub turned: Items<(usize, usize)>,
    /// No longer so, and not turned round.
    pub no_longer: Items<(usize, usize)>,
    pub stayed: Items<(usize, usize)>,
    /// So now, and what no other pair was turned to.
    pub new: Items<(usize, usize)>,
}

/// What changed.
///
/// # Errors
///
/// Only want of memory, here and below.
pub fn differences_between(
    alloc: Global,
    before: &Relation,
    now: &Relation,
) -> Result<Differences, AllocError>
    ensures { IfOk result (AreDifferences before.now now.now) }
{
    let turned = changed_pairs(alloc, before, now, Change::TurnedRound)?;
    let no_longer = changed_pairs(alloc, before, now, Change::NoLonger)?;
    let stayed = changed_pairs(alloc, before, now, Change::Stayed)?;
    let new = changed_pairs(alloc, before, now, Change::New)?;
    Ok(Differences {
        turned: Items::from(turned),
        no_longer: Items::from(no_longer),
        stayed: Items::from(stayed),
        new: Items::from(new),
    })
}

/// The pairs that were turned round, as they are now, and behind them those that are new.
pub fn brought(
    alloc: Global,
    before: &Relation,
    now: &Relation,
) -> Result<Vec<(usize, usize)>, AllocError>
    ensures { IfOk result (λ made. made.items ≡ section.brought before.now now.now) }
{
    let round = changed_pairs(alloc, before, now, Change::TurnedRound)?;
    let new = changed_pairs(alloc, before, now, Change::New)?;
    let mut made = turned(alloc, round.as_slice())?;
    made.extend_from_slice(new.as_slice())?;
    Ok(made)
}

/// The same pairs the other way round.
fn turned(alloc: Global, pairs: &[(usize, usize)]) -> Result<Vec<(usize, usize)>, AllocError>
    ensures { IfOk result (λ made. made.items ≡ section.turned pairs.now) }
{
    pairs.iter().map(|pair| (pair.1, pair.0)).collect(alloc)
}
