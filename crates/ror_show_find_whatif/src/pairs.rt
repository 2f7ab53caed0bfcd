//! Which ordered pairs of alternatives another list changes.

ghost use Rattle.std.specs.Prelude.{◌≡◌, ◌++◌, IfOk, OnOk};
ghost use Rattle.ror_show_find_whatif.specs.Shifts as spec;

use crate::shift::{Shift, has_shift};
use ror_show_find_relation::Cell;
use ror_text::Items;
use std::alloc::{AllocError, Global};

/// The ordered pairs of different alternatives that another list changes, each in order of the first, and of the second where the first is
/// the same.
#[derive(Debug, Drop)]
pub struct PairEffect {
    /// Now the first is at least as good by every function, and then not by every one.
    pub lost: Items<(usize, usize)>,
    /// Now the first is better by every function, and then at least as good by every one, and equally good by some.
    pub weaker: Items<(usize, usize)>,
    /// Now the first isn't at least as good by every function, and then is by every one.
    pub won: Items<(usize, usize)>,
    /// Now the first is at least as good by every function, and equally good by some, and then better by every one.
    pub stronger: Items<(usize, usize)>,
    /// It isn't concluded how they stand, now or then. The lesser of two stands first.
    pub unknown: Items<(usize, usize)>,
}

/// From the cells of what is to those of what would be.
///
/// # Errors
///
/// Only want of memory, here and below.
pub(crate) fn pair_effect(
    alloc: Global,
    before: &[Items<Cell>],
    after: &[Items<Cell>],
) -> Result<PairEffect, AllocError>
    ensures { IfOk result (spec.IsPairEffect before.now after.now) }
{
    let lost = shifted_pairs(alloc, before, after, Shift::Lost)?;
    let weaker = shifted_pairs(alloc, before, after, Shift::Weaker)?;
    let won = shifted_pairs(alloc, before, after, Shift::Won)?;
    let stronger = shifted_pairs(alloc, before, after, Shift::Stronger)?;
    let unknown = shifted_pairs(alloc, before, after, Shift::Unknown)?;
    Ok(PairEffect {
        lost: Items::from(lost),
        weaker: Items::from(weaker),
        won: Items::from(won),
        stronger: Items::from(stronger),
        unknown: Items::from(unknown),
    })
}

/// The pairs of which this becomes.
fn shifted_pairs(
    alloc: Global,
    before: &[Items<Cell>],
    after: &[Items<Cell>],
    shift: Shift,
) -> Result<Vec<(usize, usize)>, AllocError>
    ensures { IfOk result (λ made. made.items ≡ spec.shifted_pairs before.now after.now shift) }
{
    let mut made = Vec::new(alloc);
    for a in 0..before.len() {
        push_from(&mut made, before, after, shift, a)?;
    }
    Ok(made)
}

/// Adds those from one alternative.
fn push_from(
    made: &mut Vec<(usize, usize)>,
    before: &[Items<Cell>],
    after: &[Items<Cell>],
    shift: Shift,
    a: usize,
) -> Result<(), AllocError>
    ensures { OnOk result (made.new.items ≡ made.old.items ++ spec.pairs_from before.now after.now shift a) }
{
    for b in 0..before.len() {
        push_pair(made, before, after, shift, a, b)?;
    }
    Ok(())
}

/// Adds the pair, if this becomes of it.
fn push_pair(
    made: &mut Vec<(usize, usize)>,
    before: &[Items<Cell>],
    after: &[Items<Cell>],
    shift: Shift,
    a: usize,
    b: usize,
) -> Result<(), AllocError>
    ensures { OnOk result (made.new.items ≡ made.old.items ++ spec.pair_of before.now after.now shift a b) }
{
    if has_shift(before, after, shift, a, b) {
        made.push((a, b))?;
    }
    Ok(())
}
