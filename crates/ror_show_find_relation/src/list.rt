//! The pairs of a change.

ghost use Rattle.std.specs.Prelude.{◌≡◌, ◌++◌, IfOk, OnOk};
ghost use Rattle.ror_show_find_relation.specs.Changes as spec;

use crate::change::{Change, has_change};
use crate::relation::Relation;
use std::alloc::{AllocError, Global};

/// The ordered pairs of which this became, in order of the first, and of the second where the first is the same.
///
/// # Errors
///
/// Only want of memory.
pub fn changed_pairs(
    alloc: Global,
    before: &Relation,
    now: &Relation,
    change: Change,
) -> Result<Vec<(usize, usize)>, AllocError>
    ensures { IfOk result (λ made. made.items ≡ spec.changed_pairs before.now now.now change) }
{
    let size = before.size().max(now.size());
    let mut made = Vec::new(alloc);
    for a in 0..size {
        push_from(&mut made, before, now, change, size, a)?;
    }
    Ok(made)
}

/// Adds those from one alternative.
fn push_from(
    made: &mut Vec<(usize, usize)>,
    before: &Relation,
    now: &Relation,
    change: Change,
    size: usize,
    a: usize,
) -> Result<(), AllocError>
    ensures { OnOk result (made.new.items ≡ made.old.items ++ spec.pairs_from before.now now.now change size a) }
{
    for b in 0..size {
        push_pair(made, before, now, change, a, b)?;
    }
    Ok(())
}

/// Adds the pair, if this became of it.
fn push_pair(
    made: &mut Vec<(usize, usize)>,
    before: &Relation,
    now: &Relation,
    change: Change,
    a: usize,
    b: usize,
) -> Result<(), AllocError>
    ensures { OnOk result (made.new.items ≡ made.old.items ++ spec.pair_of before.now now.now change a b) }
{
    if has_change(before, now, change, a, b) {
        made.push((a, b))?;
    }
    Ok(())
}
