//! The arrows that don't follow from others.

ghost use Rattle.std.specs.Prelude.{◌≡◌, ◌++◌, length, IfOk, OnOk};
ghost use Rattle.ror_show_find_relation.specs.Relations.{some_below};
ghost use Rattle.ror_show_find_relation.specs.Arrows as spec;

use crate::relation::Relation;
use std::alloc::{AllocError, Global};

/// The pairs of the strict part between which nothing stands, in order of the first, and of the second where the first is the
/// same. Where the relation is transitive they are its Hasse diagram.
///
/// # Errors
///
/// Only want of memory.
pub fn arrows(alloc: Global, relation: &Relation) -> Result<Vec<(usize, usize)>, AllocError>
    ensures { IfOk result (λ made. made.items ≡ spec.arrows relation.now) }
{
    let mut made = Vec::new(alloc);
    for a in 0..relation.size() {
        push_from(&mut made, relation, a)?;
    }
    Ok(made)
}

/// Adds those from one alternative.
fn push_from(
    made: &mut Vec<(usize, usize)>,
    relation: &Relation,
    a: usize,
) -> Result<(), AllocError>
    ensures { OnOk result (made.new.items ≡ made.old.items ++ spec.arrows_from relation.now a) }
{
    for b in 0..relation.size() {
        push_arrow(made, relation, a, b)?;
    }
    Ok(())
}

/// Adds the pair, if it is an arrow.
fn push_arrow(
    made: &mut Vec<(usize, usize)>,
    relation: &Relation,
    a: usize,
    b: usize,
) -> Result<(), AllocError>
    ensures { OnOk result (made.new.items ≡ made.old.items ++ spec.arrow_of relation.now a b) }
{
    if is_arrow(relation, a, b) {
        made.push((a, b))?;
    }
    Ok(())
}

fn is_arrow(relation: &Relation, a: usize, b: usize) -> bool
    ensures { result ≡ spec.is_arrow relation.now a b }
{
    relation.is_above(a, b) && !has_between(relation, a, b)
}

/// Whether something is below the one and above the other.
fn has_between(relation: &Relation, a: usize, b: usize) -> bool
    ensures { result ≡ some_below (spec.is_between relation.now a b) (length relation.now) }
{
    for c in 0..relation.size() {
        if relation.is_above(a, c) && relation.is_above(c, b) {
            return true;
        }
    }
    false
}
