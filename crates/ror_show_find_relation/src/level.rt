//! The levels of the strict part.

ghost use Rattle.std.specs.Prelude.{◌≡◌, ◌+◌, ℕ, ◌<◌, ◌≤◌, length, map, count_by, is_none, slice_index_or, IfOk, Option, Some, None, replicate};
ghost use Rattle.std.specs.List.{range_with_len};
ghost use Rattle.ror_show_find_relation.specs.Relations.{some_below};
ghost use Rattle.ror_show_find_relation.specs.Levels as spec;
ghost use Rattle.ror_show_find_relation.specs.Passes as passes;

use crate::relation::Relation;
use std::alloc::{AllocError, Global};

/// The level of each alternative, from 1 on: how many alternatives a longest strict chain has that ends with it. An
/// alternative that is in a cycle of the strict part, or below one, has none; the strict part of a preorder has no cycle.
///
/// # Errors
///
/// Only want of memory.
pub fn levels(alloc: Global, relation: &Relation) -> Result<Vec<Option<usize>>, AllocError>
    ensures { IfOk result (λ made. spec.AreLevels relation.now made.items) }
{
    let mut found = no_levels(alloc, relation.size())?;
    for before in 0..relation.size() {
        let next = next_levels(alloc, relation, &found, before + 1)?;
        if count_left(&next) == count_left(&found) {
            return Ok(found);
        }
        found = next;
    }
    Ok(found)
}

/// So many alternatives that have no level yet.
fn no_levels(alloc: Global, size: usize) -> Result<Vec<Option<usize>>, AllocError>
    ensures { IfOk result (λ made. made.items ≡ replicate size None) }
{
    let mut made = Vec::new(alloc);
    for _ in 0..size {
        made.push(None)?;
    }
    Ok(made)
}

/// The levels with one more: of those that have none yet, the ones below alternatives with a level alone get this one.
fn next_levels(
    alloc: Global,
    relation: &Relation,
    found: &[Option<usize>],
    level: usize,
) -> Result<Vec<Option<usize>>, AllocError>
    ensures { IfOk result (λ made. made.items ≡ passes.next_levels relation.now found.now level) }
{
    let mut made = Vec::new(alloc);
    for a in 0..relation.size() {
        made.push(next_level(relation, found, level, a))?;
    }
    Ok(made)
}

/// What an alternative has in that pass.
fn next_level(relation: &Relation, found: &[Option<usize>], level: usize, a: usize) -> Option<usize>
    ensures { result ≡ passes.next_level relation.now found.now level a }
{
    match level_at(found, a) {
        Some(known) => Some(known),
        None if has_open_above(relation, found, a) => None,
        None => Some(level),
    }
}

/// Whether something above the alternative has no level yet.
fn has_open_above(relation: &Relation, found: &[Option<usize>], a: usize) -> bool
    ensures { result ≡ some_below (passes.is_open_above relation.now found.now a) (length relation.now) }
{
    for c in 0..relation.size() {
        if relation.is_above(c, a) && level_at(found, c).is_none() {
            return true;
        }
    }
    false
}

/// The level at a place, if it has one.
fn level_at(found: &[Option<usize>], a: usize) -> Option<usize>
    ensures { result ≡ spec.level_at found.now a }
{
    match found.get(a) {
        Some(level) => *level,
        None => None,
    }
}

/// How many have no level.
fn count_left(found: &[Option<usize>]) -> usize
    ensures { result ≡ count_by is_none found.now }
{
    found.iter().filter(|level| level.is_none()).count()
}
