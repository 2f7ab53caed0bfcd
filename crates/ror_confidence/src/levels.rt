//! Levels of confidence, and the statements of each.

ghost use Rattle.std.specs.Prelude.{◌≡◌, ◌≤◌, ◌+◌, IfOk, map};
ghost use Rattle.std.specs.List.{range_with_len};
ghost use Rattle.ror_confidence.specs.Levels as spec;

use ror_statement::{Numbered, Statement};
use ror_text::Items;
use std::alloc::{AllocError, Global};

/// The most levels that there may be.
pub const MOST_LEVELS: u32 = 9;

/// How sure a judge is of each statement. On level 1 stand the statements of which he is surest, and each level takes in all
/// statements of the levels before it.
#[derive(Debug, Drop)]
pub struct Levels {
    /// How many levels there are, from 1 to 9.
    pub count: u32,
    /// Statements, by their numbers, with the levels on which they are put. One that isn't among them stands on level 1.
    pub put: Items<(u32, u32)>,
}

/// The statements that stand, and their levels.
#[derive(Clone, Copy)]
pub struct Levelled<'a> {
    pub standing: &'a [Numbered],
    pub levels: &'a Levels,
}

/// The level of the statement with this number.
fn level_in(put: &[(u32, u32)], number: u32) -> u32
    ensures { result ≡ spec.level_in put.now number }
{
    match put {
        [] => 1,
        [(placed, level), rest @ ..] => {
            if *placed == number {
                *level
            } else {
                level_in(rest, number)
            }
        }
    }
}

/// Whether the statement stands on the level or on one before it.
fn is_within(levels: &Levels, level: u32, x: &Numbered) -> bool
    ensures { result ≡ spec.is_within levels.now level x.now }
{
    level_in(levels.put.as_slice(), x.number) <= level
}

/// The statements of a level, in order.
pub(crate) fn list_at(
    alloc: Global,
    standing: &[Numbered],
    levels: &Levels,
    level: u32,
) -> Result<Items<Statement>, AllocError>
    ensures { IfOk result (λ list. list ≡ spec.list_at standing.now levels.now level) }
{
    let mut list = Vec::new(alloc);
    'standing: for x in standing {
        if is_within(levels, level, x) {
            list.push(x.statement)?;
        }
    }
    Ok(Items::from(list))
}

/// The statements of each level, from the first one on.
pub(crate) fn level_lists(
    alloc: Global,
    standing: &[Numbered],
    levels: &Levels,
) -> Result<Vec<Items<Statement>>, AllocError>
    requires { levels.now.count ≤ MOST_LEVELS }
    ensures { IfOk result (λ lists. lists.items ≡ spec.level_lists standing.now levels.now) }
{
    let mut lists = Vec::new(alloc);
    let mut level = 0;
    'levels: while level < levels.count {
        level += 1;
        lists.push(list_at(alloc, standing, levels, level)?)?;
    }
    Ok(lists)
}
