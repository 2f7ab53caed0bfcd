//! The rolls of desks, as values.

ghost use Rattle.std.specs.Prelude.{◌≡◌, ◌<◌, ◌≤◌, ◌^◌, ◌++◌, length, IfOk, OnOk};
ghost use Rattle.std.specs.Option.{option_map};
ghost use Rattle.ror_show_ground.specs.Grounds.{ground_of, IsJudged};
ghost use Rattle.ror_show_find_roll.specs.Findings as spec;

use crate::desks::is_desk;
use crate::roll::{Roll, roll_of};
use crate::steps::steps_of;
use ror_show_ground::Ground;
use ror_statement::MOST_STATEMENTS;
use ror_text::Items;
use std::alloc::{AllocError, Global};

/// The roll of a desk.
#[derive(Debug, Drop)]
pub struct RollFound {
    /// The place of the desk among the session's desks.
    pub desk: usize,
    pub roll: Roll,
}

/// The roll of each desk that is meant, in order: of those with this name, with or without a sign before it, or of all.
///
/// # Errors
///
/// Only want of memory, here and below.
pub fn find_rolls(
    alloc: Global,
    ground: &Ground<'_>,
    meant: Option<&str>,
) -> Result<Items<RollFound>, AllocError>
    requires { IsJudged (ground_of ground.now) }
    ensures { IfOk result (λ found. found
        ≡ spec.rolls (option_map (λ word. word.now) meant.entry) (ground_of ground.now)) }
{
    let mut made = Vec::new(alloc);
    let desks = ground.session.desks.as_slice();
    'desks: for desk in 0..desks.len() {
        push_roll(alloc, &mut made, ground, meant, desk)?;
    }
    Ok(Items::from(made))
}

/// Adds the roll of a desk, if it is meant.
fn push_roll(
    alloc: Global,
    made: &mut Vec<RollFound>,
    ground: &Ground<'_>,
    meant: Option<&str>,
    desk: usize,
) -> Result<(), AllocError>
    requires few { length ground.now.opening.now ≤ MOST_STATEMENTS }
    requires desk { desk < 2 ^ 32 }
    ensures { OnOk result (made.new.items ≡ made.old.items
        ++ spec.roll_if (option_map (λ word. word.now) meant.entry) (ground_of ground.now) desk) }
{
    if !is_desk(meant, ground.desk_name(desk)) {
        return Ok(());
    }
    let found = roll_at(alloc, ground, desk)?;
    made.push(found)?;
    Ok(())
}

/// That of a desk, by its place.
#[tactic(auto, unfolding(crate::specs::Findings::roll_at))]
fn roll_at(alloc: Global, ground: &Ground<'_>, desk: usize) -> Result<RollFound, AllocError>
    requires few { length ground.now.opening.now ≤ MOST_STATEMENTS }
    requires desk { desk < 2 ^ 32 }
    ensures { IfOk result (λ found. found ≡ spec.roll_at (ground_of ground.now) desk) }
{
    let lines = ground.session.lines.as_slice();
    let steps = steps_of(alloc, lines, desk as u32, ground.kept)?;
    let roll = roll_of(alloc, ground.opening.len(), &steps)?;
    Ok(RollFound { desk, roll })
}
