//! Which times follow one another.

ghost use Rattle.std.specs.Prelude.{◌≡◌, ◌++◌, IfOk, OnOk};
ghost use Rattle.ror_show_ground.specs.Turns.{last_below, pair_with};
ghost use Rattle.ror_show_find_classes.specs.TimeTurns as spec;

use crate::value::ClassTime;
use std::alloc::{AllocError, Global};

/// Each time with the last one before it at its desk, where there is one, by their places.
pub fn turns_among(alloc: Global, times: &[ClassTime]) -> Result<Vec<(usize, usize)>, AllocError>
    ensures { IfOk result (λ made. made.items ≡ spec.turns times.now) }
{
    let mut made = Vec::new(alloc);
    for place in 0..times.len() {
        push_turn_of(&mut made, times, place)?;
    }
    Ok(made)
}

/// Adds that of the time at a place.
fn push_turn_of(
    made: &mut Vec<(usize, usize)>,
    times: &[ClassTime],
    place: usize,
) -> Result<(), AllocError>
    ensures { OnOk result (made.new.items ≡ made.old.items ++ spec.turn_of times.now place) }
{
    let Some(time) = times.get(place) else {
        return Ok(());
    };
    push_turn_at(made, times, place, time.desk)
}

/// The same, where the time is of this desk.
fn push_turn_at(
    made: &mut Vec<(usize, usize)>,
    times: &[ClassTime],
    place: usize,
    desk: u32,
) -> Result<(), AllocError>
    ensures { OnOk result (made.new.items ≡ made.old.items ++ spec.turn_at times.now place desk) }
{
    push_pair(made, place, last_at(times, desk, place))
}

fn push_pair(
    made: &mut Vec<(usize, usize)>,
    place: usize,
    last: Option<usize>,
) -> Result<(), AllocError>
    ensures { OnOk result (made.new.items ≡ made.old.items ++ pair_with place last) }
{
    if let Some(before) = last {
        made.push((before, place))?;
    }
    Ok(())
}

/// The last of the first `end` times that is of this desk.
fn last_at(times: &[ClassTime], desk: u32, end: usize) -> Option<usize>
    ensures { result ≡ last_below (spec.is_at times.now desk) end }
{
    let mut place = end;
    'places: while place > 0 {
        place -= 1;
        if is_at(times, desk, place) {
            return Some(place);
        }
    }
    None
}

fn is_at(times: &[ClassTime], desk: u32, place: usize) -> bool
    ensures { result ≡ spec.is_at times.now desk place }
{
    match times.get(place) {
        Some(time) => time.desk == desk,
        None => false,
    }
}
