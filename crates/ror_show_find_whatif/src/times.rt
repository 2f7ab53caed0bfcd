//! What hangs on each statement at each time at which classes were asked for.

ghost use Rattle.std.specs.Prelude.{◌<◌, length, IfOk};
ghost use Rattle.std.specs.List.{AllByRecursion, AllZip};
ghost use Rattle.ror_show_ground.specs.Grounds.{ground_of, IsJudged};
ghost use Rattle.ror_show_find_reasons.specs.Bounds.{IsRowWithin};
ghost use Rattle.ror_show_find_whatif.specs.Findings as spec;

use crate::outcome::Asks;
use crate::whatif::{WhatIf, find_whatif};
use ror_show_find_classes::{ClassLine, TimeFound, all_times, find_time};
use ror_show_ground::Ground;
use ror_text::Items;
use ror_warm::Engine;
use std::alloc::{AllocError, Global};

/// A time at which classes were asked for, and what hangs on each statement at each of its lines.
#[derive(Debug, Drop)]
pub struct TimeWhatIf {
    pub time: TimeFound,
    /// Of each row of the time, at its place.
    pub rows: Items<WhatIf>,
}

/// What hangs on each statement at each time. One engine decides for all.
///
/// # Errors
///
/// Only want of memory, here and below.
pub fn find_class_whatifs(
    alloc: Global,
    ground: &Ground<'_>,
) -> Result<Items<TimeWhatIf>, AllocError>
    requires { IsJudged (ground_of ground.now) }
    ensures { IfOk result (spec.AreClassWhatIfs (ground_of ground.now)) }
{
    let starts = all_times(alloc, ground)?;
    times_at(alloc, ground, starts.as_slice())
}

/// At the times that the lines at these places begin.
fn times_at(
    alloc: Global,
    ground: &Ground<'_>,
    starts: &[usize],
) -> Result<Items<TimeWhatIf>, AllocError>
    requires judged { IsJudged (ground_of ground.now) }
    requires within { AllByRecursion (λ n. n < length ground.now.kept.now) starts.now }
    ensures { IfOk result (AllZip (spec.IsTimeWhatIf (ground_of ground.now)) starts.now) }
{
    let mut engine = Engine::new(alloc);
    let mut found = Vec::new(alloc);
    for place in starts {
        let time = time_from(alloc, &mut engine, ground, *place)?;
        found.push(time)?;
    }
    Ok(Items::from(found))
}

/// At the time that the line at a place begins.
fn time_from(
    alloc: Global,
    engine: &mut Engine,
    ground: &Ground<'_>,
    place: usize,
) -> Result<TimeWhatIf, AllocError>
    requires judged { IsJudged (ground_of ground.now) }
    requires there { place < length ground.now.kept.now }
    ensures { IfOk result (spec.IsTimeWhatIf (ground_of ground.now) place) }
{
    let time = find_time(alloc, ground, place)?;
    let rows = rows_of(alloc, engine, ground, time.rows.as_slice())?;
    Ok(TimeWhatIf { time, rows })
}

/// At each of these rows.
fn rows_of(
    alloc: Global,
    engine: &mut Engine,
    ground: &Ground<'_>,
    rows: &[ClassLine],
) -> Result<Items<WhatIf>, AllocError>
    requires judged { IsJudged (ground_of ground.now) }
    requires within { AllByRecursion (IsRowWithin (length ground.now.kept.now)) rows.now }
    ensures { IfOk result (AllZip (spec.IsRowWhatIf (ground_of ground.now)) rows.now) }
{
    let mut made = Vec::new(alloc);
    for row in rows {
        let whatif = find_whatif(alloc, engine, ground, Asks::Classes, row.place)?;
        made.push(whatif)?;
    }
    Ok(Items::from(made))
}
