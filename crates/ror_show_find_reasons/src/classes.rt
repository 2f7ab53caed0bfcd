//! The classes at each time, with what settles their bounds.

ghost use Rattle.std.specs.Prelude.{◌<◌, length, IfOk};
ghost use Rattle.std.specs.List.{AllByRecursion};
ghost use Rattle.ror_show_ground.specs.Grounds.{ground_of, IsJudged};
ghost use Rattle.ror_show_find_reasons.specs.Bounds as spec;

use crate::bounds::{Bounds, ClassesFound};
use crate::settling::find_bounds;
use ror_show_find_classes::{ClassLine, all_times, find_time};
use ror_show_ground::Ground;
use ror_text::Items;
use ror_warm::Engine;
use std::alloc::{AllocError, Global};

/// The classes at each time; where they are sought, with what settles their bounds. One engine decides for all.
///
/// # Errors
///
/// Only want of memory, here and below.
pub fn find_classes(
    alloc: Global,
    ground: &Ground<'_>,
    sought: bool,
) -> Result<Items<ClassesFound>, AllocError>
    requires { IsJudged (ground_of ground.now) }
    ensures { IfOk result (spec.AreClassesFound sought (ground_of ground.now)) }
{
    let starts = all_times(alloc, ground)?;
    classes_at(alloc, ground, sought, starts.as_slice())
}

/// Those of the times that the lines at these places begin.
fn classes_at(
    alloc: Global,
    ground: &Ground<'_>,
    sought: bool,
    starts: &[usize],
) -> Result<Items<ClassesFound>, AllocError>
    requires judged { IsJudged (ground_of ground.now) }
    requires within { AllByRecursion (λ n. n < length ground.now.kept.now) starts.now }
    ensures { IfOk result (spec.AreClassesAt sought (ground_of ground.now) starts.now) }
{
    let mut engine = Engine::new(alloc);
    let mut found = Vec::new(alloc);
    for place in starts {
        let classes = classes_from(alloc, &mut engine, ground, sought, *place)?;
        found.push(classes)?;
    }
    Ok(Items::from(found))
}

/// Those of the time that the line at a place begins.
fn classes_from(
    alloc: Global,
    engine: &mut Engine,
    ground: &Ground<'_>,
    sought: bool,
    place: usize,
) -> Result<ClassesFound, AllocError>
    requires judged { IsJudged (ground_of ground.now) }
    requires there { place < length ground.now.kept.now }
    ensures { IfOk result (spec.IsClassesFound sought (ground_of ground.now) place) }
{
    let time = find_time(alloc, ground, place)?;
    let bounds = bounds_of(alloc, engine, ground, sought, time.rows.as_slice())?;
    Ok(ClassesFound { time, bounds })
}

/// What settles the bounds of these rows.
fn bounds_of(
    alloc: Global,
    engine: &mut Engine,
    ground: &Ground<'_>,
    sought: bool,
    rows: &[ClassLine],
) -> Result<Items<Bounds>, AllocError>
    requires judged { IsJudged (ground_of ground.now) }
    requires within { AllByRecursion (spec.IsRowWithin (length ground.now.kept.now)) rows.now }
    ensures { IfOk result (spec.AreRowBounds sought (ground_of ground.now) rows.now) }
{
    let mut made = Vec::new(alloc);
    for row in rows {
        let bounds = bounds_at(alloc, engine, ground, sought, row.place)?;
        made.push(bounds)?;
    }
    Ok(Items::from(made))
}

/// That of the kept line at a place.
fn bounds_at(
    alloc: Global,
    engine: &mut Engine,
    ground: &Ground<'_>,
    sought: bool,
    place: usize,
) -> Result<Bounds, AllocError>
    requires judged { IsJudged (ground_of ground.now) }
    requires there { place < length ground.now.kept.now }
    ensures { IfOk result (spec.AreBoundsAt sought (ground_of ground.now) place) }
{
    find_bounds(alloc, engine, ground.table, sought, &ground.kept[place])
}
