//! The times as values: between which classes each alternative is.

ghost use Rattle.std.specs.Prelude.{◌≡◌, ◌++◌, IfOk, OnOk};
ghost use Rattle.ror_show_find_classes.specs.Values as spec;

use crate::intervals::{highest, is_contradictory, is_settled, is_whole, last_line, lowest};
use crate::order::in_order;
use crate::sign::alternative_of;
use crate::times::{all_times, rows};
use ror_bench::KeptLine;
use ror_show_ground::{Ground, answers_of};
use ror_text::Items;
use std::alloc::{AllocError, Global};

/// Between which classes an alternative is.
#[derive(Clone, Copy, Debug, PartialEq, Eq)]
pub struct ClassRow {
    pub alternative: usize,
    /// The least class that isn't excluded, from 1; 0 where each is.
    pub lowest: u32,
    /// The greatest such class; 0 where each is excluded.
    pub highest: u32,
    /// Whether one class alone isn't excluded, and some value function lets the alternative belong there.
    pub settled: bool,
    /// Whether it is concluded of each class whether it is possible, or that no value function agrees with the statements.
    pub whole: bool,
    /// Whether it is concluded that no value function agrees with the statements.
    pub contradictory: bool,
}

/// A time at which classes were asked for.
#[derive(Debug, Drop)]
pub struct ClassTime {
    /// The place of its first line among the kept ones.
    pub place: usize,
    /// The place of its desk among the session's desks.
    pub desk: u32,
    /// The number of its last line.
    pub last: u32,
    /// Each of its lines, in the order of the table's alternatives.
    pub intervals: Items<ClassRow>,
}

/// The times at which classes were asked for, in order.
///
/// # Errors
///
/// Only want of memory.
pub fn class_times(alloc: Global, ground: &Ground<'_>) -> Result<Vec<ClassTime>, AllocError>
    ensures { IfOk result (λ made. made.items ≡ spec.class_times ground.now.table.now ground.now.session.now ground.now.kept.now) }
{
    let starts = all_times(alloc, ground)?;
    times_at(alloc, ground, &starts)
}

/// Those that the lines at these places begin.
fn times_at(
    alloc: Global,
    ground: &Ground<'_>,
    starts: &[usize],
) -> Result<Vec<ClassTime>, AllocError>
    ensures { IfOk result (λ made. made.items ≡ spec.times_at ground.now.table.now ground.now.session.now ground.now.kept.now starts.now) }
{
    let mut made = Vec::new(alloc);
    'starts: for place in starts {
        push_time(alloc, &mut made, ground, *place)?;
    }
    Ok(made)
}

fn push_time(
    alloc: Global,
    made: &mut Vec<ClassTime>,
    ground: &Ground<'_>,
    place: usize,
) -> Result<(), AllocError>
    ensures { OnOk result (made.new.items ≡ made.old.items ++ spec.time_at ground.now.table.now ground.now.session.now ground.now.kept.now place) }
{
    let Some(line) = ground.kept.get(place) else {
        return Ok(());
    };
    push_time_of(alloc, made, ground, place, line)
}

fn push_time_of(
    alloc: Global,
    made: &mut Vec<ClassTime>,
    ground: &Ground<'_>,
    place: usize,
    line: &KeptLine,
) -> Result<(), AllocError>
    ensures { OnOk result (made.new.items
        ≡ made.old.items ++ spec.time_of_line ground.now.table.now ground.now.session.now ground.now.kept.now place line.now) }
{
    let time = time_from(alloc, ground, place, ground.desk_of(line))?;
    made.push(time)?;
    Ok(())
}

/// The time of a desk that the line at a place begins.
#[tactic(auto, unfolding(crate::specs::Values::time_from))]
fn time_from(
    alloc: Global,
    ground: &Ground<'_>,
    place: usize,
    desk: u32,
) -> Result<ClassTime, AllocError>
    ensures { IfOk result (λ time. time ≡ spec.time_from ground.now.table.now ground.now.session.now ground.now.kept.now place desk) }
{
    let places = rows(alloc, ground, place, desk)?;
    time_of(alloc, ground, place, desk, &places)
}

/// The time of a desk that has its lines at these places, the first of which is given.
fn time_of(
    alloc: Global,
    ground: &Ground<'_>,
    place: usize,
    desk: u32,
    places: &[usize],
) -> Result<ClassTime, AllocError>
    ensures { IfOk result (λ time. time ≡ spec.time_of ground.now.table.now ground.now.kept.now place desk places.now) }
{
    let ordered = in_order(alloc, ground.table, ground.kept, places)?;
    let intervals = intervals_at(alloc, ground.table.classes(), ground.kept, &ordered)?;
    Ok(ClassTime {
        place,
        desk,
        last: last_line(ground.kept, places),
        intervals,
    })
}

/// The rows of the kept lines at these places.
fn intervals_at(
    alloc: Global,
    classes: u32,
    kept: &[KeptLine],
    places: &[usize],
) -> Result<Items<ClassRow>, AllocError>
    ensures { IfOk result (λ made. made ≡ spec.intervals_at classes kept.now places.now) }
{
    let mut made = Vec::new(alloc);
    'places: for place in places {
        push_interval(&mut made, classes, kept, *place)?;
    }
    Ok(Items::from(made))
}

fn push_interval(
    made: &mut Vec<ClassRow>,
    classes: u32,
    kept: &[KeptLine],
    place: usize,
) -> Result<(), AllocError>
    ensures { OnOk result (made.new.items ≡ made.old.items ++ spec.interval_at classes kept.now place) }
{
    let Some(line) = kept.get(place) else {
        return Ok(());
    };
    push_interval_of(made, classes, line)
}

fn push_interval_of(
    made: &mut Vec<ClassRow>,
    classes: u32,
    line: &KeptLine,
) -> Result<(), AllocError>
    ensures { OnOk result (made.new.items ≡ made.old.items ++ spec.interval_of_line classes line.now) }
{
    made.push(interval_of(classes, line))?;
    Ok(())
}

#[tactic(auto, unfolding(crate::specs::Values::interval_of))]
pub fn interval_of(classes: u32, line: &KeptLine) -> ClassRow
    ensures { result ≡ spec.interval_of classes line.now }
{
    let answers = answers_of(&line.block.body);
    ClassRow {
        alternative: alternative_of(answers),
        lowest: lowest(answers, classes),
        highest: highest(answers, classes),
        settled: is_settled(classes, answers),
        whole: is_whole(answers, classes),
        contradictory: is_contradictory(answers, classes),
    }
}
