//! The lines that ask for classes, and the times, as values.

ghost use Rattle.std.specs.Prelude.{◌≡◌, ◌<◌, ◌++◌, length, IfOk, OnOk};
ghost use Rattle.ror_show_ground.specs.Grounds.{ground_of};
ghost use Rattle.ror_show_find_classes.specs.Findings as spec;

use crate::intervals::last_line;
use crate::order::in_order;
use crate::sign::{Sign, alternative_of, is_assigned, sign_of_class};
use crate::times::{answers_at, rows};
use crate::value::{ClassRow, interval_of};
use ror_bench::KeptLine;
use ror_proof::Answer;
use ror_show_ground::{Ground, answers_of};
use ror_text::Items;
use std::alloc::{AllocError, Global};

/// An answered line that asks for the classes of an alternative.
#[derive(Debug, Drop)]
pub struct ClassLine {
    /// Its place among the kept lines.
    pub place: usize,
    pub row: ClassRow,
    /// The sign of each class, from the worst on.
    pub signs: Items<Sign>,
    /// Of each class, whether a statement that stood assigns the alternative to it.
    pub assigned: Items<bool>,
}

/// A time: lines of a desk between which nothing changes what stands.
#[derive(Debug, Drop)]
pub struct TimeFound {
    /// The place of its first line among the kept ones.
    pub place: usize,
    pub desk: u32,
    /// The number of its last line.
    pub last: u32,
    /// Its lines, in the order of the table's alternatives.
    pub rows: Items<ClassLine>,
}

/// What the answers to the kept line at a place say.
///
/// # Errors
///
/// Only want of memory, here and below.
#[tactic(auto, unfolding(crate::specs::Findings::class_line))]
pub fn class_line(
    alloc: Global,
    classes: u32,
    place: usize,
    line: &KeptLine,
) -> Result<ClassLine, AllocError>
    ensures { IfOk result (λ found. found ≡ spec.class_line classes place line.now) }
{
    let signs = signs_of(alloc, classes, answers_of(&line.block.body))?;
    let assigned = assigned_of(alloc, classes, line)?;
    Ok(ClassLine {
        place,
        row: interval_of(classes, line),
        signs,
        assigned,
    })
}

fn signs_of(alloc: Global, classes: u32, answers: &[Answer]) -> Result<Items<Sign>, AllocError>
    ensures { IfOk result (λ made. made ≡ spec.signs_of classes answers.now) }
{
    let mut made = Vec::new(alloc);
    for h in 0..classes {
        made.push(sign_of_class(answers, h + 1))?;
    }
    Ok(Items::from(made))
}

fn assigned_of(alloc: Global, classes: u32, line: &KeptLine) -> Result<Items<bool>, AllocError>
    ensures { IfOk result (λ made. made ≡ spec.assigned_of classes line.now) }
{
    let mut made = Vec::new(alloc);
    for h in 0..classes {
        made.push(is_assigned_to(line, h + 1))?;
    }
    Ok(Items::from(made))
}

/// Whether a statement that stood assigns the line's alternative to a class.
fn is_assigned_to(line: &KeptLine, h: u32) -> bool
    ensures { result ≡ spec.is_assigned_to line.now h }
{
    let a = alternative_of(answers_of(&line.block.body));
    is_assigned(&line.standing, a, h)
}

/// Each answered line that asks for classes, in order.
pub fn class_lines(alloc: Global, ground: &Ground<'_>) -> Result<Items<ClassLine>, AllocError>
    ensures { IfOk result (λ found. found ≡ spec.class_lines (ground_of ground.now)) }
{
    let mut found = Vec::new(alloc);
    for n in 0..ground.kept.len() {
        push_answered(alloc, &mut found, ground, n)?;
    }
    Ok(Items::from(found))
}

/// Adds the kept line at a place, if it asks for classes and is answered.
fn push_answered(
    alloc: Global,
    found: &mut Vec<ClassLine>,
    ground: &Ground<'_>,
    n: usize,
) -> Result<(), AllocError>
    ensures { OnOk result (found.new.items ≡ found.old.items ++ spec.answered_line (ground_of ground.now) n) }
{
    let Some(line) = ground.kept.get(n) else {
        return Ok(());
    };
    push_if_answered(alloc, found, ground, n, line)
}

fn push_if_answered(
    alloc: Global,
    found: &mut Vec<ClassLine>,
    ground: &Ground<'_>,
    n: usize,
    line: &KeptLine,
) -> Result<(), AllocError>
    ensures { OnOk result (found.new.items ≡ found.old.items ++ spec.line_if_answered (ground_of ground.now) n line.now) }
{
    if !answers_at(ground, ground.desk_of(line), n) {
        return Ok(());
    }
    push_line(alloc, found, ground, n, line)
}

fn push_line(
    alloc: Global,
    found: &mut Vec<ClassLine>,
    ground: &Ground<'_>,
    n: usize,
    line: &KeptLine,
) -> Result<(), AllocError>
    ensures { OnOk result (found.new.items ≡ found.old.items ++ spec.one_line (ground_of ground.now) n line.now) }
{
    let class_line = class_line(alloc, ground.table.classes(), n, line)?;
    found.push(class_line)?;
    Ok(())
}

/// The time that the kept line at a place begins.
pub fn find_time(alloc: Global, ground: &Ground<'_>, place: usize) -> Result<TimeFound, AllocError>
    requires { place < length ground.now.kept.now }
    ensures { IfOk result (spec.IsTimeFound (ground_of ground.now) place) }
{
    let line = &ground.kept[place];
    time_from(alloc, ground, place, ground.desk_of(line))
}

/// The time of a desk that the kept line at a place begins.
fn time_from(
    alloc: Global,
    ground: &Ground<'_>,
    place: usize,
    desk: u32,
) -> Result<TimeFound, AllocError>
    ensures { IfOk result (λ time. time ≡ spec.time_from (ground_of ground.now) place desk) }
{
    let places = rows(alloc, ground, place, desk)?;
    time_of(alloc, ground, place, desk, places.as_slice())
}

/// The time of a desk that has its lines at these places, the first of which is given.
#[tactic(auto, unfolding(crate::specs::Findings::time_of))]
fn time_of(
    alloc: Global,
    ground: &Ground<'_>,
    place: usize,
    desk: u32,
    places: &[usize],
) -> Result<TimeFound, AllocError>
    ensures { IfOk result (λ time. time ≡ spec.time_of (ground_of ground.now) place desk places.now) }
{
    let ordered = in_order(alloc, ground.table, ground.kept, places)?;
    let rows = lines_at(alloc, ground, ordered.as_slice())?;
    Ok(TimeFound {
        place,
        desk,
        last: last_line(ground.kept, places),
        rows,
    })
}

/// The kept lines at these places.
fn lines_at(
    alloc: Global,
    ground: &Ground<'_>,
    places: &[usize],
) -> Result<Items<ClassLine>, AllocError>
    ensures { IfOk result (λ made. made ≡ spec.class_lines_at (ground_of ground.now) places.now) }
{
    let mut made = Vec::new(alloc);
    'places: for place in places {
        push_line_at(alloc, &mut made, ground, *place)?;
    }
    Ok(Items::from(made))
}

fn push_line_at(
    alloc: Global,
    made: &mut Vec<ClassLine>,
    ground: &Ground<'_>,
    place: usize,
) -> Result<(), AllocError>
    ensures { OnOk result (made.new.items ≡ made.old.items ++ spec.class_line_at (ground_of ground.now) place) }
{
    let Some(line) = ground.kept.get(place) else {
        return Ok(());
    };
    push_line(alloc, made, ground, place, line)
}
