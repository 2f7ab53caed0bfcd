//! What changed in the classes of alternatives from one time of a desk to the next, as values.

ghost use Rattle.std.specs.Prelude.{◌≡◌, ◌++◌, length, IfOk, OnOk};
ghost use Rattle.std.specs.List.{AllByRecursion, flat_map};
ghost use Rattle.ror_show_find_classes.specs.TimeTurns.{turns};
ghost use Rattle.ror_show_find_classes.specs.ClassChanges as spec;

use crate::change::{Change, change_of, row_of};
use crate::turns::turns_among;
use crate::value::{ClassRow, ClassTime};
use ror_text::Items;
use std::alloc::{AllocError, Global};

/// What became of the classes between which an alternative is.
#[derive(Clone, Copy, Debug)]
pub struct RowChange {
    pub before: ClassRow,
    pub now: ClassRow,
    pub change: Change,
}

/// What changed from one time to the next one at its desk.
#[derive(Debug, Drop)]
pub struct ClassChangeFound {
    /// The places of both times among all.
    pub before: usize,
    pub now: usize,
    /// Of each row now whose alternative had one before, in order.
    pub rows: Items<RowChange>,
    /// The rows now whose alternative had none before.
    pub now_alone: Items<ClassRow>,
    /// The rows before whose alternative has none now.
    pub before_alone: Items<ClassRow>,
}

/// What changed from each time to the next one at its desk.
///
/// # Errors
///
/// Only want of memory, here and below.
pub fn find_class_changes(
    alloc: Global,
    times: &[ClassTime],
) -> Result<Items<ClassChangeFound>, AllocError>
    ensures { IfOk result (spec.AreClassChanges times.now (turns times.now)) }
{
    let turns = turns_among(alloc, times)?;
    changes_at(alloc, times, turns.as_slice())
}

/// Those between the times at these places.
fn changes_at(
    alloc: Global,
    times: &[ClassTime],
    turns: &[(usize, usize)],
) -> Result<Items<ClassChangeFound>, AllocError>
    requires { AllByRecursion (spec.AreWithin (length times.now)) turns.now }
    ensures { IfOk result (spec.AreClassChanges times.now turns.now) }
{
    let mut found = Vec::new(alloc);
    for turn in turns {
        let change = change_at(alloc, times, *turn)?;
        found.push(change)?;
    }
    Ok(Items::from(found))
}

/// That between the times at two places.
fn change_at(
    alloc: Global,
    times: &[ClassTime],
    turn: (usize, usize),
) -> Result<ClassChangeFound, AllocError>
    requires { spec.AreWithin (length times.now) turn }
    ensures { IfOk result (spec.IsClassChange times.now turn) }
{
    let before = &times[turn.0];
    let now = &times[turn.1];
    change_between(alloc, turn, before, now)
}

fn change_between(
    alloc: Global,
    turn: (usize, usize),
    before: &ClassTime,
    now: &ClassTime,
) -> Result<ClassChangeFound, AllocError>
    ensures { IfOk result (λ found. found ≡ spec.class_change turn before.now now.now) }
{
    let earlier = before.intervals.as_slice();
    let later = now.intervals.as_slice();
    change_of_rows(alloc, turn, earlier, later)
}

fn change_of_rows(
    alloc: Global,
    turn: (usize, usize),
    before: &[ClassRow],
    now: &[ClassRow],
) -> Result<ClassChangeFound, AllocError>
    ensures { IfOk result (λ found. found ≡ spec.rows_change turn before.now now.now) }
{
    let rows = row_changes(alloc, before, now)?;
    let now_alone = alone_among(alloc, before, now)?;
    let before_alone = alone_among(alloc, now, before)?;
    Ok(ClassChangeFound {
        before: turn.0,
        now: turn.1,
        rows,
        now_alone,
        before_alone,
    })
}

/// What became of each row whose alternative had one before.
fn row_changes(
    alloc: Global,
    before: &[ClassRow],
    now: &[ClassRow],
) -> Result<Items<RowChange>, AllocError>
    ensures { IfOk result (λ made. made ≡ flat_map (spec.row_change before.now) now.now) }
{
    let mut made = Vec::new(alloc);
    'rows: for row in now {
        push_change(&mut made, before, row)?;
    }
    Ok(Items::from(made))
}

#[tactic(auto, unfolding(crate::specs::ClassChanges::row_change))]
fn push_change(
    made: &mut Vec<RowChange>,
    before: &[ClassRow],
    now: &ClassRow,
) -> Result<(), AllocError>
    ensures { OnOk result (made.new.items ≡ made.old.items ++ spec.row_change before.now now.now) }
{
    let Some(was) = row_of(before, now.alternative) else {
        return Ok(());
    };
    made.push(RowChange {
        before: was,
        now: *now,
        change: change_of(was, *now),
    })?;
    Ok(())
}

/// Those of the rows whose alternative isn't among the others.
fn alone_among(
    alloc: Global,
    others: &[ClassRow],
    rows: &[ClassRow],
) -> Result<Items<ClassRow>, AllocError>
    ensures { IfOk result (λ made. made ≡ flat_map (spec.alone_in others.now) rows.now) }
{
    let mut made = Vec::new(alloc);
    'rows: for row in rows {
        push_alone(&mut made, others, row)?;
    }
    Ok(Items::from(made))
}

#[tactic(auto, unfolding(crate::specs::ClassChanges::alone_in))]
fn push_alone(
    made: &mut Vec<ClassRow>,
    others: &[ClassRow],
    row: &ClassRow,
) -> Result<(), AllocError>
    ensures { OnOk result (made.new.items ≡ made.old.items ++ spec.alone_in others.now row.now) }
{
    if row_of(others, row.alternative).is_some() {
        return Ok(());
    }
    made.push(*row)?;
    Ok(())
}
