//! The pairs on which judges differ, and those of which one judge alone concludes something.

ghost use Rattle.std.specs.Prelude.{◌≡◌, ◌++◌, IfOk, OnOk};
ghost use Rattle.ror_show_find_group.specs.Pairs as spec;

use crate::cell::{GroupCell, group_cell_in};
use crate::judge::JudgeFound;
use crate::votes::{Mark, count_votes, has, heard_count, some_vote};
use ror_text::Items;
use std::alloc::{AllocError, Global};

/// The pairs of alternatives on which judges differ, each once, in order of the first, and of the second where the first is the same.
pub(crate) fn differing_pairs(
    alloc: Global,
    rows: &[Items<GroupCell>],
    size: usize,
) -> Result<Vec<(usize, usize)>, AllocError>
    ensures { IfOk result (λ made. made.items ≡ spec.differing_pairs rows.now size) }
{
    let mut made = Vec::new(alloc);
    for a in 0..size {
        push_differing_from(&mut made, rows, size, a)?;
    }
    Ok(made)
}

/// Adds those of one alternative with the ones behind it.
fn push_differing_from(
    made: &mut Vec<(usize, usize)>,
    rows: &[Items<GroupCell>],
    size: usize,
    a: usize,
) -> Result<(), AllocError>
    ensures { OnOk result (made.new.items ≡ made.old.items ++ spec.differing_from rows.now size a) }
{
    for b in 0..size {
        push_differing(made, rows, a, b)?;
    }
    Ok(())
}

fn push_differing(
    made: &mut Vec<(usize, usize)>,
    rows: &[Items<GroupCell>],
    a: usize,
    b: usize,
) -> Result<(), AllocError>
    ensures { OnOk result (made.new.items ≡ made.old.items ++ spec.differing_pair rows.now a b) }
{
    if a < b && is_differ(group_cell_in(rows, a, b)) {
        made.push((a, b))?;
    }
    Ok(())
}

fn is_differ(cell: GroupCell) -> bool
    ensures { result ≡ spec.is_differ cell }
{
    matches!(cell, GroupCell::Differ)
}

/// For each judge the ordered pairs of which this one alone has the first at least as good by every function.
pub(crate) fn alone_pairs(
    alloc: Global,
    judges: &[JudgeFound],
    size: usize,
) -> Result<Vec<Items<(usize, usize)>>, AllocError>
    ensures { IfOk result (λ made. made.items ≡ spec.alone_pairs judges.now size) }
{
    let mut made = Vec::new(alloc);
    for judge in judges {
        made.push(alone_of(alloc, judges, size, judge)?)?;
    }
    Ok(made)
}

/// Those of one of the judges.
fn alone_of(
    alloc: Global,
    judges: &[JudgeFound],
    size: usize,
    judge: &JudgeFound,
) -> Result<Items<(usize, usize)>, AllocError>
    ensures { IfOk result (λ made. made ≡ spec.alone_of judges.now size judge.now) }
{
    let mut made = Vec::new(alloc);
    for a in 0..size {
        push_alone_from(&mut made, judges, size, judge, a)?;
    }
    Ok(Items::from(made))
}

/// Adds those from one alternative.
fn push_alone_from(
    made: &mut Vec<(usize, usize)>,
    judges: &[JudgeFound],
    size: usize,
    judge: &JudgeFound,
    a: usize,
) -> Result<(), AllocError>
    ensures { OnOk result (made.new.items ≡ made.old.items ++ spec.alone_from judges.now size judge.now a) }
{
    for b in 0..size {
        push_alone(made, judges, judge, a, b)?;
    }
    Ok(())
}

fn push_alone(
    made: &mut Vec<(usize, usize)>,
    judges: &[JudgeFound],
    judge: &JudgeFound,
    a: usize,
    b: usize,
) -> Result<(), AllocError>
    ensures { OnOk result (made.new.items ≡ made.old.items ++ spec.alone_pair judges.now judge.now a b) }
{
    if is_alone(judges, judge, a, b) {
        made.push((a, b))?;
    }
    Ok(())
}

/// Whether the judge says it, and each of the others, of whom there are some, is known not to.
fn is_alone(judges: &[JudgeFound], judge: &JudgeFound, a: usize, b: usize) -> bool
    ensures { result ≡ spec.is_alone judges.now judge.now a b }
{
    concludes(judge, a, b) && is_of_one(judges, a, b)
}

/// Whether a judge who is heard has the first at least as good.
fn concludes(judge: &JudgeFound, a: usize, b: usize) -> bool
    ensures { result ≡ spec.concludes judge.now a b }
{
    !judge.contradicts && has(Mark::Over, judge.cell(a, b))
}

/// Whether one of several judges says it, and of each other one it is known that it isn't so.
fn is_of_one(judges: &[JudgeFound], a: usize, b: usize) -> bool
    ensures { result ≡ spec.is_of_one judges.now a b }
{
    heard_count(judges) > 1
        && count_votes(Mark::Over, judges, a, b) == 1
        && !some_vote(Mark::Unsaid, judges, a, b)
}
