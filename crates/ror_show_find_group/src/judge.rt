//! What the answers of one judge say.

ghost use Rattle.std.specs.Prelude.{◌≡◌, ◌<◌, ◌≤◌, length, slice_get, IfOk};
ghost use Rattle.ror_show_find_group.specs.Grounds.{group_ground_of};
ghost use Rattle.ror_show_find_group.specs.Judges as spec;

use crate::ground::GroupGround;
use ror_group::Entry;
use ror_proof::Answer;
use ror_show_find_relation::{
    Cell, PairSaid, cell_of, contradictory_pairs, necessary_by, place_of_pair, possible_by,
};
use ror_statement::Statement;
use ror_text::Items;
use std::alloc::{AllocError, Global};

/// What is found of a judge.
#[derive(Debug, Drop)]
pub struct JudgeFound {
    /// How many statements stand.
    pub statements: usize,
    /// Whether it is known that no value function agrees with these.
    pub contradicts: bool,
    /// The cell of each two alternatives, row by row, over the functions that agree.
    pub rows: Items<Items<Cell>>,
}

impl JudgeFound {
    /// The cell of a row and a column, by their places from 0.
    pub fn cell(&self, a: usize, b: usize) -> Cell
        ensures { result ≡ spec.cell_of_judge self.now a b }
    {
        ror_show_find_relation::cell_in(self.rows.as_slice(), a, b)
    }
}

/// Each judge, in the order of the desks.
pub(crate) fn judges_of(
    alloc: Global,
    ground: &GroupGround<'_>,
) -> Result<Vec<JudgeFound>, AllocError>
    requires { length ground.now.lists.now ≤ 64 }
    ensures { IfOk result (λ judges. judges.items ≡ spec.judges_of (group_ground_of ground.now)) }
{
    let mut judges = Vec::new(alloc);
    for judge in 0..ground.lists.len() {
        judges.push(judge_at(alloc, ground, judge)?)?;
    }
    Ok(judges)
}

/// The judge at a place.
fn judge_at(alloc: Global, ground: &GroupGround<'_>, judge: usize) -> Result<JudgeFound, AllocError>
    requires { judge < 64 }
    ensures { IfOk result (λ found. found ≡ spec.judge_at (group_ground_of ground.now) judge) }
{
    let size = ground.table.alternatives();
    let rows = judge_rows(alloc, size, ground.entries, judge)?;
    let statements = statements_at(ground.lists, judge);
    Ok(judge_with(size, statements, rows))
}

/// How many statements stand at the desk at a place, none past the last one.
fn statements_at(lists: &[Items<Statement>], judge: usize) -> usize
    ensures { result ≡ spec.statements_at lists.now judge }
{
    match lists.get(judge) {
        Some(list) => list.len(),
        None => 0,
    }
}

/// A judge of these cells.
fn judge_with(size: usize, statements: usize, rows: Vec<Items<Cell>>) -> JudgeFound
    requires { size ≤ 200 }
    ensures { result ≡ spec.judge_with size statements rows.items }
{
    JudgeFound {
        statements,
        contradicts: contradictory_pairs(rows.as_slice(), size) > 0,
        rows: Items::from(rows),
    }
}

fn judge_rows(
    alloc: Global,
    size: usize,
    entries: &[Entry],
    judge: usize,
) -> Result<Vec<Items<Cell>>, AllocError>
    requires few { size ≤ 200 }
    requires judge { judge < 64 }
    ensures { IfOk result (λ made. made.items ≡ spec.judge_rows size entries.now judge) }
{
    let mut made = Vec::new(alloc);
    for a in 0..size {
        made.push(judge_row(alloc, size, entries, judge, a)?)?;
    }
    Ok(made)
}

fn judge_row(
    alloc: Global,
    size: usize,
    entries: &[Entry],
    judge: usize,
    a: usize,
) -> Result<Items<Cell>, AllocError>
    requires few { size ≤ 200 }
    requires judge { judge < 64 }
    requires row { a < size }
    ensures { IfOk result (λ made. made ≡ spec.judge_row size entries.now judge a) }
{
    let mut made = Vec::new(alloc);
    for b in 0..size {
        made.push(judge_cell(size, entries, judge, a, b))?;
    }
    Ok(Items::from(made))
}

/// The cell of one alternative against another, by the judge's answers.
fn judge_cell(size: usize, entries: &[Entry], judge: usize, a: usize, b: usize) -> Cell
    requires few { size ≤ 200 }
    requires judge { judge < 64 }
    requires row { a < size }
    requires column { b < size }
    ensures { result ≡ spec.judge_cell size entries.now judge a b }
{
    if a == b {
        return Cell::Itself;
    }
    cell_of(
        said_of_judge(size, entries, judge, a, b),
        said_of_judge(size, entries, judge, b, a),
    )
}

/// What the judge's answers say of an ordered pair.
fn said_of_judge(size: usize, entries: &[Entry], judge: usize, a: usize, b: usize) -> PairSaid
    requires few { size ≤ 200 }
    requires judge { judge < 64 }
    requires first { a < size }
    requires second { b < size }
    ensures { result ≡ spec.said_of_judge size entries.now judge a b }
{
    let answers = answers_at(entries, place_of_pair(size, a, b));
    PairSaid {
        necessary: necessary_by(a, b, answers, 2 * judge),
        possible: possible_by(a, b, answers, 2 * judge + 1),
    }
}

/// The answers of the entry at a place, none past the last one.
fn answers_at(entries: &[Entry], place: usize) -> &[Answer]
    ensures { result.now ≡ spec.answers_at entries.now place }
{
    match entries.get(place) {
        Some(entry) => entry.answers.as_slice(),
        None => &[],
    }
}
