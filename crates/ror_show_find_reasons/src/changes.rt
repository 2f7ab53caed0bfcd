//! What changed from one relation to the next, with what carries what is new.

ghost use Rattle.std.specs.Prelude.{◌≡◌, ◌<◌, length, IfOk};
ghost use Rattle.std.specs.List.{AllByRecursion, AllZip};
ghost use Rattle.ror_show_ground.specs.Grounds.{ground_of, IsJudged};
ghost use Rattle.ror_show_find_reasons.specs.Pairs as spec;

use crate::carrying::find_carried;
use crate::pairs::ChangeFound;
use ror_show_find_relation::{
    Differences, Relation, RelationPage, brought, differences_between, known_relation,
    relation_page,
};
use ror_show_ground::{Ground, answers_of, turns_among};
use ror_text::Items;
use ror_warm::Engine;
use std::alloc::{AllocError, Global};

/// The pairs of each change from one relation to another, and those that it brought.
#[derive(Debug, Drop)]
pub(crate) struct Between {
    pub(crate) pairs: Differences,
    pub(crate) brought: Vec<(usize, usize)>,
}

/// What changed from each answered line that asks for the relation to the next one at its desk; where they are sought, with what carries
/// what it brought. One engine decides for all.
///
/// # Errors
///
/// Only want of memory, here and below.
pub fn find_changes(
    alloc: Global,
    ground: &Ground<'_>,
    sought: bool,
) -> Result<Items<ChangeFound>, AllocError>
    requires { IsJudged (ground_of ground.now) }
    ensures { IfOk result (spec.AreChangesFound sought (ground_of ground.now)) }
{
    let turns = turns_among(alloc, ground.session, ground.kept)?;
    changes_at(alloc, ground, sought, turns.as_slice())
}

/// Those between the lines at these places.
fn changes_at(
    alloc: Global,
    ground: &Ground<'_>,
    sought: bool,
    turns: &[(usize, usize)],
) -> Result<Items<ChangeFound>, AllocError>
    requires judged { IsJudged (ground_of ground.now) }
    requires within { AllByRecursion (spec.AreWithin (length ground.now.kept.now)) turns.now }
    ensures { IfOk result (spec.AreChangesAt sought (ground_of ground.now) turns.now) }
{
    let mut engine = Engine::new(alloc);
    let mut found = Vec::new(alloc);
    for turn in turns {
        let change = find_change(alloc, &mut engine, ground, sought, *turn)?;
        found.push(change)?;
    }
    Ok(Items::from(found))
}

/// That between the lines at two places.
fn find_change(
    alloc: Global,
    engine: &mut Engine,
    ground: &Ground<'_>,
    sought: bool,
    turn: (usize, usize),
) -> Result<ChangeFound, AllocError>
    requires judged { IsJudged (ground_of ground.now) }
    requires there { spec.AreWithin (length ground.now.kept.now) turn }
    ensures { IfOk result (spec.IsChangeFound sought (ground_of ground.now) turn) }
{
    let earlier = &ground.kept[turn.0];
    let later = &ground.kept[turn.1];
    let first = relation_page(alloc, ground.table, answers_of(&earlier.block.body))?;
    let second = relation_page(alloc, ground.table, answers_of(&later.block.body))?;
    let between = between_pages(alloc, &first, &second)?;
    let pairs = between.brought.as_slice();
    let carried = find_carried(alloc, engine, ground.table, sought, later, pairs)?;
    Ok(ChangeFound {
        before: turn.0,
        now: turn.1,
        first,
        second,
        pairs: between.pairs,
        brought: carried,
    })
}

/// By what is known of both relations.
fn between_pages(
    alloc: Global,
    first: &RelationPage,
    second: &RelationPage,
) -> Result<Between, AllocError>
    ensures { IfOk result (spec.IsBetweenPages first.now second.now) }
{
    let before = known_relation(alloc, first.rows.as_slice())?;
    let now = known_relation(alloc, second.rows.as_slice())?;
    between_known(alloc, &before, &now)
}

fn between_known(alloc: Global, before: &Relation, now: &Relation) -> Result<Between, AllocError>
    ensures { IfOk result (spec.IsBetween before.now now.now) }
{
    let pairs = differences_between(alloc, before, now)?;
    let brought = brought(alloc, before, now)?;
    Ok(Between { pairs, brought })
}
