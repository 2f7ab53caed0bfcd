//! What holds between the alternatives at each line, with what carries it.

ghost use Rattle.std.specs.Prelude.{◌≡◌, ◌<◌, ◌++◌, length, slice_get, IfOk, OnOk};
ghost use Rattle.std.specs.List.{AllByRecursion, AllZip};
ghost use Rattle.ror_show_ground.specs.Grounds.{ground_of, IsJudged};
ghost use Rattle.ror_show_ground.specs.Lines.{place_if, is_at};
ghost use Rattle.ror_show_find_reasons.specs.Pairs as spec;

use crate::carrying::find_carried;
use crate::pairs::RelationFound;
use ror_bench::KeptLine;
use ror_session::{Asked, Command, Session};
use ror_show_find_relation::relation_page;
use ror_show_ground::{Ground, answers_of, is_answered};
use ror_text::Items;
use ror_warm::Engine;
use std::alloc::{AllocError, Global};

/// The relation at each kept line that asks for it and is answered; where they are sought, with what carries its arrows. One engine decides for all.
///
/// # Errors
///
/// Only want of memory, here and below.
pub fn find_relations(
    alloc: Global,
    ground: &Ground<'_>,
    sought: bool,
) -> Result<Items<RelationFound>, AllocError>
    requires { IsJudged (ground_of ground.now) }
    ensures { IfOk result (spec.AreRelationsFound sought (ground_of ground.now)) }
{
    let places = relation_places(alloc, ground.session, ground.kept)?;
    relations_at(alloc, ground, sought, places.as_slice())
}

/// Those of the lines at these places.
fn relations_at(
    alloc: Global,
    ground: &Ground<'_>,
    sought: bool,
    places: &[usize],
) -> Result<Items<RelationFound>, AllocError>
    requires judged { IsJudged (ground_of ground.now) }
    requires within { AllByRecursion (λ n. n < length ground.now.kept.now) places.now }
    ensures { IfOk result (AllZip (spec.IsRelationFound sought (ground_of ground.now)) places.now) }
{
    let mut engine = Engine::new(alloc);
    let mut found = Vec::new(alloc);
    for place in places {
        let relation = find_relation(alloc, &mut engine, ground, sought, *place)?;
        found.push(relation)?;
    }
    Ok(Items::from(found))
}

/// That of the line at a place.
fn find_relation(
    alloc: Global,
    engine: &mut Engine,
    ground: &Ground<'_>,
    sought: bool,
    place: usize,
) -> Result<RelationFound, AllocError>
    requires judged { IsJudged (ground_of ground.now) }
    requires there { place < length ground.now.kept.now }
    ensures { IfOk result (spec.IsRelationFound sought (ground_of ground.now) place) }
{
    let line = &ground.kept[place];
    let relation = relation_page(alloc, ground.table, answers_of(&line.block.body))?;
    let arrows = relation.arrows.as_slice();
    let carried = find_carried(alloc, engine, ground.table, sought, line, arrows)?;
    Ok(RelationFound {
        place,
        relation,
        carried,
    })
}

/// The places of the kept lines that ask for the relation and are answered, in order.
fn relation_places(
    alloc: Global,
    session: &Session,
    kept: &[KeptLine],
) -> Result<Vec<usize>, AllocError>
    ensures { IfOk result (λ places. places.items ≡ spec.relation_places session.now kept.now) }
{
    let mut places = Vec::new(alloc);
    for n in 0..kept.len() {
        push_place(&mut places, session, kept, n)?;
    }
    Ok(places)
}

fn push_place(
    places: &mut Vec<usize>,
    session: &Session,
    kept: &[KeptLine],
    n: usize,
) -> Result<(), AllocError>
    ensures { OnOk result (places.new.items ≡ places.old.items ++ place_if (spec.has_relation session.now) kept.now n) }
{
    if has_relation_at(session, kept, n) {
        places.push(n)?;
    }
    Ok(())
}

fn has_relation_at(session: &Session, kept: &[KeptLine], n: usize) -> bool
    ensures { result ≡ is_at (spec.has_relation session.now) kept.now n }
{
    match kept.get(n) {
        Some(line) => has_relation(session, line),
        None => false,
    }
}

/// Whether a kept line asks for the relation and is answered.
fn has_relation(session: &Session, line: &KeptLine) -> bool
    ensures { result ≡ spec.has_relation session.now line.now }
{
    is_answered(&line.block.body) && asks_relation(session, line.place)
}

/// Whether the session's line at a place asks for the relation.
fn asks_relation(session: &Session, place: usize) -> bool
    ensures { result ≡ spec.asks_relation (slice_get session.now.lines place) }
{
    match session.lines.as_slice().get(place) {
        Some(line) => matches!(&line.command, Command::Ask(Asked::Relation)),
        None => false,
    }
}
