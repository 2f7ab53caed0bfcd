//! What hangs on each statement at each line that asks for the relation.

ghost use Rattle.std.specs.Prelude.{◌≡◌, ◌<◌, ◌++◌, length, slice_get, IfOk, OnOk};
ghost use Rattle.std.specs.List.{AllByRecursion, AllZip};
ghost use Rattle.ror_show_ground.specs.Grounds.{ground_of, IsJudged};
ghost use Rattle.ror_show_ground.specs.Lines.{place_if, is_at};
ghost use Rattle.ror_show_find_whatif.specs.Findings as spec;

use crate::outcome::Asks;
use crate::whatif::{WhatIf, find_whatif};
use ror_bench::KeptLine;
use ror_session::{Asked, Command, Session};
use ror_show_ground::{Ground, is_answered};
use ror_text::Items;
use ror_warm::Engine;
use std::alloc::{AllocError, Global};

/// What hangs on each statement at each kept line that asks for the relation and is answered. One engine decides for all.
///
/// # Errors
///
/// Only want of memory, here and below.
pub fn find_relation_whatifs(
    alloc: Global,
    ground: &Ground<'_>,
) -> Result<Items<WhatIf>, AllocError>
    requires { IsJudged (ground_of ground.now) }
    ensures { IfOk result (spec.AreRelationWhatIfs (ground_of ground.now)) }
{
    let places = relation_places(alloc, ground.session, ground.kept)?;
    whatifs_at(alloc, ground, places.as_slice())
}

/// At the lines at these places.
fn whatifs_at(
    alloc: Global,
    ground: &Ground<'_>,
    places: &[usize],
) -> Result<Items<WhatIf>, AllocError>
    requires judged { IsJudged (ground_of ground.now) }
    requires within { AllByRecursion (λ n. n < length ground.now.kept.now) places.now }
    ensures { IfOk result (AllZip (spec.IsWhatIf Asks.Relation (ground_of ground.now)) places.now) }
{
    let mut engine = Engine::new(alloc);
    let mut found = Vec::new(alloc);
    for place in places {
        let whatif = find_whatif(alloc, &mut engine, ground, Asks::Relation, *place)?;
        found.push(whatif)?;
    }
    Ok(Items::from(found))
}

/// The places of the kept lines that ask for the relation and are answered, in order.
fn relation_places(
    alloc: Global,
    session: &Session,
    kept: &[KeptLine],
) -> Result<Vec<usize>, AllocError>
    ensures { IfOk result (λ places. places.items ≡ spec.relation_places session.now kept.now) }
{
    let mut places = Vec::new(alloc);
    for n in 0..kept.len() {
        push_place(&mut places, session, kept, n)?;
    }
    Ok(places)
}

fn push_place(
    places: &mut Vec<usize>,
    session: &Session,
    kept: &[KeptLine],
    n: usize,
) -> Result<(), AllocError>
    ensures { OnOk result (places.new.items ≡ places.old.items ++ place_if (spec.has_relation session.now) kept.now n) }
{
    if has_relation_at(session, kept, n) {
        places.push(n)?;
    }
    Ok(())
}

fn has_relation_at(session: &Session, kept: &[KeptLine], n: usize) -> bool
    ensures { result ≡ is_at (spec.has_relation session.now) kept.now n }
{
    match kept.get(n) {
        Some(line) => has_relation(session, line),
        None => false,
    }
}

/// Whether a kept line asks for the relation and is answered.
fn has_relation(session: &Session, line: &KeptLine) -> bool
    ensures { result ≡ spec.has_relation session.now line.now }
{
    is_answered(&line.block.body) && asks_relation(session, line.place)
}

/// Whether the session's line at a place asks for the relation.
fn asks_relation(session: &Session, place: usize) -> bool
    ensures { result ≡ spec.asks_relation (slice_get session.now.lines place) }
{
    match session.lines.as_slice().get(place) {
        Some(line) => matches!(&line.command, Command::Ask(Asked::Relation)),
        None => false,
    }
}
