//! Making a conflict small before it is used.

ghost use Rattle.std.specs.Prelude.{◌≡◌, ◌≤◌, ◌∷◌, ◌==◌, [], length, not, IfOk};
ghost use Rattle.std.specs.List.{filter};
ghost use Rattle.ror_ranks.specs.Trees.{members_at};
ghost use Rattle.ror_ranks.specs.Steps.{IsAsked};
ghost use Rattle.ror_ranks_find.specs.Search.{AreAmong, AreConflictsFor, IsOneWithin, IsPartOf, IsSought};

use crate::sought::{Sought, Tried, try_without};
use ror_ranks::others::{in_order, is_among};
use ror_ranks::sides::Asked;
use ror_ranks::{Conflict, Side};
use ror_system::Numbers;
use ror_warm::Engine;
use std::alloc::{AllocError, Global};

/// The conflict, which is alone in its list, without the members that have no weight in it, and then without each that is found to be
/// spared.
pub(crate) fn smaller(
    alloc: Global,
    engine: &mut Engine,
    sought: &Sought,
    conflict: Vec<Conflict>,
) -> Result<Vec<Conflict>, AllocError>
    requires sought { IsSought sought.now }
    requires conflict { AreConflictsFor sought.now conflict.items }
    requires alone { length conflict.items ≡ 1 }
    ensures smaller { IfOk result (λ less. IsOneWithin sought.now conflict.items less.items) }
    ensures counted { engine.old.pivots ≤ engine.new.pivots }
{
    let heavy = heavy_members(alloc, &sought.asked, conflict.as_slice())?;
    let mut conflict = reduced(alloc, engine, sought, conflict, heavy)?;
    let members = copied_members(alloc, conflict.as_slice())?;
    for member in members.as_slice() {
        let others = members_but(alloc, &sought.asked, conflict.as_slice(), *member)?;
        conflict = reduced(alloc, engine, sought, conflict, others)?;
    }
    Ok(conflict)
}

/// A conflict of these members, alone in a list, where they are one, else the one that there is.
#[tactic(auto, using(crate::proofs::SmallLemmas::one_stays))]
fn reduced(
    alloc: Global,
    engine: &mut Engine,
    sought: &Sought,
    conflict: Vec<Conflict>,
    members: Vec<usize>,
) -> Result<Vec<Conflict>, AllocError>
    requires sought { IsSought sought.now }
    requires conflict { AreConflictsFor sought.now conflict.items }
    requires alone { length conflict.items ≡ 1 }
    requires members { IsPartOf sought.now.asked (members_at conflict.items 0) members.items }
    ensures less { IfOk result (λ less. IsOneWithin sought.now conflict.items less.items) }
    ensures counted { engine.old.pivots ≤ engine.new.pivots }
{
    match try_without(alloc, engine, sought, members)? {
        Tried::Conflict(less) => alone(alloc, less),
        _ => Ok(conflict),
    }
}

/// A list of the conflict alone.
pub(crate) fn alone(alloc: Global, conflict: Conflict) -> Result<Vec<Conflict>, AllocError>
    ensures { IfOk result (λ list. list.items ≡ conflict ∷ []) }
{
    let mut list = Vec::new(alloc);
    list.push(conflict)?;
    Ok(list)
}

/// The members of the one conflict of a list; none, where the list is empty.
fn members_of_one(conflict: &[Conflict]) -> &[usize]
    ensures { result.now ≡ members_at conflict.now 0 }
{
    match conflict {
        [] => &[],
        [first, ..] => first.members.as_slice(),
    }
}

fn copied_members(alloc: Global, conflict: &[Conflict]) -> Result<Vec<usize>, AllocError>
    ensures { IfOk result (λ members. members.items ≡ members_at conflict.now 0) }
{
    Vec::from_slice(alloc, members_of_one(conflict))
}

/// The members but one.
fn others_of(alloc: Global, members: &[usize], member: usize) -> Result<Vec<usize>, AllocError>
    ensures { IfOk result (λ less. less.items ≡ filter (λ other. not (other == member)) members.now) }
{
    members
        .iter()
        .copied()
        .filter(|other| *other != member)
        .collect(alloc)
}

/// Its members without one, in order of the table.
fn members_but(
    alloc: Global,
    asked: &Asked,
    conflict: &[Conflict],
    member: usize,
) -> Result<Vec<usize>, AllocError>
    requires asked { IsAsked asked.now }
    ensures { IfOk result (λ less. IsPartOf asked.now (members_at conflict.now 0) less.items) }
{
    let less = others_of(alloc, members_of_one(conflict), member)?;
    in_order(alloc, asked.table, asked.alternative, less.as_slice())
}

/// Its members whose rows have a weight in what refutes them, in order of the table.
fn heavy_members(
    alloc: Global,
    asked: &Asked,
    conflict: &[Conflict],
) -> Result<Vec<usize>, AllocError>
    requires asked { IsAsked asked.now }
    ensures { IfOk result (λ heavy. IsPartOf asked.now (members_at conflict.now 0) heavy.items) }
{
    let heavy = heavy_in(alloc, asked, conflict)?;
    in_order(alloc, asked.table, asked.alternative, heavy.as_slice())
}

fn heavy_in(alloc: Global, asked: &Asked, conflict: &[Conflict]) -> Result<Vec<usize>, AllocError>
    ensures { IfOk result (λ heavy. AreAmong (members_at conflict.now 0) heavy.items) }
{
    let members = members_of_one(conflict);
    match conflict {
        [] => Ok(Vec::new(alloc)),
        [one, ..] => heavy_of(alloc, asked, one, members),
    }
}

/// Those of the members, which are the conflict's, that have a weight in what refutes it.
fn heavy_of(
    alloc: Global,
    asked: &Asked,
    conflict: &Conflict,
    members: &[usize],
) -> Result<Vec<usize>, AllocError>
    ensures { IfOk result (λ heavy. AreAmong members.now heavy.items) }
{
    let (numbers, first) = weights(asked, conflict);
    let mut heavy = Vec::new(alloc);
    for (place, member) in members.iter().enumerate() {
        if has_weight(numbers, first, place) {
            heavy.push(*member)?;
        }
    }
    Ok(heavy)
}

/// The multipliers among which those of the members are, and the place of the first member's.
fn weights<'a>(asked: &Asked, conflict: &'a Conflict) -> (&'a Numbers, usize) {
    match asked.side {
        Side::Best => (&conflict.multipliers.weak, asked.base.weak().len()),
        Side::Worst => (&conflict.multipliers.strict, asked.base.strict().len()),
    }
}

/// Whether the number so many places behind the first is there and isn't 0.
fn has_weight(numbers: &Numbers, first: usize, place: usize) -> bool {
    first <= numbers.len() && place < numbers.len() - first && numbers.entry(first + place) != 0
}
