//! Conflicts that share no member with a set of alternatives or with each other.

ghost use Rattle.std.specs.Prelude.{◌≡◌, ◌≤◌, ◌-◌, ◌++◌, ◌∷◌, [], true, false, length, nat_lt, IfOk, OnOk, IfSome};
ghost use Rattle.ror_ranks.specs.Trees as trees;
ghost use Rattle.ror_ranks.specs.Trees.{members_at, share};
ghost use Rattle.ror_ranks_find.specs.Search.{AreConflictsFor, HasMore, IsFoundFor, IsPacked, IsPacking, IsSought, IsTaken, IsTakenConflict};

use crate::found::Found;
use crate::smaller::{alone, smaller};
use crate::sought::{Sought, Tried, try_without};
use ror_ranks::Conflict;
use ror_ranks::others::{all_but, in_order};
use ror_ranks::tree::{is_apart, members_of};
use ror_warm::Engine;
use std::alloc::{AllocError, Global};

/// A set of alternatives, and conflicts that share no member with it or with each other.
#[derive(Drop)]
pub(crate) struct Packing {
    /// How many alternatives the set has.
    pub(crate) size: usize,
    /// These, and then the members of the conflicts.
    pub(crate) met: Vec<usize>,
    /// The places of the conflicts.
    pub(crate) places: Vec<u32>,
}

impl Packing {
    /// The set without a conflict.
    fn of(alloc: Global, set: &[usize]) -> Result<Packing, AllocError>
        ensures { IfOk result (λ packing. (packing.size ≡ length set.now)
            × (packing.met.items ≡ set.now) × (packing.places.items ≡ [])) }
    {
        Ok(Packing {
            size: set.len(),
            met: Vec::from_slice(alloc, set)?,
            places: Vec::new(alloc),
        })
    }

    /// Whether the set and one alternative for each conflict are fewer than these.
    pub(crate) fn is_short(&self, goal: usize) -> bool
        ensures { result ≡ nat_lt (length self.now.places.items) (goal - self.now.size) }
    {
        self.places.len() < goal.saturating_sub(self.size)
    }

    /// Adds the conflict at a place.
    fn take(&mut self, conflicts: &[Conflict], place: u32) -> Result<(), AllocError>
        ensures met { OnOk result (self.new.met.items ≡ self.old.met.items ++ members_at conflicts.now place) }
        ensures places { OnOk result (self.new.places.items ≡ self.old.places.items ++ place ∷ []) }
        ensures size { self.new.size ≡ self.old.size }
    {
        self.met.extend_from_slice(members_of(conflicts, place))?;
        self.places.push(place)?;
        Ok(())
    }

    /// Adds conflicts that are known, the smallest first, as long as more alternatives are to be shown.
    fn take_known(
        &mut self,
        conflicts: &[Conflict],
        set: &[usize],
        goal: usize,
    ) -> Result<(), AllocError>
        requires few { length conflicts.now ≤ 4294967295 }
        requires packing { IsPacking conflicts.now set.now goal self.old }
        ensures packing { OnOk result (IsPacking conflicts.now set.now goal self.new) }
    {
        for _taken in 0..conflicts.len() {
            if !self.is_short(goal) {
                return Ok(());
            }
            let Some(place) = smallest_apart(conflicts, self.met.as_slice()) else {
                return Ok(());
            };
            self.take(conflicts, place)?;
        }
        Ok(())
    }
}

/// The place of the smallest conflict that shares no member with the set: of those the first.
fn smallest_apart(conflicts: &[Conflict], set: &[usize]) -> Option<u32>
    requires few { length conflicts.now ≤ 4294967295 }
    ensures { IfSome result (λ place. trees.is_apart conflicts.now set.now place ≡ true) }
{
    let mut found = None;
    let mut size = usize::MAX;
    for place in 0..conflicts.len() as u32 {
        let members = members_of(conflicts, place).len();
        if members < size && is_apart(conflicts, set, place) {
            found = Some(place);
            size = members;
        }
    }
    found
}

/// Conflicts that share no member with the set or with each other, so many that it takes these alternatives to meet all; or as many
/// as there are. Known ones come first, and new ones are kept.
pub(crate) fn packed(
    alloc: Global,
    engine: &mut Engine,
    sought: &Sought,
    found: &mut Found,
    set: &[usize],
    goal: usize,
) -> Result<Packing, AllocError>
    requires sought { IsSought sought.now }
    requires found { IsFoundFor sought.now found.old }
    requires size { length set.now ≤ goal }
    ensures packed { IfOk result (IsPacked found.new set.now goal) }
    ensures found { OnOk result (IsFoundFor sought.now found.new) }
    ensures more { OnOk result (HasMore found.old found.new) }
    ensures counted { engine.old.pivots ≤ engine.new.pivots }
{
    let mut packing = Packing::of(alloc, set)?;
    packing.take_known(found.conflicts.as_slice(), set, goal)?;
    for _taken in 0..goal {
        if !packing.is_short(goal) {
            return Ok(packing);
        }
        let is_taken = take_new(alloc, engine, sought, found, &mut packing)?;
        if !is_taken {
            return Ok(packing);
        }
    }
    Ok(packing)
}

/// Looks for a conflict that shares no member with what the packing meets, and takes it; or keeps the function that shows that there
/// is none, or what is too wide to say. It says whether there is one.
fn take_new(
    alloc: Global,
    engine: &mut Engine,
    sought: &Sought,
    found: &mut Found,
    packing: &mut Packing,
) -> Result<bool, AllocError>
    requires sought { IsSought sought.now }
    requires found { IsFoundFor sought.now found.old }
    ensures taken { IfOk result (IsTaken found.new packing.old packing.new) }
    ensures found { OnOk result (IsFoundFor sought.now found.new) }
    ensures more { OnOk result (HasMore found.old found.new) }
    ensures counted { engine.old.pivots ≤ engine.new.pivots }
{
    let asked = &sought.asked;
    let met = packing.met.as_slice();
    let except = in_order(alloc, asked.table, asked.alternative, met)?;
    let rest = all_but(alloc, asked.table, asked.alternative, except.as_slice())?;
    match try_without(alloc, engine, sought, rest)? {
        Tried::Conflict(conflict) => {
            take_small(
                alloc,
                engine,
                sought,
                found,
                packing,
                alone(alloc, conflict)?,
            )?;
            Ok(true)
        }
        Tried::Function(function) => {
            found.reach(sought, except, function);
            Ok(false)
        }
        Tried::Wide(wide) => {
            found.note(sought, wide)?;
            Ok(false)
        }
    }
}

/// Makes a new conflict small, keeps it, and takes it.
fn take_small(
    alloc: Global,
    engine: &mut Engine,
    sought: &Sought,
    found: &mut Found,
    packing: &mut Packing,
    conflict: Vec<Conflict>,
) -> Result<(), AllocError>
    requires sought { IsSought sought.now }
    requires found { IsFoundFor sought.now found.old }
    requires conflict { AreConflictsFor sought.now conflict.items }
    requires alone { length conflict.items ≡ 1 }
    requires apart { share (members_at conflict.items 0) packing.old.met.items ≡ false }
    ensures taken { OnOk result (IsTakenConflict found.new packing.old packing.new) }
    ensures found { OnOk result (IsFoundFor sought.now found.new) }
    ensures more { OnOk result (HasMore found.old found.new) }
    ensures counted { engine.old.pivots ≤ engine.new.pivots }
{
    let less = smaller(alloc, engine, sought, conflict)?;
    let place = found.conflicts.len() as u32;
    found.add(sought, less)?;
    packing.take(found.conflicts.as_slice(), place)
}
