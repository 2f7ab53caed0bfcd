//! The check of a tree: whether it shows that so many alternatives are needed to meet all conflicts.

ghost use Rattle.std.specs.Prelude.{◌≡◌, ◌++◌, ◌∷◌, [], map, reverse, IfOk, OnOk, MatchResult};
ghost use Rattle.ror_ranks.specs.Trees as spec;
ghost use Rattle.ror_ranks.specs.Trees.{IsTree, members_at, sets_below};
ghost use Rattle.ror_ranks.specs.Steps.{RefusesTree};

use crate::extreme::{Conflict, Node};
use crate::fault::ExtremeFault;
use crate::others::is_among;
use ror_text::Items;
use std::alloc::{AllocError, Global};

/// Whether some alternative is in both.
fn share(members: &[usize], set: &[usize]) -> bool
    ensures { result ≡ spec.share members.now set.now }
{
    match members {
        [] => false,
        [first, rest @ ..] => is_among(set, *first) || share(rest, set),
    }
}

/// The members of the conflict at a place; none, where no conflict stands there.
pub fn members_of(conflicts: &[Conflict], place: u32) -> &[usize]
    ensures { result.now ≡ members_at conflicts.now place }
{
    match conflicts.get(place as usize) {
        Some(conflict) => conflict.members.as_slice(),
        None => &[],
    }
}

/// Whether a conflict stands at the place and shares no member with the set.
pub fn is_apart(conflicts: &[Conflict], set: &[usize], place: u32) -> bool
    ensures { result ≡ spec.is_apart conflicts.now set.now place }
{
    (place as usize) < conflicts.len() && !share(members_of(conflicts, place), set)
}

/// Whether conflicts stand at the places, and share no member with the set or with each other. The set then has their members too.
fn are_apart(
    conflicts: &[Conflict],
    set: &mut Vec<usize>,
    places: &[u32],
) -> Result<bool, AllocError>
    ensures { IfOk result (λ apart. apart ≡ spec.are_apart conflicts.now set.old.items places.now) }
{
    let [first, rest @ ..] = places else {
        return Ok(true);
    };
    if !is_apart(conflicts, set.as_slice(), *first) {
        return Ok(false);
    }
    set.extend_from_slice(members_of(conflicts, *first))?;
    are_apart(conflicts, set, rest)
}

/// Whether the conflicts of a leaf are apart, and as many as are wanting to the set.
fn may_end(
    alloc: Global,
    conflicts: &[Conflict],
    goal: usize,
    set: &[usize],
    places: &[u32],
) -> Result<bool, AllocError>
    ensures { IfOk result (λ may. may ≡ spec.may_stand conflicts.now goal set.now (Node.Leaf places.now)) }
{
    let mut met = Vec::from_slice(alloc, set)?;
    let apart = are_apart(conflicts, &mut met, places)?;
    Ok(apart && set.len() <= goal && places.len() == goal - set.len())
}

/// Whether the node may be reached with the set.
fn may_stand(
    alloc: Global,
    conflicts: &[Conflict],
    goal: usize,
    set: &[usize],
    node: &Node,
) -> Result<bool, AllocError>
    ensures { IfOk result (λ may. may ≡ spec.may_stand conflicts.now goal set.now node.now) }
{
    match node {
        Node::Leaf(places) => may_end(alloc, conflicts, goal, set, places.as_slice()),
        Node::Branch(place) => Ok(is_apart(conflicts, set, *place)),
    }
}

/// The set with one more.
fn joined(alloc: Global, set: &[usize], member: usize) -> Result<Items<usize>, AllocError>
    ensures { IfOk result (λ more. more ≡ set.now ++ member ∷ []) }
{
    let mut more = Vec::with_capacity(alloc, set.len() + 1)?;
    more.extend_from_slice(set)?;
    more.push(member)?;
    Ok(Items::from(more))
}

/// Puts the sets that the set makes with each member on top of others, so that the first member's is taken first.
pub fn push_joined(
    alloc: Global,
    sets: &mut Vec<Items<usize>>,
    set: &[usize],
    members: &[usize],
) -> Result<(), AllocError>
    ensures { OnOk result (sets.new.items
        ≡ sets.old.items ++ reverse (map (λ b. set.now ++ b ∷ []) members.now)) }
{
    let [first, rest @ ..] = members else {
        return Ok(());
    };
    push_joined(alloc, sets, set, rest)?;
    sets.push(joined(alloc, set, *first)?)?;
    Ok(())
}

/// Puts the sets with which the trees right below a node are reached on top of others.
fn push_below(
    alloc: Global,
    sets: &mut Vec<Items<usize>>,
    conflicts: &[Conflict],
    set: &[usize],
    node: &Node,
) -> Result<(), AllocError>
    ensures { OnOk result (sets.new.items
        ≡ sets.old.items ++ reverse (sets_below conflicts.now set.now node.now)) }
{
    match node {
        Node::Leaf(_) => Ok(()),
        Node::Branch(place) => push_joined(alloc, sets, set, members_of(conflicts, *place)),
    }
}

/// The empty set alone.
pub fn root(alloc: Global) -> Result<Vec<Items<usize>>, AllocError>
    ensures { IfOk result (λ sets. sets.items ≡ spec.root_sets) }
{
    let mut sets = Vec::new(alloc);
    sets.push(Items::from(Vec::new(alloc)))?;
    Ok(sets)
}

/// Whether the nodes are a tree that shows that it takes so many alternatives to meet all conflicts.
///
/// # Errors
///
/// `Node` for the first that may not stand where it does, and `Unfinished` where one is missing in the end; and want of memory.
pub fn check_tree(
    alloc: Global,
    conflicts: &[Conflict],
    goal: usize,
    nodes: &[Node],
) -> Result<(), ExtremeFault>
    ensures { MatchResult result (λ _. IsTree conflicts.now goal nodes.now)
        (RefusesTree conflicts.now goal nodes.now) }
{
    let mut sets = root(alloc)?;
    for (place, node) in nodes.iter().enumerate() {
        let Some(set) = sets.pop() else {
            return Err(ExtremeFault::Node(place));
        };
        if !may_stand(alloc, conflicts, goal, set.as_slice(), node)? {
            return Err(ExtremeFault::Node(place));
        }
        push_below(alloc, &mut sets, conflicts, set.as_slice(), node)?;
    }
    if sets.is_empty() {
        Ok(())
    } else {
        Err(ExtremeFault::Unfinished)
    }
}
