//! Growing a tree, depth first, by the smallest conflict.

ghost use Rattle.std.specs.Prelude.{◌≡◌, ◌≢◌, ◌⊎◌, ◌↔◌, ◌≤◌, ◌∷◌, [], length, IsTrue, IfOk, OnOk};
ghost use Rattle.std.specs.List.{range_with_len};
ghost use Rattle.ror_ranks.specs.Trees.{root_sets};
ghost use Rattle.ror_ranks_find.specs.Search.{HasMore, IsAdded, IsDone, IsFoundFor, IsGrowing, IsGrown, IsPacked, IsPut, IsPutBranch, IsPutBy, IsSought};

use crate::found::Found;
use crate::packing::{Packing, packed};
use crate::sought::Sought;
use ror_ranks::tree::{check_tree, members_of, push_joined, root};
use ror_ranks::{Conflict, MOST_NODES, Node};
use ror_text::Items;
use ror_warm::Engine;
use std::alloc::{AllocError, Global};

/// What has come of a tree so far.
#[derive(Clone, Copy, PartialEq, Eq)]
pub(crate) enum State {
    /// Its nodes may stand, and more may be put behind them.
    Growing,
    /// By some function fewer count than it is to show.
    Reached,
    /// A number is too wide to go on.
    Wide,
}

/// A tree that is to show that so many alternatives are needed to meet all conflicts.
#[derive(Drop)]
pub(crate) struct Tree {
    pub(crate) goal: usize,
    pub(crate) nodes: Vec<Node>,
    /// The sets with which no node is reached so far, the next one last.
    pub(crate) sets: Vec<Items<usize>>,
    pub(crate) state: State,
}

impl Tree {
    /// No node.
    fn new(alloc: Global, goal: usize) -> Result<Tree, AllocError>
        ensures goal { IfOk result (λ tree. tree.goal ≡ goal) }
        ensures state { IfOk result (λ tree. tree.state ≡ State.Growing) }
        ensures nodes { IfOk result (λ tree. tree.nodes.items ≡ []) }
        ensures sets { IfOk result (λ tree. tree.sets.items ≡ root_sets) }
    {
        Ok(Tree {
            goal,
            nodes: Vec::new(alloc),
            sets: root(alloc)?,
            state: State::Growing,
        })
    }

    /// These nodes, of a tree that is whole.
    fn of(alloc: Global, goal: usize, nodes: Vec<Node>) -> Result<Tree, AllocError>
        ensures goal { IfOk result (λ tree. tree.goal ≡ goal) }
        ensures nodes { IfOk result (λ tree. tree.nodes ≡ nodes) }
    {
        Ok(Tree {
            goal,
            nodes,
            sets: Vec::new(alloc),
            state: State::Growing,
        })
    }

    /// Whether all nodes are there.
    pub(crate) fn is_whole(&self) -> bool
        ensures { IsTrue result ↔ ((self.now.state ≡ State.Growing) × (self.now.sets.items ≡ [])) }
    {
        self.state == State::Growing && self.sets.is_empty()
    }

    /// Whether nothing is to be put behind the nodes.
    fn is_over(&self) -> bool
        ensures { IsTrue result ↔ ((self.now.state ≢ State.Growing) ⊎ (self.now.sets.items ≡ [])) }
    {
        self.state != State::Growing || self.sets.is_empty()
    }
}

/// The leaf of all conflicts, where these share no member with each other; else the leaf of none. As a tree either is whole.
pub(crate) fn first_tree(alloc: Global, conflicts: &[Conflict]) -> Result<Tree, AllocError>
    requires few { length conflicts.now ≤ 4294967295 }
    ensures { IfOk result (IsDone conflicts.now) }
{
    let goal = conflicts.len();
    let nodes = leaf(alloc, goal as u32)?;
    if check_tree(alloc, conflicts, goal, nodes.as_slice()).is_ok() {
        return Tree::of(alloc, goal, nodes);
    }
    let none = leaf(alloc, 0)?;
    Tree::of(alloc, 0, none)
}

/// The leaf of the first so many conflicts.
fn leaf(alloc: Global, count: u32) -> Result<Vec<Node>, AllocError>
    ensures { IfOk result (λ nodes. nodes.items ≡ Node.Leaf (range_with_len 0 count) ∷ []) }
{
    let mut places = Vec::new(alloc);
    for place in 0..count {
        places.push(place)?;
    }
    let mut nodes = Vec::new(alloc);
    nodes.push(Node::Leaf(Items::from(places)))?;
    Ok(nodes)
}

/// The tree that shows that it takes so many alternatives to meet all conflicts, as far as it grows: it may end before, where by some
/// function fewer count, or a number is too wide, or there are as many nodes as there may be.
pub(crate) fn grow(
    alloc: Global,
    engine: &mut Engine,
    sought: &Sought,
    found: &mut Found,
    goal: usize,
) -> Result<Tree, AllocError>
    requires sought { IsSought sought.now }
    requires found { IsFoundFor sought.now found.old }
    ensures goal { IfOk result (λ tree. tree.goal ≡ goal) }
    ensures grown { IfOk result (IsGrown found.new) }
    ensures found { OnOk result (IsFoundFor sought.now found.new) }
    ensures more { OnOk result (HasMore found.old found.new) }
    ensures counted { engine.old.pivots ≤ engine.new.pivots }
{
    let mut tree = Tree::new(alloc, goal)?;
    for _node in 0..MOST_NODES {
        if tree.is_over() {
            return Ok(tree);
        }
        add_node(alloc, engine, sought, found, &mut tree)?;
    }
    Ok(tree)
}

/// Puts a node behind those of the tree, unless its state says why not.
fn add_node(
    alloc: Global,
    engine: &mut Engine,
    sought: &Sought,
    found: &mut Found,
    tree: &mut Tree,
) -> Result<(), AllocError>
    requires sought { IsSought sought.now }
    requires found { IsFoundFor sought.now found.old }
    requires growing { IsGrowing found.old tree.old }
    requires open { tree.old.sets.items ≢ [] }
    ensures added { OnOk result (IsAdded found.new tree.old tree.new) }
    ensures found { OnOk result (IsFoundFor sought.now found.new) }
    ensures more { OnOk result (HasMore found.old found.new) }
    ensures counted { engine.old.pivots ≤ engine.new.pivots }
{
    let Some(set) = tree.sets.pop() else {
        return Ok(());
    };
    let packing = packed(alloc, engine, sought, found, set.as_slice(), tree.goal)?;
    put_node(alloc, found, tree, set.as_slice(), packing)
}

/// A leaf, where the packing has as many conflicts as are wanting, else a branch at its first conflict, which is the smallest.
fn put_node(
    alloc: Global,
    found: &Found,
    tree: &mut Tree,
    set: &[usize],
    packing: Packing,
) -> Result<(), AllocError>
    requires packed { IsPacked found.now set.now tree.old.goal packing }
    ensures { OnOk result (IsPut found.now set.now tree.old tree.new) }
{
    if found.except.len() < tree.goal {
        tree.state = State::Reached;
        return Ok(());
    }
    let wanting = packing.is_short(tree.goal);
    put_packed(alloc, found, tree, set, packing.places, wanting)
}

/// The same where so many conflicts aren't enough to end the tree here, or are.
fn put_packed(
    alloc: Global,
    found: &Found,
    tree: &mut Tree,
    set: &[usize],
    places: Vec<u32>,
    wanting: bool,
) -> Result<(), AllocError>
    ensures { OnOk result (IsPutBy found.now set.now places.items wanting tree.old tree.new) }
{
    if !wanting {
        tree.nodes.push(Node::Leaf(Items::from(places)))?;
        return Ok(());
    }
    match places.as_slice() {
        [] => {
            tree.state = State::Wide;
            Ok(())
        }
        [place, ..] => put_branch(alloc, found, tree, set, *place),
    }
}

/// A branch at the conflict at a place.
fn put_branch(
    alloc: Global,
    found: &Found,
    tree: &mut Tree,
    set: &[usize],
    place: u32,
) -> Result<(), AllocError>
    ensures { OnOk result (IsPutBranch found.now set.now place tree.old tree.new) }
{
    tree.nodes.push(Node::Branch(place))?;
    let members = members_of(found.conflicts.as_slice(), place);
    push_joined(alloc, &mut tree.sets, set, members)
}
