//! The conflicts that a tree names, numbered in the order in which it names them first.

ghost use Rattle.std.specs.Prelude.{◌≡◌, ◌≤◌, ◌+◌, IfOk, OnOk, length};
ghost use Rattle.ror_ranks.specs.declared.limits.TheConstants.{MOST_NODES};
ghost use Rattle.ror_ranks.specs.Trees.{IsTree};
ghost use Rattle.ror_ranks_find.specs.Search.{AreCopiedFrom, IsShownBy};

use ror_ranks::tree::check_tree;
use ror_ranks::{Conflict, Node};
use ror_text::Items;
use std::alloc::{AllocError, Global};

/// Conflicts, and the nodes of a tree over them.
#[derive(Drop)]
pub(crate) struct Shown {
    pub(crate) conflicts: Vec<Conflict>,
    pub(crate) nodes: Vec<Node>,
}

/// The tree over the conflicts that it names; over all of them, where that should be no tree.
pub(crate) fn shown_by(
    alloc: Global,
    conflicts: Vec<Conflict>,
    goal: usize,
    nodes: Vec<Node>,
) -> Result<Shown, AllocError>
    requires tree { IsTree conflicts.items goal nodes.items }
    requires few { length conflicts.items ≤ 4294967295 }
    requires few_nodes { length nodes.items ≤ MOST_NODES }
    ensures { IfOk result (IsShownBy conflicts.items goal) }
{
    let named = named_by(alloc, conflicts.as_slice(), nodes.as_slice())?;
    let is_tree = check_tree(
        alloc,
        named.conflicts.as_slice(),
        goal,
        named.nodes.as_slice(),
    );
    if is_tree.is_ok() {
        Ok(named)
    } else {
        Ok(Shown { conflicts, nodes })
    }
}

/// Copies of the conflicts that the nodes name, and the nodes with the places that these have then.
fn named_by(alloc: Global, conflicts: &[Conflict], nodes: &[Node]) -> Result<Shown, AllocError>
    requires few { length conflicts.now ≤ 4294967295 }
    ensures copied { IfOk result (λ shown. AreCopiedFrom conflicts.now shown.conflicts.items) }
    ensures no_more { IfOk result (λ shown. length shown.conflicts.items ≤ length conflicts.now) }
    ensures nodes { IfOk result (λ shown. length shown.nodes.items ≡ length nodes.now) }
{
    let mut names = vec![in alloc; 0u32; conflicts.len()]?;
    let mut shown = Shown {
        conflicts: Vec::new(alloc),
        nodes: Vec::new(alloc),
    };
    for node in nodes {
        shown.push(alloc, conflicts, &mut names, node)?;
    }
    Ok(shown)
}

impl Shown {
    /// Adds a node, and the conflicts that it names first. Where a conflict has a name, its number there, counted from 1, stands at its
    /// place; else 0 does.
    fn push(
        &mut self,
        alloc: Global,
        conflicts: &[Conflict],
        names: &mut Vec<u32>,
        node: &Node,
    ) -> Result<(), AllocError>
        requires few { length conflicts.now ≤ 4294967295 }
        requires copied { AreCopiedFrom conflicts.now self.old.conflicts.items }
        requires no_more { length self.old.conflicts.items ≤ length conflicts.now }
        ensures copied { OnOk result (AreCopiedFrom conflicts.now self.new.conflicts.items) }
        ensures no_more { OnOk result (length self.new.conflicts.items ≤ length conflicts.now) }
        ensures nodes { OnOk result (length self.new.nodes.items ≡ length self.old.nodes.items + 1) }
    {
        let node = match node {
            Node::Leaf(places) => {
                let mut named = Vec::with_capacity(alloc, places.len())?;
                for place in places.as_slice() {
                    named.push(self.name(alloc, conflicts, names, *place)?)?;
                }
                Node::Leaf(Items::from(named))
            }
            Node::Branch(place) => Node::Branch(self.name(alloc, conflicts, names, *place)?),
        };
        self.nodes.push(node)?;
        Ok(())
    }

    /// The place that the conflict of a place has here, where it is put if it isn't yet.
    fn name(
        &mut self,
        alloc: Global,
        conflicts: &[Conflict],
        names: &mut Vec<u32>,
        place: u32,
    ) -> Result<u32, AllocError>
        requires few { length conflicts.now ≤ 4294967295 }
        requires copied { AreCopiedFrom conflicts.now self.old.conflicts.items }
        requires no_more { length self.old.conflicts.items ≤ length conflicts.now }
        ensures copied { OnOk result (AreCopiedFrom conflicts.now self.new.conflicts.items) }
        ensures no_more { OnOk result (length self.new.conflicts.items ≤ length conflicts.now) }
        ensures nodes { self.new.nodes ≡ self.old.nodes }
    {
        let at = place as usize;
        if at >= conflicts.len() || at >= names.len() {
            return Ok(place);
        }
        if names[at] != 0 {
            return Ok(names[at] - 1);
        }
        if self.conflicts.len() >= conflicts.len() {
            return Ok(place);
        }
        let name = self.conflicts.len() as u32;
        self.conflicts.push(conflicts[at].copied(alloc)?)?;
        names[at] = name + 1;
        Ok(name)
    }
}
