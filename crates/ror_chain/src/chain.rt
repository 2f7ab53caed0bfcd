//! The chain.

ghost use Rattle.std.specs.Prelude.{◌≡◌, ◌↔◌, ◌<◌, ◌≤◌, suc, IfOk, OnOk, OnErr, IsTrue, Some, length, slice_get};
ghost use Rattle.ror_chain.specs.Chain.{first_of, neighbours_of, IsLinked, IsChain, empty_chain, pushed, unlinked, relinked, with_item, CanRelink, EndsWithNewest};

use crate::links::{Links, Node};
use std::alloc::{AllocError, Global};
use std::marker::Model;

/// A list of nodes that are named by their numbers, from 0.
///
/// A node that is unlinked keeps its item and its two neighbours, and can be relinked between them. Clauses see the linked
/// nodes in order, the item of each node, and the neighbours that each unlinked one keeps; and beside these for how many more
/// nodes there is room.
#[derive(Drop)]
pub struct Chain<T: Copy> {
    links: Links<T>,
}

impl<T: Copy> Model for Chain<T> {
    ghost use Rattle.ror_chain.specs.Chain.{ChainView};

    ghost Value = { ChainView T };

    ghost use Rattle.ror_chain.specs.Cells.{cells, room, state_of, IsWhole};

    ghost view = { λ chain. record { state = state_of (cells chain.links); spare = room chain.links } };

    ghost invariant = { λ chain. IsWhole (cells chain.links) };
}

impl<T: Copy> Chain<T> {
    /// The chain without nodes.
    pub fn new(alloc: Global) -> Chain<T>
        ensures { result.state ≡ empty_chain }
    {
        Chain {
            links: Links {
                nodes: Vec::new(alloc),
                first: None,
                last: None,
            },
        }
    }

    /// Makes room for so many more nodes. The chain stays as it is.
    ///
    /// # Errors
    ///
    /// Only want of memory, and only where there is not so much room yet.
    pub fn reserve(&mut self, more: usize) -> Result<(), AllocError>
        ensures room { OnOk result (more ≤ self.new.spare) }
        ensures wanting { OnErr result (self.old.spare < more) }
        ensures unchanged { self.new.state ≡ self.old.state }
        ensures kept { self.old.spare ≤ self.new.spare }
    {
        self.links.nodes.reserve(more)
    }

    /// Puts a new node at the end and gives its number, which is the number of nodes before. It takes no memory.
    pub fn push_reserved(&mut self, item: T) -> usize
        requires { 0 < self.old.spare }
        ensures numbered { result ≡ length self.old.state.items }
        ensures pushed { self.new.state ≡ pushed self.old.state item }
        ensures room { self.old.spare ≤ suc self.new.spare }
    {
        let node = self.links.nodes.len();
        let last = self.links.last;
        self.links
            .nodes
            .push(Node {
                item,
                previous: last,
                next: None,
                linked: true,
            })
            .unwrap();
        self.links.set_next(last, Some(node));
        self.links.last = Some(node);
        node
    }

    /// Puts a new node at the end and gives its number, which is the number of nodes before.
    ///
    /// # Errors
    ///
    /// Only want of memory, and only where there is no room, which changes nothing.
    pub fn push(&mut self, item: T) -> Result<usize, AllocError>
        ensures numbered { IfOk result (λ node. node ≡ length self.old.state.items) }
        ensures pushed { IfOk result (λ _. self.new.state ≡ pushed self.old.state item) }
        ensures wanting { OnErr result (self.old.spare ≡ 0) }
        ensures unchanged { OnErr result (self.new.state ≡ self.old.state) }
        ensures room { self.old.spare ≤ suc self.new.spare }
    {
        self.reserve(1)?;
        Ok(self.push_reserved(item))
    }

    /// Takes a linked node out. It keeps its neighbours.
    pub fn unlink(&mut self, node: usize)
        requires { IsLinked self.old.state node }
        ensures unlinked { self.new.state ≡ unlinked self.old.state node }
        ensures room { self.old.spare ≤ self.new.spare }
    {
        let Node { previous, next, .. } = self.links.nodes[node];
        self.links.set_next(previous, next);
        self.links.set_previous(next, previous);
        self.links.nodes[node].linked = false;
    }

    /// Puts an unlinked node back between the neighbours that it kept, which stand side by side, or are the end that they
    /// were.
    pub fn relink(&mut self, node: usize)
        requires { CanRelink self.old.state node }
        ensures relinked { self.new.state ≡ relinked self.old.state node }
        ensures room { self.old.spare ≤ self.new.spare }
    {
        let Node { previous, next, .. } = self.links.nodes[node];
        self.links.nodes[node].linked = true;
        self.links.set_next(previous, Some(node));
        self.links.set_previous(next, Some(node));
    }

    /// Undoes a push: the newest node, which stands last, is gone, and its item is given.
    pub fn pop(&mut self) -> T
        requires { EndsWithNewest self.old.state }
        ensures popped { self.old.state ≡ pushed self.new.state result }
        ensures room { self.old.spare ≤ self.new.spare }
    {
        let last = self.links.nodes.pop().unwrap();
        self.links.set_next(last.previous, None);
        self.links.last = last.previous;
        last.item
    }

    /// Puts another item into a linked node, and gives the old one.
    pub fn set(&mut self, node: usize, item: T) -> T
        requires { IsLinked self.old.state node }
        ensures given { slice_get self.old.state.items node ≡ Some result }
        ensures set { self.new.state ≡ with_item self.old.state node item }
        ensures room { self.old.spare ≤ self.new.spare }
    {
        let old = self.links.nodes[node].item;
        self.links.nodes[node].item = item;
        old
    }

    /// The first of the linked nodes; none where no node is linked.
    pub fn first(&self) -> Option<usize>
        ensures { result ≡ first_of self.now.state.order }
    {
        self.links.first
    }

    /// The node after this one; none at the end. Where this one is unlinked, it is the one that it keeps.
    pub fn next(&self, node: usize) -> Option<usize>
        requires { node < length self.now.state.items }
        ensures { result ≡ (neighbours_of self.now.state node).next }
    {
        self.links.nodes[node].next
    }

    /// The node before this one; none at the start. Where this one is unlinked, it is the one that it keeps.
    pub fn prev(&self, node: usize) -> Option<usize>
        requires { node < length self.now.state.items }
        ensures { result ≡ (neighbours_of self.now.state node).previous }
    {
        self.links.nodes[node].previous
    }

    /// The item of a node.
    pub fn item(&self, node: usize) -> T
        requires { node < length self.now.state.items }
        ensures { slice_get self.now.state.items node ≡ Some result }
    {
        self.links.nodes[node].item
    }

    /// Whether a node is linked.
    pub fn linked(&self, node: usize) -> bool
        requires { node < length self.now.state.items }
        ensures { IsTrue result ↔ IsLinked self.now.state node }
    {
        self.links.nodes[node].linked
    }

    /// How many nodes there are, linked and unlinked.
    pub fn nodes(&self) -> usize
        ensures counted { result ≡ length self.now.state.items }
        ensures chain { IsChain self.now.state }
    {
        self.links.nodes.len()
    }
}
