//! Nodes with the numbers of their neighbours, and the two ends of the list that they form.

ghost use Rattle.std.specs.Prelude.{◌≡◌, ◌<◌};
ghost use Rattle.ror_chain.specs.Cells.{cells, room, with_next, with_previous, IsLinkedNode};

/// An item and its neighbours: where the node is linked those beside it, else those that it had.
#[derive(Clone, Copy)]
pub struct Node<T> {
    pub item: T,
    pub previous: Option<usize>,
    pub next: Option<usize>,
    pub linked: bool,
}

/// All nodes, and the first and the last of those that are linked.
#[derive(Drop)]
pub struct Links<T: Copy> {
    pub nodes: Vec<Node<T>>,
    pub first: Option<usize>,
    pub last: Option<usize>,
}

impl<T: Copy> Links<T> {
    /// Makes a node, or the end, the next of a linked node, or the first.
    pub fn set_next(&mut self, node: Option<usize>, next: Option<usize>)
        requires { IsLinkedNode (cells self.old) node }
        ensures led { cells self.new ≡ with_next (cells self.old) node next }
        ensures room { room self.new ≡ room self.old }
    {
        match node {
            Some(node) => self.nodes[node].next = next,
            None => self.first = next,
        }
    }

    /// Makes a node, or the end, the previous of a linked node, or the last.
    pub fn set_previous(&mut self, node: Option<usize>, previous: Option<usize>)
        requires { IsLinkedNode (cells self.old) node }
        ensures led { cells self.new ≡ with_previous (cells self.old) node previous }
        ensures room { room self.new ≡ room self.old }
    {
        match node {
            Some(node) => self.nodes[node].previous = previous,
            None => self.last = previous,
        }
    }
}
