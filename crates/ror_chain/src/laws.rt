//! Each function here states laws of chains, for all values, and does nothing.

ghost use Rattle.ror_chain.specs.Laws.{NeighboursStandBeside, RelinkRestores};

/// A node stands between the last of the nodes before it and the first of those after it.
pub fn neighbours_stand_beside()
    ensures { NeighboursStandBeside }
{}

/// Nodes that are unlinked one after another can be relinked in the reverse order, which gives back the chain.
pub fn relink_restores<T: Copy>()
    ensures { RelinkRestores T }
{}
