//! What takes a revision back.

ghost use Rattle.std.specs.Prelude.{◌≡◌, ◌≤◌, reverse};
ghost use Rattle.ror_chain.specs.Chain.{CanUnlinkAll, CanRelinkAll, all_relinked, all_unlinked};
ghost use Rattle.ror_history.specs.Inverses.{CanTakeBack, taken_back};

use ror_chain::Chain;
use ror_statement::Numbered;
use ror_text::Items;

/// What takes a revision back, on the chain that the revision left.
#[derive(Drop)]
pub enum Inverse {
    /// The newest node goes.
    Pop,
    /// A node comes back.
    Relink(usize),
    /// Nodes come back, the last of them first.
    RelinkAll(Items<usize>),
    /// A node holds its old item again.
    Set(usize, Numbered),
}

/// Takes a revision back.
pub fn take_back(chain: &mut Chain<Numbered>, inverse: Inverse)
    requires { CanTakeBack chain.old.state inverse }
    ensures back { chain.new.state ≡ taken_back chain.old.state inverse }
    ensures room { chain.old.spare ≤ chain.new.spare }
{
    match inverse {
        Inverse::Pop => {
            chain.pop();
        }
        Inverse::Relink(node) => chain.relink(node),
        Inverse::RelinkAll(nodes) => relink_all(chain, nodes.into_vec()),
        Inverse::Set(node, item) => {
            chain.set(node, item);
        }
    }
}

/// Relinks nodes, the last of them first.
fn relink_all(chain: &mut Chain<Numbered>, mut nodes: Vec<usize>)
    requires { CanRelinkAll chain.old.state (reverse nodes.items) }
    ensures relinked { chain.new.state ≡ all_relinked chain.old.state (reverse nodes.items) }
    ensures room { chain.old.spare ≤ chain.new.spare }
{
    'nodes: while let Some(node) = nodes.pop() {
        chain.relink(node);
    }
}

/// Unlinks nodes, the first of them first.
pub fn unlink_all(chain: &mut Chain<Numbered>, nodes: &[usize])
    requires { CanUnlinkAll chain.old.state nodes.now }
    ensures unlinked { chain.new.state ≡ all_unlinked chain.old.state nodes.now }
    ensures room { chain.old.spare ≤ chain.new.spare }
{
    for node in nodes {
        chain.unlink(*node);
    }
}
