//! Why extreme ranks are not accepted.

ghost use Rattle.std.specs.Prelude.{◌≡◌};

use ror_system::Reject;
use std::alloc::AllocError;
use thiserror::Error;

/// Why the interval of an extreme rank is not accepted: the first test that fails, in this order. Places count from 0.
#[derive(Clone, Copy, Debug, PartialEq, Eq, Error)]
pub enum ExtremeFault {
    /// The ends are no ranks of the table, or the interval is turned round.
    #[error("the ends are no ranks in order")]
    Ends,
    /// The exceptions are no other alternatives in order of the table, or another number of them may count.
    #[error("the exceptions are not those that may count")]
    Except,
    /// The function is not accepted.
    #[error("the function is not accepted: {0:?}")]
    Function(Reject),
    /// The members of the conflict at this place are no other alternatives in order of the table.
    #[error("the members of conflict {0} are no other alternatives in order")]
    Members(usize),
    /// The multipliers of the conflict at this place are not accepted; conflicts come one by one, the members of each first.
    #[error("conflict {0} is not accepted: {1:?}")]
    Conflict(usize, Reject),
    /// The node at this place may not stand there: its conflicts share a member, or aren't there, or are too few or too many; or the
    /// tree has ended before it.
    #[error("node {0} may not stand there")]
    Node(usize),
    /// A node is missing at the end of the tree.
    #[error("the tree is not whole")]
    Unfinished,
    #[error("out of memory")]
    Memory,
}

impl From<AllocError> for ExtremeFault {
    ghost use Rattle.ror_ranks.specs.declared.fault.ExtremeFault.TheVariants as extreme;

    ghost from_gives = { λ _ e. e ≡ extreme.Memory };

    fn from(_error: AllocError) -> ExtremeFault {
        ExtremeFault::Memory
    }
}

/// Why extreme ranks over one list are not all accepted.
#[derive(Clone, Copy, Debug, PartialEq, Eq, Error)]
pub enum RanksFault {
    /// They are not the best and the worst rank of each alternative, in order of the table.
    #[error("not the best and the worst rank of each alternative")]
    NotDue,
    /// The one at this place, counted from 1, is the first that is not accepted, and this is the first test that it fails.
    #[error("extreme rank {0} is not accepted: {1}")]
    Extreme(u32, ExtremeFault),
    #[error("out of memory")]
    Memory,
}

impl From<AllocError> for RanksFault {
    ghost use Rattle.ror_ranks.specs.declared.fault.RanksFault.TheVariants as ranks;

    ghost from_gives = { λ _ e. e ≡ ranks.Memory };

    fn from(_error: AllocError) -> RanksFault {
        RanksFault::Memory
    }
}
