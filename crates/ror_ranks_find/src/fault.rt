//! Why no extreme ranks are found.

ghost use Rattle.std.specs.Prelude.{◌≡◌};

use ror_pivot::WideNote;
use ror_system::Multipliers;
use std::alloc::AllocError;
use thiserror::Error;

/// Why a list has no extreme ranks, or none are found.
#[derive(Debug, Drop, Error)]
pub enum RankingFault {
    /// The list is contradictory: these multipliers refute its system.
    #[error("the statements contradict each other")]
    Contradictory(Multipliers),
    /// Whether it is contradictory is not decided: a number on the way is too wide.
    #[error("a number is too wide to decide the statements")]
    BaseWide(WideNote),
    #[error("out of memory")]
    Memory,
}

impl From<AllocError> for RankingFault {
    ghost use Rattle.ror_ranks_find.specs.declared.fault.RankingFault.TheVariants as ranking;

    ghost from_gives = { λ _ e. e ≡ ranking.Memory };

    fn from(_error: AllocError) -> RankingFault {
        RankingFault::Memory
    }
}
