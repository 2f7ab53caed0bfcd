//! Why an optimum or a contradiction is not accepted, and why no optimum is found.

ghost use Rattle.std.specs.Prelude.{◌≡◌};

use ror_pivot::{ClimbNote, WideNote};
use ror_system::{Multipliers, Reject};
use std::alloc::AllocError;
use thiserror::Error;

/// Why an optimum is not accepted: the first test that fails, in this order; those of the columns come last, column by column.
/// Places count from 0, those of multipliers through the weak ones and then the strict ones.
#[derive(Clone, Copy, Debug, PartialEq, Eq, Error)]
pub enum OptimalFault {
    /// The list says nothing strictly: its system has no strict row but that of ones.
    #[error("nothing is said strictly")]
    NoStrictRow,
    /// The solution is not accepted by the list's system.
    #[error("the solution is not accepted: {0:?}")]
    Solution(Reject),
    /// The value of the best levels passes 2^127 - 1.
    #[error("the total is too large")]
    Total,
    /// Not one multiplier for each row.
    #[error("not one multiplier for each row")]
    Length,
    /// The first multiplier below 0.
    #[error("the multiplier at {0} is below 0")]
    Negative(usize),
    /// The multiplier of the row of ones is not 0.
    #[error("the multiplier of the row of ones is not 0")]
    OnesRow,
    /// No multiplier of a strict row is above 0.
    #[error("no multiplier of a strict row is positive")]
    NoStrict,
    /// What the best level counts of the column, times the sum of the strict multipliers, passes 2^127 - 1.
    #[error("the scale of column {0} is too large")]
    ScaleWide(usize),
    /// The absolute terms of the column sum past 2^127 - 1.
    #[error("the terms of column {0} are too large")]
    ColumnWide(usize),
    /// The column's weighted sum is above the margin times its scale.
    #[error("the sum of column {0} is above the margin")]
    Column(usize),
    #[error("out of memory")]
    Memory,
}

impl From<AllocError> for OptimalFault {
    ghost use Rattle.ror_discriminate.specs.declared.fault.OptimalFault.TheVariants as optimal;

    ghost from_gives = { λ _ e. e ≡ optimal.Memory };

    fn from(_error: AllocError) -> OptimalFault {
        OptimalFault::Memory
    }
}

/// Why a list has no most discriminating function, or none is found.
#[derive(Debug, Drop, Error)]
pub enum DiscriminateFault {
    /// The list says nothing strictly: its system has no strict row but that of ones.
    #[error("nothing is said strictly")]
    NoStrictRow,
    /// The list is contradictory: these multipliers refute its system.
    #[error("the statements contradict each other")]
    Contradictory(Multipliers),
    /// Whether the list is contradictory is not decided: a number on the way is too wide.
    #[error("a number is too wide to decide the statements")]
    BaseWide(WideNote),
    /// The list is not contradictory, and a number on the way to its optimum is too wide.
    #[error("a number is too wide to find the optimum")]
    Wide(ClimbNote),
    #[error("out of memory")]
    Memory,
}

impl From<AllocError> for DiscriminateFault {
    ghost use Rattle.ror_discriminate.specs.declared.fault.DiscriminateFault.TheVariants as discriminate;

    ghost from_gives = { λ _ e. e ≡ discriminate.Memory };

    fn from(_error: AllocError) -> DiscriminateFault {
        DiscriminateFault::Memory
    }
}

/// Why multipliers do not show that a list which says something strictly is contradictory: the first test that fails, in this order.
#[derive(Clone, Copy, Debug, PartialEq, Eq, Error)]
pub enum ContradictionFault {
    /// The list says nothing strictly: its system has no strict row but that of ones.
    #[error("nothing is said strictly")]
    NoStrictRow,
    /// The multipliers are not accepted by the list's system.
    #[error("the multipliers are not accepted: {0:?}")]
    Multipliers(Reject),
    #[error("out of memory")]
    Memory,
}

impl From<AllocError> for ContradictionFault {
    ghost use Rattle.ror_discriminate.specs.declared.fault.ContradictionFault.TheVariants as contradiction;

    ghost from_gives = { λ _ e. e ≡ contradiction.Memory };

    fn from(_error: AllocError) -> ContradictionFault {
        ContradictionFault::Memory
    }
}
