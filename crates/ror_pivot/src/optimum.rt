//! What is read at the end of a climbing path, and the first number of one that is too wide.

ghost use Rattle.std.specs.Prelude.{◌≡◌};
ghost use Rattle.ror_pivot.specs.declared.optimum.ClimbFault.TheVariants.{Memory};
ghost use Rattle.ror_pivot.specs.Climbing.{climb_place};

use crate::note::Place;
use ror_system::{Multipliers, Solution};
use ror_text::Items;
use std::alloc::{AllocError, AllocFailed};
use thiserror::Error;

/// A solution of a system, and multipliers that show that none has a greater margin.
#[derive(Debug, Drop)]
pub struct Optimum {
    pub solution: Solution,
    /// One for each row of the system, that of ones among them.
    pub multipliers: Multipliers,
}

/// Where a number of a climbing path stands. The rows of `Start`, `Step` and `Denominator` are those of the tableau, which has
/// none for the row of ones; that of `RowSum` is one of the system, weak rows first. The columns of `Scale` and `ColumnSum` are
/// the system's.
#[derive(Clone, Copy, Debug, PartialEq, Eq)]
pub enum ClimbPlace {
    /// An entry of the starting tableau, by its row and its column.
    Start(usize, usize),
    /// A product or a difference of a pivot, by its row and its column.
    Step(usize, usize),
    /// A common denominator of the solution, by the last row that it counts.
    Denominator(usize),
    /// The sum of a row's absolute terms over the solution.
    RowSum(usize),
    /// The sum of the solution, each step times what its column counts.
    Total,
    /// What a column counts, times the sum of the strict multipliers.
    Scale(usize),
    /// The sum of a column's absolute terms over the multipliers.
    ColumnSum(usize),
}

impl ClimbPlace {
    /// A place on a path from a start, as one of a climbing path.
    pub(crate) fn of(place: Place) -> ClimbPlace
        ensures { result ≡ climb_place place }
    {
        match place {
            Place::Start(row, column) => ClimbPlace::Start(row, column),
            Place::Step(row, column) => ClimbPlace::Step(row, column),
            Place::Denominator(row) => ClimbPlace::Denominator(row),
            Place::RowSum(row) => ClimbPlace::RowSum(row),
            Place::ColumnSum(column) => ClimbPlace::ColumnSum(column),
        }
    }
}

/// The first number of a climbing path that is too wide.
#[derive(Debug, Drop)]
pub struct ClimbNote {
    /// The pivots before it, each by its column and its row; one that is in progress is the last.
    pub path: Items<(usize, usize)>,
    /// Where it stands.
    pub place: ClimbPlace,
}

/// Why no optimum is found.
#[derive(Debug, Drop, Error)]
pub enum ClimbFault {
    /// A number of the climbing path is too wide.
    #[error("a number is too wide")]
    Wide(ClimbNote),
    /// Memory ran out.
    #[error("out of memory")]
    Memory,
}

impl From<AllocError> for ClimbFault {
    ghost from_gives = { λ _ e. e ≡ Memory };

    fn from(_e: AllocError) -> ClimbFault {
        ClimbFault::Memory
    }
}

impl<T: Drop> From<AllocFailed<T>> for ClimbFault {
    ghost from_gives = { λ _ e. e ≡ Memory };

    fn from(_e: AllocFailed<T>) -> ClimbFault {
        ClimbFault::Memory
    }
}
