//! Widths, outcomes, and why a system is not decided.

ghost use Rattle.std.specs.Prelude.{◌≡◌};
ghost use Rattle.ror_pivot.specs.declared.note.SolveFault.TheVariants.{Memory};

use ror_system::{Multipliers, Solution};
use ror_text::Items;
use std::alloc::{AllocError, AllocFailed};
use thiserror::Error;

/// The width that is worked at: how many bits a number's absolute value has at most, which is one less than its word has.
#[derive(Clone, Copy, Debug, PartialEq, Eq)]
pub enum Bits {
    /// Up to 32,767.
    B15,
    /// Up to 2,147,483,647.
    B31,
    /// Up to 2^63 - 1.
    B63,
    /// Up to 2^127 - 1.
    B127,
}

/// Whether a system has a solution, with the certificate that shows it.
#[derive(Debug, Drop)]
pub enum Outcome {
    /// The system has this solution.
    Feasible(Solution),
    /// The system has no solution: these multipliers refute it.
    Infeasible(Multipliers),
}

/// Where a number of a path stands. The rows of `Start`, `Step` and `Denominator` are those of the tableau, that of `RowSum`
/// is one of the system, weak rows first. Rows of the tableau are below weak + strict + 2, that of `Denominator` below
/// weak + strict + 1, and columns below steps + weak + strict + 4.
#[derive(Clone, Copy, Debug, PartialEq, Eq)]
pub enum Place {
    /// An entry of the starting tableau, by its row and its column.
    Start(usize, usize),
    /// A product or a difference of a pivot, by its row and its column.
    Step(usize, usize),
    /// A common denominator of the solution, by the last row that it counts.
    Denominator(usize),
    /// The sum of a row's absolute terms over the solution.
    RowSum(usize),
    /// The sum of a column's absolute terms over the multipliers.
    ColumnSum(usize),
}

/// The first number of a path that is too wide.
#[derive(Debug, Drop)]
pub struct WideNote {
    /// The pivots before it, each by its column and its row; one that is in progress is the last.
    pub path: Items<(usize, usize)>,
    /// Where it stands.
    pub place: Place,
}

/// Why a system is not decided.
#[derive(Debug, Drop, Error)]
pub enum SolveFault {
    /// A number of the path is too wide.
    #[error("a number is too wide")]
    Wide(WideNote),
    /// Memory ran out.
    #[error("out of memory")]
    Memory,
}

impl From<AllocError> for SolveFault {
    ghost from_gives = { λ _ e. e ≡ Memory };

    fn from(_e: AllocError) -> SolveFault {
        SolveFault::Memory
    }
}

impl<T: Drop> From<AllocFailed<T>> for SolveFault {
    ghost from_gives = { λ _ e. e ≡ Memory };

    fn from(_e: AllocFailed<T>) -> SolveFault {
        SolveFault::Memory
    }
}
