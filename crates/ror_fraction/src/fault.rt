//! Parts of numbers that may be too wide, and why there is no fraction or no row.

ghost use Rattle.std.specs.Prelude.{◌≡◌};
ghost use Rattle.ror_fraction.specs.declared.fault.RowFault.TheVariants.{Memory};

use std::alloc::{AllocError, AllocFailed};
use thiserror::Error;

/// A number that a fraction is made by.
#[derive(Clone, Copy, Debug, PartialEq, Eq)]
pub enum Part {
    /// The first numerator over the common denominator.
    Left,
    /// The second numerator over the common denominator.
    Right,
    /// The sum of the two.
    Sum,
    /// The numerator of a product.
    Numerator,
    /// The denominator of a sum or a product.
    Denominator,
}

/// Why there is no fraction.
#[derive(Clone, Copy, Debug, PartialEq, Eq, Error)]
pub enum FractionFault {
    /// The denominator is 0.
    #[error("the denominator is 0")]
    ZeroDenominator,
    /// This part, and none before it, passes the greatest number of the width.
    #[error("a part is too wide")]
    Wide(Part),
    /// The divisor is 0.
    #[error("the divisor is 0")]
    DivideByZero,
}

/// A number that an entry of a row is made by.
#[derive(Clone, Copy, Debug, PartialEq, Eq)]
pub enum RowPart {
    /// The entry as it is given.
    Start,
    /// The row's entry times the row's factor.
    Left,
    /// The pivot row's entry times the pivot row's factor.
    Right,
    /// The first less the second.
    Difference,
}

/// Why there is no row.
#[derive(Clone, Copy, Debug, PartialEq, Eq, Error)]
pub enum RowFault {
    /// This part of this column, and none before it, passes the greatest number of the width.
    #[error("a number of column {column} is too wide")]
    Wide { column: usize, part: RowPart },
    /// Memory ran out.
    #[error("out of memory")]
    Memory,
}

impl From<AllocError> for RowFault {
    ghost from_gives = { λ _ e. e ≡ Memory };

    fn from(_e: AllocError) -> RowFault {
        RowFault::Memory
    }
}

impl<T: Drop> From<AllocFailed<T>> for RowFault {
    ghost from_gives = { λ _ e. e ≡ Memory };

    fn from(_e: AllocFailed<T>) -> RowFault {
        RowFault::Memory
    }
}
