//! The direction of a criterion, and its scale.

ghost use Rattle.std.specs.Prelude.{◌≡◌};
ghost use Rattle.ror_table.specs.Amounts as spec;

use crate::amount::Amount;

/// Whether greater or smaller performances on a criterion are better.
#[derive(Clone, Copy, Debug, PartialEq, Eq)]
pub enum Direction {
    /// Greater is better.
    Max,
    /// Smaller is better.
    Min,
}

/// The direction of a criterion, and whether value functions are linear on it.
#[derive(Clone, Copy, Debug, PartialEq, Eq)]
pub struct Scale {
    pub direction: Direction,
    pub linear: bool,
}

/// Whether a performance is worse than another.
pub(crate) fn is_worse(direction: Direction, performance: &Amount, other: &Amount) -> bool
    ensures { result ≡ spec.is_worse direction performance.now other.now }
{
    match direction {
        Direction::Max => performance.is_smaller(other),
        Direction::Min => other.is_smaller(performance),
    }
}
