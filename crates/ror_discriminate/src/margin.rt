//! The least margin of a value function.

ghost use Rattle.std.specs.Prelude.{◌≡◌, ◌<◌, length};
ghost use Rattle.ror_integers.specs.Vectors.{dot, absolute_dot};
ghost use Rattle.ror_system.specs.System.{IsNarrow, sum_limit};
ghost use Rattle.ror_system.specs.Acceptance.{IsAcceptedSolution};
ghost use Rattle.ror_pivot.specs.Optimality.{least_value};

use ror_system::{Numbers, Row, System, row_at_steps};

/// By how much a value function has all that is said strictly at least, and the value of its best levels: the least margin of
/// the normalised function is the first over the second.
#[derive(Clone, Copy, Debug, PartialEq, Eq)]
pub struct Margin {
    pub least: i128,
    pub total: i128,
}

/// The least value of the strict rows but that of ones at an accepted solution.
pub(crate) fn least_value(s: &System, steps: &Numbers) -> i128
    requires some_row { 1 < length s.now.strict }
    requires accepted { IsAcceptedSolution s.now steps.now }
    ensures value { result ≡ least_value s.now steps.now }
    ensures narrow { IsNarrow result }
{
    let strict = s.strict();
    let mut least = value_at(&strict[1], steps);
    for place in 2..strict.len() {
        least = least.min(value_at(&strict[place], steps));
    }
    least
}

/// What a row comes to at these steps, where the absolute values of its terms sum to at most 2^127 - 1.
pub(crate) fn value_at(row: &Row, steps: &Numbers) -> i128
    requires width { length row.now ≡ length steps.now }
    requires within { absolute_dot row.now steps.now < sum_limit }
    ensures value { result ≡ dot row.now steps.now }
    ensures narrow { IsNarrow result }
{
    row_at_steps(row, steps).unwrap()
}
