//! Numbers that are to be steps: none below 0, with a positive total that 127 bits hold.

ghost use Rattle.std.specs.Prelude.{◌≡◌, ◌<ℤ◌, ◌↔◌, pos, IsTrue, MatchOption};
ghost use Rattle.ror_integers.specs.Vectors.{total, NoneNegative, SomePositive};
ghost use Rattle.ror_system.specs.System.{IsNarrow};
ghost use Rattle.ror_system.specs.Signs.{IsFirstNegative};

use crate::numbers::Numbers;

/// The place of the first number below 0, if there is one. It takes no memory.
pub fn first_negative(numbers: &[i128]) -> Option<usize>
    ensures { MatchOption result (NoneNegative numbers.now) (IsFirstNegative numbers.now) }
{
    for (place, number) in numbers.iter().enumerate() {
        if *number < 0 {
            return Some(place);
        }
    }
    None
}

/// The place of the first number below 0 of a list, if there is one. It takes no memory.
pub(crate) fn first_negative_of(numbers: &Numbers) -> Option<usize>
    ensures { MatchOption result (NoneNegative numbers.now) (IsFirstNegative numbers.now) }
{
    let (places, values) = numbers.others();
    for i in 0..places.len() {
        if values.entry(i) < 0 {
            return Some(places[i] as usize);
        }
    }
    None
}

/// Whether some number is above 0. It takes no memory.
pub(crate) fn is_some_positive(numbers: &Numbers) -> bool
    ensures { IsTrue result ↔ SomePositive numbers.now }
{
    let (_places, values) = numbers.others();
    for i in 0..values.len() {
        if values.entry(i) > 0 {
            return true;
        }
    }
    false
}

/// The sum of numbers none of which is below 0, where it is at least 1 and at most 2^127 - 1. It takes no memory.
pub fn positive_total(numbers: &Numbers) -> Option<i128>
    requires { NoneNegative numbers.now }
    ensures { MatchOption result (((pos 0 <ℤ total numbers.now) × IsNarrow (total numbers.now)) → ⊥)
        (λ sum. (sum ≡ total numbers.now) × (pos 0 <ℤ total numbers.now)
        × IsNarrow (total numbers.now)) }
{
    let (_places, values) = numbers.others();
    let mut sum: i128 = 0;
    for i in 0..values.len() {
        sum = sum.checked_add(values.entry(i))?;
    }
    if sum > 0 { Some(sum) } else { None }
}
