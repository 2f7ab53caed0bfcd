//! The function that decides an answer.

ghost use Rattle.std.specs.Prelude.{◌≡◌, ◌<◌, option_copied};
ghost use Rattle.ror_show_find_proofs.specs.Deciding as spec;

use crate::functions::{parts_of, steps_in};
use ror_proof::Verdict;
use ror_system::Numbers;

/// The steps of the value function that is the first part of the proof, where it is one.
pub fn deciding(verdict: &Verdict) -> Option<&Numbers>
    ensures { option_copied result ≡ spec.deciding verdict.now }
{
    let part = parts_of(verdict).get(0)?;
    steps_in(&part.body)
}
