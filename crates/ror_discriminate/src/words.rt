//! The words of a line, read one by one, where they are a number or pivots.

ghost use Rattle.std.specs.Prelude.{IfErr};
ghost use Rattle.ror_text.specs.Reading.{Gives};
ghost use Rattle.ror_proof.specs.Reading.{proof_fault, IsProofFaultWithin};
ghost use Rattle.ror_discriminate.specs.Reading as reading;

use ror_proof::ProofFault;
use ror_proof::words::{after_word, number_in, split_pivot};
use ror_text::numbers::read_small_number;
use ror_text::reading::need;
use ror_text::spaced::Words;
use std::alloc::Global;

/// The number that comes first.
#[tactic(auto, unfolding(crate::specs::Reading::number_at))]
pub(crate) fn number_at<'a>(place: usize, words: Words<'a>) -> Result<(i128, Words<'a>), ProofFault>
    ensures exact { Gives (λ x. (x.0, x.1)) proof_fault result
        (reading.number_at place words.entry) }
    ensures placed { IfErr result (IsProofFaultWithin place) }
{
    match words.next() {
        Some((word, rest)) => Ok((number_in(place, word)?, rest)),
        None => Err(ProofFault::BadLine(place)),
    }
}

/// `path` and the pivots up to the end of the line, each by its column and its row.
#[tactic(auto, unfolding(crate::specs::Reading::path_at))]
pub(crate) fn path_at(
    alloc: Global,
    place: usize,
    words: Words<'_>,
) -> Result<Vec<(usize, usize)>, ProofFault>
    ensures exact { Gives (λ path. path.items) proof_fault result
        (reading.path_at place words.entry) }
    ensures placed { IfErr result (IsProofFaultWithin place) }
{
    let words = after_word(place, b"path", words)?;
    steps_at(alloc, place, words)
}

/// The pivots up to the end of the line.
fn steps_at(
    alloc: Global,
    place: usize,
    words: Words<'_>,
) -> Result<Vec<(usize, usize)>, ProofFault>
    ensures exact { Gives (λ path. path.items) proof_fault result
        (reading.steps_at place words.entry) }
    ensures placed { IfErr result (IsProofFaultWithin place) }
{
    let mut steps = Vec::new(alloc);
    let mut left = words;
    'steps: while let Some((word, rest)) = left.next() {
        let step = step_in(place, word)?;
        steps.push(step)?;
        left = rest;
    }
    Ok(steps)
}

/// The pivot that a word says.
#[tactic(auto, unfolding(crate::specs::Reading::step_in, ror_proof::specs::Words::pivot_in))]
fn step_in(place: usize, word: &[u8]) -> Result<(usize, usize), ProofFault>
    ensures exact { Gives (λ step. step) proof_fault result (reading.step_in place word.now) }
    ensures placed { IfErr result (IsProofFaultWithin place) }
{
    let (column, row) = need(split_pivot(word), ProofFault::BadLine(place))?;
    let column = need(read_small_number(column), ProofFault::BadLine(place))?;
    let row = need(read_small_number(row), ProofFault::BadLine(place))?;
    Ok((column as usize, row as usize))
}
