//! The reader of a certificate's text.

ghost use Rattle.std.specs.Prelude.{◌≡◌, ◌≤◌, ◌<◌, length, IfErr, IfOk};
ghost use Rattle.ror_text.specs.Reading.{Gives};
ghost use Rattle.ror_text.specs.Cursor.{cursor_at};
ghost use Rattle.ror_proof.specs.Reading.{proof_fault, IsProofFaultWithin};
ghost use Rattle.ror_show_forms.specs.Reading as reading;
ghost use Rattle.ror_show_forms.specs.Reading.{certificate_at};

use crate::certificate::Certificate;
use ror_proof::words::{after_word, small_number_at, small_number_in};
use ror_proof::{Answer, ProofFault, read_answer};
use ror_reason::Reduct;
use ror_table::Table;
use ror_text::Items;
use ror_text::reading::need;
use ror_text::spaced::{Words, line_at};
use std::alloc::Global;

/// Reads the certificate whose text begins at a place, and says where it ends: after as many answers behind the first one as its
/// line has numbers.
///
/// # Errors
///
/// The fault of the first faulty word of the first faulty line.
#[tactic(auto, unfolding(crate::specs::Reading::certificate_at))]
pub fn read_certificate(
    alloc: Global,
    table: &Table,
    bytes: &[u8],
    from: usize,
) -> Result<(Certificate, usize), ProofFault>
    requires { from ≤ length bytes.now }
    ensures exact { Gives (λ x. (x.0, cursor_at bytes.now x.1)) proof_fault result
        (certificate_at table.now (cursor_at bytes.now from)) }
    ensures onward { IfOk result (λ x. from < x.1) }
    ensures within { IfOk result (λ x. x.1 ≤ length bytes.now) }
    ensures placed { IfErr result (IsProofFaultWithin (length bytes.now)) }
{
    let (line, place, numbers, next) = head_line(alloc, bytes, from)?;
    let (answer, next) = read_answer(alloc, table, bytes, next)?;
    let (others, next) = answers_at(alloc, table, numbers.len(), bytes, next)?;
    let reduct = Reduct {
        numbers: Items::from(numbers),
        answer,
        others: Items::from(others),
    };
    Ok((
        Certificate {
            line,
            place,
            reduct,
        },
        next,
    ))
}

/// The line that says which answer is meant, and the numbers; and where the next line begins.
#[tactic(auto, using(ror_proof::proofs::Places::placed_on), unfolding(crate::specs::Reading::head_words, ror_proof::specs::Reading::ended))]
fn head_line(
    alloc: Global,
    bytes: &[u8],
    from: usize,
) -> Result<(u32, u32, Vec<u32>, usize), ProofFault>
    requires { from ≤ length bytes.now }
    ensures exact { Gives (λ x. ((x.0, x.1, x.2.items), cursor_at bytes.now x.3)) proof_fault result
        (reading.head_line (cursor_at bytes.now from)) }
    ensures onward { IfOk result (λ x. from < x.3) }
    ensures within { IfOk result (λ x. x.3 ≤ length bytes.now) }
    ensures placed { IfErr result (IsProofFaultWithin (length bytes.now)) }
{
    let (line_words, next) = line_at(bytes, from);
    let words = after_word(from, b"reduct", Words::of(line_words))?;
    let (line, words) = small_number_at(from, words)?;
    let (place, words) = small_number_at(from, words)?;
    let numbers = numbers_at(alloc, from, words)?;
    let next = need(next, ProofFault::BadLine(from))?;
    Ok((line, place, numbers, next))
}

/// The small numbers up to the end of the line.
fn numbers_at(alloc: Global, place: usize, words: Words<'_>) -> Result<Vec<u32>, ProofFault>
    ensures exact { Gives (λ numbers. numbers.items) proof_fault result
        (reading.small_numbers_at place words.entry) }
    ensures placed { IfErr result (IsProofFaultWithin place) }
{
    let mut numbers = Vec::new(alloc);
    let mut left = words;
    'numbers: while let Some((word, rest)) = left.next() {
        let number = small_number_in(place, word)?;
        numbers.push(number)?;
        left = rest;
    }
    Ok(numbers)
}

/// So many answers, and where they end.
fn answers_at(
    alloc: Global,
    table: &Table,
    count: usize,
    bytes: &[u8],
    from: usize,
) -> Result<(Vec<Answer>, usize), ProofFault>
    requires { from ≤ length bytes.now }
    ensures exact { Gives (λ x. (x.0.items, cursor_at bytes.now x.1)) proof_fault result
        (reading.answers_at table.now count (cursor_at bytes.now from)) }
    ensures onward { IfOk result (λ x. from ≤ x.1) }
    ensures within { IfOk result (λ x. x.1 ≤ length bytes.now) }
    ensures placed { IfErr result (IsProofFaultWithin (length bytes.now)) }
{
    let mut answers = Vec::new(alloc);
    let mut next = from;
    'answers: for _ in 0..count {
        let (answer, after) = read_answer(alloc, table, bytes, next)?;
        answers.push(answer)?;
        next = after;
    }
    Ok((answers, next))
}
