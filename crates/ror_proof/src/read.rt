//! The readers of an answer's text and of a repair's.

ghost use Rattle.std.specs.Prelude.{◌≤◌, ◌<◌, ◌≡◌, ◌-◌, ◌^◌, length, IfErr, IfOk, IfSome};
ghost use Rattle.ror_text.specs.Reading.{Gives};
ghost use Rattle.ror_text.specs.Cursor.{cursor_at};
ghost use Rattle.ror_proof.specs.Text.{IsNarrowKept, IsNarrowVerdict};
ghost use Rattle.ror_proof.specs.Reading as reading;
ghost use Rattle.ror_proof.specs.Reading.{answer_at, base_of, kept_at, wide_line_of, proof_fault, IsBaseLine, IsProofFaultWithin};

use crate::answer::{Answer, Certificate, Part, Proof, Verdict, WideText};
use crate::base::{BaseLine, base_at, base_line};
use crate::kept::{Dropped, Kept};
use crate::names::{VERDICT_NAMES, VerdictName};
use crate::questions::question_at;
use crate::words::{
    after_word, multipliers_at, name_at, no_more, numbers_at, pivots_at, place_at, refutation_at,
    small_number_at, the_number_at,
};
use ror_statement::Question;
use ror_system::Solution;
use ror_table::Table;
use ror_text::Items;
use ror_text::reading::{need, refuse_if};
use ror_text::spaced::{Words, line_at};
use std::alloc::{AllocError, AllocFailed, Global};
use thiserror::Error;

/// Why no answer, repair or block of a report was read; the place is the first byte of the faulty line.
#[derive(Debug, Drop, Error)]
pub enum ProofFault {
    /// A wrong, empty, missing or extra word, an id that the table lacks, no line feed, or a part after a verdict that has
    /// none.
    #[error("bad line at byte {0}")]
    BadLine(usize),
    /// A word in a number's place that is no such number.
    #[error("bad number in the line at byte {0}")]
    BadNumber(usize),
    #[error("out of memory")]
    Memory,
}

impl From<AllocError> for ProofFault {
    ghost use Rattle.std.specs.Prelude.{◌≡◌};
    ghost use Rattle.ror_proof.specs.declared.read.ProofFault.TheVariants.{Memory};

    ghost from_gives = { λ _ e. e ≡ Memory };

    fn from(_error: AllocError) -> ProofFault {
        ProofFault::Memory
    }
}

impl<T: Drop> From<AllocFailed<T>> for ProofFault {
    ghost use Rattle.std.specs.Prelude.{◌≡◌};
    ghost use Rattle.ror_proof.specs.declared.read.ProofFault.TheVariants.{Memory};

    ghost from_gives = { λ _ e. e ≡ Memory };

    fn from(_error: AllocFailed<T>) -> ProofFault {
        ProofFault::Memory
    }
}

/// Reads the answer whose text begins at a place, and says where it ends.
pub fn read_answer(
    alloc: Global,
    table: &Table,
    bytes: &[u8],
    from: usize,
) -> Result<(Answer, usize), ProofFault>
    requires { from ≤ length bytes.now }
    ensures exact { Gives (λ x. (x.0, cursor_at bytes.now x.1)) proof_fault result
        (answer_at table.now (cursor_at bytes.now from)) }
    ensures onward { IfOk result (λ x. from < x.1) }
    ensures within { IfOk result (λ x. x.1 ≤ length bytes.now) }
    ensures placed { IfErr result (IsProofFaultWithin (length bytes.now)) }
    ensures narrow { IfOk result (λ x. IsNarrowVerdict x.0.verdict) }
{
    let line = BaseLine { from, next: from };
    let (answer, _, next) = read_answer_after(alloc, table, None, line, bytes, from)?;
    Ok((answer, next))
}

/// Reads the answer whose text begins at a place, and says where the line of its base stands, and
/// where the answer ends. Where its base has the same line as that of the last answer, that base is
/// copied, and its numbers are not read again.
#[tactic(auto, unfolding(crate::specs::Reading::answer_at))]
pub fn read_answer_after(
    alloc: Global,
    table: &Table,
    last: Option<&Answer>,
    line: BaseLine,
    bytes: &[u8],
    from: usize,
) -> Result<(Answer, BaseLine, usize), ProofFault>
    requires place { from ≤ length bytes.now }
    requires last { IfSome last (λ answer.
        IfSome (base_of answer.now.verdict) (IsBaseLine bytes.now line)) }
    ensures exact { Gives (λ x. (x.0, cursor_at bytes.now x.2)) proof_fault result
        (answer_at table.now (cursor_at bytes.now from)) }
    ensures based { IfOk result (λ x.
        IfSome (base_of x.0.verdict) (IsBaseLine bytes.now x.1)) }
    ensures onward { IfOk result (λ x. from < x.2) }
    ensures within { IfOk result (λ x. x.2 ≤ length bytes.now) }
    ensures placed { IfErr result (IsProofFaultWithin (length bytes.now)) }
    ensures narrow { IfOk result (λ x. IsNarrowVerdict x.0.verdict) }
{
    let (question, name, next) = answer_line(table, bytes, from)?;
    let (verdict, line, next) = verdict_at(alloc, name, last, line, bytes, next)?;
    Ok((Answer { question, verdict }, line, next))
}

/// What follows the line of the question, where its last word is this verdict's.
fn verdict_at(
    alloc: Global,
    name: VerdictName,
    last: Option<&Answer>,
    line: BaseLine,
    bytes: &[u8],
    from: usize,
) -> Result<(Verdict, BaseLine, usize), ProofFault>
    requires place { from ≤ length bytes.now }
    requires last { IfSome last (λ answer.
        IfSome (base_of answer.now.verdict) (IsBaseLine bytes.now line)) }
    ensures exact { Gives (λ x. (x.0, cursor_at bytes.now x.2)) proof_fault result
        (reading.verdict_at name (cursor_at bytes.now from)) }
    ensures based { IfOk result (λ x. IfSome (base_of x.0) (IsBaseLine bytes.now x.1)) }
    ensures onward { IfOk result (λ x. from < x.2) }
    ensures within { IfOk result (λ x. x.2 ≤ length bytes.now) }
    ensures placed { IfErr result (IsProofFaultWithin (length bytes.now)) }
{
    if let VerdictName::Wide = name {
        let (verdict, next) = wide_at(alloc, bytes, from)?;
        return Ok((verdict, line, next));
    }
    let (proof, line, next) = proof_at(alloc, last, line, bytes, from)?;
    let verdict = match name {
        VerdictName::Yes => Verdict::Yes(proof),
        VerdictName::No => Verdict::No(proof),
        _ => Verdict::Contradiction(proof),
    };
    Ok((verdict, line, next))
}

/// The base and all parts, where the line of the base stands, and where the next line begins.
#[tactic(auto, unfolding(crate::specs::Reading::proof_at))]
fn proof_at(
    alloc: Global,
    last: Option<&Answer>,
    line: BaseLine,
    bytes: &[u8],
    from: usize,
) -> Result<(Proof, BaseLine, usize), ProofFault>
    requires place { from ≤ length bytes.now }
    requires last { IfSome last (λ answer.
        IfSome (base_of answer.now.verdict) (IsBaseLine bytes.now line)) }
    ensures exact { Gives (λ x. (x.0, cursor_at bytes.now x.2)) proof_fault result
        (reading.proof_at (cursor_at bytes.now from)) }
    ensures based { IfOk result (λ x. IsBaseLine bytes.now x.1 x.0.base) }
    ensures onward { IfOk result (λ x. from < x.2) }
    ensures within { IfOk result (λ x. x.2 ≤ length bytes.now) }
    ensures placed { IfErr result (IsProofFaultWithin (length bytes.now)) }
{
    let (base, next) = base_at(alloc, last, line, bytes, from)?;
    let line = BaseLine { from, next };
    let (parts, next) = part_lines(alloc, bytes, next)?;
    let parts = Items::from(parts);
    Ok((Proof { base, parts }, line, next))
}

/// A number too wide, and where the next line begins; no part may follow.
#[tactic(auto, unfolding(crate::specs::Reading::wide_at))]
fn wide_at(alloc: Global, bytes: &[u8], from: usize) -> Result<(Verdict, usize), ProofFault>
    requires { from ≤ length bytes.now }
    ensures exact { Gives (λ x. (x.0, cursor_at bytes.now x.1)) proof_fault result
        (reading.wide_at (cursor_at bytes.now from)) }
    ensures baseless { IfOk result (λ x. base_of x.0 ≡ None) }
    ensures onward { IfOk result (λ x. from < x.1) }
    ensures within { IfOk result (λ x. x.1 ≤ length bytes.now) }
    ensures placed { IfErr result (IsProofFaultWithin (length bytes.now)) }
{
    let (system, note, next) = wide_line(alloc, bytes, from)?;
    refuse_if(begins_part(bytes, next), ProofFault::BadLine(next))?;
    Ok((Verdict::Wide { system, note }, next))
}

/// Whether the line of a part begins at a place.
fn begins_part(bytes: &[u8], from: usize) -> bool
    requires { from ≤ length bytes.now }
    ensures { result ≡ reading.begins_part (cursor_at bytes.now from).rest }
{
    bytes[from..].starts_with(b"part ")
}

/// The line of the question and the verdict, and where the next line begins.
#[tactic(auto, using(crate::proofs::Places::placed_on), unfolding(crate::specs::Reading::answer_words, crate::specs::Reading::ended))]
fn answer_line(
    table: &Table,
    bytes: &[u8],
    from: usize,
) -> Result<(Question, VerdictName, usize), ProofFault>
    requires { from ≤ length bytes.now }
    ensures exact { Gives (λ x. ((x.0, x.1), cursor_at bytes.now x.2)) proof_fault result
        (reading.answer_line table.now (cursor_at bytes.now from)) }
    ensures onward { IfOk result (λ x. from < x.2) }
    ensures within { IfOk result (λ x. x.2 ≤ length bytes.now) }
    ensures placed { IfErr result (IsProofFaultWithin (length bytes.now)) }
{
    let (line, next) = line_at(bytes, from);
    let words = after_word(from, b"answer", Words::of(line))?;
    let (question, words) = question_at(table, from, words)?;
    let (verdict, words) = name_at(&VERDICT_NAMES, from, words)?;
    no_more(from, words)?;
    let next = need(next, ProofFault::BadLine(from))?;
    Ok((question, verdict, next))
}

/// A line for each part, as long as one begins.
fn part_lines(alloc: Global, bytes: &[u8], from: usize) -> Result<(Vec<Part>, usize), ProofFault>
    requires { from ≤ length bytes.now }
    ensures exact { Gives (λ x. (x.0.items, cursor_at bytes.now x.1)) proof_fault result
        (reading.part_lines (length bytes.now - from) (cursor_at bytes.now from)) }
    ensures onward { IfOk result (λ x. from ≤ x.1) }
    ensures within { IfOk result (λ x. x.1 ≤ length bytes.now) }
    ensures placed { IfErr result (IsProofFaultWithin (length bytes.now)) }
{
    let mut parts = Vec::new(alloc);
    let mut next = from;
    'parts: while begins_part(bytes, next) {
        let (part, after) = part_line(alloc, bytes, next)?;
        parts.push(part)?;
        next = after;
    }
    Ok((parts, next))
}

/// The line of one part, and where the next line begins.
#[tactic(auto, using(crate::proofs::Places::placed_on), unfolding(crate::specs::Reading::part_words, crate::specs::Reading::ended))]
fn part_line(alloc: Global, bytes: &[u8], from: usize) -> Result<(Part, usize), ProofFault>
    requires { from ≤ length bytes.now }
    ensures exact { Gives (λ x. (x.0, cursor_at bytes.now x.1)) proof_fault result
        (reading.part_line (cursor_at bytes.now from)) }
    ensures onward { IfOk result (λ x. from < x.1) }
    ensures within { IfOk result (λ x. x.1 ≤ length bytes.now) }
    ensures placed { IfErr result (IsProofFaultWithin (length bytes.now)) }
{
    let (line, next) = line_at(bytes, from);
    let words = after_word(from, b"part", Words::of(line))?;
    let (at, words) = small_number_at(from, words)?;
    let body = certificate_at(alloc, from, words)?;
    let next = need(next, ProofFault::BadLine(from))?;
    Ok((Part { at, body }, next))
}

/// The line of a number too wide, and where the next line begins.
#[tactic(auto, using(crate::proofs::Places::placed_on), unfolding(crate::specs::Reading::wide_words, crate::specs::Reading::ended))]
fn wide_line(alloc: Global, bytes: &[u8], from: usize) -> Result<(u32, WideText, usize), ProofFault>
    requires { from ≤ length bytes.now }
    ensures exact { Gives (λ x. ((x.0, x.1), cursor_at bytes.now x.2)) proof_fault result
        (reading.wide_line (cursor_at bytes.now from)) }
    ensures onward { IfOk result (λ x. from < x.2) }
    ensures within { IfOk result (λ x. x.2 ≤ length bytes.now) }
    ensures placed { IfErr result (IsProofFaultWithin (length bytes.now)) }
{
    let (line, next) = line_at(bytes, from);
    let words = after_word(from, b"wide", Words::of(line))?;
    let (system, words) = small_number_at(from, words)?;
    let note = note_at(alloc, from, words)?;
    let next = need(next, ProofFault::BadLine(from))?;
    Ok((system, note, next))
}

/// Reads the line that begins at a place: of a number too wide on the way to the certificate of this
/// system, for which another system there is a bad number. Says where the next line begins.
#[tactic(auto, using(crate::proofs::Places::placed_on), unfolding(crate::specs::Reading::wide_words_of, crate::specs::Reading::ended))]
pub fn read_wide(
    alloc: Global,
    system: u32,
    bytes: &[u8],
    from: usize,
) -> Result<(WideText, usize), ProofFault>
    requires { from ≤ length bytes.now }
    ensures exact { Gives (λ x. (x.0, cursor_at bytes.now x.1)) proof_fault result
        (wide_line_of system (cursor_at bytes.now from)) }
    ensures onward { IfOk result (λ x. from < x.1) }
    ensures within { IfOk result (λ x. x.1 ≤ length bytes.now) }
    ensures placed { IfErr result (IsProofFaultWithin (length bytes.now)) }
{
    let (line, next) = line_at(bytes, from);
    let words = after_word(from, b"wide", Words::of(line))?;
    let words = the_number_at(from, system, words)?;
    let note = note_at(alloc, from, words)?;
    let next = need(next, ProofFault::BadLine(from))?;
    Ok((note, next))
}

/// Reads the repair whose text begins at a place, and says where it ends.
#[tactic(auto, unfolding(crate::specs::Reading::kept_at))]
pub fn read_kept(alloc: Global, bytes: &[u8], from: usize) -> Result<(Kept, usize), ProofFault>
    requires { from ≤ length bytes.now }
    ensures exact { Gives (λ x. (x.0, cursor_at bytes.now x.1)) proof_fault result
        (kept_at (cursor_at bytes.now from)) }
    ensures onward { IfOk result (λ x. from < x.1) }
    ensures within { IfOk result (λ x. x.1 ≤ length bytes.now) }
    ensures placed { IfErr result (IsProofFaultWithin (length bytes.now)) }
    ensures few { IfOk result (λ x. length x.0.dropped < 2 ^ 32) }
    ensures narrow { IfOk result (λ x. IsNarrowKept x.0) }
{
    let (count, next) = repaired_line(bytes, from)?;
    let (dropped, next) = dropped_lines(alloc, count, bytes, next)?;
    let (base, next) = base_line(alloc, bytes, next)?;
    let dropped = Items::from(dropped);
    Ok((Kept { dropped, base }, next))
}

/// The line of the number of dropped statements, and where the next line begins.
#[tactic(auto, using(crate::proofs::Places::placed_on), unfolding(crate::specs::Reading::repaired_words, crate::specs::Reading::ended))]
fn repaired_line(bytes: &[u8], from: usize) -> Result<(u32, usize), ProofFault>
    requires { from ≤ length bytes.now }
    ensures exact { Gives (λ x. (x.0, cursor_at bytes.now x.1)) proof_fault result
        (reading.repaired_line (cursor_at bytes.now from)) }
    ensures onward { IfOk result (λ x. from < x.1) }
    ensures within { IfOk result (λ x. x.1 ≤ length bytes.now) }
    ensures placed { IfErr result (IsProofFaultWithin (length bytes.now)) }
{
    let (line, next) = line_at(bytes, from);
    let words = after_word(from, b"repaired", Words::of(line))?;
    let (count, words) = small_number_at(from, words)?;
    no_more(from, words)?;
    let next = need(next, ProofFault::BadLine(from))?;
    Ok((count, next))
}

/// So many lines of dropped statements, and where the next line begins.
fn dropped_lines(
    alloc: Global,
    count: u32,
    bytes: &[u8],
    from: usize,
) -> Result<(Vec<Dropped>, usize), ProofFault>
    requires { from ≤ length bytes.now }
    ensures exact { Gives (λ x. (x.0.items, cursor_at bytes.now x.1)) proof_fault result
        (reading.dropped_lines count (cursor_at bytes.now from)) }
    ensures onward { IfOk result (λ x. from ≤ x.1) }
    ensures within { IfOk result (λ x. x.1 ≤ length bytes.now) }
    ensures placed { IfErr result (IsProofFaultWithin (length bytes.now)) }
{
    let mut dropped = Vec::new(alloc);
    let mut next = from;
    'dropped: for _ in 0..count {
        let (statement, after) = dropped_line(alloc, bytes, next)?;
        dropped.push(statement)?;
        next = after;
    }
    Ok((dropped, next))
}

/// The line of one dropped statement, and where the next line begins.
#[tactic(auto, using(crate::proofs::Places::placed_on), unfolding(crate::specs::Reading::dropped_words, crate::specs::Reading::ended))]
fn dropped_line(alloc: Global, bytes: &[u8], from: usize) -> Result<(Dropped, usize), ProofFault>
    requires { from ≤ length bytes.now }
    ensures exact { Gives (λ x. (x.0, cursor_at bytes.now x.1)) proof_fault result
        (reading.dropped_line (cursor_at bytes.now from)) }
    ensures onward { IfOk result (λ x. from < x.1) }
    ensures within { IfOk result (λ x. x.1 ≤ length bytes.now) }
    ensures placed { IfErr result (IsProofFaultWithin (length bytes.now)) }
{
    let (line, next) = line_at(bytes, from);
    let words = after_word(from, b"dropped", Words::of(line))?;
    let (number, words) = small_number_at(from, words)?;
    let proof = refutation_at(alloc, from, words)?;
    let next = need(next, ProofFault::BadLine(from))?;
    Ok((Dropped { number, proof }, next))
}

/// A certificate, up to the end of its line.
#[tactic(auto, unfolding(crate::specs::Reading::certificate_at))]
pub(crate) fn certificate_at(
    alloc: Global,
    place: usize,
    words: Words<'_>,
) -> Result<Certificate, ProofFault>
    ensures exact { Gives (λ x. x) proof_fault result (reading.certificate_at place words.entry) }
    ensures placed { IfErr result (IsProofFaultWithin place) }
{
    match words.next() {
        Some((word, rest)) if word == b"solution".as_slice() => solution_at(alloc, place, rest),
        Some((word, rest)) if word == b"multipliers".as_slice() => {
            let multipliers = multipliers_at(alloc, place, rest)?;
            Ok(Certificate::Multipliers(multipliers))
        }
        _ => Err(ProofFault::BadLine(place)),
    }
}

/// The numbers of a solution.
#[tactic(auto, unfolding(crate::specs::Reading::solution_at))]
fn solution_at(alloc: Global, place: usize, words: Words<'_>) -> Result<Certificate, ProofFault>
    ensures exact { Gives (λ x. x) proof_fault result (reading.solution_at place words.entry) }
    ensures placed { IfErr result (IsProofFaultWithin place) }
{
    let steps = numbers_at(alloc, place, words)?;
    Ok(Certificate::Solution(Solution { steps }))
}

/// A place, `path` and pivots, up to the end of the line.
#[tactic(auto, unfolding(crate::specs::Reading::note_at))]
fn note_at(alloc: Global, place: usize, words: Words<'_>) -> Result<WideText, ProofFault>
    ensures exact { Gives (λ x. x) proof_fault result (reading.note_at place words.entry) }
    ensures placed { IfErr result (IsProofFaultWithin place) }
{
    let (number, words) = place_at(place, words)?;
    let words = after_word(place, b"path", words)?;
    let path = Items::from(pivots_at(alloc, place, words)?);
    Ok(WideText {
        path,
        place: number,
    })
}
