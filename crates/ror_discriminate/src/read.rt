//! The reader of an entry's text.

ghost use Rattle.std.specs.Prelude.{◌≤◌, ◌<◌, length, IfErr, IfOk};
ghost use Rattle.ror_text.specs.Reading.{Gives};
ghost use Rattle.ror_text.specs.Cursor.{cursor_at, line_words};
ghost use Rattle.ror_proof.specs.Reading.{ended, proof_fault, IsProofFaultWithin};
ghost use Rattle.ror_discriminate.specs.Reading as reading;
ghost use Rattle.ror_discriminate.specs.Reading.{entry_at};
ghost use Rattle.ror_discriminate.specs.Text.{IsPrintableEntry};

use crate::entry::{Entry, EntryBody};
use crate::names::{BODY_FORMS, BodyForm, PATH_NAMES};
use crate::notes::note_of;
use crate::words::number_at;
use ror_pivot::Optimum;
use ror_proof::ProofFault;
use ror_proof::words::{after_word, first_named, name_at, no_more, numbers_at, refutation_at};
use ror_report::desk::desk_line;
use ror_system::{Multipliers, Solution};
use ror_table::Table;
use ror_text::Text;
use ror_text::reading::need;
use ror_text::spaced::{Words, line_at};
use std::alloc::Global;

/// Reads the entry whose text begins at a place, and says where it ends: after its body, whatever follows. No word of it is of
/// the table.
///
/// # Errors
///
/// The fault of the first faulty word of the first faulty line.
#[tactic(auto, unfolding(crate::specs::Reading::entry_at))]
pub fn read_entry(
    alloc: Global,
    _table: &Table,
    bytes: &[u8],
    from: usize,
) -> Result<(Entry, usize), ProofFault>
    requires { from ≤ length bytes.now }
    ensures exact { Gives (λ x. (x.0, cursor_at bytes.now x.1)) proof_fault result
        (entry_at (cursor_at bytes.now from)) }
    ensures printable { IfOk result (λ x. IsPrintableEntry x.0) }
    ensures onward { IfOk result (λ x. from < x.1) }
    ensures within { IfOk result (λ x. x.1 ≤ length bytes.now) }
    ensures placed { IfErr result (IsProofFaultWithin (length bytes.now)) }
{
    let (name, next) = desk_line(bytes, from)?;
    let desk = Text::copied(alloc, name)?;
    let (body, next) = body_at(alloc, bytes, next)?;
    Ok((Entry { desk, body }, next))
}

/// The body that begins at a place, and where it ends.
#[tactic(auto, unfolding(crate::specs::Reading::body_at))]
fn body_at(alloc: Global, bytes: &[u8], from: usize) -> Result<(EntryBody, usize), ProofFault>
    requires { from ≤ length bytes.now }
    ensures exact { Gives (λ x. (x.0, cursor_at bytes.now x.1)) proof_fault result
        (reading.body_at (cursor_at bytes.now from)) }
    ensures onward { IfOk result (λ x. from < x.1) }
    ensures within { IfOk result (λ x. x.1 ≤ length bytes.now) }
    ensures placed { IfErr result (IsProofFaultWithin (length bytes.now)) }
{
    match first_named(&BODY_FORMS, bytes, from) {
        Some(BodyForm::Best) => best_at(alloc, bytes, from),
        Some(BodyForm::NoStrictRow) => none_line(bytes, from),
        Some(BodyForm::Contradiction) => contradiction_line(alloc, bytes, from),
        Some(BodyForm::Wide) => wide_line(alloc, bytes, from),
        None => Err(ProofFault::BadLine(from)),
    }
}

/// The lines of a margin, of a solution and of multipliers, and where the next line begins.
#[tactic(auto, unfolding(crate::specs::Reading::best_at))]
fn best_at(alloc: Global, bytes: &[u8], from: usize) -> Result<(EntryBody, usize), ProofFault>
    requires { from ≤ length bytes.now }
    ensures exact { Gives (λ x. (x.0, cursor_at bytes.now x.1)) proof_fault result
        (reading.best_at (cursor_at bytes.now from)) }
    ensures onward { IfOk result (λ x. from < x.1) }
    ensures within { IfOk result (λ x. x.1 ≤ length bytes.now) }
    ensures placed { IfErr result (IsProofFaultWithin (length bytes.now)) }
{
    let (margin, total, next) = margin_line(bytes, from)?;
    let (solution, next) = solution_line(alloc, bytes, next)?;
    let (multipliers, next) = multipliers_line(alloc, bytes, next)?;
    let optimum = Optimum {
        solution,
        multipliers,
    };
    let best = EntryBody::Best {
        margin,
        total,
        optimum,
    };
    Ok((best, next))
}

/// The margin and the total in the line at a place, and where the next line begins.
#[tactic(auto, using(ror_proof::proofs::Places::placed_on), unfolding(crate::specs::Reading::margin_words, ror_proof::specs::Reading::ended))]
fn margin_line(bytes: &[u8], from: usize) -> Result<(i128, i128, usize), ProofFault>
    requires { from ≤ length bytes.now }
    ensures exact { Gives (λ x. ((x.0, x.1), cursor_at bytes.now x.2)) proof_fault result
        (reading.margin_line (cursor_at bytes.now from)) }
    ensures onward { IfOk result (λ x. from < x.2) }
    ensures within { IfOk result (λ x. x.2 ≤ length bytes.now) }
    ensures placed { IfErr result (IsProofFaultWithin (length bytes.now)) }
{
    let (line, next) = line_at(bytes, from);
    let words = after_word(from, b"margin", Words::of(line))?;
    let (margin, words) = number_at(from, words)?;
    let (total, words) = number_at(from, words)?;
    no_more(from, words)?;
    let next = need(next, ProofFault::BadLine(from))?;
    Ok((margin, total, next))
}

/// The solution in the line at a place, and where the next line begins.
#[tactic(auto, using(ror_proof::proofs::Places::placed_on), unfolding(crate::specs::Reading::solution_line_words, ror_proof::specs::Reading::ended))]
pub fn solution_line(
    alloc: Global,
    bytes: &[u8],
    from: usize,
) -> Result<(Solution, usize), ProofFault>
    requires { from ≤ length bytes.now }
    ensures exact { Gives (λ x. (x.0, cursor_at bytes.now x.1)) proof_fault result
        (reading.solution_line (cursor_at bytes.now from)) }
    ensures onward { IfOk result (λ x. from < x.1) }
    ensures within { IfOk result (λ x. x.1 ≤ length bytes.now) }
    ensures placed { IfErr result (IsProofFaultWithin (length bytes.now)) }
{
    let (line, next) = line_at(bytes, from);
    let words = after_word(from, b"solution", Words::of(line))?;
    let steps = numbers_at(alloc, from, words)?;
    let next = need(next, ProofFault::BadLine(from))?;
    Ok((Solution { steps }, next))
}

/// The multipliers in the line at a place, and where the next line begins.
#[tactic(auto, using(ror_proof::proofs::Places::placed_on), unfolding(ror_proof::specs::Reading::ended))]
pub fn multipliers_line(
    alloc: Global,
    bytes: &[u8],
    from: usize,
) -> Result<(Multipliers, usize), ProofFault>
    requires { from ≤ length bytes.now }
    ensures exact { Gives (λ x. (x.0, cursor_at bytes.now x.1)) proof_fault result
        (reading.multipliers_line (cursor_at bytes.now from)) }
    ensures onward { IfOk result (λ x. from < x.1) }
    ensures within { IfOk result (λ x. x.1 ≤ length bytes.now) }
    ensures placed { IfErr result (IsProofFaultWithin (length bytes.now)) }
{
    let (line, next) = line_at(bytes, from);
    let multipliers = refutation_at(alloc, from, Words::of(line))?;
    let next = need(next, ProofFault::BadLine(from))?;
    Ok((multipliers, next))
}

/// The line `none`, and where the next line begins.
#[tactic(auto, using(ror_proof::proofs::Places::placed_on), unfolding(crate::specs::Reading::none_words, ror_proof::specs::Reading::ended))]
fn none_line(bytes: &[u8], from: usize) -> Result<(EntryBody, usize), ProofFault>
    requires { from ≤ length bytes.now }
    ensures exact { Gives (λ x. (x.0, cursor_at bytes.now x.1)) proof_fault result
        (ended (cursor_at bytes.now from) (reading.none_words from (line_words (cursor_at bytes.now from)))) }
    ensures onward { IfOk result (λ x. from < x.1) }
    ensures within { IfOk result (λ x. x.1 ≤ length bytes.now) }
    ensures placed { IfErr result (IsProofFaultWithin (length bytes.now)) }
{
    let (line, next) = line_at(bytes, from);
    let words = after_word(from, b"none", Words::of(line))?;
    no_more(from, words)?;
    let next = need(next, ProofFault::BadLine(from))?;
    Ok((EntryBody::NoStrictRow, next))
}

/// The line of multipliers that refute the statements, and where the next line begins.
#[tactic(auto, using(ror_proof::proofs::Places::placed_on), unfolding(crate::specs::Reading::contradiction_words, ror_proof::specs::Reading::ended))]
fn contradiction_line(
    alloc: Global,
    bytes: &[u8],
    from: usize,
) -> Result<(EntryBody, usize), ProofFault>
    requires { from ≤ length bytes.now }
    ensures exact { Gives (λ x. (x.0, cursor_at bytes.now x.1)) proof_fault result
        (ended (cursor_at bytes.now from) (reading.contradiction_words from (line_words (cursor_at bytes.now from)))) }
    ensures onward { IfOk result (λ x. from < x.1) }
    ensures within { IfOk result (λ x. x.1 ≤ length bytes.now) }
    ensures placed { IfErr result (IsProofFaultWithin (length bytes.now)) }
{
    let (line, next) = line_at(bytes, from);
    let words = after_word(from, b"contradiction", Words::of(line))?;
    let multipliers = refutation_at(alloc, from, words)?;
    let next = need(next, ProofFault::BadLine(from))?;
    Ok((EntryBody::Contradiction(multipliers), next))
}

/// The line of a number that is too wide, and where the next line begins.
#[tactic(auto, using(ror_proof::proofs::Places::placed_on), unfolding(crate::specs::Reading::wide_words, ror_proof::specs::Reading::ended))]
fn wide_line(alloc: Global, bytes: &[u8], from: usize) -> Result<(EntryBody, usize), ProofFault>
    requires { from ≤ length bytes.now }
    ensures exact { Gives (λ x. (x.0, cursor_at bytes.now x.1)) proof_fault result
        (ended (cursor_at bytes.now from) (reading.wide_words from (line_words (cursor_at bytes.now from)))) }
    ensures onward { IfOk result (λ x. from < x.1) }
    ensures within { IfOk result (λ x. x.1 ≤ length bytes.now) }
    ensures placed { IfErr result (IsProofFaultWithin (length bytes.now)) }
{
    let (line, next) = line_at(bytes, from);
    let words = after_word(from, b"wide", Words::of(line))?;
    let (path, words) = name_at(&PATH_NAMES, from, words)?;
    let body = note_of(alloc, path, from, words)?;
    let next = need(next, ProofFault::BadLine(from))?;
    Ok((body, next))
}
