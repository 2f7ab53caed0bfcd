//! The reader of a report's text, piece by piece.

ghost use Rattle.std.specs.Prelude.{◌≡◌, ◌≤◌, ◌<◌, ◌-◌, codes, drop, length, IfErr, IfOk, IfSome};
ghost use Rattle.ror_text.specs.Reading.{Gives};
ghost use Rattle.ror_text.specs.Cursor.{cursor_at};
ghost use Rattle.ror_proof.specs.Reading.{proof_fault, IsProofFaultWithin};
ghost use Rattle.ror_report.specs.Reading as reading;
ghost use Rattle.ror_report.specs.Reading.{block_at, end_at, header_at};

use crate::block::{Block, Body};
use crate::names::{BODY_FORMS, BodyForm, LINE_FAULTS, LineForm};
use crate::print::header;
use ror_proof::names::Name;
use ror_proof::words::{after_word, first_named, name_at, no_more, small_number_at};
use ror_proof::{Answer, BaseLine, ProofFault, read_answer_after, read_kept, read_wide};
use ror_table::Table;
use ror_text::Items;
use ror_text::reading::{need, refuse_if};
use ror_text::spaced::{Words, line_at};
use std::alloc::Global;

/// The place after a report's first line, or None where the bytes begin with another.
#[tactic(auto, unfolding(crate::specs::Text::header_text))]
pub fn read_header(bytes: &[u8]) -> Option<usize>
    ensures exact { result ≡ header_at bytes.now }
    ensures within { IfSome result (λ place. place ≤ length bytes.now) }
{
    if bytes.starts_with(header()) {
        Some(header().len())
    } else {
        None
    }
}

/// Reads the block whose text begins at a place, and says where it ends.
#[tactic(auto, unfolding(crate::specs::Reading::block_at))]
pub fn read_block(
    alloc: Global,
    table: &Table,
    bytes: &[u8],
    from: usize,
) -> Result<(Block, usize), ProofFault>
    requires { from ≤ length bytes.now }
    ensures exact { Gives (λ x. (x.0, cursor_at bytes.now x.1)) proof_fault result
        (block_at table.now (cursor_at bytes.now from)) }
    ensures onward { IfOk result (λ x. from < x.1) }
    ensures within { IfOk result (λ x. x.1 ≤ length bytes.now) }
    ensures placed { IfErr result (IsProofFaultWithin (length bytes.now)) }
{
    let (line, next) = numbered_line(b"line", bytes, from)?;
    let (body, next) = body_at(alloc, table, bytes, next)?;
    Ok((Block { line, body }, next))
}

/// The body that begins at a place, and where it ends.
#[tactic(auto, unfolding(crate::specs::Reading::body_at))]
fn body_at(
    alloc: Global,
    table: &Table,
    bytes: &[u8],
    from: usize,
) -> Result<(Body, usize), ProofFault>
    requires { from ≤ length bytes.now }
    ensures exact { Gives (λ x. (x.0, cursor_at bytes.now x.1)) proof_fault result
        (reading.body_at table.now (cursor_at bytes.now from)) }
    ensures onward { IfOk result (λ x. from ≤ x.1) }
    ensures within { IfOk result (λ x. x.1 ≤ length bytes.now) }
    ensures placed { IfErr result (IsProofFaultWithin (length bytes.now)) }
{
    match first_named(&BODY_FORMS, bytes, from) {
        Some(form) => formed_at(alloc, form, bytes, from),
        None => answers_at(alloc, table, bytes, from),
    }
}

/// A body of this form, at the end of whose lines it ends.
#[tactic(auto, unfolding(crate::specs::Reading::formed_at))]
fn formed_at(
    alloc: Global,
    form: BodyForm,
    bytes: &[u8],
    from: usize,
) -> Result<(Body, usize), ProofFault>
    requires { from ≤ length bytes.now }
    ensures exact { Gives (λ x. (x.0, cursor_at bytes.now x.1)) proof_fault result
        (reading.formed_at form (cursor_at bytes.now from)) }
    ensures onward { IfOk result (λ x. from ≤ x.1) }
    ensures within { IfOk result (λ x. x.1 ≤ length bytes.now) }
    ensures placed { IfErr result (IsProofFaultWithin (length bytes.now)) }
{
    let (body, next) = form_lines(alloc, form, bytes, from)?;
    refuse_if(!ends_body(bytes, next), ProofFault::BadLine(next))?;
    Ok((body, next))
}

/// The lines of a body of this form, and where the next line begins.
fn form_lines(
    alloc: Global,
    form: BodyForm,
    bytes: &[u8],
    from: usize,
) -> Result<(Body, usize), ProofFault>
    requires { from ≤ length bytes.now }
    ensures exact { Gives (λ x. (x.0, cursor_at bytes.now x.1)) proof_fault result
        (reading.form_lines form (cursor_at bytes.now from)) }
    ensures onward { IfOk result (λ x. from < x.1) }
    ensures within { IfOk result (λ x. x.1 ≤ length bytes.now) }
    ensures placed { IfErr result (IsProofFaultWithin (length bytes.now)) }
{
    match form {
        BodyForm::OneLine(form) => form_line(form, bytes, from),
        BodyForm::Repaired => repaired_lines(alloc, bytes, from),
        BodyForm::RepairWide => repair_wide_lines(alloc, bytes, from),
    }
}

/// The lines of a repair, and where the next line begins.
#[tactic(auto, unfolding(crate::specs::Reading::repaired_lines))]
fn repaired_lines(alloc: Global, bytes: &[u8], from: usize) -> Result<(Body, usize), ProofFault>
    requires { from ≤ length bytes.now }
    ensures exact { Gives (λ x. (x.0, cursor_at bytes.now x.1)) proof_fault result
        (reading.repaired_lines (cursor_at bytes.now from)) }
    ensures onward { IfOk result (λ x. from < x.1) }
    ensures within { IfOk result (λ x. x.1 ≤ length bytes.now) }
    ensures placed { IfErr result (IsProofFaultWithin (length bytes.now)) }
{
    let (kept, next) = read_kept(alloc, bytes, from)?;
    Ok((Body::Repaired(kept), next))
}

/// The line with the number of the statement at which a repair is too wide, the wide line of its base
/// system, and where the next line begins.
#[tactic(auto, unfolding(crate::specs::Reading::repair_wide_lines))]
fn repair_wide_lines(alloc: Global, bytes: &[u8], from: usize) -> Result<(Body, usize), ProofFault>
    requires { from ≤ length bytes.now }
    ensures exact { Gives (λ x. (x.0, cursor_at bytes.now x.1)) proof_fault result
        (reading.repair_wide_lines (cursor_at bytes.now from)) }
    ensures onward { IfOk result (λ x. from < x.1) }
    ensures within { IfOk result (λ x. x.1 ≤ length bytes.now) }
    ensures placed { IfErr result (IsProofFaultWithin (length bytes.now)) }
{
    let (number, next) = numbered_line(BodyForm::RepairWide.word(), bytes, from)?;
    let (note, next) = read_wide(alloc, 0, bytes, next)?;
    Ok((Body::RepairWide(number, note), next))
}

/// All answers up to the body's end.
#[tactic(auto, unfolding(crate::specs::Reading::answers_at))]
fn answers_at(
    alloc: Global,
    table: &Table,
    bytes: &[u8],
    from: usize,
) -> Result<(Body, usize), ProofFault>
    requires { from ≤ length bytes.now }
    ensures exact { Gives (λ x. (x.0, cursor_at bytes.now x.1)) proof_fault result
        (reading.answers_at table.now (cursor_at bytes.now from)) }
    ensures onward { IfOk result (λ x. from ≤ x.1) }
    ensures within { IfOk result (λ x. x.1 ≤ length bytes.now) }
    ensures placed { IfErr result (IsProofFaultWithin (length bytes.now)) }
{
    let (answers, next) = body_answers(alloc, table, bytes, from)?;
    Ok((Body::Answers(Items::from(answers)), next))
}

/// Reads the last line, from its first byte to the end of the bytes: the number of blocks that it
/// gives.
#[tactic(auto, unfolding(crate::specs::Reading::end_at))]
pub fn read_end(bytes: &[u8], from: usize) -> Result<u32, ProofFault>
    requires { from ≤ length bytes.now }
    ensures exact { Gives (λ n. n) proof_fault result (end_at (cursor_at bytes.now from)) }
    ensures placed { IfErr result (IsProofFaultWithin (length bytes.now)) }
{
    let (blocks, next) = numbered_line(b"end", bytes, from)?;
    refuse_if(next < bytes.len(), ProofFault::BadLine(next))?;
    Ok(blocks)
}

/// Whether the last line begins at a place, by its first word and a space.
pub fn begins_end(bytes: &[u8], from: usize) -> bool
    requires { from ≤ length bytes.now }
    ensures { result ≡ reading.begins_end (drop from bytes.now) }
{
    bytes[from..].starts_with(b"end ")
}

/// Whether a body ends at a place.
fn ends_body(bytes: &[u8], from: usize) -> bool
    requires { from ≤ length bytes.now }
    ensures { result ≡ reading.ends_body (drop from bytes.now) }
{
    let rest = &bytes[from..];
    rest.is_empty() || rest.starts_with(b"line ") || rest.starts_with(b"end ")
}

/// The answers of a body, and where it ends.
fn body_answers(
    alloc: Global,
    table: &Table,
    bytes: &[u8],
    from: usize,
) -> Result<(Vec<Answer>, usize), ProofFault>
    requires { from ≤ length bytes.now }
    ensures exact { Gives (λ x. (x.0.items, cursor_at bytes.now x.1)) proof_fault result
        (reading.body_answers table.now (length bytes.now - from) (cursor_at bytes.now from)) }
    ensures onward { IfOk result (λ x. from ≤ x.1) }
    ensures within { IfOk result (λ x. x.1 ≤ length bytes.now) }
    ensures placed { IfErr result (IsProofFaultWithin (length bytes.now)) }
{
    let mut answers = Vec::new(alloc);
    let mut line = BaseLine { from, next: from };
    let mut next = from;
    'answers: while !ends_body(bytes, next) {
        let last = answers.as_slice().last();
        let (answer, base, after) = read_answer_after(alloc, table, last, line, bytes, next)?;
        answers.push(answer)?;
        line = base;
        next = after;
    }
    Ok((answers, next))
}

/// The number of a line of a name and a number, and where the next line begins.
#[tactic(auto, using(ror_proof::proofs::Places::placed_on), unfolding(crate::specs::Reading::number_words, ror_proof::specs::Reading::ended))]
pub fn numbered_line(name: &[u8], bytes: &[u8], from: usize) -> Result<(u32, usize), ProofFault>
    requires { from ≤ length bytes.now }
    ensures exact { Gives (λ x. (x.0, cursor_at bytes.now x.1)) proof_fault result
        (reading.numbered_line name.now (cursor_at bytes.now from)) }
    ensures onward { IfOk result (λ x. from < x.1) }
    ensures within { IfOk result (λ x. x.1 ≤ length bytes.now) }
    ensures placed { IfErr result (IsProofFaultWithin (length bytes.now)) }
{
    let (line, next) = line_at(bytes, from);
    let words = after_word(from, name, Words::of(line))?;
    let (number, words) = small_number_at(from, words)?;
    no_more(from, words)?;
    let next = need(next, ProofFault::BadLine(from))?;
    Ok((number, next))
}

/// The body of one line of this form, and where the next line begins.
#[tactic(auto, using(ror_proof::proofs::Places::placed_on), unfolding(crate::specs::Reading::form_words, ror_proof::specs::Reading::ended))]
fn form_line(form: LineForm, bytes: &[u8], from: usize) -> Result<(Body, usize), ProofFault>
    requires { from ≤ length bytes.now }
    ensures exact { Gives (λ x. (x.0, cursor_at bytes.now x.1)) proof_fault result
        (reading.form_line form (cursor_at bytes.now from)) }
    ensures onward { IfOk result (λ x. from < x.1) }
    ensures within { IfOk result (λ x. x.1 ≤ length bytes.now) }
    ensures placed { IfErr result (IsProofFaultWithin (length bytes.now)) }
{
    let (line, next) = line_at(bytes, from);
    let words = after_word(from, form.word(), Words::of(line))?;
    let (body, words) = operand_at(form, from, words)?;
    no_more(from, words)?;
    let next = need(next, ProofFault::BadLine(from))?;
    Ok((body, next))
}

/// The body of this form by the words that follow its first one.
fn operand_at<'a>(
    form: LineForm,
    place: usize,
    words: Words<'a>,
) -> Result<(Body, Words<'a>), ProofFault>
    ensures exact { Gives (λ x. (x.0, x.1)) proof_fault result
        (reading.operand_at form place words.entry) }
    ensures placed { IfErr result (IsProofFaultWithin place) }
{
    match form {
        LineForm::Added => {
            let (number, words) = small_number_at(place, words)?;
            Ok((Body::Added(number), words))
        }
        LineForm::Withdrawn => {
            let (number, words) = small_number_at(place, words)?;
            Ok((Body::Withdrawn(number), words))
        }
        LineForm::Replaced => {
            let (number, words) = small_number_at(place, words)?;
            Ok((Body::Replaced(number), words))
        }
        LineForm::Undone => Ok((Body::Undone, words)),
        LineForm::Refused => {
            let (fault, words) = name_at(&LINE_FAULTS, place, words)?;
            Ok((Body::Refused(fault), words))
        }
    }
}
