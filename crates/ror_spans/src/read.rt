//! The reader of an entry's text.

ghost use Rattle.std.specs.Prelude.{◌≡◌, ◌≤◌, ◌<◌, ◌-◌, drop, length, IfErr, IfOk};
ghost use Rattle.ror_text.specs.Reading.{Gives};
ghost use Rattle.ror_text.specs.Cursor.{cursor_at};
ghost use Rattle.ror_proof.specs.Reading.{proof_fault, IsProofFaultWithin};
ghost use Rattle.ror_spans.specs.Reading as reading;
ghost use Rattle.ror_spans.specs.Reading.{entry_at};

use crate::entry::{Entry, FORMS, Form};
use ror_confidence::{LevelAnswer, Span};
use ror_proof::questions::alternative_at;
use ror_proof::words::{after_word, name_at, no_more, small_number_at};
use ror_proof::{ProofFault, read_answer};
use ror_report::numbered_line;
use ror_table::Table;
use ror_text::Items;
use ror_text::reading::need;
use ror_text::spaced::{Words, line_at};
use std::alloc::Global;

/// What the line of a pair says of its levels.
#[derive(Clone, Copy)]
pub(crate) enum Said {
    /// From which level on statements contradict each other and the necessary preference holds, and at how many levels the
    /// possible one does.
    Known(u32, u32, u32),
    /// The level of the answer that is too wide.
    Wide(u32),
}

/// The line of a pair.
#[derive(Clone, Copy)]
pub(crate) struct Head {
    first: usize,
    second: usize,
    said: Said,
}

/// Reads the entry whose text begins at a place, and says where it ends: after its last answer, with all answers of the levels
/// whose lines follow.
///
/// # Errors
///
/// The fault of the first faulty word of the first faulty line.
#[tactic(auto, unfolding(crate::specs::Reading::entry_at))]
pub fn read_entry(
    alloc: Global,
    table: &Table,
    bytes: &[u8],
    from: usize,
) -> Result<(Entry, usize), ProofFault>
    requires { from ≤ length bytes.now }
    ensures exact { Gives (λ x. (x.0, cursor_at bytes.now x.1)) proof_fault result
        (entry_at table.now (cursor_at bytes.now from)) }
    ensures onward { IfOk result (λ x. from < x.1) }
    ensures within { IfOk result (λ x. x.1 ≤ length bytes.now) }
    ensures placed { IfErr result (IsProofFaultWithin (length bytes.now)) }
{
    let (head, next) = pair_line(table, bytes, from)?;
    body_at(alloc, table, head, bytes, next)
}

/// What follows the line of a pair, and where it ends.
#[tactic(auto, unfolding(crate::specs::Reading::body_at))]
fn body_at(
    alloc: Global,
    table: &Table,
    head: Head,
    bytes: &[u8],
    from: usize,
) -> Result<(Entry, usize), ProofFault>
    requires { from ≤ length bytes.now }
    ensures exact { Gives (λ x. (x.0, cursor_at bytes.now x.1)) proof_fault result
        (reading.body_at table.now head.first head.second head.said (cursor_at bytes.now from)) }
    ensures onward { IfOk result (λ x. from ≤ x.1) }
    ensures within { IfOk result (λ x. x.1 ≤ length bytes.now) }
    ensures placed { IfErr result (IsProofFaultWithin (length bytes.now)) }
{
    let (first, second) = (head.first, head.second);
    match head.said {
        Said::Known(contradictory, necessary, possible) => {
            let (proof, next) = level_answers_at(alloc, table, bytes, from)?;
            let span = Span {
                contradictory,
                necessary,
                possible,
                proof: Items::from(proof),
            };
            Ok((
                Entry::Known {
                    first,
                    second,
                    span,
                },
                next,
            ))
        }
        Said::Wide(level) => {
            let (answer, next) = read_answer(alloc, table, bytes, from)?;
            let found = LevelAnswer { level, answer };
            Ok((
                Entry::Wide {
                    first,
                    second,
                    found,
                },
                next,
            ))
        }
    }
}

/// The answers of a span's proof, and where they end.
fn level_answers_at(
    alloc: Global,
    table: &Table,
    bytes: &[u8],
    from: usize,
) -> Result<(Vec<LevelAnswer>, usize), ProofFault>
    requires { from ≤ length bytes.now }
    ensures exact { Gives (λ x. (x.0.items, cursor_at bytes.now x.1)) proof_fault result
        (reading.level_answers_at table.now (length bytes.now - from) (cursor_at bytes.now from)) }
    ensures onward { IfOk result (λ x. from ≤ x.1) }
    ensures within { IfOk result (λ x. x.1 ≤ length bytes.now) }
    ensures placed { IfErr result (IsProofFaultWithin (length bytes.now)) }
{
    let mut answers = Vec::new(alloc);
    let mut next = from;
    'answers: while begins_level(bytes, next) {
        let (answer, after) = level_answer_at(alloc, table, bytes, next)?;
        answers.push(answer)?;
        next = after;
    }
    Ok((answers, next))
}

/// Whether the line of a level begins at a place.
fn begins_level(bytes: &[u8], from: usize) -> bool
    requires { from ≤ length bytes.now }
    ensures { result ≡ reading.begins_level (drop from bytes.now) }
{
    bytes[from..].starts_with(b"level ")
}

/// The line of a level and the answer after it, and where that ends.
#[tactic(auto, unfolding(crate::specs::Reading::level_answer_at))]
fn level_answer_at(
    alloc: Global,
    table: &Table,
    bytes: &[u8],
    from: usize,
) -> Result<(LevelAnswer, usize), ProofFault>
    requires { from ≤ length bytes.now }
    ensures exact { Gives (λ x. (x.0, cursor_at bytes.now x.1)) proof_fault result
        (reading.level_answer_at table.now (cursor_at bytes.now from)) }
    ensures onward { IfOk result (λ x. from < x.1) }
    ensures within { IfOk result (λ x. x.1 ≤ length bytes.now) }
    ensures placed { IfErr result (IsProofFaultWithin (length bytes.now)) }
{
    let (level, next) = numbered_line(b"level", bytes, from)?;
    let (answer, next) = read_answer(alloc, table, bytes, next)?;
    Ok((LevelAnswer { level, answer }, next))
}

/// The line of a pair, and where the next line begins.
#[tactic(auto, using(ror_proof::proofs::Places::placed_on), unfolding(ror_proof::specs::Reading::ended))]
fn pair_line(table: &Table, bytes: &[u8], from: usize) -> Result<(Head, usize), ProofFault>
    requires { from ≤ length bytes.now }
    ensures exact { Gives (λ x. (x.0, cursor_at bytes.now x.1)) proof_fault result
        (reading.pair_line table.now (cursor_at bytes.now from)) }
    ensures onward { IfOk result (λ x. from < x.1) }
    ensures within { IfOk result (λ x. x.1 ≤ length bytes.now) }
    ensures placed { IfErr result (IsProofFaultWithin (length bytes.now)) }
{
    let (line, next) = line_at(bytes, from);
    let head = pair_words(table, from, Words::of(line))?;
    let next = need(next, ProofFault::BadLine(from))?;
    Ok((head, next))
}

/// The words of the line of a pair.
#[tactic(auto, unfolding(crate::specs::Reading::pair_words))]
fn pair_words(table: &Table, place: usize, words: Words<'_>) -> Result<Head, ProofFault>
    ensures exact { Gives (λ head. head) proof_fault result
        (reading.pair_words table.now place words.entry) }
    ensures placed { IfErr result (IsProofFaultWithin place) }
{
    let words = after_word(place, b"pair", words)?;
    let (first, words) = alternative_at(table, place, words)?;
    let (second, words) = alternative_at(table, place, words)?;
    let (form, words) = name_at(&FORMS, place, words)?;
    let said = said_words(form, place, words)?;
    Ok(Head {
        first,
        second,
        said,
    })
}

/// The words after the one that says which form the pair has.
#[tactic(auto, unfolding(crate::specs::Reading::said_words))]
fn said_words(form: Form, place: usize, words: Words<'_>) -> Result<Said, ProofFault>
    ensures exact { Gives (λ said. said) proof_fault result
        (reading.said_words form place words.entry) }
    ensures placed { IfErr result (IsProofFaultWithin place) }
{
    match form {
        Form::Known => known_words(place, words),
        Form::Wide => {
            let (level, words) = small_number_at(place, words)?;
            no_more(place, words)?;
            Ok(Said::Wide(level))
        }
    }
}

/// Those of a pair whose span is known.
#[tactic(auto, unfolding(crate::specs::Reading::said_words))]
fn known_words(place: usize, words: Words<'_>) -> Result<Said, ProofFault>
    ensures exact { Gives (λ said. said) proof_fault result
        (reading.said_words Form.Known place words.entry) }
    ensures placed { IfErr result (IsProofFaultWithin place) }
{
    let (contradictory, words) = small_number_at(place, words)?;
    let words = after_word(place, b"necessary", words)?;
    let (necessary, words) = small_number_at(place, words)?;
    let words = after_word(place, b"possible", words)?;
    let (possible, words) = small_number_at(place, words)?;
    no_more(place, words)?;
    Ok(Said::Known(contradictory, necessary, possible))
}
