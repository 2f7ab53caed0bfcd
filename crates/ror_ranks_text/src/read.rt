//! The reader of an entry's text.

ghost use Rattle.std.specs.Prelude.{◌≤◌, ◌<◌, length, IfErr, IfOk};
ghost use Rattle.ror_text.specs.Reading.{Gives};
ghost use Rattle.ror_text.specs.Cursor.{cursor_at, line_words};
ghost use Rattle.ror_proof.specs.Reading.{ended, proof_fault, IsProofFaultWithin};
ghost use Rattle.ror_ranks_text.specs.Reading as reading;
ghost use Rattle.ror_ranks_text.specs.Reading.{entry_at};
ghost use Rattle.ror_ranks_text.specs.Text.{IsPrintableEntry};

use crate::entry::{Entry, EntryBody};
use crate::intervals::said_at;
use crate::names::{BODY_FORMS, BodyForm, SAID_FORMS, SaidForm};
use crate::words::{labelled_at, note_words};
use ror_pivot::WideNote;
use ror_proof::ProofFault;
use ror_proof::questions::alternative_at;
use ror_proof::words::{after_word, first_named, name_at, no_more, refutation_at, small_number_at};
use ror_ranks::{Extreme, SIDES, Side};
use ror_report::desk::desk_line;
use ror_table::Table;
use ror_text::reading::need;
use ror_text::spaced::{Words, line_at};
use ror_text::{Items, Text};
use std::alloc::Global;

/// What the first line says of an interval: its ends, and how many conflicts and nodes follow.
#[derive(Clone, Copy)]
pub(crate) struct Ends {
    pub(crate) from: u32,
    pub(crate) to: u32,
    pub(crate) conflicts: u32,
    pub(crate) nodes: u32,
}

/// What the first line says of an extreme rank.
#[derive(Drop)]
pub(crate) enum Opening {
    Within(Ends),
    Wide(WideNote),
}

/// The first line of an extreme rank.
#[derive(Drop)]
pub(crate) struct Head {
    side: Side,
    alternative: usize,
    opening: Opening,
}

/// Reads the entry whose text begins at a place, and says where it ends: after its body, whatever follows.
///
/// # Errors
///
/// The fault of the first faulty word of the first faulty line.
#[tactic(auto, unfolding(crate::specs::Reading::entry_at))]
pub fn read_entry(
    alloc: Global,
    table: &Table,
    bytes: &[u8],
    from: usize,
) -> Result<(Entry, usize), ProofFault>
    requires { from ≤ length bytes.now }
    ensures exact { Gives (λ x. (x.0, cursor_at bytes.now x.1)) proof_fault result
        (entry_at table.now (cursor_at bytes.now from)) }
    ensures printable { IfOk result (λ x. IsPrintableEntry table.now x.0) }
    ensures onward { IfOk result (λ x. from < x.1) }
    ensures within { IfOk result (λ x. x.1 ≤ length bytes.now) }
    ensures placed { IfErr result (IsProofFaultWithin (length bytes.now)) }
{
    let (name, next) = desk_line(bytes, from)?;
    let desk = Text::copied(alloc, name)?;
    let (body, next) = body_at(alloc, table, bytes, next)?;
    Ok((Entry { desk, body }, next))
}

/// The body that begins at a place, and where it ends.
#[tactic(auto, unfolding(crate::specs::Reading::body_at))]
fn body_at(
    alloc: Global,
    table: &Table,
    bytes: &[u8],
    from: usize,
) -> Result<(EntryBody, usize), ProofFault>
    requires { from ≤ length bytes.now }
    ensures exact { Gives (λ x. (x.0, cursor_at bytes.now x.1)) proof_fault result
        (reading.body_at table.now (cursor_at bytes.now from)) }
    ensures onward { IfOk result (λ x. from < x.1) }
    ensures within { IfOk result (λ x. x.1 ≤ length bytes.now) }
    ensures placed { IfErr result (IsProofFaultWithin (length bytes.now)) }
{
    match first_named(&BODY_FORMS, bytes, from) {
        Some(BodyForm::Ranks) => ranks_at(alloc, table, bytes, from),
        Some(BodyForm::Contradiction) => contradiction_line(alloc, bytes, from),
        Some(BodyForm::Wide) => wide_line(alloc, bytes, from),
        None => Err(ProofFault::BadLine(from)),
    }
}

/// As many extreme ranks as the first line says, and where they end.
#[tactic(auto, unfolding(crate::specs::Reading::ranks_at))]
fn ranks_at(
    alloc: Global,
    table: &Table,
    bytes: &[u8],
    from: usize,
) -> Result<(EntryBody, usize), ProofFault>
    requires { from ≤ length bytes.now }
    ensures exact { Gives (λ x. (x.0, cursor_at bytes.now x.1)) proof_fault result
        (reading.ranks_at table.now (cursor_at bytes.now from)) }
    ensures onward { IfOk result (λ x. from < x.1) }
    ensures within { IfOk result (λ x. x.1 ≤ length bytes.now) }
    ensures placed { IfErr result (IsProofFaultWithin (length bytes.now)) }
{
    let (count, next) = ranks_line(bytes, from)?;
    let (extremes, next) = extremes_at(alloc, table, count, bytes, next)?;
    let ranks = EntryBody::Ranks(Items::from(extremes));
    Ok((ranks, next))
}

/// `ranks` and how many follow, and where the next line begins.
#[tactic(auto, using(ror_proof::proofs::Places::placed_on), unfolding(crate::specs::Reading::ranks_words, ror_proof::specs::Reading::ended))]
fn ranks_line(bytes: &[u8], from: usize) -> Result<(u32, usize), ProofFault>
    requires { from ≤ length bytes.now }
    ensures exact { Gives (λ x. (x.0, cursor_at bytes.now x.1)) proof_fault result
        (reading.ranks_line (cursor_at bytes.now from)) }
    ensures onward { IfOk result (λ x. from < x.1) }
    ensures within { IfOk result (λ x. x.1 ≤ length bytes.now) }
    ensures placed { IfErr result (IsProofFaultWithin (length bytes.now)) }
{
    let (line, next) = line_at(bytes, from);
    let (count, words) = labelled_at(from, b"ranks", Words::of(line))?;
    no_more(from, words)?;
    let next = need(next, ProofFault::BadLine(from))?;
    Ok((count, next))
}

/// So many extreme ranks, and where they end.
fn extremes_at(
    alloc: Global,
    table: &Table,
    count: u32,
    bytes: &[u8],
    from: usize,
) -> Result<(Vec<Extreme>, usize), ProofFault>
    requires { from ≤ length bytes.now }
    ensures exact { Gives (λ x. (x.0.items, cursor_at bytes.now x.1)) proof_fault result
        (reading.so_many (reading.extreme_at table.now) count (cursor_at bytes.now from)) }
    ensures onward { IfOk result (λ x. from ≤ x.1) }
    ensures within { IfOk result (λ x. x.1 ≤ length bytes.now) }
    ensures placed { IfErr result (IsProofFaultWithin (length bytes.now)) }
{
    let mut extremes = Vec::new(alloc);
    let mut next = from;
    'extremes: for _ in 0..count {
        let (extreme, after) = extreme_at(alloc, table, bytes, next)?;
        extremes.push(extreme)?;
        next = after;
    }
    Ok((extremes, next))
}

/// An extreme rank, and where it ends.
#[tactic(auto, unfolding(crate::specs::Reading::extreme_at))]
fn extreme_at(
    alloc: Global,
    table: &Table,
    bytes: &[u8],
    from: usize,
) -> Result<(Extreme, usize), ProofFault>
    requires { from ≤ length bytes.now }
    ensures exact { Gives (λ x. (x.0, cursor_at bytes.now x.1)) proof_fault result
        (reading.extreme_at table.now (cursor_at bytes.now from)) }
    ensures onward { IfOk result (λ x. from < x.1) }
    ensures within { IfOk result (λ x. x.1 ≤ length bytes.now) }
    ensures placed { IfErr result (IsProofFaultWithin (length bytes.now)) }
{
    let (head, next) = extreme_line(alloc, table, bytes, from)?;
    let Head {
        side,
        alternative,
        opening,
    } = head;
    let (said, next) = said_at(alloc, table, opening, bytes, next)?;
    let extreme = Extreme {
        alternative,
        side,
        said,
    };
    Ok((extreme, next))
}

/// The first line of an extreme rank, and where the next line begins.
#[tactic(auto, using(ror_proof::proofs::Places::placed_on), unfolding(ror_proof::specs::Reading::ended))]
fn extreme_line(
    alloc: Global,
    table: &Table,
    bytes: &[u8],
    from: usize,
) -> Result<(Head, usize), ProofFault>
    requires { from ≤ length bytes.now }
    ensures exact { Gives (λ x. (x.0, cursor_at bytes.now x.1)) proof_fault result
        (reading.extreme_line table.now (cursor_at bytes.now from)) }
    ensures onward { IfOk result (λ x. from < x.1) }
    ensures within { IfOk result (λ x. x.1 ≤ length bytes.now) }
    ensures placed { IfErr result (IsProofFaultWithin (length bytes.now)) }
{
    let (line, next) = line_at(bytes, from);
    let head = extreme_words(alloc, table, from, Words::of(line))?;
    let next = need(next, ProofFault::BadLine(from))?;
    Ok((head, next))
}

/// The words of the first line of an extreme rank.
#[tactic(auto, unfolding(crate::specs::Reading::extreme_words))]
fn extreme_words(
    alloc: Global,
    table: &Table,
    place: usize,
    words: Words<'_>,
) -> Result<Head, ProofFault>
    ensures exact { Gives (λ head. head) proof_fault result
        (reading.extreme_words table.now place words.entry) }
    ensures placed { IfErr result (IsProofFaultWithin place) }
{
    let (side, words) = name_at(&SIDES, place, words)?;
    let (alternative, words) = alternative_at(table, place, words)?;
    let (form, words) = name_at(&SAID_FORMS, place, words)?;
    let opening = opening_words(alloc, form, place, words)?;
    Ok(Head {
        side,
        alternative,
        opening,
    })
}

/// The words behind the one that says which of the two it is.
fn opening_words(
    alloc: Global,
    form: SaidForm,
    place: usize,
    words: Words<'_>,
) -> Result<Opening, ProofFault>
    ensures exact { Gives (λ opening. opening) proof_fault result
        (reading.opening_words form place words.entry) }
    ensures placed { IfErr result (IsProofFaultWithin place) }
{
    match form {
        SaidForm::From => Ok(Opening::Within(ends_words(place, words)?)),
        SaidForm::Wide => Ok(Opening::Wide(note_words(alloc, place, words)?)),
    }
}

/// The ends of an interval, and how many conflicts and nodes follow.
#[tactic(auto, unfolding(crate::specs::Reading::ends_words))]
fn ends_words(place: usize, words: Words<'_>) -> Result<Ends, ProofFault>
    ensures exact { Gives (λ ends. ends) proof_fault result (reading.ends_words place words.entry) }
    ensures placed { IfErr result (IsProofFaultWithin place) }
{
    let (from, words) = small_number_at(place, words)?;
    let (to, words) = labelled_at(place, b"to", words)?;
    let (conflicts, words) = labelled_at(place, b"conflicts", words)?;
    let (nodes, words) = labelled_at(place, b"nodes", words)?;
    no_more(place, words)?;
    Ok(Ends {
        from,
        to,
        conflicts,
        nodes,
    })
}

/// The line of multipliers that refute the statements, and where the next line begins.
#[tactic(auto, using(ror_proof::proofs::Places::placed_on), unfolding(crate::specs::Reading::contradiction_words, ror_proof::specs::Reading::ended))]
fn contradiction_line(
    alloc: Global,
    bytes: &[u8],
    from: usize,
) -> Result<(EntryBody, usize), ProofFault>
    requires { from ≤ length bytes.now }
    ensures exact { Gives (λ x. (x.0, cursor_at bytes.now x.1)) proof_fault result
        (ended (cursor_at bytes.now from) (reading.contradiction_words from (line_words (cursor_at bytes.now from)))) }
    ensures onward { IfOk result (λ x. from < x.1) }
    ensures within { IfOk result (λ x. x.1 ≤ length bytes.now) }
    ensures placed { IfErr result (IsProofFaultWithin (length bytes.now)) }
{
    let (line, next) = line_at(bytes, from);
    let words = after_word(from, b"contradiction", Words::of(line))?;
    let multipliers = refutation_at(alloc, from, words)?;
    let next = need(next, ProofFault::BadLine(from))?;
    Ok((EntryBody::Contradiction(multipliers), next))
}

/// The line of a number that is too wide to decide the statements, and where the next line begins.
#[tactic(auto, using(ror_proof::proofs::Places::placed_on), unfolding(crate::specs::Reading::wide_words, ror_proof::specs::Reading::ended))]
fn wide_line(alloc: Global, bytes: &[u8], from: usize) -> Result<(EntryBody, usize), ProofFault>
    requires { from ≤ length bytes.now }
    ensures exact { Gives (λ x. (x.0, cursor_at bytes.now x.1)) proof_fault result
        (ended (cursor_at bytes.now from) (reading.wide_words from (line_words (cursor_at bytes.now from)))) }
    ensures onward { IfOk result (λ x. from < x.1) }
    ensures within { IfOk result (λ x. x.1 ≤ length bytes.now) }
    ensures placed { IfErr result (IsProofFaultWithin (length bytes.now)) }
{
    let (line, next) = line_at(bytes, from);
    let words = after_word(from, b"wide", Words::of(line))?;
    let words = after_word(from, b"base", words)?;
    let note = note_words(alloc, from, words)?;
    let next = need(next, ProofFault::BadLine(from))?;
    Ok((EntryBody::BaseWide(note), next))
}
