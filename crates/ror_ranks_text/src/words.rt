//! The words of a line, read one by one: numbers behind a word, ids and places up to the end, and notes.

ghost use Rattle.std.specs.Prelude.{◌≡◌, IfErr};
ghost use Rattle.ror_text.specs.Reading.{Gives};
ghost use Rattle.ror_table.specs.Table.{alternative_named};
ghost use Rattle.ror_proof.specs.Reading.{proof_fault, IsProofFaultWithin};
ghost use Rattle.ror_proof.specs.Words.{all_at};
ghost use Rattle.ror_ranks_text.specs.Reading as reading;

use crate::names::{NODE_NAMES, NodeName};
use ror_discriminate::base_note_at;
use ror_pivot::WideNote;
use ror_proof::ProofFault;
use ror_proof::words::{after_word, name_at, no_more, small_number_at, small_number_in};
use ror_ranks::Node;
use ror_table::Table;
use ror_text::Items;
use ror_text::ids::id_text;
use ror_text::reading::need;
use ror_text::spaced::Words;
use std::alloc::Global;

/// The number behind this word, which has to come first.
#[tactic(auto, unfolding(crate::specs::Reading::labelled_at))]
pub(crate) fn labelled_at<'a>(
    place: usize,
    word: &[u8],
    words: Words<'a>,
) -> Result<(u32, Words<'a>), ProofFault>
    ensures exact { Gives (λ x. (x.0, x.1)) proof_fault result
        (reading.labelled_at word.now place words.entry) }
    ensures placed { IfErr result (IsProofFaultWithin place) }
{
    let words = after_word(place, word, words)?;
    small_number_at(place, words)
}

/// The alternatives behind this word, which has to come first, up to the end of the line.
#[tactic(auto, unfolding(crate::specs::Reading::ids_words))]
pub(crate) fn ids_words(
    alloc: Global,
    table: &Table,
    word: &[u8],
    place: usize,
    words: Words<'_>,
) -> Result<Vec<usize>, ProofFault>
    ensures exact { Gives (λ ids. ids.items) proof_fault result
        (reading.ids_words table.now word.now place words.entry) }
    ensures placed { IfErr result (IsProofFaultWithin place) }
{
    let words = after_word(place, word, words)?;
    ids_at(alloc, table, place, words)
}

/// The alternatives whose ids these are, up to the end of the line.
fn ids_at(
    alloc: Global,
    table: &Table,
    place: usize,
    words: Words<'_>,
) -> Result<Vec<usize>, ProofFault>
    ensures exact { Gives (λ ids. ids.items) proof_fault result
        (all_at (reading.alternative_in table.now place) words.entry) }
    ensures placed { IfErr result (IsProofFaultWithin place) }
{
    let mut ids = Vec::new(alloc);
    let mut left = words;
    'ids: while let Some((id, rest)) = left.next() {
        let alternative = alternative_in(table, place, id)?;
        ids.push(alternative)?;
        left = rest;
    }
    Ok(ids)
}

/// The alternative whose id a word is.
fn alternative_in(table: &Table, place: usize, id: &[u8]) -> Result<usize, ProofFault>
    ensures exact { Gives (λ alternative. alternative) proof_fault result
        (reading.alternative_in table.now place id.now) }
    ensures placed { IfErr result (IsProofFaultWithin place) }
{
    need(find_alternative(table, id), ProofFault::BadLine(place))
}

/// The place of an alternative's id, if the table has it.
fn find_alternative(table: &Table, id: &[u8]) -> Option<usize>
    ensures { result ≡ alternative_named table.now id.now }
{
    // A table has alternatives, and the id of each is an id.
    prove!(table.alternatives() > 0);
    let id = id_text(id)?;
    table.find_alternative(id)
}

/// The note of a number that is too wide, up to the end of the line.
#[tactic(auto, unfolding(crate::specs::Reading::note_words))]
pub(crate) fn note_words(
    alloc: Global,
    place: usize,
    words: Words<'_>,
) -> Result<WideNote, ProofFault>
    ensures exact { Gives (λ note. note) proof_fault result (reading.note_words place words.entry) }
    ensures placed { IfErr result (IsProofFaultWithin place) }
{
    base_note_at(alloc, place, words)
}

/// The words of a node.
#[tactic(auto, unfolding(crate::specs::Reading::node_words))]
pub(crate) fn node_words(alloc: Global, place: usize, words: Words<'_>) -> Result<Node, ProofFault>
    ensures exact { Gives (λ node. node) proof_fault result (reading.node_words place words.entry) }
    ensures placed { IfErr result (IsProofFaultWithin place) }
{
    let (name, words) = name_at(&NODE_NAMES, place, words)?;
    named_node(alloc, name, place, words)
}

/// The words behind the word of a node.
fn named_node(
    alloc: Global,
    name: NodeName,
    place: usize,
    words: Words<'_>,
) -> Result<Node, ProofFault>
    ensures exact { Gives (λ node. node) proof_fault result
        (reading.named_node name place words.entry) }
    ensures placed { IfErr result (IsProofFaultWithin place) }
{
    match name {
        NodeName::Leaf => Ok(Node::Leaf(Items::from(places_at(alloc, place, words)?))),
        NodeName::Branch => {
            let (number, words) = small_number_at(place, words)?;
            no_more(place, words)?;
            Ok(Node::Branch(number))
        }
    }
}

/// The places of conflicts up to the end of the line.
fn places_at(alloc: Global, place: usize, words: Words<'_>) -> Result<Vec<u32>, ProofFault>
    ensures exact { Gives (λ places. places.items) proof_fault result
        (reading.places_at place words.entry) }
    ensures placed { IfErr result (IsProofFaultWithin place) }
{
    let mut places = Vec::new(alloc);
    let mut left = words;
    'places: while let Some((word, rest)) = left.next() {
        let number = small_number_in(place, word)?;
        places.push(number)?;
        left = rest;
    }
    Ok(places)
}
