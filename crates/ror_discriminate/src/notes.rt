//! The readers of notes of numbers that are too wide.

ghost use Rattle.std.specs.Prelude.{◌≡◌, IfErr};
ghost use Rattle.ror_text.specs.Reading.{Gives};
ghost use Rattle.ror_proof.specs.Reading.{proof_fault, IsProofFaultWithin};
ghost use Rattle.ror_discriminate.specs.Reading as reading;
ghost use Rattle.ror_discriminate.specs.Reading.{noted_at};

use crate::entry::EntryBody;
use crate::names::{CLIMB_NAMES, ClimbName, PathName};
use crate::words::path_at;
use ror_pivot::{ClimbNote, ClimbPlace, Place, WideNote};
use ror_proof::words::{entry_at, name_at, place_at, small_number_at};
use ror_proof::{PlaceText, ProofFault};
use ror_text::Items;
use ror_text::spaced::Words;
use std::alloc::Global;

/// The note of this path, whose word is before these words, up to the end of the line.
pub(crate) fn note_of(
    alloc: Global,
    path: PathName,
    place: usize,
    words: Words<'_>,
) -> Result<EntryBody, ProofFault>
    ensures exact { Gives (λ x. x) proof_fault result (reading.note_of path place words.entry) }
    ensures placed { IfErr result (IsProofFaultWithin place) }
{
    match path {
        PathName::Base => {
            let note = base_note_at(alloc, place, words)?;
            Ok(EntryBody::BaseWide(note))
        }
        PathName::Climb => {
            let note = climb_note_at(alloc, place, words)?;
            Ok(EntryBody::ClimbWide(note))
        }
    }
}

/// A place on a system's path, `path` and pivots, up to the end of the line.
///
/// # Errors
///
/// The fault of the first faulty word.
#[tactic(auto, unfolding(crate::specs::Reading::noted_at))]
pub fn base_note_at(alloc: Global, place: usize, words: Words<'_>) -> Result<WideNote, ProofFault>
    ensures exact { Gives (λ note. (note.place, note.path)) proof_fault result
        (noted_at reading.place_at place words.entry) }
    ensures placed { IfErr result (IsProofFaultWithin place) }
{
    let (number, words) = base_place_at(place, words)?;
    let path = Items::from(path_at(alloc, place, words)?);
    Ok(WideNote {
        path,
        place: number,
    })
}

/// A place on a climbing path, `path` and pivots.
#[tactic(auto, unfolding(crate::specs::Reading::noted_at))]
fn climb_note_at(alloc: Global, place: usize, words: Words<'_>) -> Result<ClimbNote, ProofFault>
    ensures exact { Gives (λ note. (note.place, note.path)) proof_fault result
        (noted_at reading.climb_place_at place words.entry) }
    ensures placed { IfErr result (IsProofFaultWithin place) }
{
    let (number, words) = climb_place_at(place, words)?;
    let path = Items::from(path_at(alloc, place, words)?);
    Ok(ClimbNote {
        path,
        place: number,
    })
}

/// The place on a system's path that comes first.
#[tactic(auto, unfolding(crate::specs::Reading::place_at))]
fn base_place_at<'a>(place: usize, words: Words<'a>) -> Result<(Place, Words<'a>), ProofFault>
    ensures exact { Gives (λ x. (x.0, x.1)) proof_fault result
        (reading.place_at place words.entry) }
    ensures placed { IfErr result (IsProofFaultWithin place) }
{
    let (text, words) = place_at(place, words)?;
    Ok((place_of(text), words))
}

/// The place on a system's path of which a text speaks.
fn place_of(text: PlaceText) -> Place
    ensures { result ≡ reading.place_of text }
{
    match text {
        PlaceText::Start(row, column) => Place::Start(row as usize, column as usize),
        PlaceText::Step(row, column) => Place::Step(row as usize, column as usize),
        PlaceText::Denominator(row) => Place::Denominator(row as usize),
        PlaceText::RowSum(row) => Place::RowSum(row as usize),
        PlaceText::ColumnSum(column) => Place::ColumnSum(column as usize),
    }
}

/// The place on a climbing path that comes first.
#[tactic(auto, unfolding(crate::specs::Reading::climb_place_at))]
fn climb_place_at<'a>(place: usize, words: Words<'a>) -> Result<(ClimbPlace, Words<'a>), ProofFault>
    ensures exact { Gives (λ x. (x.0, x.1)) proof_fault result
        (reading.climb_place_at place words.entry) }
    ensures placed { IfErr result (IsProofFaultWithin place) }
{
    let (name, words) = name_at(&CLIMB_NAMES, place, words)?;
    climbed_at(place, name, words)
}

/// The place of this name, whose word is before these words.
fn climbed_at<'a>(
    place: usize,
    name: ClimbName,
    words: Words<'a>,
) -> Result<(ClimbPlace, Words<'a>), ProofFault>
    ensures exact { Gives (λ x. (x.0, x.1)) proof_fault result
        (reading.climbed_at place name words.entry) }
    ensures placed { IfErr result (IsProofFaultWithin place) }
{
    match name {
        ClimbName::Start => {
            let (row, column, words) = entry_at(place, words)?;
            Ok((ClimbPlace::Start(row as usize, column as usize), words))
        }
        ClimbName::Step => {
            let (row, column, words) = entry_at(place, words)?;
            Ok((ClimbPlace::Step(row as usize, column as usize), words))
        }
        ClimbName::Denominator => {
            let (row, words) = small_number_at(place, words)?;
            Ok((ClimbPlace::Denominator(row as usize), words))
        }
        ClimbName::RowSum => {
            let (row, words) = small_number_at(place, words)?;
            Ok((ClimbPlace::RowSum(row as usize), words))
        }
        ClimbName::Total => Ok((ClimbPlace::Total, words)),
        ClimbName::Scale => {
            let (column, words) = small_number_at(place, words)?;
            Ok((ClimbPlace::Scale(column as usize), words))
        }
        ClimbName::ColumnSum => {
            let (column, words) = small_number_at(place, words)?;
            Ok((ClimbPlace::ColumnSum(column as usize), words))
        }
    }
}
