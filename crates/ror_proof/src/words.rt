//! The words of a line, read one by one.

ghost use Rattle.std.specs.Prelude.{◌≡◌, ◌≤◌, ◌==◌, length, MatchOption, IfErr, position};
ghost use Rattle.ror_text.specs.Cursor.{cursor_at, line_words};
ghost use Rattle.ror_text.specs.Numbers.{number_of, small_number_of};
ghost use Rattle.ror_text.specs.Reading.{Gives};
ghost use Rattle.ror_proof.specs.Words as spec;
ghost use Rattle.ror_proof.specs.Reading as reading;
ghost use Rattle.ror_proof.specs.Reading.{proof_fault, IsProofFaultWithin};

use crate::answer::{Pivot, PlaceText};
use crate::names::{Name, PLACE_NAMES, PlaceName, named};
use crate::read::ProofFault;
use ror_system::{Multipliers, Numbers};
use ror_text::numbers::{read_number, read_small_number};
use ror_text::reading::{need, refuse_if};
use ror_text::spaced::{Words, line_at};
use std::alloc::Global;

/// The words after one that has to come first.
#[tactic(auto, unfolding(crate::specs::Words::after_word))]
pub fn after_word<'a>(
    place: usize,
    expected: &[u8],
    words: Words<'a>,
) -> Result<Words<'a>, ProofFault>
    ensures exact { Gives (λ rest. rest) proof_fault result
        (spec.after_word place expected.now words.entry) }
    ensures placed { IfErr result (IsProofFaultWithin place) }
{
    match words.next() {
        Some((word, rest)) if word == expected => Ok(rest),
        _ => Err(ProofFault::BadLine(place)),
    }
}

/// Which of these the first word stands for.
#[tactic(auto, unfolding(crate::specs::Words::name_at))]
pub fn name_at<'a, N: Name + Drop>(
    names: &[N],
    place: usize,
    words: Words<'a>,
) -> Result<(N, Words<'a>), ProofFault>
    ensures exact { Gives (λ x. (x.0, x.1)) proof_fault result
        (spec.name_at N.word_of names.now place words.entry) }
    ensures placed { IfErr result (IsProofFaultWithin place) }
{
    match words.next() {
        Some((word, rest)) => {
            let name = need(named(names, word), ProofFault::BadLine(place))?;
            Ok((name, rest))
        }
        None => Err(ProofFault::BadLine(place)),
    }
}

/// Which of these the first word of the line at a place stands for, if it stands for one.
pub fn first_named<N: Name + Drop>(names: &[N], bytes: &[u8], from: usize) -> Option<N>
    requires { from ≤ length bytes.now }
    ensures { result ≡ spec.first_named N.word_of names.now (line_words (cursor_at bytes.now from)) }
{
    let (line, _) = line_at(bytes, from);
    let (word, _) = Words::of(line).next()?;
    named(names, word)
}

/// That no word is left.
pub fn no_more(place: usize, words: Words<'_>) -> Result<(), ProofFault>
    ensures exact { Gives (λ _. tt) proof_fault result (spec.no_more place words.entry) }
    ensures placed { IfErr result (IsProofFaultWithin place) }
{
    match words.next() {
        Some(_) => Err(ProofFault::BadLine(place)),
        None => Ok(()),
    }
}

/// The count, the place or the system that comes first.
#[tactic(auto, unfolding(crate::specs::Words::small_number_at))]
pub fn small_number_at<'a>(place: usize, words: Words<'a>) -> Result<(u32, Words<'a>), ProofFault>
    ensures exact { Gives (λ x. (x.0, x.1)) proof_fault result
        (spec.small_number_at place words.entry) }
    ensures placed { IfErr result (IsProofFaultWithin place) }
{
    match words.next() {
        Some((word, rest)) => Ok((small_number_in(place, word)?, rest)),
        None => Err(ProofFault::BadLine(place)),
    }
}

/// A row and a column, which come first.
#[tactic(auto, unfolding(crate::specs::Reading::entry_at))]
pub fn entry_at<'a>(place: usize, words: Words<'a>) -> Result<(u32, u32, Words<'a>), ProofFault>
    ensures exact { Gives (λ x. ((x.0, x.1), x.2)) proof_fault result
        (reading.entry_at place words.entry) }
    ensures placed { IfErr result (IsProofFaultWithin place) }
{
    let (row, words) = small_number_at(place, words)?;
    let (column, words) = small_number_at(place, words)?;
    Ok((row, column, words))
}

/// The place of a number, which comes first.
#[tactic(auto, unfolding(crate::specs::Reading::place_at))]
pub fn place_at<'a>(place: usize, words: Words<'a>) -> Result<(PlaceText, Words<'a>), ProofFault>
    ensures exact { Gives (λ x. (x.0, x.1)) proof_fault result
        (reading.place_at place words.entry) }
    ensures placed { IfErr result (IsProofFaultWithin place) }
{
    let (name, words) = name_at(&PLACE_NAMES, place, words)?;
    numbered_at(place, name, words)
}

/// The number's place of this name, whose word is before these words.
fn numbered_at<'a>(
    place: usize,
    name: PlaceName,
    words: Words<'a>,
) -> Result<(PlaceText, Words<'a>), ProofFault>
    ensures exact { Gives (λ x. (x.0, x.1)) proof_fault result
        (reading.numbered_at place name words.entry) }
    ensures placed { IfErr result (IsProofFaultWithin place) }
{
    match name {
        PlaceName::Start => {
            let (row, column, words) = entry_at(place, words)?;
            Ok((PlaceText::Start(row, column), words))
        }
        PlaceName::Step => {
            let (row, column, words) = entry_at(place, words)?;
            Ok((PlaceText::Step(row, column), words))
        }
        PlaceName::Denominator => {
            let (row, words) = small_number_at(place, words)?;
            Ok((PlaceText::Denominator(row), words))
        }
        PlaceName::RowSum => {
            let (row, words) = small_number_at(place, words)?;
            Ok((PlaceText::RowSum(row), words))
        }
        PlaceName::ColumnSum => {
            let (column, words) = small_number_at(place, words)?;
            Ok((PlaceText::ColumnSum(column), words))
        }
    }
}

/// The words after this number, which has to come first; any other is a bad number.
#[tactic(auto, unfolding(crate::specs::Words::the_number_at))]
pub(crate) fn the_number_at<'a>(
    place: usize,
    expected: u32,
    words: Words<'a>,
) -> Result<Words<'a>, ProofFault>
    ensures exact { Gives (λ rest. rest) proof_fault result
        (spec.the_number_at place expected words.entry) }
    ensures placed { IfErr result (IsProofFaultWithin place) }
{
    let (number, rest) = small_number_at(place, words)?;
    refuse_if(number != expected, ProofFault::BadNumber(place))?;
    Ok(rest)
}

/// The numbers up to the end of the line.
pub fn numbers_at(alloc: Global, place: usize, words: Words<'_>) -> Result<Numbers, ProofFault>
    ensures exact { Gives (λ numbers. numbers) proof_fault result
        (spec.numbers_at place words.entry) }
    ensures placed { IfErr result (IsProofFaultWithin place) }
{
    let mut numbers = Numbers::new(alloc);
    let mut left = words;
    'numbers: while let Some((word, rest)) = left.next() {
        let number = number_in(place, word)?;
        numbers.push(number)?;
        left = rest;
    }
    Ok(numbers)
}

/// The numbers before a bar, and the words after it.
fn numbers_before_bar<'a>(
    alloc: Global,
    place: usize,
    words: Words<'a>,
) -> Result<(Numbers, Words<'a>), ProofFault>
    ensures exact { Gives (λ x. (x.0, x.1)) proof_fault result
        (spec.numbers_before_bar place words.entry) }
    ensures placed { IfErr result (IsProofFaultWithin place) }
{
    let mut numbers = Numbers::new(alloc);
    let mut left = words;
    'numbers: while let Some((word, rest)) = left.next() {
        if word == b"|".as_slice() {
            return Ok((numbers, rest));
        }
        let number = number_in(place, word)?;
        numbers.push(number)?;
        left = rest;
    }
    Err(ProofFault::BadLine(place))
}

/// The word of multipliers, and their numbers up to the end of the line.
#[tactic(auto, unfolding(crate::specs::Reading::refutation_at))]
pub fn refutation_at(
    alloc: Global,
    place: usize,
    words: Words<'_>,
) -> Result<Multipliers, ProofFault>
    ensures exact { Gives (λ x. x) proof_fault result (reading.refutation_at place words.entry) }
    ensures placed { IfErr result (IsProofFaultWithin place) }
{
    let words = after_word(place, b"multipliers", words)?;
    multipliers_at(alloc, place, words)
}

/// The multipliers of the weak rows, a bar, and those of the strict rows.
#[tactic(auto, unfolding(crate::specs::Reading::multipliers_at))]
pub(crate) fn multipliers_at(
    alloc: Global,
    place: usize,
    words: Words<'_>,
) -> Result<Multipliers, ProofFault>
    ensures exact { Gives (λ x. x) proof_fault result (reading.multipliers_at place words.entry) }
    ensures placed { IfErr result (IsProofFaultWithin place) }
{
    let (weak, words) = numbers_before_bar(alloc, place, words)?;
    let strict = numbers_at(alloc, place, words)?;
    Ok(Multipliers { weak, strict })
}

/// The pivots up to the end of the line.
pub(crate) fn pivots_at(
    alloc: Global,
    place: usize,
    words: Words<'_>,
) -> Result<Vec<Pivot>, ProofFault>
    ensures exact { Gives (λ pivots. pivots.items) proof_fault result
        (spec.pivots_at place words.entry) }
    ensures placed { IfErr result (IsProofFaultWithin place) }
{
    let mut pivots = Vec::new(alloc);
    let mut left = words;
    'pivots: while let Some((word, rest)) = left.next() {
        let pivot = pivot_in(place, word)?;
        pivots.push(pivot)?;
        left = rest;
    }
    Ok(pivots)
}

/// The number that a word says.
pub fn number_in(place: usize, word: &[u8]) -> Result<i128, ProofFault>
    ensures exact { Gives (λ number. number) proof_fault result
        (spec.number_in number_of place word.now) }
    ensures placed { IfErr result (IsProofFaultWithin place) }
{
    // Most numbers are 0.
    if word == b"0".as_slice() {
        return Ok(0);
    }
    refuse_if(word.is_empty(), ProofFault::BadLine(place))?;
    need(read_number(word), ProofFault::BadNumber(place))
}

/// The small number that a word says.
pub fn small_number_in(place: usize, word: &[u8]) -> Result<u32, ProofFault>
    ensures exact { Gives (λ number. number) proof_fault result
        (spec.number_in small_number_of place word.now) }
    ensures placed { IfErr result (IsProofFaultWithin place) }
{
    refuse_if(word.is_empty(), ProofFault::BadLine(place))?;
    need(read_small_number(word), ProofFault::BadNumber(place))
}

/// The pivot that a word says.
#[tactic(auto, unfolding(crate::specs::Words::pivot_in))]
fn pivot_in(place: usize, word: &[u8]) -> Result<Pivot, ProofFault>
    ensures exact { Gives (λ pivot. pivot) proof_fault result (spec.pivot_in place word.now) }
    ensures placed { IfErr result (IsProofFaultWithin place) }
{
    let (column, row) = need(split_pivot(word), ProofFault::BadLine(place))?;
    let column = need(read_small_number(column), ProofFault::BadLine(place))?;
    let row = need(read_small_number(row), ProofFault::BadLine(place))?;
    Ok(Pivot { column, row })
}

/// The bytes before the first colon, and those after it.
pub fn split_pivot(word: &[u8]) -> Option<(&[u8], &[u8])>
    ensures { MatchOption result (spec.split_pivot word.now ≡ None)
        (λ x. spec.split_pivot word.now ≡ Some (x.0.now, x.1.now)) }
{
    let end = colon(word)?;
    Some((&word[..end], &word[end + 1..]))
}

/// The place of the first colon.
fn colon(word: &[u8]) -> Option<usize>
    ensures { result ≡ position (λ byte. byte == 58) word.now }
{
    word.iter().position(|byte| *byte == b':')
}
