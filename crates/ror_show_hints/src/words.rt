//! Small questions on words and texts.

ghost use Rattle.std.specs.Prelude.{◌≡◌, ◌<◌, ◌≤◌, None, length, map, position, IfOk, IfSome, IsTrue};
ghost use Rattle.std.specs.Char.{to_ascii_lowercase};
ghost use Rattle.std.specs.Option.{option_map};
ghost use Rattle.std.specs.Str.{all_ascii_digits, bytes_eq};
ghost use Rattle.memchr.specs.Find.{FindsNeedle};
ghost use Rattle.ror_text.specs.Numbers as numbers;
ghost use Rattle.ror_show_hints.specs.Hints as spec;

use crate::page::Span;
use memchr::memmem;
use std::alloc::{AllocError, Global};
use strsim::generic_levenshtein;

/// The most bytes of a word for which a nearest one is looked for.
const MOST_NEAR_BYTES: usize = 30;

/// Whether a text has another in it.
pub fn has(text: &[u8], part: &[u8]) -> bool
    ensures { IsTrue result → spec.Occurs text.now part.now }
{
    memmem::find(text, part).is_some()
}

/// Where a text has another in it first.
pub fn span_of(text: &[u8], part: &[u8]) -> Option<Span>
    ensures { FindsNeedle text.now part.now 0 (option_map (λ span. span.from) result) }
{
    let from = memmem::find(text, part)?;
    Some(Span {
        from,
        length: part.len(),
    })
}

/// Whether a word is one of these.
pub fn is_one_of(word: &[u8], list: &[&[u8]]) -> bool
    ensures { result ≡ spec.is_one_of word.now (map (λ other. other.now) list.now) }
{
    list.iter().any(|other| is_same(other, word))
}

fn is_same(word: &[u8], other: &[u8]) -> bool
    ensures { result ≡ bytes_eq word.now other.now }
{
    word == other
}

/// The word of the list that is this one in letters of another case.
pub fn in_other_case<'a>(word: &[u8], list: &[&'a [u8]]) -> Option<&'a [u8]>
    ensures { IfSome result (λ other. map to_ascii_lowercase other.now ≡ map to_ascii_lowercase word.now) }
{
    list.iter()
        .copied()
        .find(|other| other.eq_ignore_ascii_case(word))
}

/// The word of the list that is nearest to this one, where one is near: at most two edits away, or one from a short word. A word
/// of more than 30 bytes, or of fewer than 3, has none; which one another word has is a guess, and isn't promised.
///
/// # Errors
///
/// Only want of memory.
pub fn nearest<'a>(
    alloc: Global,
    word: &[u8],
    list: &[&'a [u8]],
) -> Result<Option<&'a [u8]>, AllocError>
    ensures long { 30 < length word.now → IfOk result (λ near. near ≡ None) }
    ensures short { length word.now < 3 → IfOk result (λ near. near ≡ None) }
{
    if word.len() > MOST_NEAR_BYTES || word.len() < 3 {
        return Ok(None);
    }
    let mut best: Option<&'a [u8]> = None;
    let mut least: usize = if word.len() < 5 { 2 } else { 3 };
    for other in list {
        let edits = generic_levenshtein(alloc, word, other)?;
        if edits < least {
            least = edits;
            best = Some(*other);
        }
    }
    Ok(best)
}

/// Where the word with this number, from 0, stands in a line.
pub fn span_of_word(line: &[u8], number: usize) -> Option<Span>
    ensures { IfSome result (λ span. span.from ≤ length line.now) }
{
    let mut from: usize = 0;
    let mut seen: usize = 0;
    for part in line.split(|byte| *byte == b' ' || *byte == b'\t') {
        if !part.is_empty() {
            if seen == number {
                return Some(Span {
                    from: from.min(line.len()),
                    length: part.len(),
                });
            }
            seen = seen.saturating_add(1);
        }
        from = from.saturating_add(part.len()).saturating_add(1);
    }
    None
}

/// The place behind a line.
pub fn span_behind(line: &[u8]) -> Span
    ensures { result.from ≡ length line.now }
{
    Span {
        from: line.len(),
        length: 1,
    }
}

/// Whether a word has a digit first.
pub fn begins_with_digit(word: &[u8]) -> bool
    ensures { result ≡ spec.begins_with_digit word.now }
{
    match word.first() {
        Some(byte) => byte.is_ascii_digit(),
        None => false,
    }
}

/// Whether a word is one or more digits.
pub fn is_digits(word: &[u8]) -> bool
    ensures { result ≡ numbers.is_digits word.now }
{
    if word.is_empty() {
        return false;
    }
    all_digits(word)
}

fn all_digits(word: &[u8]) -> bool
    ensures { result ≡ all_ascii_digits word.now }
{
    word.iter().all(|byte| byte.is_ascii_digit())
}

/// The first word of a text, in whichever line it stands.
pub fn first_word(text: &[u8]) -> &[u8]
    ensures { result.now ≡ spec.first_word text.now }
{
    let mut rest = text;
    'blanks: while let [first, after @ ..] = rest {
        if !is_white(*first) {
            return front_word(rest);
        }
        rest = after;
    }
    &[]
}

/// The bytes before the first white space.
fn front_word(text: &[u8]) -> &[u8]
    ensures { result.now ≡ spec.front_word text.now }
{
    match white_place(text) {
        Some(end) => &text[..end],
        None => text,
    }
}

/// The place of the first white space.
fn white_place(text: &[u8]) -> Option<usize>
    ensures { result ≡ position spec.is_white text.now }
{
    text.iter().position(|byte| is_white(*byte))
}

/// White space: a blank, a tab, a line feed, a form feed or a carriage return.
fn is_white(byte: u8) -> bool
    ensures { result ≡ spec.is_white byte }
{
    byte == b' ' || byte == b'\t' || byte == b'\n' || byte == 0x0C || byte == b'\r'
}
