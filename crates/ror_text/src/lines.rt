//! The lines of a text, and the words of a line.

ghost use Rattle.std.specs.Prelude.{◌≡◌, ◌+◌, ◌-◌, ◌^◌, ◌<◌, ◌≤◌, [], ◌∷◌, length, map, drop, IfOk, IfSome, MatchOption, position};
ghost use Rattle.std.specs.List.{AllByRecursion, list_any};
ghost use Rattle.std.specs.Str.{IsUtf8, is_utf8};
ghost use Rattle.std.specs.Str.Lines.{lines, strip_carriage_return};
ghost use Rattle.ror_text.specs.Lines as spec;
ghost use Rattle.ror_text.specs.Lines.{numbered_lines_from};

use crate::spaced::split_line;
use std::alloc::{AllocError, Global};

/// The greatest length of the text of a table or a session, in bytes.
pub const MOST_TEXT_BYTES: usize = 16_777_216;

/// A word of a line, from 0; empty past the last one.
pub fn word_at<'a>(words: &[&'a [u8]], i: usize) -> &'a [u8]
    ensures word { result.now ≡ spec.word_at (map (λ word. word.now) words.now) i }
    ensures utf8 { AllByRecursion IsUtf8 (map (λ word. word.now) words.now) → IsUtf8 result.now }
{
    match words.get(i) {
        Some(word) => word,
        None => &[],
    }
}

/// Whether a word has a byte below 0x21 or 0x7F.
pub(crate) fn has_control_byte(word: &[u8]) -> bool
    ensures { result ≡ list_any spec.is_control word.now }
{
    word.iter().any(|byte| *byte < 0x21 || *byte == 0x7F)
}

/// The place of the first line feed.
pub(crate) fn line_end(bytes: &[u8]) -> Option<usize>
    ensures { result ≡ position spec.is_line_end bytes.now }
{
    bytes.iter().position(|byte| *byte == b'\n')
}

/// A line without the one carriage return at its end, if it has one.
fn without_carriage_return(line: &[u8]) -> &[u8]
    ensures { result.now ≡ strip_carriage_return line.now }
{
    match line {
        [front @ .., b'\r'] => front,
        _ => line,
    }
}

/// The first line and the bytes after it. A line feed ends a line, and one carriage return just
/// before it is passed over; the bytes after the last line feed are a line only if there are any.
pub fn first_line(bytes: &[u8]) -> Option<(&[u8], &[u8])>
    ensures line { MatchOption result (lines bytes.now ≡ [])
        (λ x. lines bytes.now ≡ x.0.now ∷ lines x.1.now) }
    ensures rest { IfSome result (λ x. x.1.now ≡ drop (spec.first_line_end bytes.now) bytes.now) }
    ensures shorter { IfSome result (λ x. length x.1.now < length bytes.now) }
{
    match split_line(bytes) {
        Some((line, rest)) => Some((without_carriage_return(line), rest)),
        None if bytes.is_empty() => None,
        None => Some((bytes, &[])),
    }
}

/// The words of a line: its parts between spaces and tabs that are not empty.
pub fn split_words(alloc: Global, line: &[u8]) -> Result<Vec<&[u8]>, AllocError>
    ensures { IfOk result (λ ws. map (λ word. word.now) ws.items ≡ spec.words line.now) }
{
    line.split(|byte| *byte == b' ' || *byte == b'\t')
        .filter(|word| !word.is_empty())
        .collect(alloc)
}

/// Whether some word has a byte below 0x21 or 0x7F.
pub fn has_control(words: &[&[u8]]) -> bool
    ensures { result ≡ spec.has_control (map (λ word. word.now) words.now) }
{
    words.iter().any(|word| has_control_byte(word))
}

/// Whether a line is passed over: it has no words, or its first word begins with `#`.
pub fn is_passed_over(words: &[&[u8]]) -> bool
    ensures { result ≡ spec.is_passed_over (map (λ word. word.now) words.now) }
{
    match words.first() {
        None => true,
        Some(word) => word.first() == Some(&b'#'),
    }
}

/// The number of the line of the byte at a place, from 1.
pub fn line_number(bytes: &[u8], place: usize) -> u32
    requires place { place ≤ length bytes.now }
    requires fits { length bytes.now < 2 ^ 32 - 1 }
    ensures { result ≡ spec.line_of bytes.now place }
{
    let before = &bytes[..place];
    1 + before.iter().filter(|byte| **byte == b'\n').count() as u32
}

/// Whether the bytes are UTF-8.
pub fn is_utf8(bytes: &[u8]) -> bool
    ensures { result ≡ is_utf8 bytes.now }
{
    std::str::from_utf8(bytes).is_ok()
}

/// The line of the first byte at which the bytes are no UTF-8, if they are none.
pub fn bad_utf8_line(bytes: &[u8]) -> Option<u32>
    requires { length bytes.now < 2 ^ 32 - 1 }
    ensures { MatchOption result (IsUtf8 bytes.now)
        (λ line. (¬ (IsUtf8 bytes.now)) × (line ≡ spec.bad_utf8_line bytes.now)) }
{
    match std::str::from_utf8(bytes) {
        Ok(_) => None,
        Err(error) => Some(line_number(bytes, error.valid_up_to())),
    }
}

/// How many lines the bytes have, those that are passed over among them.
pub fn line_count(bytes: &[u8]) -> usize
    ensures { result ≡ spec.line_count bytes.now }
{
    let mut rest = bytes;
    let mut count = 0;
    while let Some((_, after)) = first_line(rest) {
        rest = after;
        count += 1;
    }
    count
}

/// A line that is not passed over.
#[derive(Drop)]
pub struct NumberedLine<'a> {
    /// Its number among all lines.
    pub number: u32,
    pub words: Vec<&'a [u8]>,
    /// The bytes after it.
    pub rest: &'a [u8],
}

/// The next line that is not passed over, where the first line of the bytes has this number.
pub fn next_line(
    alloc: Global,
    first: u32,
    bytes: &[u8],
) -> Result<Option<NumberedLine<'_>>, AllocError>
    requires { first + length bytes.now < 2 ^ 32 }
    ensures line { IfOk result (λ next. MatchOption next
        (numbered_lines_from first bytes.now ≡ [])
        (λ l. numbered_lines_from first bytes.now
        ≡ (l.number, map (λ word. word.now) l.words.items)
        ∷ numbered_lines_from (l.number + 1) l.rest.now)) }
    ensures number { IfOk result (λ next. IfSome next
        (λ l. l.number + length l.rest.now < first + length bytes.now)) }
    ensures shorter { IfOk result
        (λ next. IfSome next (λ l. length l.rest.now < length bytes.now)) }
{
    let mut number = first;
    let mut left = bytes;
    'lines: while let Some((line, rest)) = first_line(left) {
        let words = split_words(alloc, line)?;
        if !is_passed_over(&words) {
            return Ok(Some(NumberedLine {
                number,
                words,
                rest,
            }));
        }
        left = rest;
        number += 1;
    }
    Ok(None)
}
