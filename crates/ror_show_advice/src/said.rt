//! What is said of a fault: a place, what was expected there, and what is likely.

use ror_show_hints::{Page, Span, shown, span_behind, span_of_word};
use std::alloc::AllocError;

/// A sentence, with up to two words of a file in it.
#[derive(Clone, Copy)]
pub(crate) struct Said<'a> {
    front: &'a [u8],
    word: &'a [u8],
    middle: &'a [u8],
    other: &'a [u8],
    back: &'a [u8],
}

/// A sentence without words of a file; nothing is said where it is empty.
pub(crate) fn say<'a>(front: &'a [u8]) -> Said<'a> {
    of_two(front, b"", b"", b"", b"")
}

/// A sentence with a word in it.
pub(crate) fn of<'a>(front: &'a [u8], word: &'a [u8], back: &'a [u8]) -> Said<'a> {
    of_two(front, word, back, b"", b"")
}

/// A sentence with two words in it.
pub(crate) fn of_two<'a>(
    front: &'a [u8],
    word: &'a [u8],
    middle: &'a [u8],
    other: &'a [u8],
    back: &'a [u8],
) -> Said<'a> {
    Said {
        front,
        word,
        middle,
        other,
        back,
    }
}

/// Which place of a line is marked.
#[derive(Clone, Copy)]
pub(crate) enum Mark {
    /// The line isn't shown.
    Hidden,
    /// None.
    Nowhere,
    /// The word with this number, from 0.
    Word(usize),
    Behind,
    At(Option<Span>),
}

/// A place, what was expected there, and what is likely.
#[derive(Clone, Copy)]
pub(crate) struct Advice<'a> {
    pub(crate) mark: Mark,
    pub(crate) expected: Said<'a>,
    pub(crate) likely: Said<'a>,
}

pub(crate) fn advise<'a>(mark: Mark, expected: Said<'a>, likely: Said<'a>) -> Advice<'a> {
    Advice {
        mark,
        expected,
        likely,
    }
}

/// Adds what is said of a line.
pub(crate) fn put(page: &mut Page, line: &[u8], given: &Advice<'_>) -> Result<(), AllocError> {
    match given.mark {
        Mark::Hidden => {}
        Mark::Nowhere => page.quote(line, None)?,
        Mark::Word(number) => page.quote(line, span_of_word(line, number))?,
        Mark::Behind => page.quote(line, Some(span_behind(line)))?,
        Mark::At(span) => page.quote(line, span)?,
    }
    put_said(page, b"expected ", given.expected)?;
    put_said(page, b"likely   ", given.likely)
}

pub(crate) fn put_said<'a>(
    page: &mut Page,
    label: &'a [u8],
    said: Said<'a>,
) -> Result<(), AllocError> {
    if said.front.is_empty() {
        return Ok(());
    }
    page.say(
        label,
        &[
            said.front,
            shown(said.word),
            said.middle,
            shown(said.other),
            said.back,
        ],
    )
}

/// What stands behind a word and `=` in a list with bars between.
pub(crate) fn entry_of<'a>(list: &'a [u8], word: &[u8]) -> Option<&'a [u8]> {
    for entry in list.split(|byte| *byte == b'|') {
        if let Some([b'=', said @ ..]) = entry.strip_prefix(word) {
            return Some(said);
        }
    }
    None
}

/// What stands behind the first sign of a list that a word has in it: signs and what is said of them have `=` between, and entries
/// bars.
pub(crate) fn entry_in<'a>(list: &'a [u8], word: &[u8]) -> Option<&'a [u8]> {
    for entry in list.split(|byte| *byte == b'|') {
        let mut parts = entry.splitn(2, |byte| *byte == b'=');
        if let Some(sign) = parts.next() {
            if ror_show_hints::has(word, sign) {
                return parts.next();
            }
        }
    }
    None
}

/// The word that is near to another one, where they differ in capital and small letters alone.
pub(crate) fn in_capitals<'a>(near: Option<&'a [u8]>, word: &[u8]) -> Option<&'a [u8]> {
    match near {
        Some(near) if near.eq_ignore_ascii_case(word) => Some(near),
        _ => None,
    }
}
