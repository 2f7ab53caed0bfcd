//! A page of advice: lines of at most 120 columns, each with a label or below the one before it.

ghost use Rattle.std.specs.Prelude.{◌≡◌, [], ◌≤◌, length, OnOk};
ghost use Rattle.ror_show_hints.specs.declared.page.TheConstants.{MOST_SHOWN};
ghost use Rattle.ror_show_hints.specs.Hints.{Extends, GoesOn};

use crate::said::{begins_character, columns, labelled, numbered, plain, plain_byte};
use itoa::Buffer;
use ror_text::lines::is_utf8;
use std::alloc::{AllocError, Global};

/// How many columns of a line of a file are shown.
const SHOWN: usize = 110;

/// How many bytes of a word of a file are shown at most: an id is never longer.
pub const MOST_SHOWN: usize = 64;

/// A file that isn't read.
#[derive(Clone, Copy, Debug)]
pub struct File<'a> {
    /// Its name, as it was given.
    pub name: &'a str,
    /// Its bytes, or as many as were read.
    pub bytes: &'a [u8],
}

/// What is being written of a page.
#[derive(Drop)]
pub struct Page {
    pub alloc: Global,
    pub text: Vec<u8>,
}

/// Where something stands in a line: from which byte on, and how many bytes.
#[derive(Clone, Copy, Debug)]
pub struct Span {
    pub from: usize,
    pub length: usize,
}

impl Page {
    /// A page without lines.
    pub fn new(alloc: Global) -> Page
        ensures { result.text.items ≡ [] }
    {
        Page {
            alloc,
            text: Vec::new(alloc),
        }
    }

    /// Adds a line to a text, and behind it the page.
    pub fn put(self, text: &mut Vec<u8>, said: &[u8]) -> Result<(), AllocError>
        ensures { OnOk result (GoesOn text.old.items said.now text.new.items) }
    {
        text.extend_from_slice(said)?;
        text.extend_from_slice(self.text.as_slice())
    }

    /// Adds what was expected, of these pieces one behind the other.
    pub fn expected(&mut self, pieces: &[&[u8]]) -> Result<(), AllocError>
        ensures { OnOk result (Extends self.old.text.items self.new.text.items) }
    {
        self.say(b"expected ", pieces)
    }

    /// Adds what is likely, and what helps.
    pub fn likely(&mut self, pieces: &[&[u8]]) -> Result<(), AllocError>
        ensures { OnOk result (Extends self.old.text.items self.new.text.items) }
    {
        self.say(b"likely   ", pieces)
    }

    /// Adds a line with a label of nine columns, which goes on below itself where it is too long.
    pub fn say(&mut self, label: &[u8], pieces: &[&[u8]]) -> Result<(), AllocError>
        ensures { OnOk result (Extends self.old.text.items self.new.text.items) }
    {
        let lines = labelled(self.alloc, label, pieces)?;
        self.text.extend_from_slice(&lines)
    }

    /// Adds a line with a label of nine columns, the number of a line of a file, and what is said of it.
    pub fn numbered(&mut self, label: &[u8], line: u32, pieces: &[&[u8]]) -> Result<(), AllocError>
        ensures { OnOk result (Extends self.old.text.items self.new.text.items) }
    {
        let lines = numbered(self.alloc, label, line, pieces)?;
        self.text.extend_from_slice(&lines)
    }

    /// Adds the name of a file that is at fault as a whole.
    pub fn place(&mut self, name: &str) -> Result<(), AllocError>
        ensures { OnOk result (Extends self.old.text.items self.new.text.items) }
    {
        let mut head = Vec::from_slice(self.alloc, b"\n")?;
        head.extend_from_slice(&plain(self.alloc, &[clipped(name.as_bytes(), 90)])?)?;
        head.extend_from_slice(b":\n")?;
        self.text.extend_from_slice(&head)
    }

    /// Adds the name of a file, and the number of a line.
    pub fn numbered_place(&mut self, name: &str, line: u32) -> Result<(), AllocError>
        ensures { OnOk result (Extends self.old.text.items self.new.text.items) }
    {
        let mut digits = Buffer::new();
        let place = plain(
            self.alloc,
            &[
                clipped(name.as_bytes(), 90),
                b", line ",
                digits.format(line).as_bytes(),
            ],
        )?;
        let mut head = Vec::from_slice(self.alloc, b"\n")?;
        head.extend_from_slice(&place)?;
        head.extend_from_slice(b":\n")?;
        self.text.extend_from_slice(&head)
    }

    /// Adds a line's text, and below it the mark of a place in it.
    pub fn quote(&mut self, line: &[u8], span: Option<Span>) -> Result<(), AllocError>
        ensures { OnOk result (Extends self.old.text.items self.new.text.items) }
    {
        let lines = quoted(self.alloc, line, span)?;
        self.text.extend_from_slice(&lines)
    }
}

/// A line's text, and below it the mark of a place in it.
fn quoted(alloc: Global, line: &[u8], span: Option<Span>) -> Result<Vec<u8>, AllocError> {
    let before = match span {
        Some(span) => columns(front(line, span.from)),
        None => 0,
    };
    let skip = if before > 70 { before - 40 } else { 0 };
    let mut text = Vec::new(alloc);
    show(&mut text, line, skip)?;
    if let Some(span) = span {
        mark(&mut text, before.saturating_sub(skip), width_of(line, span))?;
    }
    Ok(text)
}

/// Adds a line's text from a column on, as far as there is room.
fn show(text: &mut Vec<u8>, line: &[u8], skip: usize) -> Result<(), AllocError> {
    let sound = is_utf8(line);
    let mut column: usize = 0;
    text.extend_from_slice(if skip > 0 { b" .. " } else { b"    " })?;
    for byte in line {
        if begins_character(*byte) {
            column = column.saturating_add(1);
        }
        if column > skip && column <= skip.saturating_add(SHOWN) {
            text.push(plain_byte(*byte, sound))?;
        }
    }
    let is_cut = column > skip.saturating_add(SHOWN);
    text.extend_from_slice(if is_cut { b" ..\n".as_slice() } else { b"\n" })
}

/// Adds a mark behind so many columns.
fn mark(text: &mut Vec<u8>, before: usize, width: usize) -> Result<(), AllocError> {
    text.extend_from_slice(b"    ")?;
    for _ in 0..before {
        text.push(b' ')?;
    }
    for _ in 0..width {
        text.push(b'^')?;
    }
    text.push(b'\n')?;
    Ok(())
}

/// How wide the mark of a place is.
fn width_of(line: &[u8], span: Span) -> usize {
    let marked = match line.get(span.from..) {
        Some(rest) => columns(front(rest, span.length)),
        None => 0,
    };
    marked.max(1).min(40)
}

/// The first bytes of a text, so many or all.
fn front(text: &[u8], most: usize) -> &[u8]
    ensures whole { length text.now ≤ most → result.now ≡ text.now }
    ensures within { length result.now ≤ length text.now }
{
    if most < text.len() {
        &text[..most]
    } else {
        text
    }
}

/// A word of at most [`MOST_SHOWN`] bytes as it is; of a longer one a front, and which one isn't promised.
pub fn shown(word: &[u8]) -> &[u8]
    ensures whole { length word.now ≤ MOST_SHOWN → result.now ≡ word.now }
    ensures within { length result.now ≤ length word.now }
{
    clipped(word, MOST_SHOWN)
}

/// A text, or its front of so many bytes or a few less, which ends where a character ends.
fn clipped(text: &[u8], most: usize) -> &[u8]
    ensures whole { length text.now ≤ most → result.now ≡ text.now }
    ensures within { length result.now ≤ length text.now }
{
    if text.len() <= most || !is_utf8(text) {
        return front(text, most);
    }
    for less in 0..4usize {
        let part = front(text, most.saturating_sub(less));
        if is_utf8(part) {
            return part;
        }
    }
    front(text, most)
}
