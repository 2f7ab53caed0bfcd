//! A sentence behind a label, in lines of at most 120 columns.

ghost use Rattle.std.specs.Prelude.{◌≡◌, ◌≢◌, ◌++◌, [], ◌∷◌, nat_lt, true, if◌then◌else◌, IfOk, OnOk};
ghost use Rattle.ror_text.specs.SpacedLines.{spaced_words};
ghost use Rattle.ror_show_hints.specs.Forms as spec;
ghost use Rattle.ror_show_hints.specs.Forms.{IsSaid};

use itoa::Buffer;
use ror_text::lines::is_utf8;
use ror_text::spaced::Words;
use std::alloc::{AllocError, Global};

/// What a line has left behind nine columns.
const ROOM: usize = 110;

/// A line with a label of nine columns and what these pieces say, which goes on below itself where it is too long. In the place of what
/// is no character of a line stands a question mark or a blank.
///
/// # Errors
///
/// Only want of memory.
pub fn labelled(alloc: Global, label: &[u8], pieces: &[&[u8]]) -> Result<Vec<u8>, AllocError>
    ensures { IfOk result (λ text. IsSaid label.now text.items) }
{
    let sentence = plain(alloc, pieces)?;
    wrapped(alloc, label, &sentence)
}

/// The same, with the number of a line of a file before what is said of it.
///
/// # Errors
///
/// Only want of memory.
pub fn numbered(
    alloc: Global,
    label: &[u8],
    line: u32,
    pieces: &[&[u8]],
) -> Result<Vec<u8>, AllocError>
    ensures { IfOk result (λ text. IsSaid label.now text.items) }
{
    let sentence = of_line(alloc, line, pieces)?;
    wrapped(alloc, label, &sentence)
}

/// The number of a line, and what is said of it.
fn of_line(alloc: Global, line: u32, pieces: &[&[u8]]) -> Result<Vec<u8>, AllocError>
    ensures { IfOk result (λ text. spec.is_one_line text.items ≡ true) }
{
    let mut digits = Buffer::new();
    let mut sentence = plain(alloc, &[b"line ", digits.format(line).as_bytes(), b": "])?;
    write_all_plain(&mut sentence, pieces)?;
    Ok(sentence)
}

/// A label and the words of a sentence, in as many lines as they need.
fn wrapped(alloc: Global, label: &[u8], sentence: &[u8]) -> Result<Vec<u8>, AllocError>
    requires { spec.is_one_line sentence.now ≡ true }
    ensures { IfOk result (λ text. IsSaid label.now text.items) }
{
    let mut text = Vec::from_slice(alloc, label)?;
    write_words(&mut text, sentence)?;
    text.extend_from_slice(b"\n")?;
    Ok(text)
}

fn write_words(text: &mut Vec<u8>, sentence: &[u8]) -> Result<(), AllocError>
    ensures { OnOk result (text.new.items
        ≡ text.old.items ++ spec.flowed 110 (spaced_words sentence.now)) }
{
    let mut room = ROOM;
    let mut left = Words::of(sentence);
    'words: while let Some((word, rest)) = left.next() {
        let behind = write_word(text, room, word)?;
        room = behind;
        left = rest;
    }
    Ok(())
}

/// Adds a blank and a word, on a new line with a margin where the line has not that much left, and gives what is left then.
fn write_word(text: &mut Vec<u8>, room: usize, word: &[u8]) -> Result<usize, AllocError>
    ensures text { OnOk result (text.new.items ≡ text.old.items ++ spec.next_word room word.now) }
    ensures room { IfOk result (λ left. left ≡ spec.next_room room word.now) }
{
    let begun = begin_word(text, room, columns(word))?;
    text.push(b' ')?;
    text.extend_from_slice(word)?;
    Ok(begun.saturating_sub(columns(word)).saturating_sub(1))
}

/// Begins a new line with a margin, where a line has not so many columns and one left, and gives what is left.
fn begin_word(text: &mut Vec<u8>, room: usize, needed: usize) -> Result<usize, AllocError>
    ensures text { OnOk result (text.new.items
        ≡ text.old.items ++ (if nat_lt needed room then [] else 10 ∷ spec.margin)) }
    ensures room { IfOk result (λ left. left ≡ (if nat_lt needed room then room else 110)) }
{
    if needed < room {
        return Ok(room);
    }
    text.extend_from_slice(b"\n         ")?;
    Ok(ROOM)
}

/// Pieces one behind the other, in characters of a line.
pub(crate) fn plain(alloc: Global, pieces: &[&[u8]]) -> Result<Vec<u8>, AllocError>
    ensures { IfOk result (λ text. spec.is_one_line text.items ≡ true) }
{
    let mut text = Vec::new(alloc);
    write_all_plain(&mut text, pieces)?;
    Ok(text)
}

fn write_all_plain(text: &mut Vec<u8>, pieces: &[&[u8]]) -> Result<(), AllocError>
    requires { spec.is_one_line text.old.items ≡ true }
    ensures { OnOk result (spec.is_one_line text.new.items ≡ true) }
{
    'pieces: for piece in pieces {
        write_plain(text, piece)?;
    }
    Ok(())
}

/// Adds a piece, with a question mark or a blank in the place of what is no character of a line.
fn write_plain(text: &mut Vec<u8>, piece: &[u8]) -> Result<(), AllocError>
    requires { spec.is_one_line text.old.items ≡ true }
    ensures { OnOk result (spec.is_one_line text.new.items ≡ true) }
{
    let sound = is_utf8(piece);
    'bytes: for byte in piece {
        text.push(plain_byte(*byte, sound))?;
    }
    Ok(())
}

/// A byte of a text that is UTF-8 or isn't, as it is shown.
pub(crate) fn plain_byte(byte: u8, sound: bool) -> u8
    ensures { result ≢ 10 }
{
    if byte == b'\t' || byte == b'\n' {
        return b' ';
    }
    if byte < 0x20 || byte == 0x7F || (byte >= 128 && !sound) {
        return b'?';
    }
    byte
}

/// How many columns a text takes, one for each character.
pub(crate) fn columns(text: &[u8]) -> usize
    ensures { result ≡ spec.columns text.now }
{
    text.iter().filter(|byte| begins_character(**byte)).count()
}

pub(crate) fn begins_character(byte: u8) -> bool
    ensures { result ≡ spec.begins_character byte }
{
    byte < 128 || byte >= 192
}
