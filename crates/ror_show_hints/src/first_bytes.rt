//! What a whole file looks like, by its first bytes and words.

ghost use Rattle.std.specs.Prelude.{◌≡◌, true, OnOk};
ghost use Rattle.std.specs.Char.{is_ascii_whitespace};
ghost use Rattle.std.specs.List.{list_all};
ghost use Rattle.ror_show_hints.specs.declared.first_bytes.Look.TheVariants.{Empty};
ghost use Rattle.ror_show_hints.specs.Hints.{Extends};
ghost use Rattle.ror_show_hints.specs.Hints as spec;

use crate::names::{is_command, is_table_word};
use crate::page::Page;
use crate::words::{first_word, has};
use ror_text::lines::first_line;
use std::alloc::AllocError;

/// What a file looks like.
#[derive(Clone, Copy, Debug, PartialEq, Eq)]
pub enum Look {
    /// Nothing, or blanks alone.
    Empty,
    /// It has a byte order mark first.
    Mark,
    Utf16,
    /// It is packed, as the files of spreadsheets are.
    Packed,
    Pdf,
    /// Its lines end with carriage returns alone.
    CarriageReturns,
    Json,
    Xml,
    Table,
    Session,
    Report,
    Levels,
    /// It has values between commas, or between semicolons.
    Commas,
    Other,
}

/// The text behind a byte order mark, if it has one.
#[tactic(auto, unfolding(crate::specs::Hints::without_mark))]
pub fn without_mark(bytes: &[u8]) -> &[u8]
    ensures { result.now ≡ spec.without_mark bytes.now }
{
    match bytes {
        [0xEF, 0xBB, 0xBF, rest @ ..] => rest,
        _ => bytes,
    }
}

/// What a file looks like. It is a guess, by the first bytes and words, and promised is only that blanks are `Empty`.
pub fn look_of(bytes: &[u8]) -> Look
    ensures { list_all is_ascii_whitespace bytes.now ≡ true → result ≡ Empty }
{
    if bytes.iter().all(|byte| byte.is_ascii_whitespace()) {
        return Look::Empty;
    }
    if let Some(look) = look_of_binary(bytes) {
        return look;
    }
    if without_mark(bytes).len() < bytes.len() {
        return Look::Mark;
    }
    if bytes.contains(&b'\r') && !bytes.contains(&b'\n') {
        return Look::CarriageReturns;
    }
    look_of_text(bytes)
}

/// What a file looks like that is no plain text.
fn look_of_binary(bytes: &[u8]) -> Option<Look> {
    match bytes {
        [b'P', b'K', 3, 4, ..] | [0x1F, 0x8B, ..] | [0xD0, 0xCF, 0x11, 0xE0, ..] => {
            Some(Look::Packed)
        }
        [b'%', b'P', b'D', b'F', ..] => Some(Look::Pdf),
        [0xFF, 0xFE, ..] | [0xFE, 0xFF, ..] | [0, _, ..] | [_, 0, ..] => Some(Look::Utf16),
        _ => None,
    }
}

/// What a text looks like, by its first word that is in no comment.
fn look_of_text(bytes: &[u8]) -> Look {
    let word = first_word(first_line_of(bytes));
    match word.first() {
        Some(b'{') | Some(b'[') => return Look::Json,
        Some(b'<') => return Look::Xml,
        Some(b'@') => return Look::Session,
        _ => {}
    }
    if word.starts_with(b"ror-table") || is_table_word(word) {
        Look::Table
    } else if word == b"ror-levels".as_slice() {
        Look::Levels
    } else if word.starts_with(b"ror-") {
        Look::Report
    } else if is_command(word) {
        Look::Session
    } else if has(first_line_of(bytes), b",") || has(first_line_of(bytes), b";") {
        Look::Commas
    } else {
        Look::Other
    }
}

/// The first line that has a word and is no comment; an empty one where there is none.
pub fn first_line_of(bytes: &[u8]) -> &[u8]
    ensures { result.now ≡ spec.first_line_of bytes.now }
{
    let mut rest = bytes;
    'lines: while let Some((line, after)) = first_line(rest) {
        if is_said(line) {
            return line;
        }
        rest = after;
    }
    &[]
}

/// Whether a line has a word and is no comment.
fn is_said(line: &[u8]) -> bool
    ensures { result ≡ spec.is_said line.now }
{
    match first_word(line) {
        [first, ..] => *first != b'#',
        [] => false,
    }
}

/// Adds what is likely where bytes are no UTF-8.
pub fn advise_on_encoding(page: &mut Page, bytes: &[u8]) -> Result<(), AllocError>
    ensures { OnOk result (Extends page.old.text.items page.new.text.items) }
{
    page.expected(&[b"a text in UTF-8"])?;
    match look_of_binary(bytes) {
        Some(look) => {
            advise_on_look(page, look)?;
            Ok(())
        }
        None => page.likely(&[
            b"the file is in Latin-1 (Windows-1252): save it as UTF-8, or `iconv -f WINDOWS-1252 -t UTF-8 FILE`",
        ]),
    }
}

/// Adds what is likely where a file is no plain text of lines, and says whether it is none.
pub fn advise_on_look(page: &mut Page, look: Look) -> Result<bool, AllocError>
    ensures { OnOk result (Extends page.old.text.items page.new.text.items) }
{
    let said: &[u8] = match look {
        Look::Empty => b"the file is empty: what should have written it failed, or wrote elsewhere",
        Look::Mark =>
            b"a byte order mark stands before the first line: save as UTF-8 without BOM, or `tail -c +4 FILE`",
        Look::Utf16 =>
            b"the file is in UTF-16: save it as UTF-8, or `iconv -f UTF-16 -t UTF-8 FILE`",
        Look::Packed =>
            b"a spreadsheet or a zip, and no text: export it as text, and write its lines in the form of ror",
        Look::Pdf => b"a PDF, and no text: write its lines in the form of ror",
        Look::CarriageReturns =>
            b"the lines end with CR alone: save with LF (Unix), or `tr '\\r' '\\n' < FILE`",
        Look::Json => b"this is JSON, which is read in no place of a table or a session",
        _ => return Ok(false),
    };
    page.likely(&[said])?;
    Ok(true)
}
