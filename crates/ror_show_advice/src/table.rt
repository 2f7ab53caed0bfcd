//! Advice on a table that isn't read.

ghost use Rattle.std.specs.Prelude.{IfOk};
ghost use Rattle.ror_show_advice.specs.Apart.{StandsApart};

use crate::apart::apart;
use crate::elements::put_elements;
use crate::head::head_advice;
use crate::said::{Advice, Mark, advise, put, say};
use crate::table_lines::{Line, line_advice, put_repeated, put_short};
use ror_show_hints::{
    File, Page, TABLE_WORDS, advise_on_encoding, advise_on_look, advise_on_odd, first_word,
    in_other_case, line_at, look_of, nearest, odd_in, without_mark,
};
use ror_table::{TableFault, TableKind, What};
use ror_text::lines::{split_words, word_at};
use std::alloc::{AllocError, Global};

/// What helps against a fault of a table with these bytes.
///
/// # Errors
///
/// Only want of memory.
pub fn table_advice(alloc: Global, file: File<'_>, fault: TableFault) -> Result<Vec<u8>, AllocError>
    ensures { IfOk result (λ text. StandsApart text.items) }
{
    let mut page = Page::new(alloc);
    if fault.line == 0 {
        page.place(file.name)?;
    } else {
        page.numbered_place(file.name, fault.line)?;
    }
    if first_word(without_mark(file.bytes)).starts_with(b"<") {
        put_elements(&mut page, file.bytes, fault)?;
    } else {
        put_plain(&mut page, file.bytes, fault)?;
    }
    Ok(apart(page))
}

fn put_plain(page: &mut Page, bytes: &[u8], fault: TableFault) -> Result<(), AllocError> {
    let text = line_at(bytes, fault.line);
    match fault.kind {
        TableKind::Form => put_head(page, bytes, text),
        TableKind::NotUtf8 => {
            page.quote(text, None)?;
            advise_on_encoding(page, bytes)
        }
        TableKind::BadLine
        | TableKind::BadNumber
        | TableKind::RepeatedId
        | TableKind::MissingPerformance => put_line(page, bytes, text, fault),
        _ => put(page, text, &whole_advice(fault)),
    }
}

/// Adds what helps where the first line is another one.
fn put_head(page: &mut Page, bytes: &[u8], text: &[u8]) -> Result<(), AllocError> {
    let look = look_of(bytes);
    put(page, text, &head_advice(bytes, look))?;
    advise_on_look(page, look)?;
    Ok(())
}

/// Adds what helps against a line behind the first one.
fn put_line(
    page: &mut Page,
    bytes: &[u8],
    text: &[u8],
    fault: TableFault,
) -> Result<(), AllocError> {
    if let Some(odd) = odd_in(text) {
        page.quote(text, Some(odd.span))?;
        return advise_on_odd(page, odd);
    }
    let words = split_words(page.alloc, text)?;
    let near = near_word(page.alloc, word_at(&words, 0))?;
    let line = Line::new(bytes, text, &words, fault.line, near);
    match fault.kind {
        TableKind::RepeatedId => put_repeated(page, bytes, &line),
        TableKind::MissingPerformance => put_short(page, &line),
        _ => put(page, text, &line_advice(&line, fault.kind)),
    }
}

fn near_word(alloc: Global, word: &[u8]) -> Result<Option<&'static [u8]>, AllocError> {
    match in_other_case(word, TABLE_WORDS.as_slice()) {
        Some(other) => Ok(Some(other)),
        None => nearest(alloc, word, TABLE_WORDS.as_slice()),
    }
}

/// What helps against a fault of the whole file.
pub(crate) fn whole_advice(fault: TableFault) -> Advice<'static> {
    let mark = if fault.line > 0 {
        Mark::Word(1)
    } else {
        Mark::Hidden
    };
    let said: &[u8] = match fault.kind {
        TableKind::Empty => {
            b"at least one criterion, `criterion ID max`, and one alternative, `alternative ID NUMBER ..`"
        }
        TableKind::TooLong => b"at most 16,777,216 bytes: this is another file",
        TableKind::TooMany(what) => most_of(what),
        TableKind::WideScale => {
            b"linear criteria of a common measure below 10^18: round the numbers, or leave `linear` out"
        }
        _ => b"",
    };
    advise(mark, say(said), say(b""))
}

fn most_of(what: What) -> &'static [u8] {
    match what {
        What::Alternatives => b"at most 200 alternatives: leave out those that others dominate",
        What::Criteria => b"at most 64 criteria",
        What::Steps => {
            b"at most 2,000 steps of all criteria: round a criterion to fewer levels, or make it `linear`"
        }
        What::Classes => b"at most 100 classes",
        What::Levels => b"elements at most 64 deep: this is another file",
        What::Statements => b"at most 200 comparisons and assignments: leave some out",
        What::Rows => b"comparisons and assignments of at most 2,000 rows: leave some out",
    }
}
