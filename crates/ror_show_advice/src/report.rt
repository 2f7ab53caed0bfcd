//! Advice on a report that is not accepted.

ghost use Rattle.std.specs.Prelude.{IfOk};
ghost use Rattle.ror_show_advice.specs.Apart.{StandsApart};

use crate::apart::apart;
use crate::said::{Advice, Mark, Said, advise, put, put_said, say};
use ror_show_hints::{
    File, Look, Page, advise_on_encoding, advise_on_look, first_word, has, line_at, look_of,
};
use std::alloc::{AllocError, Global};

/// Why a report is not accepted.
#[derive(Clone, Copy)]
pub enum ReportFault {
    /// The bytes are no UTF-8.
    NotUtf8,
    /// There are too many bytes.
    TooLong,
    /// The line with this number, from 1, is none of a report.
    Line(u32),
    /// A block says something else than these files.
    Block,
}

const CARRIAGE_RETURNS: &[u8] =
    b"lines that end with CR LF: keep the file as it was written, or `tr -d '\\r' < FILE`";

const CUT: &[u8] =
    b"the report was cut off, since its last line is no `end N`: write it anew by `ror replay`";

/// What helps against a report with these bytes that isn't accepted.
///
/// # Errors
///
/// Only want of memory.
pub fn report_advice(
    alloc: Global,
    file: File<'_>,
    fault: ReportFault,
) -> Result<Vec<u8>, AllocError>
    ensures { IfOk result (λ text. StandsApart text.items) }
{
    let mut page = Page::new(alloc);
    match fault {
        ReportFault::NotUtf8 => {
            page.place(file.name)?;
            advise_on_encoding(&mut page, file.bytes)?;
        }
        ReportFault::TooLong => {
            page.place(file.name)?;
            page.expected(&[b"at most 268,435,456 bytes: this is another file"])?;
        }
        ReportFault::Line(line) => {
            page.numbered_place(file.name, line)?;
            put_line(&mut page, file.bytes, line)?;
        }
        ReportFault::Block => {
            page.place(file.name)?;
            put_block(&mut page, file.bytes)?;
        }
    }
    Ok(apart(page))
}

/// Adds what helps where a line is none of a report.
fn put_line(page: &mut Page, bytes: &[u8], line: u32) -> Result<(), AllocError> {
    let text = line_at(bytes, line);
    if line != 1 {
        return put(page, text, &later_advice(bytes));
    }
    let look = look_of(bytes);
    put(page, text, &first_advice(bytes, look))?;
    if look != Look::Json {
        advise_on_look(page, look)?;
    }
    Ok(())
}

fn first_advice(bytes: &[u8], look: Look) -> Advice<'static> {
    advise(
        Mark::Word(0),
        say(b"`ror-report 1`, as `ror replay TABLE SESSION > REPORT` writes it"),
        likely_first(bytes, look),
    )
}

/// What is likely where the first line is another one.
fn likely_first(bytes: &[u8], look: Look) -> Said<'static> {
    if first_word(bytes) == b"ror-report".as_slice() {
        return say(CARRIAGE_RETURNS);
    }
    match look {
        Look::Json => say(b"a report in JSON: it is checked by `ror check-json`"),
        Look::Report => say(
            b"a report of another command, or of several desks: check it by that command's own check",
        ),
        Look::Session => {
            say(b"this is a session: the files are TABLE SESSION REPORT, in this order")
        }
        Look::Table | Look::Xml => {
            say(b"this is a table: the files are TABLE SESSION REPORT, in this order")
        }
        Look::Other | Look::Commas | Look::Levels => say(
            b"another file, or one without its first line: write the report anew by `ror replay`",
        ),
        _ => say(b""),
    }
}

fn later_advice(bytes: &[u8]) -> Advice<'static> {
    let likely: &[u8] = if has(bytes, b"\r\n") {
        CARRIAGE_RETURNS
    } else if is_cut(bytes) {
        CUT
    } else {
        b"the report was changed: write it anew by `ror replay`"
    };
    advise(
        Mark::Word(0),
        say(b"the next line of a report as it was written, letter by letter"),
        say(likely),
    )
}

/// Whether the last line of a report is missing.
fn is_cut(bytes: &[u8]) -> bool {
    let last = bytes.trim_ascii_end().rsplit(|byte| *byte == b'\n').next();
    match last {
        Some(line) => !line.starts_with(b"end "),
        None => true,
    }
}

/// Adds what helps where a report says something else than the files.
fn put_block(page: &mut Page, bytes: &[u8]) -> Result<(), AllocError> {
    page.expected(&[b"the report of just this table and this session"])?;
    if is_cut(bytes) {
        return page.likely(&[CUT]);
    }
    page.likely(&[
        b"a report of another session or table, or of one that was changed since: write it anew by `ror replay`",
    ])?;
    put_said(
        page,
        b"likely   ",
        say(
            b"or it was made with `--best-first` and is checked without it, or the other way round",
        ),
    )
}
