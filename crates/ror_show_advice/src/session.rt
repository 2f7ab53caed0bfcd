//! Advice on a session that isn't read.

ghost use Rattle.std.specs.Prelude.{IfOk};
ghost use Rattle.ror_show_advice.specs.Apart.{StandsApart};

use crate::apart::apart;
use crate::commands::{Line, QUESTIONS, command_advice};
use crate::said::{Advice, Mark, Said, advise, put, say};
use ror_session::SessionFault;
use ror_show_hints::{
    COMMANDS, File, Look, Page, advise_on_encoding, advise_on_look, advise_on_odd, first_line_of,
    in_other_case, line_at, look_of, nearest, odd_in,
};
use ror_text::lines::{split_words, word_at};
use std::alloc::{AllocError, Global};

/// What helps against a fault of a session with these bytes.
///
/// # Errors
///
/// Only want of memory.
pub fn session_advice(
    alloc: Global,
    file: File<'_>,
    fault: &SessionFault,
) -> Result<Vec<u8>, AllocError>
    ensures { IfOk result (λ text. StandsApart text.items) }
{
    let mut page = Page::new(alloc);
    match fault {
        SessionFault::BadLine(line) => {
            page.numbered_place(file.name, *line)?;
            put_bad_line(&mut page, file.bytes, line_at(file.bytes, *line))?;
        }
        SessionFault::TooManyDesks(line) => {
            page.numbered_place(file.name, *line)?;
            put(
                &mut page,
                line_at(file.bytes, *line),
                &advise(
                    Mark::Word(0),
                    say(b"at most 64 desks: use a desk for each judge, by one name"),
                    say(b""),
                ),
            )?;
        }
        SessionFault::NotUtf8 => {
            page.place(file.name)?;
            advise_on_encoding(&mut page, file.bytes)?;
        }
        SessionFault::TooManyLines => {
            page.place(file.name)?;
            page.expected(&[b"at most 100,000 lines: split the session"])?;
        }
        SessionFault::TooLong => {
            page.place(file.name)?;
            page.expected(&[b"at most 16,777,216 bytes: split the session"])?;
        }
        SessionFault::Memory => {}
    }
    Ok(apart(page))
}

/// Adds what helps against a line that is no command.
fn put_bad_line(page: &mut Page, bytes: &[u8], text: &[u8]) -> Result<(), AllocError> {
    let look = look_of(bytes);
    if is_first(bytes, text) && is_other_file(look) {
        put(page, text, &other_file_advice(look))?;
        advise_on_look(page, look)?;
        return Ok(());
    }
    if let Some(odd) = odd_in(text) {
        page.quote(text, Some(odd.span))?;
        return advise_on_odd(page, odd);
    }
    let words = split_words(page.alloc, text)?;
    let from = if word_at(&words, 0).starts_with(b"@") {
        1
    } else {
        0
    };
    let command = near_command(page.alloc, word_at(&words, from))?;
    let question = near_question(page.alloc, word_at(&words, from + 1))?;
    let line = Line {
        words: words.as_slice(),
        from,
        command,
        question,
    };
    put(page, text, &line_advice(&line))
}

fn near_command(alloc: Global, word: &[u8]) -> Result<Option<&'static [u8]>, AllocError> {
    match in_other_case(word, COMMANDS.as_slice()) {
        Some(other) => Ok(Some(other)),
        None => nearest(alloc, word, COMMANDS.as_slice()),
    }
}

fn near_question(alloc: Global, word: &[u8]) -> Result<Option<&'static [u8]>, AllocError> {
    match in_other_case(word, QUESTIONS.as_slice()) {
        Some(other) => Ok(Some(other)),
        None => nearest(alloc, word, QUESTIONS.as_slice()),
    }
}

/// Whether a line is the first one that says something.
fn is_first(bytes: &[u8], text: &[u8]) -> bool {
    first_line_of(bytes).trim_ascii_end() == text.trim_ascii_end()
}

/// Whether a file looks like no session.
fn is_other_file(look: Look) -> bool {
    !matches!(
        look,
        Look::Session | Look::Other | Look::Commas | Look::Empty
    )
}

fn other_file_advice(look: Look) -> Advice<'static> {
    advise(
        Mark::Word(0),
        say(b"a command, as `prefer A B` or `ask necessary A B`"),
        likely_file(look),
    )
}

fn likely_file(look: Look) -> Said<'static> {
    match look {
        Look::Report => {
            say(b"this is a report: the files are TABLE SESSION REPORT, in this order")
        }
        Look::Levels => {
            say(b"this is a file of levels: the files are TABLE SESSION LEVELS, in this order")
        }
        Look::Table | Look::Xml => {
            say(b"this is a table: the table's name comes before the session's, TABLE SESSION")
        }
        _ => say(b""),
    }
}

/// What helps against a line that is no command, whose first word may name a desk.
fn line_advice<'a>(line: &Line<'a>) -> Advice<'a> {
    let desk = word_at(line.words, 0);
    if line.from == 0 || (line.words.len() > 1 && desk.len() > 1 && desk.len() <= 65) {
        return command_advice(line);
    }
    if desk.len() == 1 {
        return advise(
            Mark::Word(0),
            say(b"a desk's name right behind `@`, as `@anna prefer A B`"),
            say(b"a blank behind `@`: take it out"),
        );
    }
    if desk.len() > 65 {
        return advise(
            Mark::Word(0),
            say(b"a desk's name of at most 64 bytes"),
            say(b""),
        );
    }
    advise(
        Mark::Word(0),
        say(b"a command behind the desk, as `@anna prefer A B`"),
        say(b"a desk is named in each of its lines, and isn't opened by a line of its own"),
    )
}
