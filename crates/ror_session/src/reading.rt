//! The reader of a session's text.

ghost use Rattle.std.specs.Prelude.{◌≡◌, ◌<◌, ◌≤◌, ◌++◌, [], ◌∷◌, Ok, true, length, map, IfOk, IfSome};
ghost use Rattle.std.specs.List.{AllByRecursion};
ghost use Rattle.std.specs.Str.{IsUtf8, is_utf8};
ghost use Rattle.ror_text.specs.declared.lines.TheConstants.{MOST_TEXT_BYTES};
ghost use Rattle.ror_text.specs.Lines.{numbered_lines};
ghost use Rattle.ror_text.specs.Reading.{Gives, read_all};
ghost use Rattle.ror_session.specs.declared.limits.TheConstants.{MOST_DESKS};
ghost use Rattle.ror_session.specs.Command.{session_fault};
ghost use Rattle.ror_session.specs.Session as spec;
ghost use Rattle.ror_session.specs.Session.{contents, add_line, empty_session, session_of};
ghost use Rattle.ror_session.specs.Sound.{IsSound};

use crate::command::{read_command, text_of, words_after};
use crate::limits::{MOST_DESK_NAME_BYTES, MOST_DESKS, MOST_LINES};
use crate::session::{Command, Line, Session, SessionFault};
use ror_text::lines::{MOST_TEXT_BYTES, has_control, is_utf8, line_count, next_line, word_at};
use ror_text::reading::refuse_if;
use ror_text::{Items, Text};
use std::alloc::Global;

/// What a line says by itself: its number, the name of its desk, and its command.
#[derive(Drop)]
pub(crate) struct Said {
    number: u32,
    desk: Text,
    command: Command,
}

/// Whether the first word names a desk.
fn has_desk_word(words: &[&[u8]]) -> bool
    requires utf8 { AllByRecursion IsUtf8 (map (λ word. word.now) words.now) }
    ensures { result ≡ spec.has_desk_word (map (λ word. word.now) words.now) }
{
    word_at(words, 0).first() == Some(&b'@')
}

/// The name of a line's desk.
#[tactic(auto, unfolding(crate::specs::Session::desk_of))]
fn desk_of(alloc: Global, line: u32, words: &[&[u8]]) -> Result<Text, SessionFault>
    requires utf8 { AllByRecursion IsUtf8 (map (λ word. word.now) words.now) }
    ensures { Gives (λ name. name) session_fault result
        (spec.desk_of line (map (λ word. word.now) words.now)) }
{
    if !has_desk_word(words) {
        return Ok(Text::from(String::new(alloc)));
    }
    let word = word_at(words, 0);
    refuse_if(word.len() == 1, SessionFault::BadLine(line))?;
    refuse_if(
        word.len() > MOST_DESK_NAME_BYTES + 1,
        SessionFault::BadLine(line),
    )?;
    Ok(text_of(alloc, &word[1..])?)
}

/// The words of a line's command.
fn command_words<'a, 'b>(words: &'b [&'a [u8]]) -> &'b [&'a [u8]]
    requires utf8 { AllByRecursion IsUtf8 (map (λ word. word.now) words.now) }
    ensures command { map (λ word. word.now) result.now
        ≡ spec.command_words (map (λ word. word.now) words.now) }
    ensures utf8 { AllByRecursion IsUtf8 (map (λ word. word.now) result.now) }
{
    if has_desk_word(words) {
        words_after(words, 1)
    } else {
        words
    }
}

/// What a line says.
#[tactic(auto, unfolding(crate::specs::Session::said_of))]
fn read_said(alloc: Global, line: u32, words: &[&[u8]]) -> Result<Said, SessionFault>
    requires utf8 { AllByRecursion IsUtf8 (map (λ word. word.now) words.now) }
    ensures { Gives (λ said. said) session_fault result
        (spec.said_of line (map (λ word. word.now) words.now)) }
{
    refuse_if(has_control(words), SessionFault::BadLine(line))?;
    let desk = desk_of(alloc, line, words)?;
    let command = read_command(alloc, line, command_words(words))?;
    Ok(Said {
        number: line,
        desk,
        command,
    })
}

/// The place of the desk with this name, if there is one.
fn find_desk(desks: &[Text], name: &Text) -> Option<usize>
    ensures place { result ≡ spec.find_desk desks.now name.now }
    ensures within { IfSome result (λ place. place < length desks.now) }
{
    desks.iter().position(|desk| name == desk)
}

/// The place of the desk with this name, which is added after the others where there is none yet.
#[tactic(auto, unfolding(crate::specs::Session::seat))]
fn seat(desks: &mut Vec<Text>, line: u32, name: Text) -> Result<u32, SessionFault>
    requires few { length desks.old.items ≤ MOST_DESKS }
    ensures exact { Gives (λ place. (place, desks.new.items)) session_fault result
        (spec.seat line desks.old.items name) }
    ensures few { length desks.new.items ≤ MOST_DESKS }
{
    if let Some(place) = find_desk(desks, &name) {
        return Ok(place as u32);
    }
    refuse_if(desks.len() >= MOST_DESKS, SessionFault::TooManyDesks(line))?;
    let place = desks.len() as u32;
    desks.push(name)?;
    Ok(place)
}

/// A session that is being read.
#[derive(Drop)]
pub(crate) struct Draft {
    desks: Vec<Text>,
    lines: Vec<Line>,
}

impl Draft {
    /// The session of all lines.
    fn finish(self) -> Session
        ensures { result ≡ contents self }
    {
        Session {
            desks: Items::from(self.desks),
            lines: Items::from(self.lines),
        }
    }
}

/// Adds a line.
fn push_line(lines: &mut Vec<Line>, line: Line) -> Result<(), SessionFault>
    ensures { Gives (λ _. lines.new.items) session_fault result (Ok (lines.old.items ++ line ∷ [])) }
{
    lines.push(line)?;
    Ok(())
}

/// Adds what the next line says.
#[tactic(auto, unfolding(crate::specs::Session::add_said))]
fn add_said(draft: &mut Draft, said: Said) -> Result<(), SessionFault>
    requires few { length draft.old.desks.items ≤ MOST_DESKS }
    ensures exact { Gives (λ _. contents draft.new) session_fault result
        (spec.add_said (contents draft.old) said) }
    ensures few { length draft.new.desks.items ≤ MOST_DESKS }
{
    match seat(&mut draft.desks, said.number, said.desk) {
        Ok(desk) => push_line(
            &mut draft.lines,
            Line {
                number: said.number,
                desk,
                command: said.command,
            },
        ),
        Err(fault) => {
            drop(said.command);
            Err(fault)
        }
    }
}

/// The session of the lines that are not passed over.
fn read_lines(alloc: Global, bytes: &[u8]) -> Result<Draft, SessionFault>
    requires utf8 { is_utf8 bytes.now ≡ true }
    requires short { length bytes.now ≤ MOST_TEXT_BYTES }
    ensures exact { Gives contents session_fault result
        (read_all add_line empty_session (numbered_lines bytes.now)) }
{
    let mut draft = Draft {
        desks: Vec::new(alloc),
        lines: Vec::new(alloc),
    };
    let mut rest = bytes;
    let mut number: u32 = 1;
    'lines: while let Some(line) = next_line(alloc, number, rest)? {
        let said = read_said(alloc, line.number, &line.words)?;
        add_said(&mut draft, said)?;
        number = line.number + 1;
        rest = line.rest;
    }
    Ok(draft)
}

/// Reads a session: the session, or the first fault of the text.
#[tactic(auto, unfolding(crate::specs::Session::session_of))]
pub fn read_session(alloc: Global, bytes: &[u8]) -> Result<Session, SessionFault>
    ensures exact { Gives (λ session. session) session_fault result (session_of bytes.now) }
    ensures sound { IfOk result IsSound }
{
    refuse_if(bytes.len() > MOST_TEXT_BYTES, SessionFault::TooLong)?;
    refuse_if(!is_utf8(bytes), SessionFault::NotUtf8)?;
    refuse_if(line_count(bytes) > MOST_LINES, SessionFault::TooManyLines)?;
    let draft = read_lines(alloc, bytes)?;
    Ok(draft.finish())
}
