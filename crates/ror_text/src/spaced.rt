//! Lines of a text with one spelling: words joined by single spaces, and one line feed.

ghost use Rattle.std.specs.Prelude.{◌≡◌, ◌==◌, ◌<◌, ◌≤◌, [], ◌∷◌, length, map, nat_le, IfOk, IfSome, MatchOption, option_map, position};
ghost use Rattle.ror_text.specs.Cursor.{cursor_at, line_words, line_after};
ghost use Rattle.ror_text.specs.SpacedLines as spec;

use crate::lines::line_end;
use std::alloc::{AllocError, Global};
use std::marker::Model;

/// The bytes before the first line feed, and those after it, if there is one.
pub fn split_line(bytes: &[u8]) -> Option<(&[u8], &[u8])>
    ensures { MatchOption result (spec.split_line bytes.now ≡ None)
        (λ x. spec.split_line bytes.now ≡ Some (x.0.now, x.1.now)) }
{
    let end = line_end(bytes)?;
    Some((&bytes[..end], &bytes[end + 1..]))
}

/// The words of a line, cut at each single space: two spaces have an empty word between them.
pub fn split_spaced(alloc: Global, line: &[u8]) -> Result<Vec<&[u8]>, AllocError>
    ensures { IfOk result (λ ws. map (λ word. word.now) ws.items ≡ spec.spaced_words line.now) }
{
    line.split(|byte| *byte == b' ').collect(alloc)
}

/// The line at a place, and where the next line begins, if a line feed ends this one.
pub fn line_at(bytes: &[u8], from: usize) -> (&[u8], Option<usize>)
    requires { from ≤ length bytes.now }
    ensures words { spec.spaced_words result.0.now ≡ line_words (cursor_at bytes.now from) }
    ensures next { option_map (cursor_at bytes.now) result.1
        ≡ line_after (cursor_at bytes.now from) }
    ensures onward { IfSome result.1 (λ next. from < next) }
    ensures within { IfSome result.1 (λ next. next ≤ length bytes.now) }
{
    let rest = &bytes[from..];
    match split_line(rest) {
        Some((line, _)) => (line, Some(from + line.len() + 1)),
        None => (rest, None),
    }
}

/// The words of a line that are left to read. The line is cut at each single space, one word at a
/// time, so that no memory is needed for the words.
#[derive(Drop)]
pub struct Words<'a> {
    rest: Option<&'a [u8]>,
}

impl<'a> Model for Words<'a> {
    ghost use Rattle.std.specs.Prelude.{ℕ, List, [], option_map, unwrap_or};
    ghost use Rattle.ror_text.specs.SpacedLines.{spaced_words};

    ghost Value = { List (List ℕ) };

    ghost view = { λ words. unwrap_or (option_map (λ line. spaced_words line.now) words.rest) [] };
}

impl<'a> Words<'a> {
    /// All words of a line.
    pub fn of(line: &'a [u8]) -> Words<'a>
        ensures { result ≡ spec.spaced_words line.now }
    {
        Words { rest: Some(line) }
    }

    /// The first word, and the words after it.
    pub fn next(self) -> Option<(&'a [u8], Words<'a>)>
        ensures { MatchOption result (self.entry ≡ []) (λ x. self.entry ≡ x.0.now ∷ x.1) }
    {
        let line = self.rest?;
        match space(line) {
            Some(end) => Some((
                &line[..end],
                Words {
                    rest: Some(&line[end + 1..]),
                },
            )),
            None => Some((line, Words { rest: None })),
        }
    }

    /// Whether at most one word is left.
    pub fn is_at_most_one(&self) -> bool
        ensures { result ≡ nat_le (length self.now) 1 }
    {
        match self.rest {
            Some(line) => space(line).is_none(),
            None => true,
        }
    }
}

/// The place of the first space.
fn space(line: &[u8]) -> Option<usize>
    ensures { result ≡ position (λ byte. byte == 32) line.now }
{
    line.iter().position(|byte| *byte == b' ')
}
