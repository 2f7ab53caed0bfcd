//! Advice on the first line of a plain table.

use crate::said::{Advice, Mark, Said, advise, of, say};
use ror_show_hints::{Look, first_line_of, first_word, has};

/// What helps where the first line of a table is another one.
pub(crate) fn head_advice(bytes: &[u8], look: Look) -> Advice<'_> {
    advise(
        Mark::Word(0),
        say(
            b"`ror-table 1` (whole numbers), `ror-table 2` (decimals and ratios too) or `ror-table 3` (`linear` too)",
        ),
        likely_head(bytes, look),
    )
}

fn likely_head(bytes: &[u8], look: Look) -> Said<'_> {
    let line = first_line_of(bytes);
    match look {
        Look::Session => {
            say(b"this is a session: the table's name comes before the session's, TABLE SESSION")
        }
        Look::Report => {
            say(b"this is a report: the files are TABLE SESSION REPORT, in this order")
        }
        Look::Levels => {
            say(b"this is a file of levels: the files are TABLE SESSION LEVELS, in this order")
        }
        Look::Commas => say(
            b"a CSV file: `./ror_show import` makes a table of it, where each criterion has a direction, `min` or `max`",
        ),
        Look::Table => likely_first_line(first_word(line)),
        Look::Other => likely_other(line),
        _ => say(b""),
    }
}

/// What is likely of a first line that is nearly the one.
fn likely_first_line(word: &[u8]) -> Said<'_> {
    if word == b"ror-table".as_slice() {
        return say(
            b"another number, or something behind it: write `ror-table 1`, `2` or `3` and nothing else",
        );
    }
    if word.starts_with(b"ror-table") {
        return say(b"a blank is missing: write `ror-table 1`");
    }
    say(b"the first line is missing: write `ror-table 1` above this one")
}

fn likely_other(line: &[u8]) -> Said<'_> {
    let word = first_word(line);
    if starts_like_table(word) {
        return say(
            b"a first line that is spelt otherwise: write it in small letters, `ror-table 1`",
        );
    }
    if has(line, b"XMCDA") {
        return say(b"a file in XMCDA begins with `<`: take out what stands before it");
    }
    of(
        b"another file, or one without its first line; this one begins with `",
        word,
        b"`",
    )
}

/// Whether a line begins as a table does, in other letters.
fn starts_like_table(word: &[u8]) -> bool {
    match word.get(..9) {
        Some(front) => {
            front.eq_ignore_ascii_case(b"ror-table") || front.eq_ignore_ascii_case(b"ror_table")
        }
        None => word.eq_ignore_ascii_case(b"ror") || word.eq_ignore_ascii_case(b"table"),
    }
}
