//! Words of statements, added to a text.

ghost use Rattle.std.specs.Prelude.{◌≡◌, ◌++◌, option_copied, OnOk};
ghost use Rattle.ror_show_kit.specs.Spoken as spec;
ghost use Rattle.ror_show_kit.specs.SpokenValues.{spoken};

use crate::spoken::{Spoken, SpokenPair, spoken_in, spoken_of};
use itoa::Buffer;
use ror_session::Named;
use ror_statement::Statement;
use ror_table::Table;
use std::alloc::AllocError;

/// Adds a statement in one line, by the ids of a table.
///
/// # Errors
///
/// Only want of memory.
pub fn write_statement(
    text: &mut Vec<u8>,
    table: &Table,
    statement: Statement,
) -> Result<(), AllocError>
    ensures { OnOk result (text.new.items ≡ text.old.items ++ spec.statement_text table.now statement) }
{
    write_spoken(text, b" ", spoken_of(table, statement))
}

/// Adds in one line what a session's line states, by its names.
///
/// # Errors
///
/// Only want of memory.
pub fn write_named(text: &mut Vec<u8>, named: &Named) -> Result<(), AllocError>
    ensures { OnOk result (text.new.items ≡ text.old.items ++ spec.named_text named.now) }
{
    write_spoken(text, b" ", spoken_in(named))
}

/// Adds what is said: the verb, and each name behind this gap, which is a blank or begins a new line. Classes stand behind blanks.
///
/// # Errors
///
/// Only want of memory.
pub fn write_spoken(text: &mut Vec<u8>, gap: &[u8], words: Spoken<'_>) -> Result<(), AllocError>
    ensures { OnOk result (text.new.items ≡ text.old.items ++ spec.spoken_text gap.now (spoken words.entry)) }
{
    match words {
        Spoken::Two(verb, pair) => write_two(text, gap, verb, pair),
        Spoken::Four(verb, p, q, on) => write_four(text, gap, verb, p, q, on),
        Spoken::Class(a, lowest, highest) => write_class(text, gap, a, lowest, highest),
    }
}

#[tactic(auto, unfolding(crate::specs::Spoken::spoken_text))]
fn write_two(
    text: &mut Vec<u8>,
    gap: &[u8],
    verb: &[u8],
    pair: SpokenPair<'_>,
) -> Result<(), AllocError>
    ensures { OnOk result (text.new.items
        ≡ text.old.items ++ spec.spoken_text gap.now (spec.two verb.now pair.entry.first.now pair.entry.second.now)) }
{
    text.extend_from_slice(verb)?;
    write_behind(text, gap, pair.first)?;
    write_behind(text, gap, pair.second)
}

#[tactic(auto, unfolding(crate::specs::Spoken::spoken_text))]
fn write_four(
    text: &mut Vec<u8>,
    gap: &[u8],
    verb: &[u8],
    p: SpokenPair<'_>,
    q: SpokenPair<'_>,
    on: Option<&[u8]>,
) -> Result<(), AllocError>
    ensures { OnOk result (text.new.items ≡ text.old.items ++ spec.spoken_text gap.now (spec.four
        verb.now p.entry.first.now p.entry.second.now q.entry.first.now q.entry.second.now (option_copied on.entry))) }
{
    write_two(text, gap, verb, p)?;
    write_two(text, gap, b"", q)?;
    write_on(text, gap, on)
}

/// Adds the criterion on which strengths are compared, if they are compared on one.
///
/// # Errors
///
/// Only want of memory.
pub fn write_on(text: &mut Vec<u8>, gap: &[u8], on: Option<&[u8]>) -> Result<(), AllocError>
    ensures { OnOk result (text.new.items
        ≡ text.old.items ++ spec.on_text gap.now (option_copied on.entry)) }
{
    match on {
        Some(criterion) => {
            text.extend_from_slice(gap)?;
            text.extend_from_slice(b"on ")?;
            text.extend_from_slice(criterion)
        }
        None => Ok(()),
    }
}

#[tactic(auto, unfolding(crate::specs::Spoken::spoken_text))]
fn write_class(
    text: &mut Vec<u8>,
    gap: &[u8],
    a: &[u8],
    lowest: u32,
    highest: u32,
) -> Result<(), AllocError>
    ensures { OnOk result (text.new.items
        ≡ text.old.items ++ spec.spoken_text gap.now (spec.classed a.now lowest highest)) }
{
    text.extend_from_slice(b"class")?;
    write_behind(text, gap, a)?;
    write_class_word(text, lowest)?;
    write_class_word(text, highest)
}

fn write_class_word(text: &mut Vec<u8>, class: u32) -> Result<(), AllocError>
    ensures { OnOk result (text.new.items ≡ text.old.items ++ spec.class_word class) }
{
    text.push(b' ')?;
    text.extend_from_slice(Buffer::new().format(class).as_bytes())
}

fn write_behind(text: &mut Vec<u8>, gap: &[u8], word: &[u8]) -> Result<(), AllocError>
    ensures { OnOk result (text.new.items ≡ text.old.items ++ spec.behind gap.now word.now) }
{
    text.extend_from_slice(gap)?;
    text.extend_from_slice(word)
}
