//! The statements that come with a table, as lines of a session say them.

ghost use Rattle.std.specs.Prelude.{◌≡◌, ◌<◌, ◌++◌, [], length, option_copied, slice_get, OnOk};
ghost use Rattle.ror_show_kit.specs.Spoken.{four};
ghost use Rattle.ror_show_kit.specs.SpokenValues.{spoken};
ghost use Rattle.ror_show_sheet.specs.Pieces.{pieces};
ghost use Rattle.ror_show_sheet.specs.Sheet as spec;

use crate::layout::{columns, write_end, write_number};
use ror_show_kit::{Spoken, SpokenPair, spoken_of, write_spoken};
use ror_statement::Statement;
use ror_table::Table;
use std::alloc::AllocError;

/// Adds the statements with their numbers.
#[tactic(auto, unfolding(crate::specs::Sheet::statements_text))]
pub(crate) fn write_statements(
    text: &mut Vec<u8>,
    table: &Table,
    list: &[Statement],
) -> Result<(), AllocError>
    ensures { OnOk result (text.new.items ≡ text.old.items ++ spec.statements_text table.now list.now) }
{
    write_head(text, list)?;
    write_lines(text, table, list)?;
    write_end(text)
}

#[tactic(auto, unfolding(crate::specs::Sheet::statements_head))]
fn write_head(text: &mut Vec<u8>, list: &[Statement]) -> Result<(), AllocError>
    ensures { OnOk result (text.new.items ≡ text.old.items ++ spec.statements_head list.now) }
{
    write_number(text, statements_word(), list.len())
}

#[tactic(auto, unfolding(crate::specs::Sheet::statements_word))]
fn statements_word() -> &'static [u8]
    ensures { result.now ≡ spec.statements_word }
{
    b"statements that the file brings, at every desk: "
}

fn write_lines(text: &mut Vec<u8>, table: &Table, list: &[Statement]) -> Result<(), AllocError>
    ensures { OnOk result (text.new.items
        ≡ text.old.items ++ pieces (spec.statement_line table.now list.now) (length list.now)) }
{
    for place in 0..list.len() {
        write_line(text, table, list, place)?;
    }
    Ok(())
}

#[tactic(auto, unfolding(crate::specs::Sheet::statement_line))]
fn write_line(
    text: &mut Vec<u8>,
    table: &Table,
    list: &[Statement],
    place: usize,
) -> Result<(), AllocError>
    requires { place < length list.now }
    ensures { OnOk result (text.new.items ≡ text.old.items ++ spec.statement_line table.now list.now place) }
{
    write_number(text, b"\n  ", place + 1)?;
    text.extend_from_slice(b"  ")?;
    write_stated(text, table, statement_at(list, place))
}

fn statement_at(list: &[Statement], place: usize) -> Option<Statement>
    ensures { result ≡ slice_get list.now place }
{
    match list.get(place) {
        Some(statement) => Some(*statement),
        None => None,
    }
}

fn write_stated(
    text: &mut Vec<u8>,
    table: &Table,
    statement: Option<Statement>,
) -> Result<(), AllocError>
    ensures { OnOk result (text.new.items ≡ text.old.items ++ spec.stated table.now statement) }
{
    match statement {
        Some(statement) => write_said(text, spoken_of(table, statement)),
        None => Ok(()),
    }
}

fn write_said(text: &mut Vec<u8>, words: Spoken<'_>) -> Result<(), AllocError>
    ensures { OnOk result (text.new.items ≡ text.old.items ++ spec.said (spoken words.entry)) }
{
    write_spoken(text, gap(is_spread(words)), words)
}

/// A blank, or what begins a new line.
fn gap(anew: bool) -> &'static [u8]
    ensures { result.now ≡ spec.gap anew }
{
    if anew { b"\n       " } else { b" " }
}

/// Whether each name begins a new line, since one of them is wide.
fn is_spread(words: Spoken<'_>) -> bool
    ensures { result ≡ spec.is_spread (spoken words.entry) }
{
    match words {
        Spoken::Two(_, pair) => is_wide_pair(48, pair),
        Spoken::Four(_, p, q, on) => is_wide_four(p, q, on),
        Spoken::Class(_, _, _) => false,
    }
}

fn is_wide_four(p: SpokenPair<'_>, q: SpokenPair<'_>, on: Option<&[u8]>) -> bool
    ensures { result ≡ spec.is_spread (four [] p.entry.first.now p.entry.second.now q.entry.first.now
        q.entry.second.now (option_copied on.entry)) }
{
    if is_wide_on(on) {
        return true;
    }
    if is_wide_pair(16, p) {
        return true;
    }
    is_wide_pair(16, q)
}

fn is_wide_on(on: Option<&[u8]>) -> bool
    ensures { result ≡ spec.is_wide_on (option_copied on.entry) }
{
    match on {
        Some(criterion) => is_wide(16, criterion),
        None => false,
    }
}

fn is_wide_pair(most: usize, pair: SpokenPair<'_>) -> bool
    ensures { result ≡ spec.is_wide_pair most pair.entry.first.now pair.entry.second.now }
{
    if is_wide(most, pair.first) {
        return true;
    }
    is_wide(most, pair.second)
}

fn is_wide(most: usize, name: &[u8]) -> bool
    ensures { result ≡ spec.is_wide most name.now }
{
    most < columns(name)
}
