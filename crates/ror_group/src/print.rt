//! The printer of an entry's text.

ghost use Rattle.std.specs.Prelude.{◌≡◌, ◌<◌, ◌++◌, length, IfOk, OnOk};
ghost use Rattle.std.specs.List.{AllByRecursion};
ghost use Rattle.ror_report.specs.Printing.{HasValidQuestion, HasNarrowVerdict};
ghost use Rattle.ror_group.specs.Text.{entry_text, group_text, pair_text};

use crate::entry::Entry;
use crate::quartet::Quartet;
use ror_proof::names::Name;
use ror_proof::write::{end_line, write_alternative};
use ror_report::write_answers;
use ror_table::Table;
use std::alloc::{AllocError, Global};

/// The text of an entry. It asks that the alternatives are of the table, that each answer is to a question that is valid
/// for it, and that every number of a certificate is of absolute value at most 2^127 - 1, so that the text is read again.
#[tactic(auto, unfolding(crate::specs::Text::entry_text))]
pub fn print_entry(alloc: Global, table: &Table, x: &Entry) -> Result<Vec<u8>, AllocError>
    requires first { x.now.first < length table.now.alternatives }
    requires second { x.now.second < length table.now.alternatives }
    requires valid { AllByRecursion (HasValidQuestion table.now) x.now.answers }
    requires narrow { AllByRecursion HasNarrowVerdict x.now.answers }
    ensures text { IfOk result (λ text. text.items ≡ entry_text table.now x.now) }
{
    let mut text = Vec::new(alloc);
    write_pair(&mut text, table, x.first, x.second)?;
    write_answers(&mut text, table, x.answers.as_slice())?;
    write_quartet(&mut text, &x.quartet)?;
    Ok(text)
}

/// The line that names the pair.
#[tactic(auto, unfolding(ror_text::specs::SpacedLines::line_text))]
fn write_pair(
    text: &mut Vec<u8>,
    table: &Table,
    first: usize,
    second: usize,
) -> Result<(), AllocError>
    requires first { first < length table.now.alternatives }
    requires second { second < length table.now.alternatives }
    ensures { OnOk result (text.new.items ≡ text.old.items ++ pair_text table.now first second) }
{
    text.extend_from_slice(b"pair")?;
    write_alternative(text, table, first)?;
    write_alternative(text, table, second)?;
    end_line(text)
}

/// The line of the four words.
#[tactic(auto, unfolding(ror_text::specs::SpacedLines::line_text))]
fn write_quartet(text: &mut Vec<u8>, quartet: &Quartet) -> Result<(), AllocError>
    ensures { OnOk result (text.new.items ≡ text.old.items ++ group_text quartet.now) }
{
    text.extend_from_slice(b"group ")?;
    text.extend_from_slice(quartet.necessary_for_every.word())?;
    text.push(b' ')?;
    text.extend_from_slice(quartet.necessary_for_some.word())?;
    text.push(b' ')?;
    text.extend_from_slice(quartet.possible_for_every.word())?;
    text.push(b' ')?;
    text.extend_from_slice(quartet.possible_for_some.word())?;
    text.push(b'\n')?;
    Ok(())
}
