//! The printer of an entry's text.

ghost use Rattle.std.specs.Prelude.{◌≡◌, ◌<◌, ◌++◌, ◌∷◌, [], codes, decimal, length, IfOk, OnOk};
ghost use Rattle.std.specs.List.{flat_map, AllByRecursion};
ghost use Rattle.ror_text.specs.SpacedLines.{join_words};
ghost use Rattle.ror_table.specs.Table.{id_of};
ghost use Rattle.ror_report.specs.Printing.{HasValidQuestion, HasNarrowVerdict};
ghost use Rattle.ror_spans.specs.Printing.{HasAlternatives, HasNarrowAnswers, HasValidQuestions};
ghost use Rattle.ror_spans.specs.Text.{entry_text, known_text, level_answer_text, wide_text};

use crate::entry::{Entry, Form};
use ror_confidence::{LevelAnswer, Span};
use ror_proof::names::Name;
use ror_proof::write::{write_alternative, write_number, write_word};
use ror_proof::write_answer;
use ror_report::write_number_line;
use ror_table::Table;
use std::alloc::{AllocError, Global};

/// The text of an entry. It asks that the alternatives are of the table, that each answer is to a question that is valid for it,
/// and that every number of a certificate is of absolute value at most 2^127 - 1, so that the text is read again.
#[tactic(auto, unfolding(crate::specs::Text::entry_text))]
pub fn print_entry(alloc: Global, table: &Table, x: &Entry) -> Result<Vec<u8>, AllocError>
    requires alternatives { HasAlternatives table.now x.now }
    requires valid { HasValidQuestions table.now x.now }
    requires narrow { HasNarrowAnswers x.now }
    ensures text { IfOk result (λ text. text.items ≡ entry_text table.now x.now) }
{
    let mut text = Vec::new(alloc);
    match x {
        Entry::Known {
            first,
            second,
            span,
        } => {
            write_known(&mut text, table, *first, *second, span)?;
            write_answers(&mut text, table, span.proof.as_slice())?;
        }
        Entry::Wide {
            first,
            second,
            found,
        } => {
            write_wide(&mut text, table, *first, *second, found.level)?;
            write_answer(&mut text, table, &found.answer)?;
        }
    }
    Ok(text)
}

/// The line of a pair with its span.
#[tactic(auto, unfolding(ror_text::specs::SpacedLines::line_text))]
fn write_known(
    text: &mut Vec<u8>,
    table: &Table,
    first: usize,
    second: usize,
    span: &Span,
) -> Result<(), AllocError>
    requires first { first < length table.now.alternatives }
    requires second { second < length table.now.alternatives }
    ensures { OnOk result (text.new.items
        ≡ text.old.items ++ known_text table.now first second span.now) }
{
    write_pair(text, table, first, second)?;
    write_named(text, Form::Known.word(), span.contradictory)?;
    write_named(text, b"necessary", span.necessary)?;
    write_named(text, b"possible", span.possible)?;
    text.push(b'\n')?;
    Ok(())
}

/// That of a pair whose span is open at a level.
#[tactic(auto, unfolding(ror_text::specs::SpacedLines::line_text))]
fn write_wide(
    text: &mut Vec<u8>,
    table: &Table,
    first: usize,
    second: usize,
    level: u32,
) -> Result<(), AllocError>
    requires first { first < length table.now.alternatives }
    requires second { second < length table.now.alternatives }
    ensures { OnOk result (text.new.items
        ≡ text.old.items ++ wide_text table.now first second level) }
{
    write_pair(text, table, first, second)?;
    write_named(text, Form::Wide.word(), level)?;
    text.push(b'\n')?;
    Ok(())
}

/// The words that name a pair, with which its line begins.
fn write_pair(
    text: &mut Vec<u8>,
    table: &Table,
    first: usize,
    second: usize,
) -> Result<(), AllocError>
    requires first { first < length table.now.alternatives }
    requires second { second < length table.now.alternatives }
    ensures { OnOk result (text.new.items ≡ text.old.items ++ join_words
        (codes "pair" ∷ id_of table.now first ∷ id_of table.now second ∷ [])) }
{
    text.extend_from_slice(b"pair")?;
    write_alternative(text, table, first)?;
    write_alternative(text, table, second)
}

/// The answers with the lines of their levels.
fn write_answers(
    text: &mut Vec<u8>,
    table: &Table,
    answers: &[LevelAnswer],
) -> Result<(), AllocError>
    requires valid { AllByRecursion (λ x. HasValidQuestion table.now x.answer) answers.now }
    requires narrow { AllByRecursion (λ x. HasNarrowVerdict x.answer) answers.now }
    ensures { OnOk result (text.new.items
        ≡ text.old.items ++ flat_map (level_answer_text table.now) answers.now) }
{
    'answers: for answer in answers {
        write_level_answer(text, table, answer)?;
    }
    Ok(())
}

/// An answer with the line of its level.
fn write_level_answer(text: &mut Vec<u8>, table: &Table, x: &LevelAnswer) -> Result<(), AllocError>
    requires valid { HasValidQuestion table.now x.now.answer }
    requires narrow { HasNarrowVerdict x.now.answer }
    ensures { OnOk result (text.new.items ≡ text.old.items ++ level_answer_text table.now x.now) }
{
    write_number_line(text, b"level", x.level)?;
    write_answer(text, table, &x.answer)
}

/// A number behind its name, as the next words of a line.
fn write_named(text: &mut Vec<u8>, name: &[u8], number: u32) -> Result<(), AllocError>
    ensures { OnOk result (text.new.items
        ≡ text.old.items ++ 32 ∷ (name.now ++ 32 ∷ decimal number)) }
{
    write_word(text, name)?;
    write_number(text, number)
}
