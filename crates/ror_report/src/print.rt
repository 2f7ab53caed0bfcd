//! The printer of a report's text, piece by piece.

ghost use Rattle.std.specs.Prelude.{◌≡◌, [], ◌∷◌, ◌++◌, codes, IfOk, OnOk};
ghost use Rattle.std.specs.List.{flat_map, AllByRecursion};
ghost use Rattle.ror_text.specs.SpacedLines.{line_text};
ghost use Rattle.ror_proof.specs.Text.{answer_text, wide_text};
ghost use Rattle.ror_report.specs.Printing.{HasValidQuestion, HasNarrowVerdict, HasNarrowRepair};
ghost use Rattle.ror_report.specs.Text.{answers_of, block_text, body_text, end_text, header_text, numbered_text};

use crate::block::{Block, Body};
use crate::names::{BodyForm, LineForm};
use itoa::Buffer;
use ror_proof::names::Name;
use ror_proof::{Answer, WideText, write_answer, write_kept, write_wide};
use ror_table::Table;
use std::alloc::{AllocError, Global};

/// The first line of a report.
#[tactic(auto, unfolding(crate::specs::Text::header_text, ror_text::specs::SpacedLines::line_text))]
pub fn header() -> &'static [u8]
    ensures { result.now ≡ header_text }
{
    b"ror-report 1\n"
}

/// The text of a block. It asks that each answer is to a question that is valid for the table, that a
/// repair drops fewer than 2^32 statements, and that every number of a certificate is of absolute
/// value at most 2^127 - 1, so that the text is read again.
#[tactic(auto, unfolding(crate::specs::Text::block_text))]
pub fn print_block(alloc: Global, table: &Table, block: &Block) -> Result<Vec<u8>, AllocError>
    requires valid { AllByRecursion (HasValidQuestion table.now) (answers_of block.now.body) }
    requires narrow { AllByRecursion HasNarrowVerdict (answers_of block.now.body) }
    requires repair { HasNarrowRepair block.now.body }
    ensures text { IfOk result (λ text. text.items ≡ block_text table.now block.now) }
{
    let mut text = Vec::new(alloc);
    write_number_line(&mut text, b"line", block.line)?;
    write_body(&mut text, table, &block.body)?;
    Ok(text)
}

/// The text of the last line of a report of so many blocks.
#[tactic(auto, unfolding(crate::specs::Text::end_text))]
pub fn print_end(alloc: Global, blocks: u32) -> Result<Vec<u8>, AllocError>
    ensures text { IfOk result (λ text. text.items ≡ end_text blocks) }
{
    let mut text = Vec::new(alloc);
    write_number_line(&mut text, b"end", blocks)?;
    Ok(text)
}

/// The line of a body, the lines of its repair, or those of its answers.
fn write_body(text: &mut Vec<u8>, table: &Table, body: &Body) -> Result<(), AllocError>
    requires valid { AllByRecursion (HasValidQuestion table.now) (answers_of body.now) }
    requires narrow { AllByRecursion HasNarrowVerdict (answers_of body.now) }
    requires repair { HasNarrowRepair body.now }
    ensures { OnOk result (text.new.items ≡ text.old.items ++ body_text table.now body.now) }
{
    match body {
        Body::Added(number) => write_number_line(text, LineForm::Added.word(), *number),
        Body::Withdrawn(number) => write_number_line(text, LineForm::Withdrawn.word(), *number),
        Body::Replaced(number) => write_number_line(text, LineForm::Replaced.word(), *number),
        Body::Undone => write_line(text, LineForm::Undone.word()),
        Body::Repaired(kept) => write_kept(text, kept),
        Body::RepairWide(number, note) => write_repair_wide(text, *number, note),
        Body::Answers(answers) => write_answers(text, table, answers.as_slice()),
        Body::Refused(fault) => write_word_line(text, LineForm::Refused.word(), fault.word()),
    }
}

/// The line of the number of the statement at which a repair is too wide, and the wide line.
fn write_repair_wide(text: &mut Vec<u8>, number: u32, note: &WideText) -> Result<(), AllocError>
    ensures { OnOk result (text.new.items ≡ text.old.items
        ++ (numbered_text (codes "repair-wide") number ++ wide_text 0 note.now)) }
{
    write_number_line(text, BodyForm::RepairWide.word(), number)?;
    write_wide(text, 0, note)
}

/// The text of each answer, in order.
pub fn write_answers(
    text: &mut Vec<u8>,
    table: &Table,
    answers: &[Answer],
) -> Result<(), AllocError>
    requires valid { AllByRecursion (HasValidQuestion table.now) answers.now }
    requires narrow { AllByRecursion HasNarrowVerdict answers.now }
    ensures { OnOk result (text.new.items
        ≡ text.old.items ++ flat_map (answer_text table.now) answers.now) }
{
    'answers: for answer in answers {
        write_answer(text, table, answer)?;
    }
    Ok(())
}

/// The line of a name and a number.
pub fn write_number_line(text: &mut Vec<u8>, name: &[u8], number: u32) -> Result<(), AllocError>
    ensures { OnOk result (text.new.items ≡ text.old.items ++ numbered_text name.now number) }
{
    write_word_line(text, name, Buffer::new().format(number).as_bytes())
}

/// The line of a name and a word.
#[tactic(auto, unfolding(ror_text::specs::SpacedLines::line_text))]
fn write_word_line(text: &mut Vec<u8>, name: &[u8], word: &[u8]) -> Result<(), AllocError>
    ensures { OnOk result (text.new.items
        ≡ text.old.items ++ line_text (name.now ∷ word.now ∷ [])) }
{
    text.extend_from_slice(name)?;
    text.push(b' ')?;
    write_line(text, word)
}

/// A line of one word, or the rest of a line.
#[tactic(auto, unfolding(ror_text::specs::SpacedLines::line_text))]
fn write_line(text: &mut Vec<u8>, word: &[u8]) -> Result<(), AllocError>
    ensures { OnOk result (text.new.items ≡ text.old.items ++ line_text (word.now ∷ [])) }
{
    text.extend_from_slice(word)?;
    text.push(b'\n')?;
    Ok(())
}
