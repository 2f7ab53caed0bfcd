//! The printer of certificates.

ghost use Rattle.std.specs.Prelude.{◌≡◌, ◌<◌, ◌^◌, ◌+◌, ◌++◌, ◌∷◌, [], codes, decimal, length, map, IfOk, OnOk};
ghost use Rattle.std.specs.List.{flat_map, AllByRecursion};
ghost use Rattle.ror_text.specs.SpacedLines.{join_words};
ghost use Rattle.ror_proof.specs.Printing.{spaced};
ghost use Rattle.ror_show_ground.specs.Grounds.{ground_of, IsJudged};
ghost use Rattle.ror_show_find_reasons.specs.Lines.{AreLinesFound};
ghost use Rattle.ror_show_find_reasons.specs.declared.lines.Meant.TheVariants.{Carried};
ghost use Rattle.ror_show_forms.specs.Printing.{HasValidQuestions, HasNarrowAnswers, IsWritable};
ghost use Rattle.ror_show_forms.specs.CertificatePages as spec;
ghost use Rattle.ror_show_forms.specs.CertificateText.{certificate_text, head_text};

use crate::head::header;
use itoa::Buffer;
use ror_bench::KeptLine;
use ror_proof::write_answer;
use ror_reason::{Reason, Reduct};
use ror_report::{print_end, write_answers};
use ror_show_find_reasons::{LineFound, Told};
use ror_show_ground::Ground;
use ror_table::Table;
use std::alloc::{AllocError, Global};

/// The text of the certificates of what is found: the first line, one certificate for each answer that is told with a reduct, in order, and
/// the line with their number. Found are the answers that statements carry.
///
/// # Errors
///
/// Only want of memory.
pub fn write_certificates(
    alloc: Global,
    ground: &Ground<'_>,
    found: &[LineFound],
) -> Result<Vec<u8>, AllocError>
    requires judged { IsJudged (ground_of ground.now) }
    requires found { AreLinesFound Carried (ground_of ground.now) found.now }
    ensures { IfOk result (λ text. text.items ≡ spec.certificates_page (ground_of ground.now) found.now) }
{
    let mut text = Vec::new(alloc);
    text.extend_from_slice(header())?;
    let count = write_all(&mut text, ground, found)?;
    let end = print_end(alloc, count)?;
    text.extend_from_slice(end.as_slice())?;
    Ok(text)
}

/// Adds the certificates of all lines, and says how many they are.
fn write_all(
    text: &mut Vec<u8>,
    ground: &Ground<'_>,
    found: &[LineFound],
) -> Result<u32, AllocError>
    requires few { length (spec.certificates_in (ground_of ground.now) found.now) < 2 ^ 32 }
    requires writable { AllByRecursion (IsWritable ground.now.table.now) (spec.certificates_in (ground_of ground.now) found.now) }
    ensures text { OnOk result (text.new.items ≡ text.old.items
        ++ flat_map (certificate_text ground.now.table.now) (spec.certificates_in (ground_of ground.now) found.now)) }
    ensures count { IfOk result (λ count. count ≡ length (spec.certificates_in (ground_of ground.now) found.now)) }
{
    let mut count: u32 = 0;
    'found: for k in 0..found.len() {
        let line = &found[k];
        let more = write_line(text, ground, line)?;
        count += more;
    }
    Ok(count)
}

/// Adds those of a line.
fn write_line(text: &mut Vec<u8>, ground: &Ground<'_>, found: &LineFound) -> Result<u32, AllocError>
    requires few { length (spec.certificates_at (ground_of ground.now) found.now) < 2 ^ 32 }
    requires writable { AllByRecursion (IsWritable ground.now.table.now) (spec.certificates_at (ground_of ground.now) found.now) }
    ensures text { OnOk result (text.new.items ≡ text.old.items
        ++ flat_map (certificate_text ground.now.table.now) (spec.certificates_at (ground_of ground.now) found.now)) }
    ensures count { IfOk result (λ count. count ≡ length (spec.certificates_at (ground_of ground.now) found.now)) }
{
    match ground.kept.get(found.place) {
        Some(line) => write_over(text, ground.table, line, found),
        None => Ok(0),
    }
}

/// Adds those of what is found of this kept line.
fn write_over(
    text: &mut Vec<u8>,
    table: &Table,
    line: &KeptLine,
    found: &LineFound,
) -> Result<u32, AllocError>
    requires few { length (spec.certified_over found.now line.now) < 2 ^ 32 }
    requires writable { AllByRecursion (IsWritable table.now) (spec.certified_over found.now line.now) }
    ensures text { OnOk result (text.new.items ≡ text.old.items
        ++ flat_map (certificate_text table.now) (spec.certified_over found.now line.now)) }
    ensures count { IfOk result (λ count. count ≡ length (spec.certified_over found.now line.now)) }
{
    write_each(text, table, line.block.line, found.told.as_slice())
}

/// Adds those of what is told of the answers to a line.
fn write_each(
    text: &mut Vec<u8>,
    table: &Table,
    line: u32,
    told: &[Told],
) -> Result<u32, AllocError>
    requires few { length (flat_map (spec.certified_of line) told.now) < 2 ^ 32 }
    requires writable { AllByRecursion (IsWritable table.now) (flat_map (spec.certified_of line) told.now) }
    ensures text { OnOk result (text.new.items ≡ text.old.items
        ++ flat_map (certificate_text table.now) (flat_map (spec.certified_of line) told.now)) }
    ensures count { IfOk result (λ count. count ≡ length (flat_map (spec.certified_of line) told.now)) }
{
    let mut count: u32 = 0;
    'told: for k in 0..told.len() {
        let one = &told[k];
        let more = write_told(text, table, line, one)?;
        count += more;
    }
    Ok(count)
}

/// Adds that of an answer, where it has one.
fn write_told(text: &mut Vec<u8>, table: &Table, line: u32, told: &Told) -> Result<u32, AllocError>
    requires writable { AllByRecursion (IsWritable table.now) (spec.certified_of line told.now) }
    ensures text { OnOk result (text.new.items ≡ text.old.items
        ++ flat_map (certificate_text table.now) (spec.certified_of line told.now)) }
    ensures count { IfOk result (λ count. count ≡ length (spec.certified_of line told.now)) }
{
    match &told.reason {
        Some(reason) => write_reason(text, table, line, told.answer, reason),
        None => Ok(0),
    }
}

/// Adds that of a reason of the answer at a place, counted from 0, where it is a reduct.
fn write_reason(
    text: &mut Vec<u8>,
    table: &Table,
    line: u32,
    answer: usize,
    reason: &Reason,
) -> Result<u32, AllocError>
    requires writable { AllByRecursion (IsWritable table.now) (spec.certified_by line (answer + 1) reason.now) }
    ensures text { OnOk result (text.new.items ≡ text.old.items
        ++ flat_map (certificate_text table.now) (spec.certified_by line (answer + 1) reason.now)) }
    ensures count { IfOk result (λ count. count ≡ length (spec.certified_by line (answer + 1) reason.now)) }
{
    match reason {
        Reason::Carried(reduct) => {
            write_reduct(text, table, line, answer, reduct)?;
            Ok(1)
        }
        _ => Ok(0),
    }
}

fn write_reduct(
    text: &mut Vec<u8>,
    table: &Table,
    line: u32,
    answer: usize,
    reduct: &Reduct,
) -> Result<(), AllocError>
    requires { IsWritable table.now (spec.certificate_with line (answer + 1) reduct.now) }
    ensures { OnOk result (text.new.items
        ≡ text.old.items ++ certificate_text table.now (spec.certificate_with line (answer + 1) reduct.now)) }
{
    let place = answer as u32 + 1;
    write_certificate(text, table, line, place, reduct)
}

/// Adds the text of a certificate.
#[tactic(auto, unfolding(crate::specs::CertificateText::certificate_text))]
fn write_certificate(
    text: &mut Vec<u8>,
    table: &Table,
    line: u32,
    place: u32,
    reduct: &Reduct,
) -> Result<(), AllocError>
    requires valid { HasValidQuestions table.now reduct.now }
    requires narrow { HasNarrowAnswers reduct.now }
    ensures { OnOk result (text.new.items
        ≡ text.old.items ++ certificate_text table.now (spec.certificate_with line place reduct.now)) }
{
    write_head(text, line, place, reduct.numbers.as_slice())?;
    write_answer(text, table, &reduct.answer)?;
    write_answers(text, table, reduct.others.as_slice())
}

/// The line that says which answer is meant, and the numbers.
#[tactic(auto, unfolding(ror_text::specs::SpacedLines::line_text))]
fn write_head(text: &mut Vec<u8>, line: u32, place: u32, numbers: &[u32]) -> Result<(), AllocError>
    ensures { OnOk result (text.new.items ≡ text.old.items ++ head_text line place numbers.now) }
{
    write_begin(text, line, place)?;
    write_numbers(text, numbers)?;
    text.push(b'\n')?;
    Ok(())
}

/// The words that say which answer is meant.
fn write_begin(text: &mut Vec<u8>, line: u32, place: u32) -> Result<(), AllocError>
    ensures { OnOk result (text.new.items
        ≡ text.old.items ++ join_words (codes "reduct" ∷ decimal line ∷ decimal place ∷ [])) }
{
    text.extend_from_slice(b"reduct")?;
    write_number(text, line)?;
    write_number(text, place)
}

fn write_numbers(text: &mut Vec<u8>, numbers: &[u32]) -> Result<(), AllocError>
    ensures { OnOk result (text.new.items ≡ text.old.items ++ spaced (map decimal numbers.now)) }
{
    'numbers: for number in numbers {
        write_number(text, *number)?;
    }
    Ok(())
}

/// A number, as the next word of a line.
fn write_number(text: &mut Vec<u8>, number: u32) -> Result<(), AllocError>
    ensures { OnOk result (text.new.items ≡ text.old.items ++ 32 ∷ decimal number) }
{
    text.push(b' ')?;
    text.extend_from_slice(Buffer::new().format(number).as_bytes())
}
