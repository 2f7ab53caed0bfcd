//! The statements that carry an answer, each with the line that says it and how often it counts, and what they sum up to.

ghost use Rattle.std.specs.Prelude.{◌≡◌, ◌++◌, IfOk, OnOk};
ghost use Rattle.std.specs.List.{flat_map};
ghost use Rattle.ror_statement.specs.Statements.{statements_in};
ghost use Rattle.ror_value.specs.Over.{IsLawfulIn, IsAskedIn};
ghost use Rattle.ror_show_kit.specs.Rows.{row_text};
ghost use Rattle.ror_show_kit.specs.Spoken.{statement_text};
ghost use Rattle.ror_show_find_proofs.specs.Weights.{weights_of};
ghost use Rattle.ror_show_text_reasons.specs.Parts as spec;

use crate::scene::{Case, Scene};
use crate::sum::write_sum;
use itoa::Buffer;
use ror_proof::Verdict;
use ror_reason::{is_among, part_of, stated};
use ror_show_find_proofs::{Owners, owners_of, weights_of};
use ror_show_kit::rows::write_row;
use ror_show_kit::write_statement;
use ror_statement::Numbered;
use ror_table::Table;
use std::alloc::{AllocError, Global};

/// Adds a row for each statement of the part.
#[tactic(auto, unfolding(crate::specs::Parts::rows_text))]
pub(crate) fn write_rows(
    alloc: Global,
    text: &mut Vec<u8>,
    scene: &Scene<'_>,
    case: &Case<'_>,
) -> Result<(), AllocError>
    ensures { OnOk result (text.new.items ≡ text.old.items
        ++ spec.rows_text scene.now.table.now scene.now.list.now scene.now.lines.now case.now.numbers.now
        case.now.answer.now.question case.now.answer.now.verdict) }
{
    let part = part_of(alloc, scene.list, case.numbers)?;
    let owners = owners_of(alloc, part.as_slice(), &case.answer.question)?;
    write_all(alloc, text, scene, case, &owners)
}

/// Adds what the statements of the part sum up to, and what is used besides.
#[tactic(auto, unfolding(crate::specs::Parts::part_sum))]
pub(crate) fn write_part_sum(
    alloc: Global,
    text: &mut Vec<u8>,
    scene: &Scene<'_>,
    case: &Case<'_>,
) -> Result<(), AllocError>
    requires lawful { IsLawfulIn scene.now.table.now (statements_in scene.now.list.now) }
    requires asked { IsAskedIn scene.now.table.now case.now.answer.now.question }
    ensures { OnOk result (text.new.items ≡ text.old.items
        ++ spec.part_sum scene.now.table.now scene.now.list.now case.now.numbers.now case.now.answer.now.question
        case.now.answer.now.verdict) }
{
    let stated = stated(alloc, scene.list, case.numbers)?;
    let answer = case.answer;
    write_sum(
        alloc,
        text,
        scene.table,
        stated.as_slice(),
        &answer.question,
        &answer.verdict,
    )
}

fn write_all(
    alloc: Global,
    text: &mut Vec<u8>,
    scene: &Scene<'_>,
    case: &Case<'_>,
    owners: &Owners,
) -> Result<(), AllocError>
    ensures { OnOk result (text.new.items ≡ text.old.items
        ++ spec.rows_by scene.now.table.now scene.now.list.now scene.now.lines.now case.now.numbers.now owners.now
        case.now.answer.now.verdict) }
{
    for k in 0..scene.list.len() {
        write_row_at(alloc, text, scene, case, owners, k)?;
    }
    Ok(())
}

/// Adds the row of the statement at a place of the list, where the part has it.
#[tactic(auto, unfolding(crate::specs::Parts::statement_row))]
fn write_row_at(
    alloc: Global,
    text: &mut Vec<u8>,
    scene: &Scene<'_>,
    case: &Case<'_>,
    owners: &Owners,
    k: usize,
) -> Result<(), AllocError>
    ensures { OnOk result (text.new.items ≡ text.old.items
        ++ spec.row_at scene.now.table.now scene.now.list.now scene.now.lines.now case.now.numbers.now owners.now
        case.now.answer.now.verdict k) }
{
    let Some(x) = scene.list.get(k) else {
        return Ok(());
    };
    if !is_among(case.numbers, x.number) {
        return Ok(());
    }
    let line = line_at(scene.lines, k);
    let said = said(alloc, line, owners, &case.answer.verdict, x.number)?;
    write_one(alloc, text, scene.table, x, said.as_slice())
}

/// The line that said the statement at a place.
fn line_at(lines: &[Option<u32>], k: usize) -> Option<u32>
    ensures { result ≡ spec.line_at lines.now k }
{
    match lines.get(k) {
        Some(line) => *line,
        None => None,
    }
}

fn write_one(
    alloc: Global,
    text: &mut Vec<u8>,
    table: &Table,
    x: &Numbered,
    said: &[u8],
) -> Result<(), AllocError>
    ensures { OnOk result (text.new.items
        ≡ text.old.items ++ row_text x.now.number (statement_text table.now x.now.statement) said.now) }
{
    let mut statement = Vec::new(alloc);
    write_statement(&mut statement, table, x.statement)?;
    write_row(text, x.number, statement.as_slice(), said)
}

/// Where a statement was said, and how often it counts.
fn said(
    alloc: Global,
    line: Option<u32>,
    owners: &Owners,
    verdict: &Verdict,
    number: u32,
) -> Result<Vec<u8>, AllocError>
    ensures { IfOk result (λ said. said.items ≡ spec.said_text line (weights_of number owners.now verdict.now)) }
{
    let weights = weights_of(alloc, number, owners, verdict)?;
    let mut said = Vec::new(alloc);
    write_source(&mut said, line)?;
    said.extend_from_slice(b", counts ")?;
    write_times(&mut said, weights.as_slice())?;
    Ok(said)
}

fn write_source(text: &mut Vec<u8>, line: Option<u32>) -> Result<(), AllocError>
    ensures { OnOk result (text.new.items ≡ text.old.items ++ spec.source_text line) }
{
    match line {
        None => text.extend_from_slice(b"the table's file"),
        Some(number) => {
            text.extend_from_slice(b"line ")?;
            text.extend_from_slice(Buffer::new().format(number).as_bytes())
        }
    }
}

fn write_times(text: &mut Vec<u8>, weights: &[u128]) -> Result<(), AllocError>
    ensures { OnOk result (text.new.items ≡ text.old.items ++ spec.times_text weights.now) }
{
    match weights {
        [] => text.extend_from_slice(b"0 times"),
        [one] => write_times_of(text, *one),
        [first, rest @ ..] => write_several(text, *first, rest),
    }
}

fn write_times_of(text: &mut Vec<u8>, count: u128) -> Result<(), AllocError>
    ensures { OnOk result (text.new.items ≡ text.old.items ++ spec.times_of count) }
{
    match count {
        1 => text.extend_from_slice(b"once"),
        2 => text.extend_from_slice(b"twice"),
        _ => {
            text.extend_from_slice(Buffer::new().format(count).as_bytes())?;
            text.extend_from_slice(b" times")
        }
    }
}

fn write_several(text: &mut Vec<u8>, first: u128, rest: &[u128]) -> Result<(), AllocError>
    ensures { OnOk result (text.new.items ≡ text.old.items ++ spec.several first rest.now) }
{
    text.extend_from_slice(Buffer::new().format(first).as_bytes())?;
    write_more(text, rest)?;
    text.extend_from_slice(b" times")
}

fn write_more(text: &mut Vec<u8>, counts: &[u128]) -> Result<(), AllocError>
    ensures { OnOk result (text.new.items ≡ text.old.items ++ flat_map spec.more_times counts.now) }
{
    'counts: for count in counts {
        write_one_more(text, *count)?;
    }
    Ok(())
}

fn write_one_more(text: &mut Vec<u8>, count: u128) -> Result<(), AllocError>
    ensures { OnOk result (text.new.items ≡ text.old.items ++ spec.more_times count) }
{
    text.extend_from_slice(b" and ")?;
    text.extend_from_slice(Buffer::new().format(count).as_bytes())
}
