//! The functions of lines as comma-separated values.

ghost use Rattle.std.specs.Prelude.{◌≡◌, ◌<◌, ◌≤◌, ◌∷◌, ◌++◌, length, decimal, IfOk, IfSome, OnOk};
ghost use Rattle.std.specs.List.{AllByRecursion, flat_map, range_with_len};
ghost use Rattle.ror_table.specs.Table.{steps};
ghost use Rattle.ror_value.specs.Value.{IsFunctionOf};
ghost use Rattle.ror_show_ground.specs.Grounds.{ground_of};
ghost use Rattle.ror_show_find_proofs.specs.Findings.{IsOfTable, AreOfTable};
ghost use Rattle.ror_show_find_proofs.specs.Shares.{IsShare};
ghost use Rattle.ror_show_forms.specs.FunctionCsv as spec;

use crate::front::line_front;
use itoa::Buffer;
use ror_bench::KeptLine;
use ror_proof::Answer;
use ror_show_find_proofs::{FunctionFound, FunctionsFound, Place, Share, share_at};
use ror_show_ground::{Ground, answers_of};
use ror_show_kit::{write_amount, write_next_field};
use ror_show_text_functions::{asked_at, criterion_id, write_places};
use ror_table::Table;
use ror_value::ValueFunction;
use std::alloc::{AllocError, Global};

/// The names of the values, as the first line of a file.
pub fn functions_head() -> &'static [u8]
    ensures { result.now ≡ spec.csv_head }
{
    b"line,desk,answer,function,criterion,level,marginal,total,share,rounded\n"
}

/// Adds a line for each level of each criterion in each value function that was found: the number of the session's line, the desk, the
/// number of the answer, from 1, `base` or the words of the question and its verdict, the criterion and the level, its marginal value and
/// the value of all best levels, the share of the one in the other, rounded to three places, and whether it is rounded. A function whose
/// value of all best levels passes 127 bits has none.
///
/// # Errors
///
/// Only want of memory.
pub fn write_functions_csv(
    alloc: Global,
    text: &mut Vec<u8>,
    ground: &Ground<'_>,
    found: &[FunctionsFound],
) -> Result<(), AllocError>
    requires { AllByRecursion (AreOfTable ground.now.table.now) found.now }
    ensures { OnOk result (text.new.items
        ≡ text.old.items ++ flat_map (spec.function_values (ground_of ground.now)) found.now) }
{
    'lines: for functions in found {
        write_line(alloc, text, ground, functions)?;
    }
    Ok(())
}

/// The values of a line, if it is one of the kept ones.
fn write_line(
    alloc: Global,
    text: &mut Vec<u8>,
    ground: &Ground<'_>,
    found: &FunctionsFound,
) -> Result<(), AllocError>
    requires { AreOfTable ground.now.table.now found.now }
    ensures { OnOk result (text.new.items
        ≡ text.old.items ++ spec.function_values (ground_of ground.now) found.now) }
{
    match ground.kept.get(found.place) {
        Some(line) => write_of_line(alloc, text, ground, line, found.functions.as_slice()),
        None => Ok(()),
    }
}

fn write_of_line(
    alloc: Global,
    text: &mut Vec<u8>,
    ground: &Ground<'_>,
    line: &KeptLine,
    found: &[FunctionFound],
) -> Result<(), AllocError>
    requires { AllByRecursion (IsOfTable ground.now.table.now) found.now }
    ensures { OnOk result (text.new.items
        ≡ text.old.items ++ spec.line_values (ground_of ground.now) found.now line.now) }
{
    let front = line_front(alloc, ground, line)?;
    let answers = answers_of(&line.block.body);
    write_each(alloc, text, ground.table, answers, front.as_slice(), found)
}

fn write_each(
    alloc: Global,
    text: &mut Vec<u8>,
    table: &Table,
    answers: &[Answer],
    head: &[u8],
    found: &[FunctionFound],
) -> Result<(), AllocError>
    requires { AllByRecursion (IsOfTable table.now) found.now }
    ensures { OnOk result (text.new.items
        ≡ text.old.items ++ flat_map (spec.function_value table.now answers.now head.now) found.now) }
{
    'functions: for function in found {
        write_function(alloc, text, table, answers, head, function)?;
    }
    Ok(())
}

/// The lines of a function, behind what stands in front of those of its line.
#[tactic(auto, unfolding(crate::specs::FunctionCsv::function_value))]
fn write_function(
    alloc: Global,
    text: &mut Vec<u8>,
    table: &Table,
    answers: &[Answer],
    head: &[u8],
    found: &FunctionFound,
) -> Result<(), AllocError>
    requires { IsOfTable table.now found.now }
    ensures { OnOk result (text.new.items
        ≡ text.old.items ++ spec.function_value table.now answers.now head.now found.now) }
{
    let front = front_text(alloc, table, answers, head, found.at)?;
    write_found(text, table, front.as_slice(), &found.function)
}

/// What they begin with.
#[tactic(auto, unfolding(crate::specs::FunctionCsv::front_text))]
fn front_text(
    alloc: Global,
    table: &Table,
    answers: &[Answer],
    head: &[u8],
    place: Place,
) -> Result<Vec<u8>, AllocError>
    ensures { IfOk result (λ front. front.items ≡ spec.front_text table.now answers.now head.now place) }
{
    let name = name_of(alloc, table, answers, place)?;
    let mut front = Vec::new(alloc);
    front.extend_from_slice(head)?;
    front.push(b',')?;
    front.extend_from_slice(Buffer::new().format(place.answer as u128 + 1).as_bytes())?;
    write_next_field(&mut front, name.as_slice())?;
    Ok(front)
}

/// What a function is for.
fn name_of(
    alloc: Global,
    table: &Table,
    answers: &[Answer],
    place: Place,
) -> Result<Vec<u8>, AllocError>
    ensures { IfOk result (λ name. name.items ≡ spec.name_for table.now answers.now place.answer place.part) }
{
    match place.part {
        None => Vec::from_slice(alloc, b"base"),
        Some(_) => asked_at(alloc, table, answers, place.answer),
    }
}

fn write_found(
    text: &mut Vec<u8>,
    table: &Table,
    front: &[u8],
    found: &Option<ValueFunction>,
) -> Result<(), AllocError>
    requires { IfSome found.now (IsFunctionOf table.now) }
    ensures { OnOk result (text.new.items ≡ text.old.items ++ spec.csv_found table.now front.now found.now) }
{
    match found {
        Some(function) => write_block(text, table, front, function),
        None => Ok(()),
    }
}

fn write_block(
    text: &mut Vec<u8>,
    table: &Table,
    front: &[u8],
    function: &ValueFunction,
) -> Result<(), AllocError>
    requires { IsFunctionOf table.now function.now }
    ensures { OnOk result (text.new.items ≡ text.old.items ++ spec.csv_block table.now function.now front.now) }
{
    for i in 0..table.criteria() {
        write_levels(text, table, front, function, i)?;
    }
    Ok(())
}

/// All levels of a criterion, from the worst to the best.
fn write_levels(
    text: &mut Vec<u8>,
    table: &Table,
    front: &[u8],
    function: &ValueFunction,
    i: usize,
) -> Result<(), AllocError>
    requires function { IsFunctionOf table.now function.now }
    requires criterion { i < length table.now.criteria }
    ensures { OnOk result (text.new.items ≡ text.old.items ++ spec.csv_levels table.now function.now front.now i) }
{
    write_lower_levels(text, table, front, function, i)?;
    write_level(text, table, front, function, i, table.steps(i))
}

/// The levels below the best one.
fn write_lower_levels(
    text: &mut Vec<u8>,
    table: &Table,
    front: &[u8],
    function: &ValueFunction,
    i: usize,
) -> Result<(), AllocError>
    requires function { IsFunctionOf table.now function.now }
    requires criterion { i < length table.now.criteria }
    ensures { OnOk result (text.new.items ≡ text.old.items
        ++ flat_map (spec.csv_level table.now function.now front.now i) (range_with_len 0 (steps table.now i))) }
{
    for r in 0..table.steps(i) {
        write_level(text, table, front, function, i, r)?;
    }
    Ok(())
}

/// The line of a level.
#[tactic(auto, unfolding(crate::specs::FunctionCsv::csv_level))]
fn write_level(
    text: &mut Vec<u8>,
    table: &Table,
    front: &[u8],
    function: &ValueFunction,
    i: usize,
    r: usize,
) -> Result<(), AllocError>
    requires function { IsFunctionOf table.now function.now }
    requires criterion { i < length table.now.criteria }
    requires within { r ≤ steps table.now i }
    ensures { OnOk result (text.new.items ≡ text.old.items ++ spec.csv_level table.now function.now front.now i r) }
{
    text.extend_from_slice(front)?;
    write_next_field(text, criterion_id(table, i))?;
    text.push(b',')?;
    write_amount(text, table.level(i, r))?;
    write_share(text, share_at(table, function, i, r))
}

/// The marginal value and the value of all best levels, and the share of the one in the other.
fn write_share(text: &mut Vec<u8>, share: Share) -> Result<(), AllocError>
    requires { IsShare share }
    ensures { OnOk result (text.new.items ≡ text.old.items ++ spec.csv_share share) }
{
    write_next_number(text, share.part)?;
    write_next_number(text, share.whole)?;
    text.push(b',')?;
    write_places(text, share.thousandths())?;
    text.extend_from_slice(rounded_word(share))
}

/// A number, behind a comma.
fn write_next_number(text: &mut Vec<u8>, number: u128) -> Result<(), AllocError>
    ensures { OnOk result (text.new.items ≡ text.old.items ++ 44 ∷ decimal number) }
{
    text.push(b',')?;
    text.extend_from_slice(Buffer::new().format(number).as_bytes())
}

/// Whether the share is rounded, at the end of a line.
fn rounded_word(share: Share) -> &'static [u8]
    requires { IsShare share }
    ensures { result.now ≡ spec.rounded_word share }
{
    if share.is_rounded() {
        b",yes\n"
    } else {
        b",no\n"
    }
}
