//! The functions of kept lines.

ghost use Rattle.std.specs.Prelude.{◌≡◌, ◌++◌, OnOk};
ghost use Rattle.std.specs.List.{AllByRecursion};
ghost use Rattle.ror_show_ground.specs.Grounds.{ground_of};
ghost use Rattle.ror_show_find_proofs.specs.Findings.{IsOfTable, AreOfTable};
ghost use Rattle.ror_show_text_functions.specs.Pages as spec;

use crate::text::write_functions_of;
use ror_bench::KeptLine;
use ror_proof::Answer;
use ror_show_find_proofs::{FunctionFound, FunctionsFound};
use ror_show_ground::{Ground, answers_of, stood_numbers};
use ror_show_kit::{write_line, write_statements};
use ror_table::Table;
use std::alloc::{AllocError, Global};

/// Adds the value functions that were found in the answers to kept lines, those of each line below its number, its desk and the numbers
/// of what stood, where that is kept.
///
/// # Errors
///
/// Only want of memory.
pub fn write_functions(
    alloc: Global,
    text: &mut Vec<u8>,
    ground: &Ground<'_>,
    found: &[FunctionsFound],
) -> Result<(), AllocError>
    requires { AllByRecursion (AreOfTable ground.now.table.now) found.now }
    ensures { OnOk result (text.new.items ≡ text.old.items ++ spec.functions_page (ground_of ground.now) found.now) }
{
    'lines: for functions in found {
        write_section(alloc, text, ground, functions)?;
    }
    Ok(())
}

/// The functions of a line, if it is one of the kept ones.
fn write_section(
    alloc: Global,
    text: &mut Vec<u8>,
    ground: &Ground<'_>,
    found: &FunctionsFound,
) -> Result<(), AllocError>
    requires { AreOfTable ground.now.table.now found.now }
    ensures { OnOk result (text.new.items ≡ text.old.items ++ spec.section_text (ground_of ground.now) found.now) }
{
    match ground.kept.get(found.place) {
        Some(line) => write_below(alloc, text, ground, line, found.functions.as_slice()),
        None => Ok(()),
    }
}

/// The functions of a line, below what stands above them.
fn write_below(
    alloc: Global,
    text: &mut Vec<u8>,
    ground: &Ground<'_>,
    line: &KeptLine,
    found: &[FunctionFound],
) -> Result<(), AllocError>
    requires { AllByRecursion (IsOfTable ground.now.table.now) found.now }
    ensures { OnOk result (text.new.items
        ≡ text.old.items ++ spec.section_over (ground_of ground.now) found.now line.now) }
{
    write_head(alloc, text, ground, line)?;
    write_shown(
        alloc,
        text,
        ground.table,
        answers_of(&line.block.body),
        found,
    )
}

fn write_shown(
    alloc: Global,
    text: &mut Vec<u8>,
    table: &Table,
    answers: &[Answer],
    found: &[FunctionFound],
) -> Result<(), AllocError>
    requires { AllByRecursion (IsOfTable table.now) found.now }
    ensures { OnOk result (text.new.items ≡ text.old.items ++ spec.shown_text table.now answers.now found.now) }
{
    write_functions_of(alloc, text, table, answers, found)?;
    text.push(b'\n')?;
    Ok(())
}

/// The line, its desk and what stood.
#[tactic(auto, unfolding(crate::specs::Pages::head_text))]
fn write_head(
    alloc: Global,
    text: &mut Vec<u8>,
    ground: &Ground<'_>,
    line: &KeptLine,
) -> Result<(), AllocError>
    ensures { OnOk result (text.new.items ≡ text.old.items ++ spec.head_text ground.now.session.now line.now) }
{
    write_first_line(text, ground, line)?;
    write_stood(alloc, text, line)
}

/// The line and its desk.
fn write_first_line(
    text: &mut Vec<u8>,
    ground: &Ground<'_>,
    line: &KeptLine,
) -> Result<(), AllocError>
    ensures { OnOk result (text.new.items ≡ text.old.items ++ spec.first_line ground.now.session.now line.now) }
{
    write_line(text, line.block.line, ground.desk_at(line))?;
    text.push(b'\n')?;
    Ok(())
}

/// What stood.
#[tactic(auto, unfolding(crate::specs::Pages::stood_line))]
fn write_stood(alloc: Global, text: &mut Vec<u8>, line: &KeptLine) -> Result<(), AllocError>
    ensures { OnOk result (text.new.items ≡ text.old.items ++ spec.stood_line line.now) }
{
    let numbers = stood_numbers(alloc, line)?;
    write_statements(text, numbers.as_slice())
}
