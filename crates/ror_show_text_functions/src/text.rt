//! The functions of answers as plain text.

ghost use Rattle.std.specs.Prelude.{◌≡◌, ◌++◌, IfSome, OnOk};
ghost use Rattle.std.specs.List.{AllByRecursion, flat_map, list_any};
ghost use Rattle.ror_value.specs.Value.{IsFunctionOf};
ghost use Rattle.ror_show_find_proofs.specs.Findings.{IsOfTable};
ghost use Rattle.ror_show_text_functions.specs.Text as spec;

use crate::block::write_block;
use crate::words::{asked_at, write_asked_title};
use ror_proof::{Answer, Verdict};
use ror_show_find_proofs::{FunctionFound, Place};
use ror_table::Table;
use ror_value::ValueFunction;
use std::alloc::{AllocError, Global};

/// Adds the functions that were found in answers, each below what it is for, or that there are none. Each has the value of all best
/// levels, and for each criterion its weight and the marginal value of each run of levels that are worth the same, from the worst to
/// the best: as a share of the first, rounded to three places, and as the whole number.
///
/// # Errors
///
/// Only want of memory.
pub(crate) fn write_functions_of(
    alloc: Global,
    text: &mut Vec<u8>,
    table: &Table,
    answers: &[Answer],
    found: &[FunctionFound],
) -> Result<(), AllocError>
    requires { AllByRecursion (IsOfTable table.now) found.now }
    ensures { OnOk result (text.new.items ≡ text.old.items ++ spec.functions_of table.now answers.now found.now) }
{
    if found.is_empty() {
        return text.extend_from_slice(none_text(answers));
    }
    write_shown(alloc, text, table, answers, found)
}

fn none_text(answers: &[Answer]) -> &'static [u8]
    ensures { result.now ≡ spec.none_text answers.now }
{
    if has_contradiction(answers) {
        b"\n  no function agrees with the statements\n"
    } else {
        b"\n  no function stands in these answers\n"
    }
}

fn has_contradiction(answers: &[Answer]) -> bool
    ensures { result ≡ list_any (λ x. spec.is_contradiction x.verdict) answers.now }
{
    answers.iter().any(|x| is_contradiction(&x.verdict))
}

/// Whether the verdict is that the statements have a contradiction.
pub fn is_contradiction(verdict: &Verdict) -> bool
    ensures { result ≡ spec.is_contradiction verdict.now }
{
    matches!(verdict, Verdict::Contradiction(_))
}

/// What the numbers mean, and the functions.
fn write_shown(
    alloc: Global,
    text: &mut Vec<u8>,
    table: &Table,
    answers: &[Answer],
    found: &[FunctionFound],
) -> Result<(), AllocError>
    requires { AllByRecursion (IsOfTable table.now) found.now }
    ensures { OnOk result (text.new.items ≡ text.old.items ++ spec.shown_text table.now answers.now found.now) }
{
    text.extend_from_slice(legend())?;
    write_all(alloc, text, table, answers, found)
}

fn legend() -> &'static [u8]
    ensures { result.now ≡ spec.legend }
{
    b"\n  marginal values, from the worst level of a criterion to the best: as shares of the value of all best levels,\n  with ~ before those that are rounded, and as whole numbers; a weight is that of the best level\n"
}

fn write_all(
    alloc: Global,
    text: &mut Vec<u8>,
    table: &Table,
    answers: &[Answer],
    found: &[FunctionFound],
) -> Result<(), AllocError>
    requires { AllByRecursion (IsOfTable table.now) found.now }
    ensures { OnOk result (text.new.items
        ≡ text.old.items ++ flat_map (spec.function_words table.now answers.now) found.now) }
{
    'functions: for function in found {
        write_function(alloc, text, table, answers, function)?;
    }
    Ok(())
}

/// A function, below what it is for.
#[tactic(auto, unfolding(crate::specs::Text::function_words))]
fn write_function(
    alloc: Global,
    text: &mut Vec<u8>,
    table: &Table,
    answers: &[Answer],
    found: &FunctionFound,
) -> Result<(), AllocError>
    requires { IsOfTable table.now found.now }
    ensures { OnOk result (text.new.items ≡ text.old.items ++ spec.function_words table.now answers.now found.now) }
{
    write_title(alloc, text, table, answers, found.at)?;
    write_found(alloc, text, table, &found.function)
}

/// What it is for.
fn write_title(
    alloc: Global,
    text: &mut Vec<u8>,
    table: &Table,
    answers: &[Answer],
    place: Place,
) -> Result<(), AllocError>
    ensures { OnOk result (text.new.items ≡ text.old.items ++ spec.title_text table.now answers.now place) }
{
    match place.part {
        None => text.extend_from_slice(
            b"\n  one of the functions that agree with the statements, not a representative one\n",
        ),
        Some(_) => write_question(alloc, text, table, answers, place.answer),
    }
}

/// The question of an answer and its verdict, below an empty line.
fn write_question(
    alloc: Global,
    text: &mut Vec<u8>,
    table: &Table,
    answers: &[Answer],
    k: usize,
) -> Result<(), AllocError>
    ensures { OnOk result (text.new.items
        ≡ text.old.items ++ spec.asked_title (spec.asked_at table.now answers.now k)) }
{
    let asked = asked_at(alloc, table, answers, k)?;
    write_asked_title(alloc, text, asked.as_slice())
}

/// A function, where there is one to show.
fn write_found(
    alloc: Global,
    text: &mut Vec<u8>,
    table: &Table,
    found: &Option<ValueFunction>,
) -> Result<(), AllocError>
    requires { IfSome found.now (IsFunctionOf table.now) }
    ensures { OnOk result (text.new.items ≡ text.old.items ++ spec.found_text table.now found.now) }
{
    match found {
        Some(function) => write_block(alloc, text, table, function),
        None => text.extend_from_slice(
            b"     not shown: the value of all best levels passes 127 bits\n",
        ),
    }
}
