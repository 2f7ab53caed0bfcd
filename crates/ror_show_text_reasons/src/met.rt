//! The statements, and the quantities that the value function which decides an answer gives each of them.

ghost use Rattle.std.specs.Prelude.{◌≡◌, ◌++◌, option_copied, IfOk, IfSome, OnOk};
ghost use Rattle.std.specs.List.{AllByRecursion, flat_map};
ghost use Rattle.ror_statement.specs.Statements.{statements_in};
ghost use Rattle.ror_value.specs.Over.{IsNamedIn, IsValidIn, IsLawfulIn};
ghost use Rattle.ror_value.specs.Value.{IsFunctionOf};
ghost use Rattle.ror_show_text_reasons.specs.Met as spec;

use crate::sides::{quantities, value_in, write_number};
use ror_proof::Verdict;
use ror_show_find_proofs::{deciding, function_of};
use ror_show_kit::rows::{write_row, write_text};
use ror_show_kit::write_statement;
use ror_statement::{Form, Numbered, Scope, Statement};
use ror_system::Numbers;
use ror_table::Table;
use ror_value::ValueFunction;
use std::alloc::{AllocError, Global};

/// Adds a row for each statement of the list, with the two quantities that it compares by the value function that decides the answer, or
/// the value of the alternative that it assigns.
pub(crate) fn write_met(
    alloc: Global,
    text: &mut Vec<u8>,
    table: &Table,
    list: &[Numbered],
    verdict: &Verdict,
) -> Result<(), AllocError>
    requires { IsLawfulIn table.now (statements_in list.now) }
    ensures { OnOk result (text.new.items ≡ text.old.items ++ spec.met_text table.now list.now verdict.now) }
{
    match deciding(verdict) {
        Some(steps) => write_met_by(alloc, text, table, list, steps),
        None => Ok(()),
    }
}

fn write_met_by(
    alloc: Global,
    text: &mut Vec<u8>,
    table: &Table,
    list: &[Numbered],
    steps: &Numbers,
) -> Result<(), AllocError>
    requires { IsLawfulIn table.now (statements_in list.now) }
    ensures { OnOk result (text.new.items ≡ text.old.items ++ spec.met_by table.now list.now steps.now) }
{
    let found = function_of(alloc, table, steps)?;
    write_met_found(alloc, text, table, list, &found)
}

fn write_met_found(
    alloc: Global,
    text: &mut Vec<u8>,
    table: &Table,
    list: &[Numbered],
    found: &Option<ValueFunction>,
) -> Result<(), AllocError>
    requires lawful { IsLawfulIn table.now (statements_in list.now) }
    requires function { IfSome found.now (IsFunctionOf table.now) }
    ensures { OnOk result (text.new.items ≡ text.old.items ++ spec.met_found table.now list.now found.now) }
{
    match found {
        Some(function) if !list.is_empty() => write_met_rows(alloc, text, table, list, function),
        _ => Ok(()),
    }
}

fn write_met_rows(
    alloc: Global,
    text: &mut Vec<u8>,
    table: &Table,
    list: &[Numbered],
    function: &ValueFunction,
) -> Result<(), AllocError>
    requires lawful { IsLawfulIn table.now (statements_in list.now) }
    requires function { IsFunctionOf table.now function.now }
    ensures { OnOk result (text.new.items ≡ text.old.items ++ spec.met_rows table.now list.now function.now) }
{
    write_text(text, b"  it meets each statement:\n")?;
    write_each(alloc, text, table, list, function)
}

fn write_each(
    alloc: Global,
    text: &mut Vec<u8>,
    table: &Table,
    list: &[Numbered],
    function: &ValueFunction,
) -> Result<(), AllocError>
    requires valid { AllByRecursion (λ x. IsValidIn table.now x.statement) list.now }
    requires function { IsFunctionOf table.now function.now }
    ensures { OnOk result (text.new.items ≡ text.old.items ++ flat_map (spec.met_row table.now function.now) list.now) }
{
    'list: for k in 0..list.len() {
        let x = &list[k];
        write_met_row(alloc, text, table, function, x)?;
    }
    Ok(())
}

fn write_met_row(
    alloc: Global,
    text: &mut Vec<u8>,
    table: &Table,
    function: &ValueFunction,
    x: &Numbered,
) -> Result<(), AllocError>
    requires valid { IsValidIn table.now x.now.statement }
    requires function { IsFunctionOf table.now function.now }
    ensures { OnOk result (text.new.items ≡ text.old.items ++ spec.met_row table.now function.now x.now) }
{
    let mut statement = Vec::new(alloc);
    write_statement(&mut statement, table, x.statement)?;
    let mut met = Vec::new(alloc);
    write_met_words(&mut met, table, function, x.statement)?;
    write_row(text, x.number, statement.as_slice(), met.as_slice())
}

fn write_met_words(
    text: &mut Vec<u8>,
    table: &Table,
    function: &ValueFunction,
    statement: Statement,
) -> Result<(), AllocError>
    requires valid { IsValidIn table.now statement }
    requires function { IsFunctionOf table.now function.now }
    ensures { OnOk result (text.new.items ≡ text.old.items ++ spec.met_words table.now function.now statement) }
{
    if let Some(comparison) = statement.comparison() {
        return write_compared(text, table, function, comparison.form);
    }
    match statement.assignment() {
        Some(assignment) => {
            let value = value_in(table, function, Scope::Whole, assignment.alternative);
            write_number(text, b"worth ", value)
        }
        None => Ok(()),
    }
}

fn write_compared(
    text: &mut Vec<u8>,
    table: &Table,
    function: &ValueFunction,
    form: Form,
) -> Result<(), AllocError>
    requires named { IsNamedIn table.now form }
    requires function { IsFunctionOf table.now function.now }
    ensures { OnOk result (text.new.items ≡ text.old.items ++ spec.compared_words table.now function.now form) }
{
    let (first, second) = quantities(table, function, form);
    write_number(text, b"", first)?;
    write_number(text, b" to ", second)
}
