//! The two quantities of a question by the value function that decides it.

ghost use Rattle.std.specs.Prelude.{◌≡◌, ◌<◌, ◌≤ℤ◌, pos, ◌++◌, length, option_copied, IfSome, OnOk};
ghost use Rattle.ror_statement.specs.Names.{ScopeWithin, PairWithin};
ghost use Rattle.ror_system.specs.System.{IsNarrow};
ghost use Rattle.ror_value.specs.Over.{IsNamedIn, IsAskedIn};
ghost use Rattle.ror_value.specs.Value.{IsFunctionOf};
ghost use Rattle.ror_value.specs.Meaning.{value_in, strength, first_quantity, second_quantity};
ghost use Rattle.ror_statement.specs.Questions.{property_of};
ghost use Rattle.ror_show_text_reasons.specs.Sides as spec;

use itoa::Buffer;
use ror_proof::Verdict;
use ror_show_find_proofs::{deciding, function_of};
use ror_show_kit::turned;
use ror_statement::{Form, Pair, Property, Question, Scope};
use ror_system::Numbers;
use ror_table::Table;
use ror_value::ValueFunction;
use std::alloc::{AllocError, Global};

/// Adds the two quantities that the question compares, the greater one first, and the value of all best levels.
pub(crate) fn write_sides(
    alloc: Global,
    text: &mut Vec<u8>,
    table: &Table,
    has: bool,
    question: &Question,
    verdict: &Verdict,
) -> Result<(), AllocError>
    requires { IsAskedIn table.now question.now }
    ensures { OnOk result (text.new.items ≡ text.old.items
        ++ spec.sides_text table.now has (property_of question.now) verdict.now) }
{
    match question.property() {
        Property::AtLeast(form) => {
            write_for(alloc, text, table, set_form(has, form), deciding(verdict))
        }
        Property::Compatible | Property::InClass(_, _) => Ok(()),
    }
}

fn set_form(has: bool, form: Form) -> Form
    ensures { result ≡ spec.set_form has form }
{
    if has { form } else { turned(form) }
}

fn write_for(
    alloc: Global,
    text: &mut Vec<u8>,
    table: &Table,
    form: Form,
    steps: Option<&Numbers>,
) -> Result<(), AllocError>
    requires { IsNamedIn table.now form }
    ensures { OnOk result (text.new.items ≡ text.old.items
        ++ spec.sides_for table.now form (option_copied steps.entry)) }
{
    match steps {
        Some(steps) => write_by(alloc, text, table, form, steps),
        None => Ok(()),
    }
}

fn write_by(
    alloc: Global,
    text: &mut Vec<u8>,
    table: &Table,
    form: Form,
    steps: &Numbers,
) -> Result<(), AllocError>
    requires { IsNamedIn table.now form }
    ensures { OnOk result (text.new.items ≡ text.old.items ++ spec.sides_by table.now form steps.now) }
{
    let found = function_of(alloc, table, steps)?;
    write_found(text, table, form, &found)
}

fn write_found(
    text: &mut Vec<u8>,
    table: &Table,
    form: Form,
    found: &Option<ValueFunction>,
) -> Result<(), AllocError>
    requires named { IsNamedIn table.now form }
    requires function { IfSome found.now (IsFunctionOf table.now) }
    ensures { OnOk result (text.new.items ≡ text.old.items ++ spec.found_sides table.now form found.now) }
{
    match found {
        Some(function) => write_quantities(text, table, form, function),
        None => Ok(()),
    }
}

fn write_quantities(
    text: &mut Vec<u8>,
    table: &Table,
    form: Form,
    function: &ValueFunction,
) -> Result<(), AllocError>
    requires named { IsNamedIn table.now form }
    requires function { IsFunctionOf table.now function.now }
    ensures { OnOk result (text.new.items ≡ text.old.items ++ spec.form_sides table.now form function.now) }
{
    let (first, second) = quantities(table, function, form);
    write_numbers(text, first, second, function.total())
}

fn write_numbers(
    text: &mut Vec<u8>,
    first: i128,
    second: i128,
    whole: i128,
) -> Result<(), AllocError>
    ensures { OnOk result (text.new.items ≡ text.old.items ++ spec.sides first second whole) }
{
    write_number(text, b" (", first)?;
    write_number(text, b" to ", second)?;
    write_number(text, b" of ", whole)?;
    text.push(b')')?;
    Ok(())
}

pub(crate) fn write_number(text: &mut Vec<u8>, words: &[u8], number: i128) -> Result<(), AllocError>
    ensures { OnOk result (text.new.items ≡ text.old.items ++ spec.number_behind words.now number) }
{
    text.extend_from_slice(words)?;
    text.extend_from_slice(Buffer::new().format(number).as_bytes())
}

pub(crate) fn quantities(table: &Table, function: &ValueFunction, form: Form) -> (i128, i128)
    requires function { IsFunctionOf table.now function.now }
    requires named { IsNamedIn table.now form }
    ensures first { result.0 ≡ first_quantity table.now function.now.steps form }
    ensures second { result.1 ≡ second_quantity table.now function.now.steps form }
{
    match form {
        Form::Value(a, b) => (function.value(table, a), function.value(table, b)),
        Form::Strength(p, q, scope) => (
            strength(table, function, scope, p),
            strength(table, function, scope, q),
        ),
    }
}

fn strength(table: &Table, function: &ValueFunction, scope: Scope, pair: Pair) -> i128
    requires function { IsFunctionOf table.now function.now }
    requires scope { ScopeWithin (length table.now.criteria) scope }
    requires pair { PairWithin (length table.now.alternatives) pair }
    ensures { result ≡ strength table.now function.now.steps scope pair }
{
    value_in(table, function, scope, pair.first) - value_in(table, function, scope, pair.second)
}

pub(crate) fn value_in(
    table: &Table,
    function: &ValueFunction,
    scope: Scope,
    alternative: usize,
) -> i128
    requires function { IsFunctionOf table.now function.now }
    requires scope { ScopeWithin (length table.now.criteria) scope }
    requires alternative { alternative < length table.now.alternatives }
    ensures number { result ≡ value_in table.now function.now.steps scope alternative }
    ensures bounds { (pos 0 ≤ℤ result) × (result ≤ℤ function.now.total) }
    ensures narrow { IsNarrow function.now.total }
{
    // The total is a number of 128 bits.
    let _total = function.total();
    match scope {
        Scope::Whole => function.value(table, alternative),
        Scope::One(criterion) => {
            function.marginal(table, criterion, table.rank(alternative, criterion))
        }
    }
}
