//! Where a value function rises, in words.

ghost use Rattle.std.specs.Prelude.{◌≡◌, ◌<◌, ◌≤◌, ◌+◌, ◌++◌, option_copied, length, IfSome, OnOk};
ghost use Rattle.std.specs.List.{flat_map, range_with_len};
ghost use Rattle.ror_table.specs.Table.{criterion_id_of, steps};
ghost use Rattle.ror_value.specs.Value.{IsFunctionOf};
ghost use Rattle.ror_show_text_functions.specs.Rises as spec;

use itoa::Buffer;
use ror_proof::Verdict;
use ror_show_find_proofs::{base_of, function_of, steps_in};
use ror_show_kit::write_amount;
use ror_system::Numbers;
use ror_table::Table;
use ror_value::ValueFunction;
use std::alloc::{AllocError, Global};

/// Adds where the value function rises that a verdict's proof has for the statements alone, and by how much: from which level of a
/// criterion to the next better one, and from the worst level of a linear criterion to the best; nothing where it has none.
///
/// # Errors
///
/// Only want of memory.
pub fn write_rises(
    alloc: Global,
    text: &mut Vec<u8>,
    table: &Table,
    verdict: &Verdict,
) -> Result<(), AllocError>
    ensures { OnOk result (text.new.items ≡ text.old.items ++ spec.rises_text table.now verdict.now) }
{
    match agreeing(verdict) {
        Some(steps) => write_rises_by(alloc, text, table, steps),
        None => Ok(()),
    }
}

/// The steps of the function that agrees with the statements alone, where the proof has one.
fn agreeing(verdict: &Verdict) -> Option<&Numbers>
    ensures { option_copied result ≡ spec.agreeing verdict.now }
{
    let base = base_of(verdict)?;
    steps_in(base)
}

fn write_rises_by(
    alloc: Global,
    text: &mut Vec<u8>,
    table: &Table,
    steps: &Numbers,
) -> Result<(), AllocError>
    ensures { OnOk result (text.new.items ≡ text.old.items ++ spec.rises_by table.now steps.now) }
{
    let found = function_of(alloc, table, steps)?;
    write_found_rises(text, table, &found)
}

fn write_found_rises(
    text: &mut Vec<u8>,
    table: &Table,
    found: &Option<ValueFunction>,
) -> Result<(), AllocError>
    requires { IfSome found.now (IsFunctionOf table.now) }
    ensures { OnOk result (text.new.items ≡ text.old.items ++ spec.found_rises table.now found.now) }
{
    match found {
        Some(function) => write_function_rises(text, table, function),
        None => Ok(()),
    }
}

fn write_function_rises(
    text: &mut Vec<u8>,
    table: &Table,
    function: &ValueFunction,
) -> Result<(), AllocError>
    requires { IsFunctionOf table.now function.now }
    ensures { OnOk result (text.new.items ≡ text.old.items ++ spec.function_rises table.now function.now) }
{
    text.extend_from_slice(b", which rises")?;
    write_all_rises(text, table, function)?;
    write_nowhere_else(text)
}

fn write_nowhere_else(text: &mut Vec<u8>) -> Result<(), AllocError>
    ensures { OnOk result (text.new.items ≡ text.old.items ++ spec.nowhere_else) }
{
    text.extend_from_slice(b" and nowhere else")
}

fn write_all_rises(
    text: &mut Vec<u8>,
    table: &Table,
    function: &ValueFunction,
) -> Result<(), AllocError>
    requires { IsFunctionOf table.now function.now }
    ensures { OnOk result (text.new.items ≡ text.old.items ++ spec.all_rises table.now function.now) }
{
    for i in 0..table.criteria() {
        write_rises_on(text, table, function, i)?;
    }
    Ok(())
}

fn write_rises_on(
    text: &mut Vec<u8>,
    table: &Table,
    function: &ValueFunction,
    i: usize,
) -> Result<(), AllocError>
    requires function { IsFunctionOf table.now function.now }
    requires criterion { i < length table.now.criteria }
    ensures { OnOk result (text.new.items ≡ text.old.items ++ spec.rises_on table.now function.now i) }
{
    if table.linear(i) {
        let best = table.steps(i);
        write_linear_by(text, table, i, gain(table, function, i, 0, best))
    } else {
        write_step_rises(text, table, function, i)
    }
}

/// What the level of one rank is worth more than that of another.
fn gain(table: &Table, function: &ValueFunction, i: usize, r: usize, s: usize) -> u128
    requires function { IsFunctionOf table.now function.now }
    requires criterion { i < length table.now.criteria }
    requires first { r ≤ steps table.now i }
    requires second { s ≤ steps table.now i }
    ensures { result ≡ spec.gain table.now function.now i r s }
{
    let better = function.marginal(table, i, s);
    let worse = function.marginal(table, i, r);
    (better - worse).unsigned_abs()
}

fn write_linear_by(
    text: &mut Vec<u8>,
    table: &Table,
    i: usize,
    gain: u128,
) -> Result<(), AllocError>
    requires { i < length table.now.criteria }
    ensures { OnOk result (text.new.items ≡ text.old.items ++ spec.linear_by table.now i gain) }
{
    if gain == 0 {
        return Ok(());
    }
    write_linear_risen(text, table, i, gain)
}

fn write_linear_risen(
    text: &mut Vec<u8>,
    table: &Table,
    i: usize,
    gain: u128,
) -> Result<(), AllocError>
    requires { i < length table.now.criteria }
    ensures { OnOk result (text.new.items ≡ text.old.items ++ spec.linear_risen table.now i gain) }
{
    write_levels(text, table, i, 0, table.steps(i))?;
    text.extend_from_slice(b" (linear)")?;
    write_by(text, gain)
}

fn write_step_rises(
    text: &mut Vec<u8>,
    table: &Table,
    function: &ValueFunction,
    i: usize,
) -> Result<(), AllocError>
    requires function { IsFunctionOf table.now function.now }
    requires criterion { i < length table.now.criteria }
    ensures { OnOk result (text.new.items ≡ text.old.items ++ spec.step_rises table.now function.now i) }
{
    for r in 0..table.steps(i) {
        write_rise(text, table, function, i, r, r + 1)?;
    }
    Ok(())
}

/// Adds what the level of one rank is worth more than that of another.
fn write_rise(
    text: &mut Vec<u8>,
    table: &Table,
    function: &ValueFunction,
    i: usize,
    r: usize,
    s: usize,
) -> Result<(), AllocError>
    requires function { IsFunctionOf table.now function.now }
    requires criterion { i < length table.now.criteria }
    requires first { r ≤ steps table.now i }
    requires second { s ≤ steps table.now i }
    ensures { OnOk result (text.new.items ≡ text.old.items ++ spec.rise table.now function.now i r s) }
{
    write_rise_by(text, table, i, r, s, gain(table, function, i, r, s))
}

fn write_rise_by(
    text: &mut Vec<u8>,
    table: &Table,
    i: usize,
    r: usize,
    s: usize,
    gain: u128,
) -> Result<(), AllocError>
    requires criterion { i < length table.now.criteria }
    requires first { r ≤ steps table.now i }
    requires second { s ≤ steps table.now i }
    ensures { OnOk result (text.new.items ≡ text.old.items ++ spec.rise_by table.now i r s gain) }
{
    if gain == 0 {
        return Ok(());
    }
    write_risen(text, table, i, r, s, gain)
}

fn write_risen(
    text: &mut Vec<u8>,
    table: &Table,
    i: usize,
    r: usize,
    s: usize,
    gain: u128,
) -> Result<(), AllocError>
    requires criterion { i < length table.now.criteria }
    requires first { r ≤ steps table.now i }
    requires second { s ≤ steps table.now i }
    ensures { OnOk result (text.new.items ≡ text.old.items ++ spec.risen table.now i r s gain) }
{
    write_levels(text, table, i, r, s)?;
    write_by(text, gain)
}

/// Adds two levels of a criterion.
fn write_levels(
    text: &mut Vec<u8>,
    table: &Table,
    i: usize,
    r: usize,
    s: usize,
) -> Result<(), AllocError>
    requires criterion { i < length table.now.criteria }
    requires first { r ≤ steps table.now i }
    requires second { s ≤ steps table.now i }
    ensures { OnOk result (text.new.items ≡ text.old.items ++ spec.levels_text table.now i r s) }
{
    write_on(text, table, i)?;
    write_from(text, table, i, r, s)
}

fn write_on(text: &mut Vec<u8>, table: &Table, i: usize) -> Result<(), AllocError>
    requires { i < length table.now.criteria }
    ensures { OnOk result (text.new.items ≡ text.old.items ++ spec.on_text table.now i) }
{
    text.extend_from_slice(b" on ")?;
    text.extend_from_slice(table.criterion_id(i).as_bytes())?;
    text.extend_from_slice(b" ")
}

fn write_from(
    text: &mut Vec<u8>,
    table: &Table,
    i: usize,
    r: usize,
    s: usize,
) -> Result<(), AllocError>
    requires criterion { i < length table.now.criteria }
    requires first { r ≤ steps table.now i }
    requires second { s ≤ steps table.now i }
    ensures { OnOk result (text.new.items ≡ text.old.items ++ spec.from_text table.now i r s) }
{
    write_amount(text, table.level(i, r))?;
    text.extend_from_slice(b" to ")?;
    write_amount(text, table.level(i, s))
}

fn write_by(text: &mut Vec<u8>, gain: u128) -> Result<(), AllocError>
    ensures { OnOk result (text.new.items ≡ text.old.items ++ spec.by_text gain) }
{
    text.extend_from_slice(b" by ")?;
    text.extend_from_slice(Buffer::new().format(gain).as_bytes())?;
    text.extend_from_slice(b",")
}
