//! On which linear criteria a sum uses that they are linear.

ghost use Rattle.std.specs.Prelude.{◌≡◌, ◌<◌, ◌≤◌, ◌++◌, length, map, unsigned_abs, IfOk, OnOk};
ghost use Rattle.std.specs.List.{AllByRecursion};
ghost use Rattle.ror_table.specs.Table.{rank, steps};
ghost use Rattle.ror_value.specs.Over.{IsNamedIn};
ghost use Rattle.ror_system.specs.System.{IsNarrow};
ghost use Rattle.ror_rows.specs.Laws.{AreNamed};
ghost use Rattle.ror_rows.specs.Rows.{rank_in};
ghost use Rattle.ror_show_find_proofs.specs.Linear as spec;

use crate::compared::{Forms, forms_of};
use ror_statement::{Comparison, Form, Pair, Scope};
use ror_system::{Multipliers, Numbers, Row, row_at_steps};
use ror_table::Table;
use ror_text::Items;
use std::alloc::{AllocError, Global};

/// The criteria, by their places, on which these multipliers of what is compared use that they are linear: on which what is summed up
/// doesn't fall at each step.
///
/// The comparisons name what the table has.
///
/// # Errors
///
/// Only want of memory, here and below.
pub(crate) fn linear_used(
    alloc: Global,
    table: &Table,
    comparisons: &[Comparison],
    multipliers: &Multipliers,
) -> Result<Items<usize>, AllocError>
    requires { AreNamed table.now comparisons.now }
    ensures { IfOk result (λ used. used ≡ spec.linear_used table.now comparisons.now multipliers.now) }
{
    let forms = forms_of(alloc, comparisons)?;
    linear_by(alloc, table, &forms, multipliers)
}

fn linear_by(
    alloc: Global,
    table: &Table,
    forms: &Forms,
    multipliers: &Multipliers,
) -> Result<Items<usize>, AllocError>
    requires { spec.AreNamedForms table.now forms.now }
    ensures { IfOk result (λ used. used ≡ spec.linear_by table.now forms.now multipliers.now) }
{
    let mut used = Vec::new(alloc);
    for i in 0..table.criteria() {
        push_if_used(alloc, &mut used, table, forms, multipliers, i)?;
    }
    Ok(Items::from(used))
}

fn push_if_used(
    alloc: Global,
    used: &mut Vec<usize>,
    table: &Table,
    forms: &Forms,
    multipliers: &Multipliers,
    i: usize,
) -> Result<(), AllocError>
    requires criterion { i < length table.now.criteria }
    requires named { spec.AreNamedForms table.now forms.now }
    ensures { OnOk result (used.new.items
        ≡ used.old.items ++ spec.linear_if table.now forms.now multipliers.now i) }
{
    if uses_linear(alloc, table, forms, multipliers, i)? {
        used.push(i)?;
    }
    Ok(())
}

fn uses_linear(
    alloc: Global,
    table: &Table,
    forms: &Forms,
    multipliers: &Multipliers,
    i: usize,
) -> Result<bool, AllocError>
    requires criterion { i < length table.now.criteria }
    requires named { spec.AreNamedForms table.now forms.now }
    ensures { IfOk result (λ uses. uses ≡ spec.uses_linear table.now forms.now multipliers.now i) }
{
    if !table.linear(i) {
        return Ok(false);
    }
    let fall = all_fall(alloc, table, forms, multipliers, i)?;
    Ok(!fall)
}

fn all_fall(
    alloc: Global,
    table: &Table,
    forms: &Forms,
    multipliers: &Multipliers,
    i: usize,
) -> Result<bool, AllocError>
    requires criterion { i < length table.now.criteria }
    requires named { spec.AreNamedForms table.now forms.now }
    ensures { IfOk result (λ fall. fall ≡ spec.all_fall table.now forms.now multipliers.now i (steps table.now i)) }
{
    let mut fall = true;
    for k in 0..table.steps(i) {
        let here = step_falls(alloc, table, forms, multipliers, i, k)?;
        if !here {
            fall = false;
        }
    }
    Ok(fall)
}

/// Whether what is summed up isn't above 0 at a step of a criterion, were it not linear.
fn step_falls(
    alloc: Global,
    table: &Table,
    forms: &Forms,
    multipliers: &Multipliers,
    i: usize,
    k: usize,
) -> Result<bool, AllocError>
    requires criterion { i < length table.now.criteria }
    requires named { spec.AreNamedForms table.now forms.now }
    ensures { IfOk result (λ falls. falls ≡ spec.step_falls table.now forms.now multipliers.now i k) }
{
    let weak = weak_steps(alloc, table, forms, i, k)?;
    let strict = strict_steps(alloc, table, forms, i, k)?;
    let first = narrow_sum(alloc, weak, &multipliers.weak)?;
    let second = narrow_sum(alloc, strict, &multipliers.strict)?;
    Ok(both_fall(first, second))
}

/// Whether the sum of both parts isn't above 0.
fn both_fall(first: Option<i128>, second: Option<i128>) -> bool
    requires first { spec.IsNarrowSum first }
    requires second { spec.IsNarrowSum second }
    ensures { result ≡ spec.both_fall first second }
{
    match (first, second) {
        (Some(x), Some(y)) => x <= -y,
        _ => false,
    }
}

/// The sum of each entry times its multiplier, where there is one for each and the absolute values stay within 127 bits.
fn narrow_sum(
    alloc: Global,
    entries: Vec<i128>,
    multipliers: &Numbers,
) -> Result<Option<i128>, AllocError>
    requires { AllByRecursion IsNarrow entries.items }
    ensures value { IfOk result (λ sum. sum ≡ spec.narrow_sum entries.items multipliers.now) }
    ensures narrow { IfOk result spec.IsNarrowSum }
{
    if entries.len() != multipliers.len() {
        return Ok(None);
    }
    let row = Row::from_vec(alloc, entries)?;
    Ok(row_at_steps(&row, multipliers))
}

fn weak_steps(
    alloc: Global,
    table: &Table,
    forms: &Forms,
    i: usize,
    k: usize,
) -> Result<Vec<i128>, AllocError>
    requires criterion { i < length table.now.criteria }
    requires named { spec.AreNamedForms table.now forms.now }
    ensures { IfOk result (λ made. made.items ≡ spec.weak_steps table.now forms.now i k) }
{
    let mut made = Vec::new(alloc);
    push_steps(&mut made, table, forms.weak.as_slice(), i, k)?;
    Ok(made)
}

fn strict_steps(
    alloc: Global,
    table: &Table,
    forms: &Forms,
    i: usize,
    k: usize,
) -> Result<Vec<i128>, AllocError>
    requires criterion { i < length table.now.criteria }
    requires named { spec.AreNamedForms table.now forms.now }
    ensures { IfOk result (λ made. made.items ≡ spec.strict_steps table.now forms.now i k) }
{
    let mut made = Vec::new(alloc);
    made.push(1)?;
    push_steps(&mut made, table, forms.strict.as_slice(), i, k)?;
    Ok(made)
}

fn push_steps(
    made: &mut Vec<i128>,
    table: &Table,
    forms: &[Form],
    i: usize,
    k: usize,
) -> Result<(), AllocError>
    requires criterion { i < length table.now.criteria }
    requires named { AllByRecursion (IsNamedIn table.now) forms.now }
    ensures { OnOk result (made.new.items ≡ made.old.items ++ map (spec.step_at table.now i k) forms.now) }
{
    for form in forms {
        made.push(step_at(table, *form, i, k))?;
    }
    Ok(())
}

/// What the first quantity of a form has of the gain of a step more than the second one.
fn step_at(table: &Table, form: Form, i: usize, k: usize) -> i128
    requires criterion { i < length table.now.criteria }
    requires named { IsNamedIn table.now form }
    ensures { result ≡ spec.step_at table.now i k form }
{
    match form {
        Form::Value(a, b) => gap(table.rank(a, i), table.rank(b, i), k),
        Form::Strength(p, q, scope) => {
            gap_within(table, scope, p, i, k) - gap_within(table, scope, q, i, k)
        }
    }
}

fn gap_within(table: &Table, scope: Scope, pair: Pair, i: usize, k: usize) -> i128
    requires first { pair.first < length table.now.alternatives }
    requires second { pair.second < length table.now.alternatives }
    requires criterion { i < length table.now.criteria }
    ensures value { result ≡ spec.gap (rank_in table.now scope pair.first i) (rank_in table.now scope pair.second i) k }
    ensures small { unsigned_abs result ≤ 2 }
{
    let first = rank_within(table, scope, pair.first, i);
    gap(first, rank_within(table, scope, pair.second, i), k)
}

/// What one rank has of the gain of a step more than another.
fn gap(first: usize, second: usize, k: usize) -> i128
    ensures value { result ≡ spec.gap first second k }
    ensures small { unsigned_abs result ≤ 2 }
{
    passes(first, k) - passes(second, k)
}

fn passes(rank: usize, k: usize) -> i128
    ensures value { result ≡ spec.passes rank k }
    ensures small { unsigned_abs result ≤ 1 }
{
    if k < rank { 1 } else { 0 }
}

fn rank_within(table: &Table, scope: Scope, a: usize, i: usize) -> usize
    requires alternative { a < length table.now.alternatives }
    requires criterion { i < length table.now.criteria }
    ensures { result ≡ rank_in table.now scope a i }
{
    match scope {
        Scope::Whole => table.rank(a, i),
        Scope::One(criterion) => { if i == criterion { table.rank(a, i) } else { 0 } }
    }
}
