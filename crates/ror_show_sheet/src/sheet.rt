//! The sheet: what was read of a table, of the statements that come with it, and of a session.

ghost use Rattle.std.specs.Prelude.{◌≡◌, ◌<◌, ◌≤◌, ◌+◌, ◌++◌, length, IfOk, OnOk};
ghost use Rattle.ror_table.specs.Table.{id_of, criterion_id_of, performance_at, steps};
ghost use Rattle.ror_show_sheet.specs.Beside.{AddsSheet};
ghost use Rattle.ror_show_sheet.specs.Pieces.{pieces, widest, laid, word_piece};
ghost use Rattle.ror_show_sheet.specs.Pieces as layout_spec;
ghost use Rattle.ror_show_sheet.specs.Sheet as spec;

use crate::behind::behind;
use crate::layout::{columns, write_before, write_end, write_number};
use crate::statements::write_statements;
use ror_session::Session;
use ror_show_hints::Glance;
use ror_show_kit::write_amount;
use ror_table::{Amount, Direction, Table};
use ror_value::Input;
use std::alloc::{AllocError, Global};

/// Adds what was read: of the input exactly what `sheet_text` says, and behind it notes, on the names of the file, on what was passed
/// over, and on which lines of a session will be refused.
///
/// # Errors
///
/// Only want of memory.
pub fn write_sheet(
    alloc: Global,
    text: &mut Vec<u8>,
    input: &Input,
    seen: &Glance<'_>,
    best_first: bool,
    session: Option<&Session>,
) -> Result<(), AllocError>
    ensures { OnOk result (AddsSheet input.now text.old.items text.new.items) }
{
    write_input(alloc, text, input)?;
    let rest = behind(alloc, input, seen, best_first, session)?;
    text.extend_from_slice(&rest)?;
    Ok(())
}

/// Adds the criteria, the alternatives, the classes and the statements.
fn write_input(alloc: Global, text: &mut Vec<u8>, input: &Input) -> Result<(), AllocError>
    ensures { OnOk result (text.new.items ≡ text.old.items ++ spec.sheet_text input.now) }
{
    write_criteria(alloc, text, &input.table)?;
    write_alternatives(text, &input.table)?;
    write_classes(text, input.table.classes())?;
    write_statements(text, &input.table, input.opening.as_slice())
}

#[tactic(auto, unfolding(crate::specs::Sheet::criteria_text))]
fn write_criteria(alloc: Global, text: &mut Vec<u8>, table: &Table) -> Result<(), AllocError>
    ensures { OnOk result (text.new.items ≡ text.old.items ++ spec.criteria_text table.now) }
{
    write_criteria_head(text, table)?;
    write_all_criteria(alloc, text, table)?;
    write_end(text)
}

#[tactic(auto, unfolding(crate::specs::Sheet::criteria_head))]
fn write_criteria_head(text: &mut Vec<u8>, table: &Table) -> Result<(), AllocError>
    ensures { OnOk result (text.new.items ≡ text.old.items ++ spec.criteria_head table.now) }
{
    write_number(text, b"criteria ", table.criteria())?;
    write_number(text, levels_word(), table.columns())?;
    text.extend_from_slice(columns_word())
}

#[tactic(auto, unfolding(crate::specs::Sheet::levels_word))]
fn levels_word() -> &'static [u8]
    ensures { result.now ≡ spec.levels_word }
{
    b", each with its levels from worst to best; columns "
}

#[tactic(auto, unfolding(crate::specs::Sheet::columns_word))]
fn columns_word() -> &'static [u8]
    ensures { result.now ≡ spec.columns_word }
{
    b" (one for each step, or one for a linear criterion)"
}

fn write_all_criteria(alloc: Global, text: &mut Vec<u8>, table: &Table) -> Result<(), AllocError>
    ensures { OnOk result (text.new.items
        ≡ text.old.items ++ pieces (spec.criterion_text table.now) (length table.now.criteria)) }
{
    for i in 0..table.criteria() {
        write_criterion(alloc, text, table, i)?;
    }
    Ok(())
}

#[tactic(auto, unfolding(crate::specs::Sheet::criterion_text))]
fn write_criterion(
    alloc: Global,
    text: &mut Vec<u8>,
    table: &Table,
    i: usize,
) -> Result<(), AllocError>
    requires { i < length table.now.criteria }
    ensures { OnOk result (text.new.items ≡ text.old.items ++ spec.criterion_text table.now i) }
{
    write_criterion_head(text, table, i)?;
    write_levels(alloc, text, table, i)
}

fn write_criterion_head(text: &mut Vec<u8>, table: &Table, i: usize) -> Result<(), AllocError>
    requires { i < length table.now.criteria }
    ensures { OnOk result (text.new.items ≡ text.old.items ++ spec.criterion_head table.now i) }
{
    text.extend_from_slice(b"\n  ")?;
    text.extend_from_slice(criterion_bytes(table, i))?;
    text.extend_from_slice(b"  ")?;
    text.extend_from_slice(direction_word(table.direction(i)))?;
    text.extend_from_slice(linear_word(table.linear(i)))?;
    write_number(text, b", steps ", table.steps(i))
}

fn direction_word(direction: Direction) -> &'static [u8]
    ensures { result.now ≡ spec.direction_text direction }
{
    match direction {
        Direction::Max => b"max",
        Direction::Min => b"min",
    }
}

fn linear_word(linear: bool) -> &'static [u8]
    ensures { result.now ≡ spec.linear_text linear }
{
    if linear { b" linear" } else { b"" }
}

/// Adds the levels of a criterion, from worst to best.
fn write_levels(
    alloc: Global,
    text: &mut Vec<u8>,
    table: &Table,
    i: usize,
) -> Result<(), AllocError>
    requires { i < length table.now.criteria }
    ensures { OnOk result (text.new.items ≡ text.old.items ++ spec.levels_text table.now i) }
{
    let width = level_width(alloc, table, i)?;
    write_lower_levels(text, table, i, width)?;
    write_level(text, table, i, width, table.steps(i))
}

/// Adds the levels below the best one.
fn write_lower_levels(
    text: &mut Vec<u8>,
    table: &Table,
    i: usize,
    width: usize,
) -> Result<(), AllocError>
    requires { i < length table.now.criteria }
    ensures { OnOk result (text.new.items
        ≡ text.old.items ++ laid width (spec.level_text table.now i) (steps table.now i)) }
{
    for rank in 0..table.steps(i) {
        write_level(text, table, i, width, rank)?;
    }
    Ok(())
}

fn write_level(
    text: &mut Vec<u8>,
    table: &Table,
    i: usize,
    width: usize,
    rank: usize,
) -> Result<(), AllocError>
    requires { i < length table.now.criteria }
    ensures { OnOk result (text.new.items
        ≡ text.old.items ++ word_piece width (spec.level_text table.now i) rank) }
{
    write_before(text, width, rank)?;
    write_amount_piece(text, performance_of(table, holder(table, i, rank), i))
}

#[tactic(auto, unfolding(crate::specs::Sheet::amount_piece))]
fn write_amount_piece(text: &mut Vec<u8>, amount: Amount) -> Result<(), AllocError>
    ensures { OnOk result (text.new.items ≡ text.old.items ++ spec.amount_piece amount) }
{
    write_amount(text, amount)
}

/// An alternative whose performance has this rank, or the first one.
fn holder(table: &Table, i: usize, rank: usize) -> usize
    requires { i < length table.now.criteria }
    ensures { result ≡ spec.holder table.now i rank (length table.now.alternatives) }
{
    let mut held = 0;
    for a in 0..table.alternatives() {
        if table.rank(a, i) == rank {
            held = a;
        }
    }
    held
}

/// A performance; past the last alternative it is 0.
fn performance_of(table: &Table, a: usize, i: usize) -> Amount
    requires { i < length table.now.criteria }
    ensures { result ≡ performance_at table.now a i }
{
    if a < table.alternatives() {
        table.performance(a, i)
    } else {
        Amount { num: 0, den: 1 }
    }
}

/// The columns of the widest performance on a criterion.
fn level_width(alloc: Global, table: &Table, i: usize) -> Result<usize, AllocError>
    requires { i < length table.now.criteria }
    ensures { IfOk result (λ width. width ≡ spec.level_width table.now i) }
{
    let mut widest = 0;
    for a in 0..table.alternatives() {
        let width = performance_width(alloc, table, i, a)?;
        if widest < width {
            widest = width;
        }
    }
    Ok(widest)
}

fn performance_width(alloc: Global, table: &Table, i: usize, a: usize) -> Result<usize, AllocError>
    requires criterion { i < length table.now.criteria }
    requires alternative { a < length table.now.alternatives }
    ensures { IfOk result (λ width. width ≡ layout_spec.columns (spec.performance_text table.now i a)) }
{
    let mut word = Vec::new(alloc);
    write_amount_piece(&mut word, table.performance(a, i))?;
    Ok(columns(&word))
}

#[tactic(auto, unfolding(crate::specs::Sheet::alternatives_text))]
fn write_alternatives(text: &mut Vec<u8>, table: &Table) -> Result<(), AllocError>
    ensures { OnOk result (text.new.items ≡ text.old.items ++ spec.alternatives_text table.now) }
{
    write_number(text, b"alternatives ", table.alternatives())?;
    write_ids(text, table, id_width(table))?;
    text.extend_from_slice(b"\n")
}

/// The columns of the widest id of an alternative.
fn id_width(table: &Table) -> usize
    ensures { result ≡ widest (id_of table.now) (length table.now.alternatives) }
{
    let mut widest = 0;
    for a in 0..table.alternatives() {
        let width = columns(id_bytes(table, a));
        if widest < width {
            widest = width;
        }
    }
    widest
}

fn write_ids(text: &mut Vec<u8>, table: &Table, width: usize) -> Result<(), AllocError>
    ensures { OnOk result (text.new.items
        ≡ text.old.items ++ laid width (id_of table.now) (length table.now.alternatives)) }
{
    for a in 0..table.alternatives() {
        write_id(text, table, width, a)?;
    }
    Ok(())
}

fn write_id(text: &mut Vec<u8>, table: &Table, width: usize, a: usize) -> Result<(), AllocError>
    ensures { OnOk result (text.new.items ≡ text.old.items ++ word_piece width (id_of table.now) a) }
{
    write_before(text, width, a)?;
    text.extend_from_slice(id_bytes(table, a))
}

#[tactic(auto, unfolding(crate::specs::Sheet::classes_text))]
fn write_classes(text: &mut Vec<u8>, classes: u32) -> Result<(), AllocError>
    ensures { OnOk result (text.new.items ≡ text.old.items ++ spec.classes_text classes) }
{
    if classes == 0 {
        return text.extend_from_slice(b"classes none\n");
    }
    write_number(text, b"classes ", classes)?;
    write_number(text, b", 1 is the worst and ", classes)?;
    text.extend_from_slice(b" the best\n")
}

/// An alternative's id; past the last one it is empty.
pub(crate) fn id_bytes(table: &Table, a: usize) -> &[u8]
    ensures { result.now ≡ id_of table.now a }
{
    if a >= table.alternatives() {
        return &[];
    }
    table.alternative_id(a).as_bytes()
}

/// A criterion's id; past the last one it is empty.
pub(crate) fn criterion_bytes(table: &Table, i: usize) -> &[u8]
    ensures { result.now ≡ criterion_id_of table.now i }
{
    if i >= table.criteria() {
        return &[];
    }
    table.criterion_id(i).as_bytes()
}
