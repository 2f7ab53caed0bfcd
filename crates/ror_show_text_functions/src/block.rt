//! A value function in lines.

ghost use Rattle.std.specs.Prelude.{◌≡◌, ◌<◌, ◌≤◌, ◌∷◌, ◌++◌, length, decimal, IfOk, OnOk};
ghost use Rattle.std.specs.List.{flat_map, range_with_len};
ghost use Rattle.ror_table.specs.Table.{criterion_id_of, steps};
ghost use Rattle.ror_value.specs.Value.{IsFunctionOf};
ghost use Rattle.ror_show_text_functions.specs.Blocks as spec;
ghost use Rattle.ror_show_text_functions.specs.Ranges.{range_text};
ghost use Rattle.ror_show_find_proofs.specs.Shares.{IsShare};

use crate::ranges::write_range;
use crate::shares::write_rounded;
use itoa::Buffer;
use ror_show_find_proofs::{Share, begins_run, last_of_run, share_at, whole_of};
use ror_show_kit::{columns, room_behind, write_left, write_spaces, write_word};
use ror_table::Table;
use ror_value::ValueFunction;
use std::alloc::{AllocError, Global};

/// Adds a value function: the value of all best levels, and for each criterion its weight and the value of each run of levels.
pub(crate) fn write_block(
    alloc: Global,
    text: &mut Vec<u8>,
    table: &Table,
    function: &ValueFunction,
) -> Result<(), AllocError>
    requires { IsFunctionOf table.now function.now }
    ensures { OnOk result (text.new.items ≡ text.old.items ++ spec.block_text table.now function.now) }
{
    write_whole(alloc, text, table, function)?;
    write_criteria(alloc, text, table, function)
}

/// The value of all best levels.
fn write_whole(
    alloc: Global,
    text: &mut Vec<u8>,
    table: &Table,
    function: &ValueFunction,
) -> Result<(), AllocError>
    requires { IsFunctionOf table.now function.now }
    ensures { OnOk result (text.new.items ≡ text.old.items ++ spec.whole_text function.now) }
{
    write_share_line(
        alloc,
        text,
        5,
        b"all best levels",
        whole_of(table, function),
    )
}

fn write_criteria(
    alloc: Global,
    text: &mut Vec<u8>,
    table: &Table,
    function: &ValueFunction,
) -> Result<(), AllocError>
    requires { IsFunctionOf table.now function.now }
    ensures { OnOk result (text.new.items ≡ text.old.items ++ spec.criteria_text table.now function.now) }
{
    for i in 0..table.criteria() {
        write_criterion(alloc, text, table, function, i)?;
    }
    Ok(())
}

/// The weight of a criterion, and its levels.
#[tactic(auto, unfolding(crate::specs::Blocks::criterion_text))]
fn write_criterion(
    alloc: Global,
    text: &mut Vec<u8>,
    table: &Table,
    function: &ValueFunction,
    i: usize,
) -> Result<(), AllocError>
    requires function { IsFunctionOf table.now function.now }
    requires criterion { i < length table.now.criteria }
    ensures { OnOk result (text.new.items ≡ text.old.items ++ spec.criterion_text table.now function.now i) }
{
    let label = weight_label(alloc, table, i)?;
    let weight = share_at(table, function, i, table.steps(i));
    write_share_line(alloc, text, 5, label.as_slice(), weight)?;
    write_levels(alloc, text, table, function, i)
}

fn weight_label(alloc: Global, table: &Table, i: usize) -> Result<Vec<u8>, AllocError>
    ensures { IfOk result (λ label. label.items ≡ spec.weight_label table.now i) }
{
    let mut label = Vec::new(alloc);
    label.extend_from_slice(criterion_id(table, i))?;
    label.extend_from_slice(b" weight")?;
    Ok(label)
}

/// The id of the criterion at a place from 0, and nothing past the last one.
pub fn criterion_id(table: &Table, i: usize) -> &[u8]
    ensures { result.now ≡ criterion_id_of table.now i }
{
    if i >= table.criteria() {
        return &[];
    }
    table.criterion_id(i).as_bytes()
}

/// All levels of a criterion, from the worst to the best.
fn write_levels(
    alloc: Global,
    text: &mut Vec<u8>,
    table: &Table,
    function: &ValueFunction,
    i: usize,
) -> Result<(), AllocError>
    requires function { IsFunctionOf table.now function.now }
    requires criterion { i < length table.now.criteria }
    ensures { OnOk result (text.new.items ≡ text.old.items ++ spec.levels_text table.now function.now i) }
{
    write_runs(alloc, text, table, function, i)?;
    write_run(alloc, text, table, function, i, table.steps(i))
}

/// The levels below the best one.
fn write_runs(
    alloc: Global,
    text: &mut Vec<u8>,
    table: &Table,
    function: &ValueFunction,
    i: usize,
) -> Result<(), AllocError>
    requires function { IsFunctionOf table.now function.now }
    requires criterion { i < length table.now.criteria }
    ensures { OnOk result (text.new.items ≡ text.old.items
        ++ flat_map (spec.run_text table.now function.now i) (range_with_len 0 (steps table.now i))) }
{
    for r in 0..table.steps(i) {
        write_run(alloc, text, table, function, i, r)?;
    }
    Ok(())
}

/// The line of the run that begins at a level, where one does.
#[tactic(auto, unfolding(crate::specs::Blocks::run_text))]
fn write_run(
    alloc: Global,
    text: &mut Vec<u8>,
    table: &Table,
    function: &ValueFunction,
    i: usize,
    r: usize,
) -> Result<(), AllocError>
    requires function { IsFunctionOf table.now function.now }
    requires criterion { i < length table.now.criteria }
    requires within { r ≤ steps table.now i }
    ensures { OnOk result (text.new.items ≡ text.old.items ++ spec.run_text table.now function.now i r) }
{
    if !begins_run(table, function, i, r) {
        return Ok(());
    }
    let label = range_label(alloc, table, i, r, last_of_run(table, function, i, r))?;
    let share = share_at(table, function, i, r);
    write_share_line(alloc, text, 7, label.as_slice(), share)
}

fn range_label(
    alloc: Global,
    table: &Table,
    i: usize,
    r: usize,
    s: usize,
) -> Result<Vec<u8>, AllocError>
    requires criterion { i < length table.now.criteria }
    requires first { r ≤ steps table.now i }
    requires last { s ≤ steps table.now i }
    ensures { IfOk result (λ label. label.items ≡ range_text table.now i r s) }
{
    let mut label = Vec::new(alloc);
    write_range(&mut label, table, i, r, s)?;
    Ok(label)
}

/// A label, and a share behind it.
fn write_share_line(
    alloc: Global,
    text: &mut Vec<u8>,
    margin: usize,
    label: &[u8],
    share: Share,
) -> Result<(), AllocError>
    requires { IsShare share }
    ensures { OnOk result (text.new.items ≡ text.old.items ++ spec.share_line margin label.now share) }
{
    write_label(text, margin, label)?;
    write_share(alloc, text, room_after(margin, label), share)
}

fn write_label(text: &mut Vec<u8>, margin: usize, label: &[u8]) -> Result<(), AllocError>
    ensures { OnOk result (text.new.items ≡ text.old.items ++ spec.label_text margin label.now) }
{
    write_spaces(text, margin)?;
    write_left(text, 35usize.saturating_sub(margin), label)
}

/// What a line has left behind a label and a rounded share.
fn room_after(margin: usize, label: &[u8]) -> usize
    ensures { result ≡ spec.room_after margin label.now }
{
    let beyond = columns(label).saturating_sub(35usize.saturating_sub(margin));
    room_behind(42).saturating_sub(beyond)
}

/// A share, and the whole number that it is of.
fn write_share(
    alloc: Global,
    text: &mut Vec<u8>,
    room: usize,
    share: Share,
) -> Result<(), AllocError>
    requires { IsShare share }
    ensures { OnOk result (text.new.items ≡ text.old.items ++ spec.share_text room share) }
{
    let number = number_word(alloc, share.part)?;
    text.push(b' ')?;
    write_rounded(text, share)?;
    write_word(text, 35, room, number.as_slice())?;
    text.push(b'\n')?;
    Ok(())
}

/// A number, behind a space.
fn number_word(alloc: Global, number: u128) -> Result<Vec<u8>, AllocError>
    ensures { IfOk result (λ word. word.items ≡ 32 ∷ decimal number) }
{
    let mut word = Vec::new(alloc);
    word.push(b' ')?;
    word.extend_from_slice(Buffer::new().format(number).as_bytes())?;
    Ok(word)
}
