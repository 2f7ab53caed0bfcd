//! The criteria of a spreadsheet: its first row, and the row of directions.

ghost use Rattle.std.specs.Prelude.{◌≡◌, ◌<◌, ◌≤◌, ◌+◌, ◌^◌, [], ◌++◌, length, option_map, IfOk, OnOk};
ghost use Rattle.ror_text.specs.Lines.{word_at};
ghost use Rattle.ror_text.specs.Reading.{Gives};
ghost use Rattle.ror_table.specs.declared.fault.What.TheVariants.{Criteria};
ghost use Rattle.ror_table.specs.Draft.{add_criterion, with_criterion};
ghost use Rattle.ror_show_cells.specs.declared.fault.SheetKind.TheVariants.{NoName, RepeatedId, TooMany};
ghost use Rattle.ror_show_cells.specs.Faults.{sheet_fault, fault_at};
ghost use Rattle.ror_show_spreadsheet.specs.Import as spec;
ghost use Rattle.ror_show_spreadsheet.specs.Options.{options_with};

use crate::drafts::{add_criterion, draft_error};
use crate::names::column_id;
use crate::options::{Options, check_names, names};
use ror_show_cells::{CellTest, OptionName, Row, SheetError, SheetKind, any_cell, bad, scale_in};
use ror_table::{Direction, Draft, Scale};
use ror_text::ids::id_text;
use ror_text::reading::refuse_if;
use std::alloc::{AllocError, Global};

/// What was read so far: a draft of the table, and the lines of a plain table that write it.
#[derive(Drop)]
pub(crate) struct Reading {
    pub(crate) draft: Draft,
    pub(crate) text: Vec<u8>,
}

/// Whether the row of this number has so many cells.
pub(crate) fn even_row(number: usize, due: usize, row: &Row) -> Result<(), SheetError>
    ensures { Gives (λ _. tt) sheet_fault result (spec.even_row number due row.now) }
{
    let width = row.width();
    if width == due {
        return Ok(());
    }
    Err(bad(SheetKind::Ragged, number, width.min(due) + 1))
}

/// The row of directions, if there is one.
pub(crate) fn words_of(rows: &[Row]) -> Option<&Row>
    ensures { option_map (λ row. row.now) result ≡ spec.words_of rows.now }
{
    let row = rows.get(1)?;
    if any_cell(CellTest::SaysScale, 1, row) {
        Some(row)
    } else {
        None
    }
}

/// Whether the row of directions has so many cells, if there is one.
pub(crate) fn even_words(due: usize, words: Option<&Row>) -> Result<(), SheetError>
    ensures { Gives (λ _. tt) sheet_fault result (spec.even_words due (option_map (λ row. row.now) words.entry)) }
{
    match words {
        Some(row) => even_row(2, due, row),
        None => Ok(()),
    }
}

/// A cell of the row of directions; empty where there is no such row.
fn word_in(words: Option<&Row>, place: usize) -> &[u8]
    ensures { result.now ≡ spec.word_in (option_map (λ row. row.now) words.entry) place }
{
    match words {
        Some(row) => row.cell(place),
        None => &[],
    }
}

/// The criteria of all columns behind the first.
pub(crate) fn read_columns(
    alloc: Global,
    options: &Options<'_>,
    head: &Row,
    words: Option<&Row>,
) -> Result<Reading, SheetError>
    requires { 1 ≤ length head.now }
    ensures exact { Gives spec.reading_with sheet_fault result
        (spec.read_columns (options_with options.now) head.now (option_map (λ row. row.now) words.entry)) }
    ensures first { IfOk result (λ x. x.draft.alternatives ≡ []) }
    ensures number { IfOk result (λ x. length x.draft.criteria + 1 ≡ length head.now) }
{
    let mut reading = Reading {
        draft: Draft::new(alloc),
        text: Vec::from_slice(alloc, b"ror-table 3\n")?,
    };
    for place in 1..head.width() {
        let word = word_in(words, place);
        add_column(alloc, options, &mut reading, place, head.cell(place), word)?;
    }
    Ok(reading)
}

/// Adds the criterion in the column of this place, from 0, with its name and its word of directions.
#[tactic(auto, unfolding(crate::specs::Import::column_step))]
fn add_column(
    alloc: Global,
    options: &Options<'_>,
    reading: &mut Reading,
    place: usize,
    name: &[u8],
    word: &[u8],
) -> Result<(), SheetError>
    requires first { reading.old.draft.alternatives ≡ [] }
    requires fits { place + 1 < 2 ^ 64 }
    ensures exact { Gives (λ _. spec.reading_with reading.new) sheet_fault result
        (spec.column_step (options_with options.now) (spec.reading_with reading.old) place name.now word.now) }
    ensures first { OnOk result (reading.new.draft.alternatives ≡ []) }
    ensures number { OnOk result (length reading.new.draft.criteria ≡ length reading.old.draft.criteria + 1) }
{
    refuse_if(name.is_empty(), bad(SheetKind::NoName, 1, place + 1))?;
    let scale = scale_of(alloc, options, place + 1, name, word)?;
    with_column(alloc, reading, place + 1, name, scale)
}

/// The scale of the criterion in this column.
#[tactic(auto, unfolding(crate::specs::Import::scale_of))]
fn scale_of(
    alloc: Global,
    options: &Options<'_>,
    column: usize,
    name: &[u8],
    word: &[u8],
) -> Result<Scale, SheetError>
    ensures { Gives (λ scale. scale) sheet_fault result
        (spec.scale_of (options_with options.now) column name.now word.now) }
{
    let said = scale_in(word);
    refuse_if(
        !word.is_empty() && said.is_none(),
        bad(SheetKind::BadDirection, 2, column),
    )?;
    let least = names(alloc, options.min, name)?;
    let most = names(alloc, options.max, name)?;
    let direction = direction_from(column, said, least, most)?;
    let named = names(alloc, options.linear, name)?;
    Ok(Scale {
        direction,
        linear: is_linear_by(said, named),
    })
}

/// The direction that one of these says.
fn direction_from(
    column: usize,
    said: Option<Scale>,
    least: bool,
    most: bool,
) -> Result<Direction, SheetError>
    ensures { Gives (λ direction. direction) sheet_fault result (spec.direction_from column said least most) }
{
    match (said, least, most) {
        (Some(scale), false, false) => Ok(scale.direction),
        (None, true, false) => Ok(Direction::Min),
        (None, false, true) => Ok(Direction::Max),
        (None, false, false) => Err(bad(SheetKind::NoDirection, 1, column)),
        _ => Err(bad(SheetKind::TwoDirections, 1, column)),
    }
}

fn is_linear_by(said: Option<Scale>, named: bool) -> bool
    ensures { result ≡ spec.is_linear_by said named }
{
    match said {
        Some(scale) => named || scale.linear,
        None => named,
    }
}

/// Adds a criterion and its line.
#[tactic(auto, unfolding(crate::specs::Import::with_column, ror_table::specs::Draft::with_criterion))]
fn with_column(
    alloc: Global,
    reading: &mut Reading,
    column: usize,
    name: &[u8],
    scale: Scale,
) -> Result<(), SheetError>
    requires { reading.old.draft.alternatives ≡ [] }
    ensures exact { Gives (λ _. spec.reading_with reading.new) sheet_fault result
        (spec.with_column (spec.reading_with reading.old) column name.now scale) }
    ensures first { OnOk result (reading.new.draft.alternatives ≡ []) }
    ensures number { OnOk result (length reading.new.draft.criteria ≡ length reading.old.draft.criteria + 1) }
{
    let id = column_id(alloc, column, name)?;
    let Some(id) = id_text(&id) else {
        return Err(bad(SheetKind::NoName, 1, column));
    };
    put_criterion(&mut reading.draft, column, id, scale)?;
    write_criterion(&mut reading.text, id, scale)?;
    Ok(())
}

/// Adds a criterion to the draft.
fn put_criterion(draft: &mut Draft, column: usize, id: &str, scale: Scale) -> Result<(), SheetError>
    requires { draft.old.alternatives ≡ [] }
    ensures exact { Gives (λ _. draft.new) sheet_fault result (with_criterion (fault_at NoName 1 column)
        (fault_at RepeatedId 1 column) (fault_at (TooMany Criteria) 1 column) draft.old id.now scale) }
    ensures added { OnOk result (draft.new ≡ add_criterion draft.old id.now scale) }
{
    match add_criterion(draft, id, scale) {
        Ok(()) => Ok(()),
        Err(fault) => Err(draft_error(fault, 1, column)),
    }
}

/// Adds the line of a criterion.
#[tactic(auto, unfolding(crate::specs::Import::criterion_text))]
fn write_criterion(text: &mut Vec<u8>, id: &str, scale: Scale) -> Result<(), AllocError>
    ensures { OnOk result (text.new.items ≡ text.old.items ++ spec.criterion_text id.now scale) }
{
    text.extend_from_slice(b"criterion ")?;
    text.extend_from_slice(id.as_bytes())?;
    text.extend_from_slice(scale_text(scale))
}

fn scale_text(scale: Scale) -> &'static [u8]
    ensures { result.now ≡ spec.scale_text scale }
{
    match (scale.direction, scale.linear) {
        (Direction::Max, false) => b" max\n",
        (Direction::Max, true) => b" max linear\n",
        (Direction::Min, false) => b" min\n",
        (Direction::Min, true) => b" min linear\n",
    }
}

/// Whether each name of each option is that of a criterion.
#[tactic(auto, unfolding(crate::specs::Import::known_options))]
pub(crate) fn check_options(
    alloc: Global,
    options: &Options<'_>,
    head: &Row,
) -> Result<(), SheetError>
    ensures { Gives (λ _. tt) sheet_fault result (spec.known_options (options_with options.now) head.now) }
{
    check_names(alloc, OptionName::Min, options.min, head)?;
    check_names(alloc, OptionName::Max, options.max, head)?;
    check_names(alloc, OptionName::Linear, options.linear, head)
}
