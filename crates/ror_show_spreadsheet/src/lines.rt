//! The alternatives of a spreadsheet: the rows behind the first one and that of directions.

ghost use Rattle.std.specs.Prelude.{◌≡◌, ◌<◌, ◌≤◌, ◌+◌, ◌-◌, ◌^◌, [], ◌++◌, length, All, IfOk, OnOk};
ghost use Rattle.ror_text.specs.Reading.{Gives};
ghost use Rattle.ror_table.specs.declared.fault.What.TheVariants.{Alternatives};
ghost use Rattle.ror_table.specs.Amounts.{IsAmount};
ghost use Rattle.ror_table.specs.Draft.{add_alternative, with_alternative};
ghost use Rattle.ror_show_cells.specs.declared.fault.SheetKind.TheVariants.{NoName, RepeatedId, TooMany};
ghost use Rattle.ror_show_cells.specs.Faults.{sheet_fault, fault_at};
ghost use Rattle.ror_show_spreadsheet.specs.Import as spec;

use crate::columns::{Reading, even_row};
use crate::drafts::draft_error;
use crate::names::row_id;
use ror_show_cells::{
    CellTest, Numerals, Row, SheetError, SheetKind, amount_in, any_cell, bad, kind_of, word_of,
};
use ror_table::{Amount, Draft};
use ror_text::ids::id_text;
use ror_text::reading::refuse_if;
use std::alloc::{AllocError, Global};

/// How the numbers of a sheet are written, how many cells each row has, and how many rows stand before the alternatives.
#[derive(Clone, Copy, Debug)]
pub(crate) struct Layout {
    pub(crate) numerals: Numerals,
    pub(crate) width: usize,
    pub(crate) before: usize,
}

/// The amounts of a row, and the words that write them, each behind a blank.
#[derive(Drop)]
pub(crate) struct Numbers {
    pub(crate) amounts: Vec<Amount>,
    pub(crate) text: Vec<u8>,
}

/// Adds the alternatives of these rows.
pub(crate) fn read_rows(
    alloc: Global,
    layout: Layout,
    reading: &mut Reading,
    rows: &[Row],
) -> Result<(), SheetError>
    requires number { length reading.old.draft.criteria + 1 ≡ layout.width }
    requires fits { layout.before + length rows.now < 2 ^ 64 }
    ensures { Gives (λ _. spec.reading_with reading.new) sheet_fault result
        (spec.read_rows layout (spec.reading_with reading.old) rows.now) }
{
    for (place, row) in rows.iter().enumerate() {
        read_row(alloc, layout, reading, place, row)?;
    }
    Ok(())
}

/// Adds the alternative of a row, at its place among those of alternatives; a row without anything in it is passed over.
#[tactic(auto, unfolding(crate::specs::Import::row_step))]
fn read_row(
    alloc: Global,
    layout: Layout,
    reading: &mut Reading,
    place: usize,
    row: &Row,
) -> Result<(), SheetError>
    requires number { length reading.old.draft.criteria + 1 ≡ layout.width }
    requires fits { layout.before + place + 1 < 2 ^ 64 }
    ensures exact { Gives (λ _. spec.reading_with reading.new) sheet_fault result
        (spec.row_step layout (spec.reading_with reading.old) (place, row.now)) }
    ensures number { OnOk result (length reading.new.draft.criteria ≡ length reading.old.draft.criteria) }
{
    if !any_cell(CellTest::HasText, 0, row) {
        return Ok(());
    }
    read_filled(alloc, layout, reading, layout.before + place + 1, row)
}

/// Adds the alternative of the row of this number, which has something in it.
#[tactic(auto, unfolding(crate::specs::Import::filled_row))]
fn read_filled(
    alloc: Global,
    layout: Layout,
    reading: &mut Reading,
    number: usize,
    row: &Row,
) -> Result<(), SheetError>
    requires { length reading.old.draft.criteria + 1 ≡ layout.width }
    ensures exact { Gives (λ _. spec.reading_with reading.new) sheet_fault result
        (spec.filled_row layout (spec.reading_with reading.old) number row.now) }
    ensures number { OnOk result (length reading.new.draft.criteria ≡ length reading.old.draft.criteria) }
{
    even_row(number, layout.width, row)?;
    refuse_if(row.cell(0).is_empty(), bad(SheetKind::NoName, number, 1))?;
    let numbers = numbers_of(alloc, layout.numerals, number, row)?;
    with_row(alloc, reading, number, row.cell(0), &numbers)
}

/// The numbers of all cells behind the first.
#[tactic(auto, unfolding(crate::specs::Import::numbers_of))]
fn numbers_of(
    alloc: Global,
    numerals: Numerals,
    number: usize,
    row: &Row,
) -> Result<Numbers, SheetError>
    ensures exact { Gives spec.numbers_with sheet_fault result (spec.numbers_of numerals number row.now) }
    ensures count { IfOk result (λ numbers. length numbers.amounts.items ≡ length row.now - 1) }
    ensures amounts { IfOk result (λ numbers. All IsAmount numbers.amounts.items) }
{
    let mut numbers = Numbers {
        amounts: Vec::new(alloc),
        text: Vec::new(alloc),
    };
    for place in 1..row.width() {
        add_number(
            alloc,
            numerals,
            number,
            &mut numbers,
            place,
            row.cell(place),
        )?;
    }
    Ok(numbers)
}

/// Adds the number of a cell.
#[tactic(auto, unfolding(crate::specs::Import::number_step))]
fn add_number(
    alloc: Global,
    numerals: Numerals,
    row: usize,
    numbers: &mut Numbers,
    place: usize,
    cell: &[u8],
) -> Result<(), SheetError>
    requires { place + 1 < 2 ^ 64 }
    ensures exact { Gives (λ _. spec.numbers_with numbers.new) sheet_fault result
        (spec.number_step numerals row (spec.numbers_with numbers.old) place cell.now) }
    ensures count { OnOk result (length numbers.new.amounts.items ≡ length numbers.old.amounts.items + 1) }
    ensures amounts { OnOk result (All IsAmount numbers.old.amounts.items → All IsAmount numbers.new.amounts.items) }
{
    let word = word_of(alloc, numerals.mark, cell)?;
    let Some(amount) = amount_in(numerals, cell, &word) else {
        return Err(bad(kind_of(alloc, numerals, cell)?, row, place + 1));
    };
    numbers.amounts.push(amount)?;
    numbers.text.push(b' ')?;
    numbers.text.extend_from_slice(&word)?;
    Ok(())
}

/// Adds an alternative and its line.
#[tactic(auto, unfolding(crate::specs::Import::with_row, ror_table::specs::Draft::with_alternative))]
fn with_row(
    alloc: Global,
    reading: &mut Reading,
    row: usize,
    name: &[u8],
    numbers: &Numbers,
) -> Result<(), SheetError>
    requires number { length numbers.now.amounts.items ≡ length reading.old.draft.criteria }
    requires amounts { All IsAmount numbers.now.amounts.items }
    ensures exact { Gives (λ _. spec.reading_with reading.new) sheet_fault result
        (spec.with_row (spec.reading_with reading.old) row name.now (spec.numbers_with numbers.now)) }
    ensures number { OnOk result (length reading.new.draft.criteria ≡ length reading.old.draft.criteria) }
{
    let id = row_id(alloc, row, name)?;
    let Some(id) = id_text(&id) else {
        return Err(bad(SheetKind::NoName, row, 1));
    };
    put_alternative(&mut reading.draft, row, id, &numbers.amounts)?;
    write_alternative(&mut reading.text, id, &numbers.text)?;
    Ok(())
}

/// Adds an alternative to the draft.
fn put_alternative(
    draft: &mut Draft,
    row: usize,
    id: &str,
    amounts: &[Amount],
) -> Result<(), SheetError>
    requires number { length amounts.now ≡ length draft.old.criteria }
    requires amounts { All IsAmount amounts.now }
    ensures exact { Gives (λ _. draft.new) sheet_fault result (with_alternative (fault_at NoName row 1)
        (fault_at RepeatedId row 1) (fault_at (TooMany Alternatives) row 1) draft.old id.now amounts.now) }
    ensures added { OnOk result (draft.new ≡ add_alternative draft.old id.now amounts.now) }
{
    match draft.alternative(id, amounts) {
        Ok(()) => Ok(()),
        Err(fault) => Err(draft_error(fault, row, 1)),
    }
}

/// Adds the line of an alternative.
#[tactic(auto, unfolding(crate::specs::Import::alternative_text))]
fn write_alternative(text: &mut Vec<u8>, id: &str, numbers: &[u8]) -> Result<(), AllocError>
    ensures { OnOk result (text.new.items ≡ text.old.items ++ spec.alternative_text id.now numbers.now) }
{
    text.extend_from_slice(b"alternative ")?;
    text.extend_from_slice(id.as_bytes())?;
    text.extend_from_slice(numbers)?;
    text.push(b'\n')?;
    Ok(())
}
