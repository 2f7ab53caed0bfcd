//! Numbers too wide.

ghost use Rattle.std.specs.Prelude.{◌≡◌, IfOk};
ghost use Rattle.serde_json.specs.View.{view, items_view};
ghost use Rattle.ror_text.specs.Reading.{Gives};
ghost use Rattle.ror_json.specs.Form.{place_form, wide_form};
ghost use Rattle.ror_json.specs.Reading as spec;
ghost use Rattle.ror_json.specs.Reading.{misfit};

use crate::fault::Misfit;
use crate::formed::{Formed, list_in, list_value};
use crate::members::{item_at, items_of, member_at, members_of, no_item, no_member};
use crate::single::{count_of, name_in, name_text};
use ror_proof::names::{PLACE_NAMES, PlaceName};
use ror_proof::{Pivot, PlaceText, WideText};
use ror_table::Table;
use ror_text::Items;
use serde_json::{Value, json};
use std::alloc::{AllocError, Global};

impl Formed for Pivot {
    ghost use Rattle.ror_json.specs.Form.{pivot_form};

    ghost form = { λ t p. pivot_form p };

    ghost asks = { λ t p. Unit {0} };

    ghost reads = { λ t d. spec.pivot_of d };

    fn to_value(&self, alloc: Global, _table: &Table) -> Result<Value, AllocError> {
        json!(in alloc; [self.column, self.row])
    }

    #[tactic(auto, unfolding(crate::specs::Reading::pivot_of))]
    fn from_value(_alloc: Global, _table: &Table, v: &Value) -> Result<Pivot, Misfit> {
        let (column, items) = item_at(items_of(v)?)?;
        let column = count_of(column)?;
        let (row, items) = item_at(items)?;
        let row = count_of(row)?;
        no_item(items)?;
        Ok(Pivot { column, row })
    }
}

/// The form of a place.
#[tactic(auto, using(crate::proofs::WordTexts::word_texts))]
fn place_value(alloc: Global, place: PlaceText) -> Result<Value, AllocError>
    ensures { IfOk result (λ v. view v ≡ place_form place) }
{
    let name = name_text(PlaceName::of(place));
    match place {
        PlaceText::Start(row, column) | PlaceText::Step(row, column) => {
            json!(in alloc; [name, row, column])
        }
        PlaceText::Denominator(n) | PlaceText::RowSum(n) | PlaceText::ColumnSum(n) => {
            json!(in alloc; [name, n])
        }
    }
}

/// The place of which this is the form.
#[tactic(auto, unfolding(crate::specs::Reading::place_of))]
fn place_of(v: &Value) -> Result<PlaceText, Misfit>
    ensures { Gives (λ place. place) misfit result (spec.place_of (view v.now)) }
{
    let (name, items) = item_at(items_of(v)?)?;
    let name = name_in(&PLACE_NAMES, name)?;
    numbered_place(name, items)
}

/// The place of this name, whose numbers these are.
fn numbered_place(name: PlaceName, items: &[Value]) -> Result<PlaceText, Misfit>
    ensures { Gives (λ place. place) misfit result
        (spec.numbered_place name (items_view items.now)) }
{
    match name {
        PlaceName::Start => {
            let (row, column) = entry_in(items)?;
            Ok(PlaceText::Start(row, column))
        }
        PlaceName::Step => {
            let (row, column) = entry_in(items)?;
            Ok(PlaceText::Step(row, column))
        }
        PlaceName::Denominator => {
            let row = single_in(items)?;
            Ok(PlaceText::Denominator(row))
        }
        PlaceName::RowSum => {
            let row = single_in(items)?;
            Ok(PlaceText::RowSum(row))
        }
        PlaceName::ColumnSum => {
            let column = single_in(items)?;
            Ok(PlaceText::ColumnSum(column))
        }
    }
}

/// A row and a column, after which there is no item.
#[tactic(auto, unfolding(crate::specs::Reading::entry_in))]
fn entry_in(items: &[Value]) -> Result<(u32, u32), Misfit>
    ensures { Gives (λ x. (x.0, x.1)) misfit result (spec.entry_in (items_view items.now)) }
{
    let (row, items) = item_at(items)?;
    let row = count_of(row)?;
    let (column, items) = item_at(items)?;
    let column = count_of(column)?;
    no_item(items)?;
    Ok((row, column))
}

/// A row or a column, after which there is no item.
#[tactic(auto, unfolding(crate::specs::Reading::single_in))]
fn single_in(items: &[Value]) -> Result<u32, Misfit>
    ensures { Gives (λ n. n) misfit result (spec.single_in (items_view items.now)) }
{
    let (number, items) = item_at(items)?;
    let number = count_of(number)?;
    no_item(items)?;
    Ok(number)
}

/// The form of a number too wide, of the system with this number.
pub(crate) fn wide_value(
    alloc: Global,
    table: &Table,
    system: u32,
    note: &WideText,
) -> Result<Value, AllocError>
    ensures { IfOk result (λ v. view v ≡ wide_form system note.now) }
{
    let path = list_value(alloc, table, note.path.as_slice())?;
    let place = place_value(alloc, note.place)?;
    json!(in alloc; {"path": path, "place": place, "system": system})
}

/// The system, and the number too wide, of which this is the form.
#[tactic(auto, unfolding(crate::specs::Reading::wide_of))]
pub(crate) fn wide_of(alloc: Global, table: &Table, v: &Value) -> Result<(u32, WideText), Misfit>
    ensures { Gives (λ x. (x.0, x.1)) misfit result (spec.wide_of (view v.now)) }
{
    let members = members_of(v)?;
    let (path, members) = member_at("path", members)?;
    let (place, members) = member_at("place", members)?;
    let place = place_of(place)?;
    let (system, members) = member_at("system", members)?;
    let system = count_of(system)?;
    no_member(members)?;
    let path = Items::from(list_in(alloc, table, path)?);
    Ok((system, WideText { path, place }))
}
