//! What has a form, and lists of it.

ghost use Rattle.std.specs.Prelude.{◌≡◌, List, Result, IfOk};
ghost use Rattle.std.specs.List.{AllByRecursion};
ghost use Rattle.serde_json.specs.Data.{Data};
ghost use Rattle.serde_json.specs.View.{view, items_view};
ghost use Rattle.ror_table.specs.Table.{DecisionTable};
ghost use Rattle.ror_text.specs.Reading.{Gives};
ghost use Rattle.ror_json.specs.declared.fault.Misfit.{Misfit};
ghost use Rattle.ror_json.specs.Form.{list_form};
ghost use Rattle.ror_json.specs.Reading.{misfit, json_fault, items_from, list_of};

use crate::fault::{JsonFault, Misfit};
use crate::members::items_of;
use ror_table::Table;
use serde_json::{Value, push};
use std::alloc::{AllocError, Global};

/// What has one value as its form, over a table.
pub(crate) trait Formed {
    ghost form: { DecisionTable → Self → Data };
    /// What has to hold where the form is asked for.
    ghost asks: { DecisionTable → Self → Type 0 };

    ghost reads: { DecisionTable → Data → Result Self Misfit };

    /// The form.
    fn to_value(&self, alloc: Global, table: &Table) -> Result<Value, AllocError>
        requires { asks table.now self.now }
        ensures { IfOk result (λ v. view v ≡ form table.now self.now) };

    /// What the value is the form of.
    fn from_value(alloc: Global, table: &Table, v: &Value) -> Result<Self, Misfit>
        ensures { Gives (λ x. x) misfit result (reads table.now (view v.now)) };
}

/// The forms of these, in order.
pub(crate) fn list_value<T: Formed>(
    alloc: Global,
    table: &Table,
    list: &[T],
) -> Result<Value, AllocError>
    requires { AllByRecursion (T.asks table.now) list.now }
    ensures { IfOk result (λ v. view v ≡ list_form (T.form table.now) list.now) }
{
    let mut values = Vec::with_capacity(alloc, list.len())?;
    'list: for one in list {
        let value = one.to_value(alloc, table)?;
        push(&mut values, value)?;
    }
    Ok(Value::Array(values))
}

/// What the items of an array are the forms of.
#[tactic(auto, unfolding(crate::specs::Reading::list_of))]
pub(crate) fn list_in<T: Formed + Drop>(
    alloc: Global,
    table: &Table,
    v: &Value,
) -> Result<Vec<T>, Misfit>
    ensures { Gives (λ list. list.items) misfit result
        (list_of (T.reads table.now) (view v.now)) }
{
    let items = items_of(v)?;
    match items_in(alloc, table, items) {
        Ok(list) => Ok(list),
        Err(JsonFault::BadShape(_)) => Err(Misfit::Shape),
        Err(JsonFault::Memory) => Err(Misfit::Memory),
    }
}

/// What these are the forms of, or the number of the first that is none, from 1.
pub(crate) fn items_in<T: Formed + Drop>(
    alloc: Global,
    table: &Table,
    items: &[Value],
) -> Result<Vec<T>, JsonFault>
    ensures { Gives (λ list. list.items) json_fault result
        (items_from (T.reads table.now) 1 (items_view items.now)) }
{
    let mut list = Vec::new(alloc);
    'items: for item in items {
        match T::from_value(alloc, table, item) {
            Ok(one) => list.push(one)?,
            Err(Misfit::Shape) => return Err(JsonFault::BadShape(list.len() + 1)),
            Err(Misfit::Memory) => return Err(JsonFault::Memory),
        }
    }
    Ok(list)
}
