//! Whole reports.

ghost use Rattle.std.specs.Prelude.{◌≡◌, IfOk};
ghost use Rattle.std.specs.List.{AllByRecursion};
ghost use Rattle.serde_json.specs.View.{view, items_view};
ghost use Rattle.ror_text.specs.Reading.{Gives};
ghost use Rattle.ror_json.specs.Form.{report_form, AsksOfBlock};
ghost use Rattle.ror_json.specs.Reading as spec;
ghost use Rattle.ror_json.specs.Reading.{report_of, json_fault, misfit};

use crate::fault::{JsonFault, Misfit};
use crate::formed::{items_in, list_value};
use crate::members::{items_of, member_at, members_of, no_member};
use crate::single::the_count_of;
use ror_report::Block;
use ror_table::Table;
use serde_json::{Value, json};
use std::alloc::{AllocError, Global};

/// The form of a list of blocks. It asks what [`ror_report::print_block`] asks of each: that each answer is to a question that
/// is valid for the table, that a repair drops fewer than 2^32 statements, and that every number of a certificate is of
/// absolute value at most 2^127 - 1, so that the blocks are read again.
pub fn to_value(alloc: Global, table: &Table, blocks: &[Block]) -> Result<Value, AllocError>
    requires { AllByRecursion (AsksOfBlock table.now) blocks.now }
    ensures form { IfOk result (λ v. view v ≡ report_form table.now blocks.now) }
{
    let blocks = list_value(alloc, table, blocks)?;
    json!(in alloc; {"blocks": blocks, "report": 1u32})
}

/// The blocks of which a value is the form.
///
/// # Errors
///
/// `BadShape` exactly where the value is the form of no list of blocks: with 0 where it isn't the object around blocks, else
/// with the number of the first of its blocks, from 1, that is no block's form. What is in the place of a question, a name, a
/// verdict or a number of a certificate and would not be read there in a report of this table is a bad shape.
#[tactic(auto, unfolding(crate::specs::Reading::report_of))]
pub fn from_value(alloc: Global, table: &Table, v: &Value) -> Result<Vec<Block>, JsonFault>
    ensures exact { Gives (λ blocks. blocks.items) json_fault result
        (report_of table.now (view v.now)) }
{
    match outer_of(v) {
        Ok(items) => items_in(alloc, table, items),
        Err(Misfit::Shape) => Err(JsonFault::BadShape(0)),
        Err(Misfit::Memory) => Err(JsonFault::Memory),
    }
}

/// The items of the object around blocks.
#[tactic(auto, unfolding(crate::specs::Reading::outer_of))]
fn outer_of(v: &Value) -> Result<&[Value], Misfit>
    ensures { Gives (λ items. items_view items.now) misfit result (spec.outer_of (view v.now)) }
{
    let members = members_of(v)?;
    let (blocks, members) = member_at("blocks", members)?;
    let items = items_of(blocks)?;
    let (version, members) = member_at("report", members)?;
    the_count_of(1, version)?;
    no_member(members)?;
    Ok(items)
}
