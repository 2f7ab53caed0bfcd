//! Reports as texts of JSON.

ghost use Rattle.std.specs.Prelude.{◌≡◌, ◌<◌, ◌^◌, length, string_bytes, IfOk};
ghost use Rattle.std.specs.List.{AllByRecursion};
ghost use Rattle.serde_json.specs.View.{view};
ghost use Rattle.ror_text.specs.Reading.{Gives};
ghost use Rattle.ror_json.specs.Form.{AsksOfBlock};
ghost use Rattle.ror_json.specs.Texts as spec;
ghost use Rattle.ror_json.specs.Texts.{json_text, report_of_text, text_fault};

use crate::fault::{JsonFault, TextFault};
use crate::report::{from_value, to_value};
use ror_report::Block;
use ror_table::Table;
use serde_json::Value;
use std::alloc::{AllocError, Global};

/// The compact text of the form of a list of blocks. It asks what [`to_value`] asks.
pub fn to_text(alloc: Global, table: &Table, blocks: &[Block]) -> Result<String, AllocError>
    requires { AllByRecursion (AsksOfBlock table.now) blocks.now }
    ensures text { IfOk result (λ text. string_bytes text ≡ json_text table.now blocks.now) }
{
    let value = to_value(alloc, table, blocks)?;
    value.to_string(alloc)
}

/// The blocks of the report whose JSON these bytes are.
///
/// # Errors
///
/// `BadJson` exactly where the bytes are no JSON in UTF-8, then `BadShape` exactly as [`from_value`] has it.
#[tactic(auto, unfolding(crate::specs::Texts::report_of_text))]
pub fn from_text(alloc: Global, table: &Table, bytes: &[u8]) -> Result<Vec<Block>, TextFault>
    requires { length bytes.now < 2 ^ 32 }
    ensures exact { Gives (λ blocks. blocks.items) text_fault result
        (report_of_text table.now bytes.now) }
{
    // A shape is bad only over a table, and each table has alternatives.
    prove!(table.alternatives() > 0);
    let value = value_of(alloc, bytes)?;
    match from_value(alloc, table, &value) {
        Ok(blocks) => Ok(blocks),
        Err(JsonFault::BadShape(block)) => Err(TextFault::BadShape(block as u32)),
        Err(JsonFault::Memory) => Err(TextFault::Memory),
    }
}

/// The value whose JSON these bytes are.
fn value_of(alloc: Global, bytes: &[u8]) -> Result<Value, TextFault>
    ensures { Gives view text_fault result (spec.value_of bytes.now) }
{
    match Value::from_slice(alloc, bytes) {
        Ok(value) => Ok(value),
        Err(error) if error.is_memory() => Err(TextFault::Memory),
        Err(_) => Err(TextFault::BadJson),
    }
}
