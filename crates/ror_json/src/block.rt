//! Blocks.

ghost use Rattle.std.specs.Prelude.{◌≡◌, IfOk};
ghost use Rattle.serde_json.specs.View.{view, members_view};
ghost use Rattle.ror_text.specs.Reading.{Gives};
ghost use Rattle.ror_json.specs.Form.{body_form, AsksOfBody};
ghost use Rattle.ror_json.specs.Reading as spec;
ghost use Rattle.ror_json.specs.Reading.{misfit};

use crate::fault::Misfit;
use crate::formed::{Formed, list_in, list_value};
use crate::keys::{BodyKey, EARLY_KEYS, LATE_KEYS, LINE_FAULTS};
use crate::members::{Members, begins_with_line, member_at, members_of, named_member, no_member};
use crate::repair::{kept_of, kept_value, repair_wide_of, repair_wide_value};
use crate::single::{count_of, name_in, name_text};
use ror_report::{Block, Body};
use ror_table::Table;
use ror_text::Items;
use ror_text::reading::{need, refuse_if};
use serde_json::{Map, Value, put};
use std::alloc::{AllocError, Global};

impl Formed for Block {
    ghost use Rattle.ror_json.specs.Form.{block_form, AsksOfBlock};

    ghost form = { block_form };

    ghost asks = { AsksOfBlock };

    ghost reads = { spec.block_of };

    #[tactic(auto, using(crate::proofs::WordTexts::word_texts))]
    fn to_value(&self, alloc: Global, table: &Table) -> Result<Value, AllocError> {
        let body = body_value(alloc, table, &self.body)?;
        let mut map = Map::new(alloc);
        put(&mut map, alloc, name_text(BodyKey::of(&self.body)), body)?;
        put(&mut map, alloc, "line", Value::from(self.line))?;
        Ok(Value::Object(map))
    }

    #[tactic(auto, unfolding(crate::specs::Reading::block_of))]
    fn from_value(alloc: Global, table: &Table, v: &Value) -> Result<Block, Misfit> {
        if begins_with_line(members_of(v)?) {
            late_block(alloc, table, members_of(v)?)
        } else {
            early_block(alloc, table, members_of(v)?)
        }
    }
}

/// The form of a body.
#[tactic(auto, using(crate::proofs::WordTexts::word_texts))]
fn body_value(alloc: Global, table: &Table, body: &Body) -> Result<Value, AllocError>
    requires { AsksOfBody table.now body.now }
    ensures { IfOk result (λ v. view v ≡ body_form table.now body.now) }
{
    match body {
        Body::Added(number) | Body::Withdrawn(number) | Body::Replaced(number) => {
            Ok(Value::from(*number))
        }
        Body::Undone => Ok(Value::Bool(true)),
        Body::Repaired(kept) => kept_value(alloc, table, kept),
        Body::RepairWide(number, note) => repair_wide_value(alloc, table, *number, note),
        Body::Answers(answers) => list_value(alloc, table, answers.as_slice()),
        Body::Refused(fault) => Value::try_from_str(alloc, name_text(*fault)),
    }
}

/// The block of which these are the members, a body before the line's number.
#[tactic(auto, unfolding(crate::specs::Reading::early_block))]
fn early_block(alloc: Global, table: &Table, members: Members<'_>) -> Result<Block, Misfit>
    ensures { Gives (λ b. b) misfit result
        (spec.early_block table.now (members_view members.entry)) }
{
    let (key, body, members) = named_member(&EARLY_KEYS, members)?;
    let (line, members) = member_at("line", members)?;
    let line = count_of(line)?;
    no_member(members)?;
    let body = body_named(alloc, table, key, body)?;
    Ok(Block { line, body })
}

/// The block of which these are the members, the line's number before a body.
#[tactic(auto, unfolding(crate::specs::Reading::late_block))]
fn late_block(alloc: Global, table: &Table, members: Members<'_>) -> Result<Block, Misfit>
    ensures { Gives (λ b. b) misfit result
        (spec.late_block table.now (members_view members.entry)) }
{
    let (line, members) = member_at("line", members)?;
    let line = count_of(line)?;
    let (key, body, members) = named_member(&LATE_KEYS, members)?;
    no_member(members)?;
    let body = body_named(alloc, table, key, body)?;
    Ok(Block { line, body })
}

/// The body that stands under this key.
fn body_named(alloc: Global, table: &Table, key: BodyKey, v: &Value) -> Result<Body, Misfit>
    ensures { Gives (λ b. b) misfit result (spec.body_named table.now key (view v.now)) }
{
    match key {
        BodyKey::Added => Ok(Body::Added(count_of(v)?)),
        BodyKey::Withdrawn => Ok(Body::Withdrawn(count_of(v)?)),
        BodyKey::Replaced => Ok(Body::Replaced(count_of(v)?)),
        BodyKey::Undone => undone_of(v),
        BodyKey::Repaired => Ok(Body::Repaired(kept_of(alloc, table, v)?)),
        BodyKey::RepairWide => {
            let (number, note) = repair_wide_of(alloc, table, v)?;
            Ok(Body::RepairWide(number, note))
        }
        BodyKey::Answers => Ok(Body::Answers(Items::from(list_in(alloc, table, v)?))),
        BodyKey::Refused => Ok(Body::Refused(name_in(&LINE_FAULTS, v)?)),
    }
}

/// The body of a revision that was taken back.
#[tactic(auto, unfolding(crate::specs::Reading::undone_of))]
fn undone_of(v: &Value) -> Result<Body, Misfit>
    ensures { Gives (λ b. b) misfit result (spec.undone_of (view v.now)) }
{
    let done = need(v.as_bool(), Misfit::Shape)?;
    refuse_if(!done, Misfit::Shape)?;
    Ok(Body::Undone)
}
