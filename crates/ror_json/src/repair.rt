//! Repairs.

ghost use Rattle.std.specs.Prelude.{◌≡◌, IfOk};
ghost use Rattle.serde_json.specs.View.{view};
ghost use Rattle.ror_text.specs.Reading.{Gives};
ghost use Rattle.ror_json.specs.Form.{kept_form, repair_wide_form};
ghost use Rattle.ror_json.specs.Reading as spec;
ghost use Rattle.ror_json.specs.Reading.{misfit};

use crate::certificate::{certificate_of, certificate_value, multipliers_of, multipliers_value};
use crate::fault::Misfit;
use crate::formed::{Formed, list_in, list_value};
use crate::members::{member_at, members_of, no_member};
use crate::single::count_of;
use crate::wide::{wide_of, wide_value};
use ror_proof::{Dropped, Kept, WideText};
use ror_table::Table;
use ror_text::Items;
use ror_text::reading::refuse_if;
use serde_json::{Value, json};
use std::alloc::{AllocError, Global};

impl Formed for Dropped {
    ghost use Rattle.ror_json.specs.Form.{dropped_form};

    ghost form = { λ t d. dropped_form d };

    ghost asks = { λ t d. Unit {0} };

    ghost reads = { λ t d. spec.dropped_of d };

    fn to_value(&self, alloc: Global, _table: &Table) -> Result<Value, AllocError> {
        let multipliers = multipliers_value(alloc, &self.proof)?;
        json!(in alloc; {"multipliers": multipliers, "number": self.number})
    }

    #[tactic(auto, unfolding(crate::specs::Reading::dropped_of))]
    fn from_value(alloc: Global, table: &Table, v: &Value) -> Result<Dropped, Misfit> {
        let members = members_of(v)?;
        let (proof, members) = member_at("multipliers", members)?;
        let (number, members) = member_at("number", members)?;
        let number = count_of(number)?;
        no_member(members)?;
        let proof = multipliers_of(alloc, table, proof)?;
        Ok(Dropped { number, proof })
    }
}

/// The form of a repair.
pub(crate) fn kept_value(alloc: Global, table: &Table, kept: &Kept) -> Result<Value, AllocError>
    ensures { IfOk result (λ v. view v ≡ kept_form kept.now) }
{
    let base = certificate_value(alloc, &kept.base)?;
    let dropped = list_value(alloc, table, kept.dropped.as_slice())?;
    json!(in alloc; {"base": base, "dropped": dropped})
}

/// The repair of which this is the form.
#[tactic(auto, unfolding(crate::specs::Reading::kept_of))]
pub(crate) fn kept_of(alloc: Global, table: &Table, v: &Value) -> Result<Kept, Misfit>
    ensures { Gives (λ x. x) misfit result (spec.kept_of (view v.now)) }
{
    let members = members_of(v)?;
    let (base, members) = member_at("base", members)?;
    let (dropped, members) = member_at("dropped", members)?;
    no_member(members)?;
    let dropped = Items::from(list_in(alloc, table, dropped)?);
    let base = certificate_of(alloc, table, base)?;
    Ok(Kept { dropped, base })
}

/// The form of a repair that is too wide at the statement with this number.
pub(crate) fn repair_wide_value(
    alloc: Global,
    table: &Table,
    number: u32,
    note: &WideText,
) -> Result<Value, AllocError>
    ensures { IfOk result (λ v. view v ≡ repair_wide_form number note.now) }
{
    let wide = wide_value(alloc, table, 0, note)?;
    json!(in alloc; {"number": number, "wide": wide})
}

/// The number of the statement, and the number too wide, of which this is the form.
#[tactic(auto, unfolding(crate::specs::Reading::repair_wide_of))]
pub(crate) fn repair_wide_of(
    alloc: Global,
    table: &Table,
    v: &Value,
) -> Result<(u32, WideText), Misfit>
    ensures { Gives (λ x. (x.0, x.1)) misfit result (spec.repair_wide_of (view v.now)) }
{
    let members = members_of(v)?;
    let (number, members) = member_at("number", members)?;
    let number = count_of(number)?;
    let (wide, members) = member_at("wide", members)?;
    no_member(members)?;
    let (system, note) = wide_of(alloc, table, wide)?;
    refuse_if(system != 0, Misfit::Shape)?;
    Ok((number, note))
}
