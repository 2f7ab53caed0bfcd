//! Certificates, and the proofs of answers.

ghost use Rattle.std.specs.Prelude.{◌≡◌, IfOk};
ghost use Rattle.serde_json.specs.View.{view, members_view};
ghost use Rattle.ror_text.specs.Reading.{Gives};
ghost use Rattle.ror_json.specs.Form.{certificate_form, certificate_members, multipliers_form};
ghost use Rattle.ror_json.specs.Reading as spec;
ghost use Rattle.ror_json.specs.Reading.{misfit};

use crate::fault::Misfit;
use crate::formed::{Formed, list_in};
use crate::keys::{CERTIFICATE_KEYS, CertificateKey};
use crate::members::{Members, member_at, members_of, named_member, no_member};
use crate::single::{count_of, number_in, number_value, numbers_value};
use ror_proof::{Certificate, Part};
use ror_system::{Multipliers, Numbers, Solution};
use ror_table::Table;
use serde_json::{Map, Value, json, put};
use std::alloc::{AllocError, Global};

/// A number of a certificate, as its text.
impl Formed for i128 {
    ghost use Rattle.ror_json.specs.Form.{number_form};

    ghost form = { λ t z. number_form z };

    ghost asks = { λ t z. Unit {0} };

    ghost reads = { λ t d. spec.number_in d };

    fn to_value(&self, alloc: Global, _table: &Table) -> Result<Value, AllocError> {
        number_value(alloc, *self)
    }

    fn from_value(_alloc: Global, _table: &Table, v: &Value) -> Result<i128, Misfit> {
        number_in(v)
    }
}

/// The numbers of a certificate.
fn numbers_in(alloc: Global, table: &Table, v: &Value) -> Result<Numbers, Misfit>
    ensures { Gives (λ numbers. numbers) misfit result
        (spec.list_of spec.number_in (view v.now)) }
{
    let numbers: Vec<i128> = list_in(alloc, table, v)?;
    Ok(Numbers::of(alloc, numbers.as_slice())?)
}

/// The form of multipliers.
pub(crate) fn multipliers_value(
    alloc: Global,
    multipliers: &Multipliers,
) -> Result<Value, AllocError>
    ensures { IfOk result (λ v. view v ≡ multipliers_form multipliers.now) }
{
    let strict = numbers_value(alloc, &multipliers.strict)?;
    let weak = numbers_value(alloc, &multipliers.weak)?;
    json!(in alloc; {"strict": strict, "weak": weak})
}

/// The multipliers of which this is the form.
#[tactic(auto, unfolding(crate::specs::Reading::multipliers_of))]
pub(crate) fn multipliers_of(alloc: Global, table: &Table, v: &Value) -> Result<Multipliers, Misfit>
    ensures { Gives (λ m. m) misfit result (spec.multipliers_of (view v.now)) }
{
    let members = members_of(v)?;
    let (strict, members) = member_at("strict", members)?;
    let (weak, members) = member_at("weak", members)?;
    no_member(members)?;
    let strict = numbers_in(alloc, table, strict)?;
    let weak = numbers_in(alloc, table, weak)?;
    Ok(Multipliers { weak, strict })
}

/// The one member of a certificate.
fn certificate_map(
    alloc: Global,
    certificate: &Certificate,
) -> Result<Map<String, Value>, AllocError>
    ensures { IfOk result (λ map. members_view map.entries ≡ certificate_members certificate.now) }
{
    let mut map = Map::new(alloc);
    match certificate {
        Certificate::Solution(solution) => {
            let steps = numbers_value(alloc, &solution.steps)?;
            put(&mut map, alloc, "solution", steps)?;
        }
        Certificate::Multipliers(multipliers) => {
            let multipliers = multipliers_value(alloc, multipliers)?;
            put(&mut map, alloc, "multipliers", multipliers)?;
        }
    }
    Ok(map)
}

/// The form of a certificate.
pub(crate) fn certificate_value(
    alloc: Global,
    certificate: &Certificate,
) -> Result<Value, AllocError>
    ensures { IfOk result (λ v. view v ≡ certificate_form certificate.now) }
{
    Ok(Value::Object(certificate_map(alloc, certificate)?))
}

/// The certificate that these are the members of.
#[tactic(auto, unfolding(crate::specs::Reading::certificate_in))]
fn certificate_in(alloc: Global, table: &Table, members: Members<'_>) -> Result<Certificate, Misfit>
    ensures { Gives (λ c. c) misfit result (spec.certificate_in (members_view members.entry)) }
{
    let (key, value, members) = named_member(&CERTIFICATE_KEYS, members)?;
    no_member(members)?;
    certificate_named(alloc, table, key, value)
}

/// The certificate that stands under this key.
fn certificate_named(
    alloc: Global,
    table: &Table,
    key: CertificateKey,
    v: &Value,
) -> Result<Certificate, Misfit>
    ensures { Gives (λ c. c) misfit result (spec.certificate_named key (view v.now)) }
{
    match key {
        CertificateKey::Solution => {
            let steps = numbers_in(alloc, table, v)?;
            Ok(Certificate::Solution(Solution { steps }))
        }
        CertificateKey::Multipliers => {
            let multipliers = multipliers_of(alloc, table, v)?;
            Ok(Certificate::Multipliers(multipliers))
        }
    }
}

/// The certificate of which this is the form.
#[tactic(auto, unfolding(crate::specs::Reading::certificate_of))]
pub(crate) fn certificate_of(alloc: Global, table: &Table, v: &Value) -> Result<Certificate, Misfit>
    ensures { Gives (λ c. c) misfit result (spec.certificate_of (view v.now)) }
{
    let members = members_of(v)?;
    certificate_in(alloc, table, members)
}

impl Formed for Part {
    ghost use Rattle.ror_json.specs.Form.{part_form};

    ghost form = { λ t p. part_form p };

    ghost asks = { λ t p. Unit {0} };

    ghost reads = { λ t d. spec.part_of d };

    fn to_value(&self, alloc: Global, _table: &Table) -> Result<Value, AllocError> {
        let mut map = certificate_map(alloc, &self.body)?;
        put(&mut map, alloc, "at", Value::from(self.at))?;
        Ok(Value::Object(map))
    }

    #[tactic(auto, unfolding(crate::specs::Reading::part_of))]
    fn from_value(alloc: Global, table: &Table, v: &Value) -> Result<Part, Misfit> {
        let members = members_of(v)?;
        let (at, members) = member_at("at", members)?;
        let at = count_of(at)?;
        let body = certificate_in(alloc, table, members)?;
        Ok(Part { at, body })
    }
}
