//! Answers.

ghost use Rattle.std.specs.Prelude.{◌≡◌, IfOk, string_bytes};
ghost use Rattle.serde_json.specs.View.{view, members_view};
ghost use Rattle.ror_text.specs.Reading.{Gives};
ghost use Rattle.ror_json.specs.Form.{proved_form, unsettled_form};
ghost use Rattle.ror_json.specs.Reading as spec;
ghost use Rattle.ror_json.specs.Reading.{misfit};

use crate::certificate::{certificate_of, certificate_value};
use crate::fault::Misfit;
use crate::formed::{Formed, list_in, list_value};
use crate::keys::{ANSWER_KEYS, AnswerKey};
use crate::members::{Members, member_at, members_of, named_member, no_member};
use crate::question::{question_in, question_string};
use crate::single::{name_in, name_text, text_of};
use crate::wide::{wide_of, wide_value};
use ror_proof::names::{VERDICT_NAMES, VerdictName};
use ror_proof::{Answer, Proof, Verdict, WideText};
use ror_statement::Question;
use ror_table::Table;
use ror_text::Items;
use ror_text::reading::refuse_if;
use serde_json::{Map, Value, json, put};
use std::alloc::{AllocError, Global};

impl Formed for Answer {
    ghost use Rattle.ror_report.specs.Printing.{HasValidQuestion};
    ghost use Rattle.ror_json.specs.Form.{answer_form};

    ghost form = { answer_form };

    ghost asks = { HasValidQuestion };

    ghost reads = { spec.answer_of };

    fn to_value(&self, alloc: Global, table: &Table) -> Result<Value, AllocError> {
        let question = question_string(alloc, table, self.question)?;
        let name = VerdictName::of(&self.verdict);
        match &self.verdict {
            Verdict::Yes(proof) | Verdict::No(proof) | Verdict::Contradiction(proof) => {
                proved_value(alloc, table, question, name, proof)
            }
            Verdict::Wide { system, note } => {
                unsettled_value(alloc, table, question, *system, note)
            }
        }
    }

    #[tactic(auto, unfolding(crate::specs::Reading::answer_of))]
    fn from_value(alloc: Global, table: &Table, v: &Value) -> Result<Answer, Misfit> {
        let members = members_of(v)?;
        let (key, value, members) = named_member(&ANSWER_KEYS, members)?;
        match key {
            AnswerKey::Base => proved_in(alloc, table, value, members),
            AnswerKey::Question => unsettled_in(alloc, table, value, members),
        }
    }
}

/// The form of an answer with a proof.
#[tactic(auto, using(crate::proofs::WordTexts::word_texts))]
fn proved_value(
    alloc: Global,
    table: &Table,
    question: String,
    name: VerdictName,
    proof: &Proof,
) -> Result<Value, AllocError>
    ensures { IfOk result (λ v. view v ≡ proved_form (string_bytes question) name proof.now) }
{
    let mut map = Map::new(alloc);
    put(&mut map, alloc, "question", Value::from(question))?;
    let base = certificate_value(alloc, &proof.base)?;
    put(&mut map, alloc, "base", base)?;
    let parts = list_value(alloc, table, proof.parts.as_slice())?;
    put(&mut map, alloc, "parts", parts)?;
    let verdict = Value::try_from_str(alloc, name_text(name))?;
    put(&mut map, alloc, "verdict", verdict)?;
    Ok(Value::Object(map))
}

/// The form of an answer that concludes nothing.
fn unsettled_value(
    alloc: Global,
    table: &Table,
    question: String,
    system: u32,
    note: &WideText,
) -> Result<Value, AllocError>
    ensures { IfOk result (λ v. view v ≡ unsettled_form (string_bytes question) system note.now) }
{
    let wide = wide_value(alloc, table, system, note)?;
    json!(in alloc; {"question": question, "verdict": "wide", "wide": wide})
}

/// An answer with a proof, the value of whose `base` this is, and these the members after it.
#[tactic(auto, unfolding(crate::specs::Reading::proved_in))]
fn proved_in(
    alloc: Global,
    table: &Table,
    base: &Value,
    members: Members<'_>,
) -> Result<Answer, Misfit>
    ensures { Gives (λ x. x) misfit result
        (spec.proved_in table.now (view base.now) (members_view members.entry)) }
{
    let (parts, members) = member_at("parts", members)?;
    let (question, name) = asked_in(alloc, table, members)?;
    let proof = proof_of(alloc, table, base, parts)?;
    let verdict = concluded(name, proof)?;
    Ok(Answer { question, verdict })
}

/// The question and the name of the verdict, of which these are the members.
#[tactic(auto, unfolding(crate::specs::Reading::asked_in))]
fn asked_in(
    alloc: Global,
    table: &Table,
    members: Members<'_>,
) -> Result<(Question, VerdictName), Misfit>
    ensures { Gives (λ x. (x.0, x.1)) misfit result
        (spec.asked_in table.now (members_view members.entry)) }
{
    let (question, members) = member_at("question", members)?;
    let question = question_in(alloc, table, question)?;
    let (name, members) = member_at("verdict", members)?;
    let name = name_in(&VERDICT_NAMES, name)?;
    no_member(members)?;
    Ok((question, name))
}

/// The proof whose `base` and `parts` have these values.
#[tactic(auto, unfolding(crate::specs::Reading::proof_of))]
fn proof_of(alloc: Global, table: &Table, base: &Value, parts: &Value) -> Result<Proof, Misfit>
    ensures { Gives (λ x. x) misfit result (spec.proof_of (view base.now) (view parts.now)) }
{
    let parts = Items::from(list_in(alloc, table, parts)?);
    let base = certificate_of(alloc, table, base)?;
    Ok(Proof { base, parts })
}

/// The verdict of this name with its proof.
fn concluded(name: VerdictName, proof: Proof) -> Result<Verdict, Misfit>
    ensures { Gives (λ v. v) misfit result (spec.concluded name proof) }
{
    match name {
        VerdictName::Yes => Ok(Verdict::Yes(proof)),
        VerdictName::No => Ok(Verdict::No(proof)),
        VerdictName::Contradiction => Ok(Verdict::Contradiction(proof)),
        VerdictName::Wide => Err(Misfit::Shape),
    }
}

/// An answer that concludes nothing, the value of whose `question` this is, and these the members after it.
#[tactic(auto, unfolding(crate::specs::Reading::unsettled_in))]
fn unsettled_in(
    alloc: Global,
    table: &Table,
    question: &Value,
    members: Members<'_>,
) -> Result<Answer, Misfit>
    ensures { Gives (λ x. x) misfit result
        (spec.unsettled_in table.now (view question.now) (members_view members.entry)) }
{
    let question = question_in(alloc, table, question)?;
    let (name, members) = member_at("verdict", members)?;
    is_unsettled(name)?;
    let (wide, members) = member_at("wide", members)?;
    no_member(members)?;
    let (system, note) = wide_of(alloc, table, wide)?;
    let verdict = Verdict::Wide { system, note };
    Ok(Answer { question, verdict })
}

/// That the value is the word of a verdict that concludes nothing.
#[tactic(auto, unfolding(crate::specs::Reading::is_unsettled))]
fn is_unsettled(v: &Value) -> Result<(), Misfit>
    ensures { Gives (λ _. tt) misfit result (spec.is_unsettled (view v.now)) }
{
    let text = text_of(v)?;
    refuse_if(text.as_bytes() != b"wide".as_slice(), Misfit::Shape)
}
