//! The text of a question.

ghost use Rattle.std.specs.Prelude.{◌≡◌, ◌<◌, ◌∷◌, ◌++◌, length, string_bytes, IfOk, OnOk};
ghost use Rattle.ror_statement.specs.Names.{PairWithin, ScopeWithin, NamesWithin, IsPropertyWithin, IsValidQuestion};
ghost use Rattle.ror_table.specs.Table.{id_of, criterion_id_of};
ghost use Rattle.ror_text.specs.Cursor.{cursor_at};
ghost use Rattle.ror_text.specs.Reading.{Gives};
ghost use Rattle.ror_proof.specs.Printing.{spaced};
ghost use Rattle.ror_proof.specs.Reading.{answer_at};
ghost use Rattle.ror_proof.specs.Text.{pair_words, scope_words, form_words, property_words};
ghost use Rattle.ror_json.specs.Form.{question_text};
ghost use Rattle.ror_json.specs.Reading as spec;
ghost use Rattle.ror_json.specs.Reading.{asked_text, misfit};
ghost use Rattle.serde_json.specs.View.{view};

use crate::fault::Misfit;
use crate::single::{name_text, text_of};
use itoa::Buffer;
use ror_proof::names::QuestionName;
use ror_proof::{Answer, ProofFault, read_answer};
use ror_statement::{Form, Pair, Property, Question, Scope};
use ror_table::Table;
use ror_text::reading::refuse_if;
use serde_json::Value;
use std::alloc::{AllocError, Global};

/// The words of a question, with single spaces between them.
#[tactic(auto, using(crate::proofs::WordTexts::word_texts, crate::proofs::QuestionTexts::joined))]
pub(crate) fn question_string(
    alloc: Global,
    table: &Table,
    question: Question,
) -> Result<String, AllocError>
    requires { IsValidQuestion (length table.now.alternatives) (length table.now.criteria)
        table.now.classes question }
    ensures { IfOk result (λ text. string_bytes text ≡ question_text table.now question) }
{
    let mut text = String::from_str(alloc, name_text(QuestionName::of(question)))?;
    push_property(&mut text, table, question.property())?;
    Ok(text)
}

/// The words of what a question asks of a value function.
fn push_property(text: &mut String, table: &Table, property: Property) -> Result<(), AllocError>
    requires { IsPropertyWithin (length table.now.alternatives) (length table.now.criteria)
        table.now.classes property }
    ensures { OnOk result (string_bytes text.new
        ≡ string_bytes text.old ++ spaced (property_words table.now property)) }
{
    match property {
        Property::Compatible => Ok(()),
        Property::AtLeast(form) => push_form(text, table, form),
        Property::InClass(alternative, class) => {
            push_word(text, table.alternative_id(alternative))?;
            push_word(text, Buffer::new().format(class))
        }
    }
}

fn push_form(text: &mut String, table: &Table, form: Form) -> Result<(), AllocError>
    requires { NamesWithin (length table.now.alternatives) (length table.now.criteria) form }
    ensures { OnOk result (string_bytes text.new
        ≡ string_bytes text.old ++ spaced (form_words table.now form)) }
{
    match form {
        Form::Value(first, second) => push_pair(text, table, Pair { first, second }),
        Form::Strength(first, second, scope) => {
            push_pair(text, table, first)?;
            push_pair(text, table, second)?;
            push_scope(text, table, scope)
        }
    }
}

fn push_pair(text: &mut String, table: &Table, pair: Pair) -> Result<(), AllocError>
    requires { PairWithin (length table.now.alternatives) pair }
    ensures { OnOk result (string_bytes text.new
        ≡ string_bytes text.old ++ spaced (pair_words table.now pair)) }
{
    push_word(text, table.alternative_id(pair.first))?;
    push_word(text, table.alternative_id(pair.second))
}

fn push_scope(text: &mut String, table: &Table, scope: Scope) -> Result<(), AllocError>
    requires { ScopeWithin (length table.now.criteria) scope }
    ensures { OnOk result (string_bytes text.new
        ≡ string_bytes text.old ++ spaced (scope_words table.now scope)) }
{
    match scope {
        Scope::Whole => Ok(()),
        Scope::One(criterion) => {
            push_word(text, "on")?;
            push_word(text, table.criterion_id(criterion))
        }
    }
}

/// A space and a word.
fn push_word(text: &mut String, word: &str) -> Result<(), AllocError>
    ensures { OnOk result (string_bytes text.new ≡ string_bytes text.old ++ 32 ∷ word.now) }
{
    text.push_str(" ")?;
    text.push_str(word)
}

/// The question whose words are this text.
#[tactic(auto, unfolding(crate::specs::Reading::question_in))]
pub(crate) fn question_in(alloc: Global, table: &Table, v: &Value) -> Result<Question, Misfit>
    ensures { Gives (λ q. q) misfit result (spec.question_in table.now (view v.now)) }
{
    let text = text_of(v)?;
    question_of(alloc, table, text.as_bytes())
}

/// The question whose words are these bytes: they are one line, and are read as those of an answer that concludes nothing.
#[tactic(auto, unfolding(crate::specs::Reading::question_of))]
fn question_of(alloc: Global, table: &Table, text: &[u8]) -> Result<Question, Misfit>
    ensures { Gives (λ q. q) misfit result (spec.question_of table.now text.now) }
{
    refuse_if(!is_one_line(text), Misfit::Shape)?;
    let answer = asked(alloc, text)?;
    question_at(alloc, table, answer.as_slice())
}

/// The question of the answer at the beginning of this text.
fn question_at(alloc: Global, table: &Table, text: &[u8]) -> Result<Question, Misfit>
    ensures { Gives (λ q. q) misfit result
        (spec.asked (answer_at table.now (cursor_at text.now 0))) }
{
    match read_answer(alloc, table, text, 0) {
        Ok((answer, _)) => Ok(question_asked(answer)),
        Err(ProofFault::Memory) => Err(Misfit::Memory),
        Err(_) => Err(Misfit::Shape),
    }
}

fn question_asked(answer: Answer) -> Question
    ensures { result ≡ answer.question }
{
    answer.question
}

fn is_one_line(text: &[u8]) -> bool
    ensures { result ≡ spec.is_one_line text.now }
{
    text.iter().all(|byte| *byte != b'\n')
}

/// The text of an answer to this question, which concludes nothing.
fn asked(alloc: Global, question: &[u8]) -> Result<Vec<u8>, AllocError>
    ensures { IfOk result (λ text. text.items ≡ asked_text question.now) }
{
    let mut text = Vec::new(alloc);
    text.extend_from_slice(b"answer ")?;
    text.extend_from_slice(question)?;
    text.extend_from_slice(b" wide\nwide 0 rowsum 0 path\n")?;
    Ok(text)
}
