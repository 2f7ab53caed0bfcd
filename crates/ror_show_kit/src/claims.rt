//! What an answer says of value functions, in a sentence.

ghost use Rattle.std.specs.Prelude.{◌≡◌, ◌++◌, OnOk};
ghost use Rattle.ror_rows.specs.Rows as rows;
ghost use Rattle.ror_show_kit.specs.Claims as spec;

use crate::ids::id_bytes;
use crate::spoken::{scope_id, spoken_ids};
use crate::words::{write_number, write_word};
use crate::write::{write_on, write_spoken};
use itoa::Buffer;
use ror_proof::Verdict;
use ror_proof::names::{Name, QuestionName, VerdictName};
use ror_statement::{Form, Pair, Property, Question, QuestionKind, Relation, Scope, kind_of};
use ror_table::Table;
use std::alloc::AllocError;

/// Adds what holds of all value functions where statements carry the answer: that they have what is asked of every one, or that
/// they lack what is asked of some one.
///
/// # Errors
///
/// Only want of memory.
pub fn write_claim(text: &mut Vec<u8>, table: &Table, question: &Question) -> Result<(), AllocError>
    ensures { OnOk result (text.new.items ≡ text.old.items ++ spec.claim_of table.now question.now) }
{
    write_property(
        text,
        table,
        is_every(kind_of(question)),
        question.property(),
    )
}

/// Adds what one value function says against that.
///
/// # Errors
///
/// Only want of memory.
pub fn write_counter(
    text: &mut Vec<u8>,
    table: &Table,
    question: &Question,
) -> Result<(), AllocError>
    ensures { OnOk result (text.new.items ≡ text.old.items ++ spec.counter_of table.now question.now) }
{
    write_property(
        text,
        table,
        !is_every(kind_of(question)),
        question.property(),
    )
}

/// Whether it is asked of every compatible function.
pub fn is_every(kind: QuestionKind) -> bool
    ensures { result ≡ spec.is_every kind }
{
    match kind {
        QuestionKind::Every => true,
        QuestionKind::Any | QuestionKind::Plain => false,
    }
}

/// Adds that a function has the property, or that it lacks it.
fn write_property(
    text: &mut Vec<u8>,
    table: &Table,
    has: bool,
    property: Property,
) -> Result<(), AllocError>
    ensures { OnOk result (text.new.items ≡ text.old.items ++ spec.property_sentence table.now has property) }
{
    match property {
        Property::Compatible => Ok(()),
        Property::AtLeast(form) => write_form(text, table, has, form),
        Property::InClass(alternative, class) => {
            text.extend_from_slice(id_bytes(table, alternative))?;
            text.extend_from_slice(class_verb(has))?;
            text.extend_from_slice(Buffer::new().format(class).as_bytes())
        }
    }
}

fn class_verb(has: bool) -> &'static [u8]
    ensures { result.now ≡ spec.class_verb has }
{
    if has {
        b" may belong to class "
    } else {
        b" can't belong to class "
    }
}

fn write_form(text: &mut Vec<u8>, table: &Table, has: bool, form: Form) -> Result<(), AllocError>
    ensures { OnOk result (text.new.items ≡ text.old.items ++ spec.form_sentence table.now has form) }
{
    if has {
        write_stands(text, table, Relation::AtLeast, form)
    } else {
        write_stands(text, table, Relation::Above, turned(form))
    }
}

/// The form with its two quantities exchanged.
pub fn turned(form: Form) -> Form
    ensures { result ≡ rows.turned form }
{
    match form {
        Form::Value(a, b) => Form::Value(b, a),
        Form::Strength(p, q, scope) => Form::Strength(q, p, scope),
    }
}

/// Adds how the first of two quantities stands to the second.
fn write_stands(
    text: &mut Vec<u8>,
    table: &Table,
    relation: Relation,
    form: Form,
) -> Result<(), AllocError>
    ensures { OnOk result (text.new.items ≡ text.old.items ++ spec.form_claim table.now relation form) }
{
    match form {
        Form::Value(a, b) => write_values(text, table, relation, a, b),
        Form::Strength(p, q, scope) => write_strengths(text, table, relation, p, q, scope),
    }
}

fn write_values(
    text: &mut Vec<u8>,
    table: &Table,
    relation: Relation,
    a: usize,
    b: usize,
) -> Result<(), AllocError>
    ensures { OnOk result (text.new.items ≡ text.old.items ++ spec.values_claim table.now relation a b) }
{
    text.extend_from_slice(id_bytes(table, a))?;
    text.extend_from_slice(value_verb(relation))?;
    text.extend_from_slice(id_bytes(table, b))
}

fn value_verb(relation: Relation) -> &'static [u8]
    ensures { result.now ≡ spec.value_verb relation }
{
    match relation {
        Relation::Above => b" is better than ",
        Relation::AtLeast => b" is at least as good as ",
        Relation::Equal => b" is as good as ",
    }
}

fn write_strengths(
    text: &mut Vec<u8>,
    table: &Table,
    relation: Relation,
    p: Pair,
    q: Pair,
    scope: Scope,
) -> Result<(), AllocError>
    ensures { OnOk result (text.new.items
        ≡ text.old.items ++ spec.strengths_claim table.now relation p q scope) }
{
    write_preference(text, table, p)?;
    text.extend_from_slice(strength_verb(relation))?;
    write_against(text, table, q)?;
    write_on(text, b" ", scope_id(table, scope))
}

fn strength_verb(relation: Relation) -> &'static [u8]
    ensures { result.now ≡ spec.strength_verb relation }
{
    match relation {
        Relation::Above => b" more strongly than ",
        Relation::AtLeast => b" at least as strongly as ",
        Relation::Equal => b" as strongly as ",
    }
}

fn write_preference(text: &mut Vec<u8>, table: &Table, p: Pair) -> Result<(), AllocError>
    ensures { OnOk result (text.new.items ≡ text.old.items ++ spec.preference table.now p) }
{
    text.extend_from_slice(id_bytes(table, p.first))?;
    text.extend_from_slice(b" is preferred to ")?;
    text.extend_from_slice(id_bytes(table, p.second))
}

fn write_against(text: &mut Vec<u8>, table: &Table, q: Pair) -> Result<(), AllocError>
    ensures { OnOk result (text.new.items ≡ text.old.items ++ spec.against table.now q) }
{
    text.extend_from_slice(id_bytes(table, q.first))?;
    text.extend_from_slice(b" to ")?;
    text.extend_from_slice(id_bytes(table, q.second))
}

/// Adds a question and its verdict, as on the page of functions.
///
/// # Errors
///
/// Only want of memory.
pub fn write_asked(
    text: &mut Vec<u8>,
    table: &Table,
    question: &Question,
    verdict: &Verdict,
) -> Result<(), AllocError>
    ensures { OnOk result (text.new.items
        ≡ text.old.items ++ spec.asked_text table.now question.now verdict.now) }
{
    text.extend_from_slice(QuestionName::of(*question).word())?;
    write_property_ids(text, table, question.property())?;
    write_word(text, VerdictName::of(verdict).word())
}

fn write_property_ids(
    text: &mut Vec<u8>,
    table: &Table,
    property: Property,
) -> Result<(), AllocError>
    ensures { OnOk result (text.new.items ≡ text.old.items ++ spec.property_ids table.now property) }
{
    match property {
        Property::Compatible => Ok(()),
        Property::AtLeast(form) => write_form_ids(text, table, form),
        Property::InClass(alternative, class) => {
            write_word(text, id_bytes(table, alternative))?;
            write_number(text, class)
        }
    }
}

fn write_form_ids(text: &mut Vec<u8>, table: &Table, form: Form) -> Result<(), AllocError>
    ensures { OnOk result (text.new.items ≡ text.old.items ++ spec.form_ids table.now form) }
{
    write_spoken(text, b" ", spoken_ids(table, b"", form))
}
