//! The words of questions and verdicts.

ghost use Rattle.std.specs.Prelude.{◌≡◌, ◌∷◌, ◌++◌, map, IfOk, OnOk};
ghost use Rattle.ror_proof.specs.Printing.{spaced};
ghost use Rattle.ror_proof.specs.Text.{form_words, pair_words, property_words, scope_words};
ghost use Rattle.ror_show_text_functions.specs.Text as spec;

use crate::block::criterion_id;
use itoa::Buffer;
use ror_proof::Answer;
use ror_proof::names::{Name, QuestionName, VerdictName};
use ror_show_kit::{id_bytes, room_behind, write_word};
use ror_statement::{Form, Pair, Property, Scope};
use ror_table::Table;
use ror_text::lines::word_at;
use ror_text::spaced::split_spaced;
use std::alloc::{AllocError, Global};

/// The words of the question of the answer at a place, and that of its verdict.
pub fn asked_at(
    alloc: Global,
    table: &Table,
    answers: &[Answer],
    k: usize,
) -> Result<Vec<u8>, AllocError>
    ensures { IfOk result (λ text. text.items ≡ spec.asked_at table.now answers.now k) }
{
    let mut text = Vec::new(alloc);
    if let Some(answer) = answers.get(k) {
        write_asked(&mut text, table, answer)?;
    }
    Ok(text)
}

#[tactic(auto, unfolding(crate::specs::Text::asked_text))]
fn write_asked(text: &mut Vec<u8>, table: &Table, answer: &Answer) -> Result<(), AllocError>
    ensures { OnOk result (text.new.items ≡ text.old.items ++ spec.asked_text table.now answer.now) }
{
    text.extend_from_slice(QuestionName::of(answer.question).word())?;
    write_property(text, table, answer.question.property())?;
    write_next(text, VerdictName::of(&answer.verdict).word())
}

/// What a question asks of a value function.
fn write_property(text: &mut Vec<u8>, table: &Table, property: Property) -> Result<(), AllocError>
    ensures { OnOk result (text.new.items ≡ text.old.items ++ spaced (property_words table.now property)) }
{
    match property {
        Property::Compatible => Ok(()),
        Property::AtLeast(form) => write_form(text, table, form),
        Property::InClass(alternative, class) => {
            write_next(text, id_bytes(table, alternative))?;
            write_next(text, Buffer::new().format(class).as_bytes())
        }
    }
}

fn write_form(text: &mut Vec<u8>, table: &Table, form: Form) -> Result<(), AllocError>
    ensures { OnOk result (text.new.items ≡ text.old.items ++ spaced (form_words table.now form)) }
{
    match form {
        Form::Value(first, second) => write_pair(text, table, Pair { first, second }),
        Form::Strength(first, second, scope) => {
            write_pair(text, table, first)?;
            write_pair(text, table, second)?;
            write_scope(text, table, scope)
        }
    }
}

fn write_pair(text: &mut Vec<u8>, table: &Table, pair: Pair) -> Result<(), AllocError>
    ensures { OnOk result (text.new.items ≡ text.old.items ++ spaced (pair_words table.now pair)) }
{
    write_next(text, id_bytes(table, pair.first))?;
    write_next(text, id_bytes(table, pair.second))
}

fn write_scope(text: &mut Vec<u8>, table: &Table, scope: Scope) -> Result<(), AllocError>
    ensures { OnOk result (text.new.items ≡ text.old.items ++ spaced (scope_words table.now scope)) }
{
    match scope {
        Scope::Whole => Ok(()),
        Scope::One(criterion) => {
            write_next(text, b"on")?;
            write_next(text, criterion_id(table, criterion))
        }
    }
}

/// A word, behind a space.
fn write_next(text: &mut Vec<u8>, word: &[u8]) -> Result<(), AllocError>
    ensures { OnOk result (text.new.items ≡ text.old.items ++ 32 ∷ word.now) }
{
    text.push(b' ')?;
    text.extend_from_slice(word)
}

/// Adds a line with these words, below an empty one.
#[tactic(auto, unfolding(crate::specs::Text::asked_title))]
pub(crate) fn write_asked_title(
    alloc: Global,
    text: &mut Vec<u8>,
    asked: &[u8],
) -> Result<(), AllocError>
    ensures { OnOk result (text.new.items ≡ text.old.items ++ spec.asked_title asked.now) }
{
    let words = split_spaced(alloc, asked)?;
    text.extend_from_slice(b"\n ")?;
    write_words(text, words.as_slice())?;
    text.push(b'\n')?;
    Ok(())
}

fn write_words(text: &mut Vec<u8>, words: &[&[u8]]) -> Result<(), AllocError>
    ensures { OnOk result (text.new.items ≡ text.old.items ++ spec.words_text (map (λ word. word.now) words.now)) }
{
    let mut room = room_behind(1);
    for k in 0..words.len() {
        room = write_word(text, 3, room, word_at(words, k))?;
    }
    Ok(())
}
