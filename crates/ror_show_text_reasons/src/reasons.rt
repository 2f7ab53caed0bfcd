//! The text of one reason.

ghost use Rattle.std.specs.Prelude.{◌≡◌, ◌++◌, IfOk, OnOk};
ghost use Rattle.ror_statement.specs.Statements.{statements_in};
ghost use Rattle.ror_value.specs.Over.{IsLawfulIn, IsAskedIn};
ghost use Rattle.ror_show_text_reasons.specs.Reasons as spec;
ghost use Rattle.ror_show_text_reasons.specs.Scenes.{scene_of, case_of, reduct_text};

use crate::carried::{write_against, write_carried};
use crate::met::write_met;
use crate::scene::{Case, Scene};
use ror_proof::Answer;
use ror_show_find_relation::dominates;
use ror_show_kit::rows::{write_line, write_text};
use ror_show_kit::{write_asked, write_claim};
use ror_show_text_functions::is_contradiction;
use ror_statement::{Numbered, Question};
use ror_table::Table;
use std::alloc::{AllocError, Global};

/// Adds the text of a part of the statements that carries an answer and of which none can be spared, as far as that is known.
#[tactic(auto, unfolding(crate::specs::Reasons::reduct_text))]
pub(crate) fn write_reduct(
    alloc: Global,
    text: &mut Vec<u8>,
    scene: &Scene<'_>,
    case: &Case<'_>,
) -> Result<(), AllocError>
    requires lawful { IsLawfulIn scene.now.table.now (statements_in scene.now.list.now) }
    requires asked { IsAskedIn scene.now.table.now case.now.answer.now.question }
    ensures { OnOk result (text.new.items ≡ text.old.items ++ reduct_text (scene_of scene.now) (case_of case.now)) }
{
    if case.numbers.is_empty() {
        return write_alone(
            alloc,
            text,
            scene.table,
            &case.answer.question,
            is_contradiction(&case.answer.verdict),
        );
    }
    write_carried(alloc, text, scene, case)
}

/// Adds that no statement is needed.
fn write_alone(
    alloc: Global,
    text: &mut Vec<u8>,
    table: &Table,
    question: &Question,
    clashes: bool,
) -> Result<(), AllocError>
    requires { IsAskedIn table.now question.now }
    ensures { OnOk result (text.new.items ≡ text.old.items ++ spec.alone_text table.now question.now clashes) }
{
    let words = alone_words(alloc, table, question, clashes)?;
    write_line(text, 1, words.as_slice())
}

fn alone_words(
    alloc: Global,
    table: &Table,
    question: &Question,
    clashes: bool,
) -> Result<Vec<u8>, AllocError>
    requires { IsAskedIn table.now question.now }
    ensures { IfOk result (λ words. words.items ≡ spec.alone_words table.now question.now clashes) }
{
    let mut words = Vec::new(alloc);
    if clashes {
        words.extend_from_slice(
            b"there is no value function: on each criterion all alternatives are worth the same",
        )?;
    } else if is_dominance(table, question) {
        write_dominance(&mut words, table, question)?;
    } else {
        write_free(&mut words, table, question)?;
    }
    Ok(words)
}

fn write_dominance(text: &mut Vec<u8>, table: &Table, question: &Question) -> Result<(), AllocError>
    ensures { OnOk result (text.new.items ≡ text.old.items ++ spec.dominance_words table.now question.now) }
{
    text.extend_from_slice(b"it holds by dominance alone: ")?;
    write_claim(text, table, question)?;
    write_text(text, b" on each criterion")
}

fn write_free(text: &mut Vec<u8>, table: &Table, question: &Question) -> Result<(), AllocError>
    ensures { OnOk result (text.new.items ≡ text.old.items ++ spec.free_words table.now question.now) }
{
    write_claim(text, table, question)?;
    text.extend_from_slice(b", whatever the value function: no statement is needed")
}

/// Whether one alternative is asked to be at least as good as another by every function, and dominates it.
fn is_dominance(table: &Table, question: &Question) -> bool
    requires { IsAskedIn table.now question.now }
    ensures { result ≡ spec.is_dominance table.now question.now }
{
    match question {
        Question::Necessary(a, b) => dominates(table, *a, *b),
        _ => false,
    }
}

/// Adds the text of an answer over a list that one value function decides, so that no statement carries it: by that function what was
/// asked, and what each statement compares.
#[tactic(auto, unfolding(crate::specs::Reasons::decided_text))]
pub(crate) fn write_decided(
    alloc: Global,
    text: &mut Vec<u8>,
    table: &Table,
    list: &[Numbered],
    answer: &Answer,
) -> Result<(), AllocError>
    requires lawful { IsLawfulIn table.now (statements_in list.now) }
    requires asked { IsAskedIn table.now answer.now.question }
    ensures { OnOk result (text.new.items ≡ text.old.items ++ spec.decided_text table.now list.now answer.now) }
{
    write_decided_line(alloc, text, table, answer)?;
    write_met(alloc, text, table, list, &answer.verdict)?;
    write_shown_line(alloc, text, table, answer)
}

fn write_decided_line(
    alloc: Global,
    text: &mut Vec<u8>,
    table: &Table,
    answer: &Answer,
) -> Result<(), AllocError>
    requires { IsAskedIn table.now answer.now.question }
    ensures { OnOk result (text.new.items ≡ text.old.items ++ spec.decided_line table.now answer.now) }
{
    let words = decided_words(alloc, table, answer)?;
    write_line(text, 1, words.as_slice())
}

fn write_shown_line(
    alloc: Global,
    text: &mut Vec<u8>,
    table: &Table,
    answer: &Answer,
) -> Result<(), AllocError>
    ensures { OnOk result (text.new.items ≡ text.old.items ++ spec.shown_line table.now answer.now) }
{
    let words = shown_words(alloc, table, answer)?;
    write_line(text, 1, words.as_slice())
}

fn decided_words(alloc: Global, table: &Table, answer: &Answer) -> Result<Vec<u8>, AllocError>
    requires { IsAskedIn table.now answer.now.question }
    ensures { IfOk result (λ words. words.items ≡ spec.decided_words table.now answer.now) }
{
    let mut words = Vec::new(alloc);
    if is_consistency(&answer.question) {
        words.extend_from_slice(b"some value function agrees with the statements")?;
        return Ok(words);
    }
    words.extend_from_slice(b"by some value function that agrees with the statements ")?;
    write_against(alloc, &mut words, table, &answer.question, &answer.verdict)?;
    Ok(words)
}

fn is_consistency(question: &Question) -> bool
    ensures { result ≡ spec.is_consistency question.now }
{
    matches!(question, Question::Consistent)
}

fn shown_words(alloc: Global, table: &Table, answer: &Answer) -> Result<Vec<u8>, AllocError>
    ensures { IfOk result (λ words. words.items ≡ spec.shown_words table.now answer.now) }
{
    let mut words = Vec::new(alloc);
    words.extend_from_slice(
        b"no statement carries that; the function is on the page of functions: ",
    )?;
    write_asked(&mut words, table, &answer.question, &answer.verdict)?;
    Ok(words)
}

/// Adds the text of the answer that an alternative may belong to a class by every value function.
#[tactic(auto, unfolding(crate::specs::Reasons::bounded_text))]
pub(crate) fn write_bounded(
    alloc: Global,
    text: &mut Vec<u8>,
    table: &Table,
    question: &Question,
) -> Result<(), AllocError>
    ensures { OnOk result (text.new.items ≡ text.old.items ++ spec.bounded_text table.now question.now) }
{
    write_bounded_line(alloc, text, table, question)?;
    text.extend_from_slice(
        b"  what shuts out the other classes are the reasons of the answers no of `ask possible-class`\n",
    )
}

fn write_bounded_line(
    alloc: Global,
    text: &mut Vec<u8>,
    table: &Table,
    question: &Question,
) -> Result<(), AllocError>
    ensures { OnOk result (text.new.items ≡ text.old.items ++ spec.bounded_line table.now question.now) }
{
    let words = bounded_words(alloc, table, question)?;
    write_line(text, 1, words.as_slice())
}

fn bounded_words(alloc: Global, table: &Table, question: &Question) -> Result<Vec<u8>, AllocError>
    ensures { IfOk result (λ words. words.items ≡ spec.bounded_words table.now question.now) }
{
    let mut words = Vec::new(alloc);
    write_claim(&mut words, table, question)?;
    words.extend_from_slice(b", whatever value function agrees with the statements")?;
    Ok(words)
}

/// Adds that no reason is found, since over the statements a number passes the greatest width.
pub(crate) fn write_wide(text: &mut Vec<u8>) -> Result<(), AllocError>
    ensures { OnOk result (text.new.items ≡ text.old.items ++ spec.wide_text) }
{
    text.extend_from_slice(
        b"  no reason is found: over the statements a number on the way passes 127 bits\n  fewer statements may do\n",
    )
}

/// Adds that there is no reason, since the report's answer is too wide.
pub(crate) fn write_not_answered(text: &mut Vec<u8>) -> Result<(), AllocError>
    ensures { OnOk result (text.new.items ≡ text.old.items ++ spec.not_answered) }
{
    text.extend_from_slice(
        b"  the answer isn't concluded, so it has no reason: a number on the way passes the bits of the report\n  more bits may do where it has fewer than 127 (--bits 127), or fewer statements\n",
    )
}
