//! The text of a part of the statements that carries an answer.

ghost use Rattle.std.specs.Prelude.{◌≡◌, ◌++◌, IfOk, OnOk};
ghost use Rattle.std.specs.List.{flat_map};
ghost use Rattle.ror_statement.specs.Statements.{statements_in};
ghost use Rattle.ror_value.specs.Over.{IsLawfulIn, IsAskedIn};
ghost use Rattle.ror_show_kit.specs.Words.{number};
ghost use Rattle.ror_show_text_reasons.specs.Reasons as spec;

use crate::parts::{write_part_sum, write_rows};
use crate::scene::{Case, Scene};
use crate::sides::write_sides;
use itoa::Buffer;
use ror_proof::{Answer, Verdict};
use ror_show_ground::is_wide;
use ror_show_kit::rows::{write_line, write_text};
use ror_show_kit::words::write_number;
use ror_show_kit::{is_every, write_claim, write_counter};
use ror_show_text_functions::{is_contradiction, write_rises};
use ror_statement::{Question, kind_of};
use ror_table::Table;
use std::alloc::{AllocError, Global};

/// Adds what the statements of a part carry, each of them, and what a value function says that agrees with all of them but one: its
/// answer stands at its place.
pub(crate) fn write_carried(
    alloc: Global,
    text: &mut Vec<u8>,
    scene: &Scene<'_>,
    case: &Case<'_>,
) -> Result<(), AllocError>
    requires lawful { IsLawfulIn scene.now.table.now (statements_in scene.now.list.now) }
    requires asked { IsAskedIn scene.now.table.now case.now.answer.now.question }
    ensures { OnOk result (text.new.items ≡ text.old.items
        ++ spec.carried_text scene.now.table.now scene.now.list.now scene.now.lines.now scene.now.dropped
        case.now.answer.now.question case.now.numbers.now case.now.answer.now.verdict case.now.others.now) }
{
    let clashes = is_contradiction(&case.answer.verdict);
    write_all(alloc, text, scene, case, clashes)
}

/// The same, where it is known whether the answer is a contradiction.
fn write_all(
    alloc: Global,
    text: &mut Vec<u8>,
    scene: &Scene<'_>,
    case: &Case<'_>,
    clashes: bool,
) -> Result<(), AllocError>
    requires lawful { IsLawfulIn scene.now.table.now (statements_in scene.now.list.now) }
    requires asked { IsAskedIn scene.now.table.now case.now.answer.now.question }
    ensures { OnOk result (text.new.items ≡ text.old.items
        ++ spec.carried_by scene.now.table.now scene.now.list.now scene.now.lines.now scene.now.dropped
        case.now.answer.now.question case.now.numbers.now case.now.answer.now.verdict case.now.others.now clashes) }
{
    write_head(alloc, text, scene.table, &case.answer.question, clashes)?;
    write_rows(alloc, text, scene, case)?;
    write_part_sum(alloc, text, scene, case)?;
    write_needed(alloc, text, scene.table, case, clashes)?;
    write_tail(alloc, text, scene.dropped, clashes, case.numbers)
}

fn write_head(
    alloc: Global,
    text: &mut Vec<u8>,
    table: &Table,
    question: &Question,
    clashes: bool,
) -> Result<(), AllocError>
    ensures { OnOk result (text.new.items ≡ text.old.items ++ spec.head_text table.now question.now clashes) }
{
    let words = head_words(alloc, table, question, clashes)?;
    write_line(text, 1, words.as_slice())
}

fn head_words(
    alloc: Global,
    table: &Table,
    question: &Question,
    clashes: bool,
) -> Result<Vec<u8>, AllocError>
    ensures { IfOk result (λ words. words.items ≡ spec.head_words table.now question.now clashes) }
{
    let mut words = Vec::new(alloc);
    if clashes {
        words.extend_from_slice(
            b"these statements can't all be meant, whatever the value function:",
        )?;
        return Ok(words);
    }
    write_claim(&mut words, table, question)?;
    words.extend_from_slice(b", whatever value function agrees with these statements:")?;
    Ok(words)
}

/// Adds that each statement is needed, as far as that is known.
fn write_needed(
    alloc: Global,
    text: &mut Vec<u8>,
    table: &Table,
    case: &Case<'_>,
    clashes: bool,
) -> Result<(), AllocError>
    requires { IsAskedIn table.now case.now.answer.now.question }
    ensures { OnOk result (text.new.items ≡ text.old.items
        ++ spec.needed_text table.now case.now.answer.now.question clashes case.now.numbers.now case.now.others.now) }
{
    text.extend_from_slice(needed(is_any_wide(case.others)))?;
    write_withouts(alloc, text, table, case, clashes)
}

fn needed(any_wide: bool) -> &'static [u8]
    ensures { result.now ≡ spec.needed any_wide }
{
    if any_wide {
        b"  without one of them, as far as it is known:\n"
    } else {
        b"  of these alone none can be spared:\n"
    }
}

fn is_any_wide(others: &[Answer]) -> bool
    ensures { result ≡ spec.is_any_wide others.now }
{
    others.iter().any(|x| is_wide(&x.verdict))
}

fn write_withouts(
    alloc: Global,
    text: &mut Vec<u8>,
    table: &Table,
    case: &Case<'_>,
    clashes: bool,
) -> Result<(), AllocError>
    requires { IsAskedIn table.now case.now.answer.now.question }
    ensures { OnOk result (text.new.items ≡ text.old.items
        ++ spec.withouts_text table.now case.now.answer.now.question clashes case.now.numbers.now case.now.others.now) }
{
    for k in 0..case.numbers.len() {
        write_without(alloc, text, table, case, clashes, k)?;
    }
    Ok(())
}

/// Adds what a function says that agrees with all statements but the one at a place.
fn write_without(
    alloc: Global,
    text: &mut Vec<u8>,
    table: &Table,
    case: &Case<'_>,
    clashes: bool,
    k: usize,
) -> Result<(), AllocError>
    requires { IsAskedIn table.now case.now.answer.now.question }
    ensures { OnOk result (text.new.items ≡ text.old.items
        ++ spec.without_at table.now case.now.answer.now.question clashes case.now.numbers.now case.now.others.now k) }
{
    match (case.numbers.get(k), case.others.get(k)) {
        (Some(number), Some(other)) => {
            let question = &case.answer.question;
            let verdict = &other.verdict;
            let words = without_words(alloc, table, question, clashes, *number, verdict)?;
            write_line(text, 4, words.as_slice())
        }
        _ => Ok(()),
    }
}

fn without_words(
    alloc: Global,
    table: &Table,
    question: &Question,
    clashes: bool,
    number: u32,
    verdict: &Verdict,
) -> Result<Vec<u8>, AllocError>
    requires { IsAskedIn table.now question.now }
    ensures { IfOk result (λ words. words.items
        ≡ spec.without_words table.now question.now clashes number verdict.now) }
{
    let mut words = Vec::new(alloc);
    words.extend_from_slice(b"without ")?;
    words.extend_from_slice(Buffer::new().format(number).as_bytes())?;
    words.extend_from_slice(b": ")?;
    write_other(alloc, &mut words, table, question, clashes, verdict)?;
    Ok(words)
}

fn write_other(
    alloc: Global,
    text: &mut Vec<u8>,
    table: &Table,
    question: &Question,
    clashes: bool,
    verdict: &Verdict,
) -> Result<(), AllocError>
    requires { IsAskedIn table.now question.now }
    ensures { OnOk result (text.new.items ≡ text.old.items
        ++ spec.other_words table.now question.now clashes verdict.now) }
{
    if is_wide(verdict) {
        text.extend_from_slice(b"not known: a number on the way passes 127 bits")
    } else {
        write_spared(alloc, text, table, question, clashes, verdict)
    }
}

fn write_spared(
    alloc: Global,
    text: &mut Vec<u8>,
    table: &Table,
    question: &Question,
    clashes: bool,
    verdict: &Verdict,
) -> Result<(), AllocError>
    requires { IsAskedIn table.now question.now }
    ensures { OnOk result (text.new.items ≡ text.old.items
        ++ spec.spared_words table.now question.now clashes verdict.now) }
{
    if clashes {
        write_agreeing(alloc, text, table, verdict)
    } else {
        write_some(alloc, text, table, question, verdict)
    }
}

/// Adds that some function agrees with the statements, and where it rises.
fn write_agreeing(
    alloc: Global,
    text: &mut Vec<u8>,
    table: &Table,
    verdict: &Verdict,
) -> Result<(), AllocError>
    ensures { OnOk result (text.new.items ≡ text.old.items ++ spec.agreeing_words table.now verdict.now) }
{
    text.extend_from_slice(b"some value function agrees with the others of these")?;
    write_rises(alloc, text, table, verdict)
}

fn write_some(
    alloc: Global,
    text: &mut Vec<u8>,
    table: &Table,
    question: &Question,
    verdict: &Verdict,
) -> Result<(), AllocError>
    requires { IsAskedIn table.now question.now }
    ensures { OnOk result (text.new.items ≡ text.old.items
        ++ spec.some_counter table.now question.now verdict.now) }
{
    text.extend_from_slice(b"by some value function ")?;
    write_against(alloc, text, table, question, verdict)
}

/// Adds what one function says against the answer, and by how much.
pub(crate) fn write_against(
    alloc: Global,
    text: &mut Vec<u8>,
    table: &Table,
    question: &Question,
    verdict: &Verdict,
) -> Result<(), AllocError>
    requires { IsAskedIn table.now question.now }
    ensures { OnOk result (text.new.items ≡ text.old.items
        ++ spec.counter_text table.now question.now verdict.now) }
{
    write_counter(text, table, question)?;
    write_sides(
        alloc,
        text,
        table,
        !is_every(kind_of(question)),
        question,
        verdict,
    )
}

/// Adds what the analyst may do where the statements contradict each other, and that there may be other parts.
fn write_tail(
    alloc: Global,
    text: &mut Vec<u8>,
    dropped: Option<u32>,
    clashes: bool,
    numbers: &[u32],
) -> Result<(), AllocError>
    ensures { OnOk result (text.new.items ≡ text.old.items ++ spec.tail_text dropped clashes numbers.now) }
{
    if clashes {
        write_clash(alloc, text, dropped, numbers)
    } else {
        text.extend_from_slice(
            b"  this is one part of the statements that carries the answer, and there may be others\n",
        )
    }
}

fn write_clash(
    alloc: Global,
    text: &mut Vec<u8>,
    dropped: Option<u32>,
    numbers: &[u32],
) -> Result<(), AllocError>
    ensures { OnOk result (text.new.items ≡ text.old.items ++ spec.clash_text dropped numbers.now) }
{
    write_advice(alloc, text, dropped, numbers)?;
    write_text(text, one_clash(dropped))
}

fn one_clash(dropped: Option<u32>) -> &'static [u8]
    ensures { result.now ≡ spec.one_clash dropped }
{
    match dropped {
        None => b"  there may be other contradictions among the statements\n",
        Some(_) => b"  there may have been other contradictions among the statements\n",
    }
}

fn write_advice(
    alloc: Global,
    text: &mut Vec<u8>,
    dropped: Option<u32>,
    numbers: &[u32],
) -> Result<(), AllocError>
    ensures { OnOk result (text.new.items ≡ text.old.items ++ spec.advice_text dropped numbers.now) }
{
    let words = way_out(alloc, dropped, numbers)?;
    write_line(text, 1, words.as_slice())
}

fn way_out(alloc: Global, dropped: Option<u32>, numbers: &[u32]) -> Result<Vec<u8>, AllocError>
    ensures { IfOk result (λ words. words.items ≡ spec.way_out dropped numbers.now) }
{
    match dropped {
        Some(number) => dropped_words(alloc, number, numbers),
        None => advice(alloc, numbers),
    }
}

fn dropped_words(alloc: Global, number: u32, numbers: &[u32]) -> Result<Vec<u8>, AllocError>
    ensures { IfOk result (λ words. words.items ≡ spec.dropped_words number numbers.now) }
{
    let mut words = Vec::new(alloc);
    words.extend_from_slice(Buffer::new().format(number).as_bytes())?;
    words.extend_from_slice(b" is dropped.")?;
    words.extend_from_slice(another(numbers))?;
    Ok(words)
}

/// What the analyst may do where another of these statements wasn't meant, if there is one.
fn another(numbers: &[u32]) -> &'static [u8]
    ensures { result.now ≡ spec.another numbers.now }
{
    if numbers.len() <= 1 {
        b""
    } else {
        b" If another of them was not meant: undo the repair, and replace that one."
    }
}

fn advice(alloc: Global, numbers: &[u32]) -> Result<Vec<u8>, AllocError>
    ensures { IfOk result (λ words. words.items ≡ spec.advice numbers.now) }
{
    let mut words = Vec::new(alloc);
    words.extend_from_slice(
        b"at least one of them has to go: withdraw N, or replace N by what was meant, where N is one of",
    )?;
    write_numbers(&mut words, numbers)?;
    Ok(words)
}

/// Adds a space and a number, for each of these.
pub(crate) fn write_numbers(text: &mut Vec<u8>, numbers: &[u32]) -> Result<(), AllocError>
    ensures { OnOk result (text.new.items ≡ text.old.items ++ flat_map number numbers.now) }
{
    'numbers: for number in numbers {
        write_number(text, *number)?;
    }
    Ok(())
}
