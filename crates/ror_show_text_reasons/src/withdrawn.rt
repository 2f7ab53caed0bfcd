//! What becomes of an answer if a statement of its reason is withdrawn, as plain text.

ghost use Rattle.std.specs.Prelude.{◌≡◌, ◌++◌, IfOk, OnOk};
ghost use Rattle.ror_show_text_reasons.specs.Withdrawn as spec;

use crate::carried::write_numbers;
use itoa::Buffer;
use ror_show_find_core::{CoreFound, LineCores, Outcome, Withdrawal};
use ror_show_find_reasons::{LineFound, Told};
use ror_show_kit::rows::{write_line, write_text};
use std::alloc::{AllocError, Global};

/// What is found of a line, and what beside each answer that is told of it.
#[derive(Clone, Copy)]
pub(crate) struct Explained<'a> {
    pub(crate) found: &'a LineFound,
    pub(crate) cores: &'a [CoreFound],
}

/// An answer that is told, and what becomes of it without each statement of its reason.
#[derive(Clone, Copy)]
pub(crate) struct Beside<'a> {
    pub(crate) told: &'a Told,
    pub(crate) withdrawals: &'a [Withdrawal],
}

/// What is found beside the answers that are told of the line at a place.
pub(crate) fn cores_at(cores: &[LineCores], k: usize) -> &[CoreFound]
    ensures { result.now ≡ spec.cores_at cores.now k }
{
    match cores.get(k) {
        Some(line) => line.cores.as_slice(),
        None => &[],
    }
}

/// What is found beside the answer at a place of those that are told.
pub(crate) fn withdrawals_at(cores: &[CoreFound], k: usize) -> &[Withdrawal]
    ensures { result.now ≡ spec.withdrawals_at cores.now k }
{
    match cores.get(k) {
        Some(core) => core.withdrawals.as_slice(),
        None => &[],
    }
}

/// Adds what becomes of an answer without each statement of its reason, where it has some.
pub(crate) fn write_withdrawn(
    alloc: Global,
    text: &mut Vec<u8>,
    clashes: bool,
    withdrawals: &[Withdrawal],
) -> Result<(), AllocError>
    ensures { OnOk result (text.new.items ≡ text.old.items ++ spec.withdrawn_text clashes withdrawals.now) }
{
    if withdrawals.is_empty() {
        return Ok(());
    }
    write_all(alloc, text, clashes, withdrawals)
}

fn write_all(
    alloc: Global,
    text: &mut Vec<u8>,
    clashes: bool,
    withdrawals: &[Withdrawal],
) -> Result<(), AllocError>
    ensures { OnOk result (text.new.items ≡ text.old.items ++ (spec.withdrawn_head ++ spec.each_text clashes withdrawals.now)) }
{
    write_text(
        text,
        b"  if one of these statements is withdrawn from all that stand:\n",
    )?;
    write_each(alloc, text, clashes, withdrawals)
}

fn write_each(
    alloc: Global,
    text: &mut Vec<u8>,
    clashes: bool,
    withdrawals: &[Withdrawal],
) -> Result<(), AllocError>
    ensures { OnOk result (text.new.items ≡ text.old.items ++ spec.each_text clashes withdrawals.now) }
{
    'withdrawals: for k in 0..withdrawals.len() {
        let one = &withdrawals[k];
        write_one(alloc, text, clashes, one)?;
    }
    Ok(())
}

/// Adds what becomes of it without one statement.
fn write_one(
    alloc: Global,
    text: &mut Vec<u8>,
    clashes: bool,
    withdrawal: &Withdrawal,
) -> Result<(), AllocError>
    ensures { OnOk result (text.new.items ≡ text.old.items ++ spec.withdrawal_text clashes withdrawal.now) }
{
    let words = withdrawal_words(alloc, clashes, withdrawal)?;
    write_line(text, 4, words.as_slice())
}

fn withdrawal_words(
    alloc: Global,
    clashes: bool,
    withdrawal: &Withdrawal,
) -> Result<Vec<u8>, AllocError>
    ensures { IfOk result (λ words. words.items ≡ spec.withdrawal_words clashes withdrawal.now) }
{
    let mut words = Vec::new(alloc);
    words.extend_from_slice(Buffer::new().format(withdrawal.number).as_bytes())?;
    words.extend_from_slice(b": ")?;
    write_outcome(&mut words, clashes, &withdrawal.outcome)?;
    Ok(words)
}

fn write_outcome(text: &mut Vec<u8>, clashes: bool, outcome: &Outcome) -> Result<(), AllocError>
    ensures { OnOk result (text.new.items ≡ text.old.items ++ spec.outcome_words clashes outcome.now) }
{
    match outcome {
        Outcome::Stays(numbers) => write_stays(text, clashes, numbers.as_slice()),
        Outcome::StaysWide(numbers) => write_stays_wide(text, clashes, numbers.as_slice()),
        Outcome::Goes => write_text(text, goes(clashes)),
        Outcome::Unknown => write_text(text, b"not known: a number on the way passes 127 bits"),
    }
}

/// Adds that it stays, and by which statements.
fn write_stays(text: &mut Vec<u8>, clashes: bool, numbers: &[u32]) -> Result<(), AllocError>
    ensures { OnOk result (text.new.items ≡ text.old.items ++ spec.stays_words clashes numbers.now) }
{
    write_text(text, stays(clashes))?;
    write_numbers(text, numbers)
}

/// Adds that it stays by some of these statements.
fn write_stays_wide(text: &mut Vec<u8>, clashes: bool, numbers: &[u32]) -> Result<(), AllocError>
    ensures { OnOk result (text.new.items ≡ text.old.items ++ spec.wide_words clashes numbers.now) }
{
    write_stays(text, clashes, numbers)?;
    write_text(text, b" (perhaps by fewer)")
}

fn stays(clashes: bool) -> &'static [u8]
    ensures { result.now ≡ spec.stays clashes }
{
    if clashes {
        b"the contradiction stays, by"
    } else {
        b"the answer stays, by"
    }
}

fn goes(clashes: bool) -> &'static [u8]
    ensures { result.now ≡ spec.goes clashes }
{
    if clashes {
        b"the contradiction ends"
    } else {
        b"the answer goes"
    }
}
