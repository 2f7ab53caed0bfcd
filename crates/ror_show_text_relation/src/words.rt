//! The line of a pair, and what carries it.

ghost use Rattle.std.specs.Prelude.{◌≡◌, ◌++◌, ◌∷◌, [], codes, map, decimal, option_map, OnOk, IfOk};
ghost use Rattle.ror_show_find_reasons.specs.Pairs.{carrying_numbers};
ghost use Rattle.ror_show_kit.specs.Layout.{next_room, next_word, room_left, wrapped};
ghost use Rattle.ror_show_text_relation.specs.Pages.{pair_line};
ghost use Rattle.ror_show_text_relation.specs.ArrowText as spec;

use crate::lists::write_from_head;
use itoa::Buffer;
use ror_reason::Reason;
use ror_show_find_reasons::{CarriedPair, numbers_of};
use ror_show_kit::{columns, id_bytes, room_behind, write_word};
use ror_table::Table;
use std::alloc::{AllocError, Global};

/// The margin of lines that go on.
const MARGIN: usize = 8;

/// Adds the line of a pair, with the numbers of the statements that carry it, and of those that carry that the first is always better, where
/// an answer says so; where they are known.
pub(crate) fn write_pair(
    alloc: Global,
    text: &mut Vec<u8>,
    table: &Table,
    pair: &CarriedPair,
) -> Result<(), AllocError>
    ensures { OnOk result (text.new.items ≡ text.old.items ++ pair_line table.now pair.now) }
{
    let a = pair.pair.0;
    write_from_head(text, table, a)?;
    let room = room_behind(MARGIN).saturating_sub(columns(id_bytes(table, a)));
    write_arrow_words(alloc, text, room, table, pair)?;
    text.push(b'\n')?;
    Ok(())
}

/// Where it leads, and what carries it.
fn write_arrow_words(
    alloc: Global,
    text: &mut Vec<u8>,
    room: usize,
    table: &Table,
    pair: &CarriedPair,
) -> Result<(), AllocError>
    ensures { OnOk result (text.new.items
        ≡ text.old.items ++ wrapped 8 room (spec.arrow_words table.now pair.now.pair.1 (carrying_numbers pair.now) pair.now.better)) }
{
    let left = write_lead(alloc, text, room, table, pair.pair.1)?;
    write_reasons(text, left, pair.numbers(), &pair.better)
}

/// What carries it, and what carries that it is always better.
fn write_reasons(
    text: &mut Vec<u8>,
    room: usize,
    carrying: Option<&[u32]>,
    better: &Option<Reason>,
) -> Result<(), AllocError>
    ensures { OnOk result (text.new.items ≡ text.old.items ++ wrapped 8 room
        (spec.carrying_words (option_map (λ x. x.now) carrying.entry) ++ spec.better_words (option_map (λ x. x.now) carrying.entry) better.now)) }
{
    let left = write_carried_by(text, room, carrying)?;
    match better {
        Some(reason) => write_better(text, left, carrying, numbers_of(reason)),
        None => Ok(()),
    }
}

/// Adds what carries that it is always better, where that is known.
fn write_better(
    text: &mut Vec<u8>,
    room: usize,
    carrying: Option<&[u32]>,
    better: Option<&[u32]>,
) -> Result<(), AllocError>
    ensures { OnOk result (text.new.items ≡ text.old.items ++ wrapped 8 room
        (spec.better_by (option_map (λ x. x.now) carrying.entry) (option_map (λ x. x.now) better.entry))) }
{
    match better {
        Some(numbers) => write_known(text, room, carrying, numbers),
        None => write_only(text, room, b"  always better, too wide to say by which"),
    }
}

fn write_known(
    text: &mut Vec<u8>,
    room: usize,
    carrying: Option<&[u32]>,
    numbers: &[u32],
) -> Result<(), AllocError>
    ensures { OnOk result (text.new.items ≡ text.old.items ++ wrapped 8 room
        (spec.known_words (option_map (λ x. x.now) carrying.entry) numbers.now)) }
{
    if numbers.is_empty() {
        write_only(text, room, b"  always better, none is needed")
    } else if is_same(carrying, numbers) {
        write_only(text, room, b"  always better by the same")
    } else {
        write_by(text, room, numbers)
    }
}

/// Whether these are the same statements.
fn is_same(carrying: Option<&[u32]>, numbers: &[u32]) -> bool
    ensures { result ≡ spec.is_same (option_map (λ x. x.now) carrying.entry) numbers.now }
{
    match carrying {
        Some(others) => others == numbers,
        None => false,
    }
}

fn write_by(text: &mut Vec<u8>, room: usize, numbers: &[u32]) -> Result<(), AllocError>
    ensures { OnOk result (text.new.items ≡ text.old.items ++ wrapped 8 room (codes "  always better by" ∷ map decimal numbers.now)) }
{
    let left = write_word(text, MARGIN, room, b"  always better by")?;
    wrap_numbers(text, left, numbers)?;
    Ok(())
}

fn write_only(text: &mut Vec<u8>, room: usize, word: &[u8]) -> Result<(), AllocError>
    ensures { OnOk result (text.new.items ≡ text.old.items ++ wrapped 8 room (word.now ∷ [])) }
{
    write_word(text, MARGIN, room, word)?;
    Ok(())
}

/// Where it leads, and what the line has left then.
fn write_lead(
    alloc: Global,
    text: &mut Vec<u8>,
    room: usize,
    table: &Table,
    b: usize,
) -> Result<usize, AllocError>
    ensures text { OnOk result (text.new.items ≡ text.old.items ++ next_word 8 room (spec.lead_word table.now b)) }
    ensures room { IfOk result (λ left. left ≡ next_room 8 room (spec.lead_word table.now b)) }
{
    let lead = lead_word(alloc, table, b)?;
    write_word(text, MARGIN, room, lead.as_slice())
}

/// The id of what an arrow leads to, and two spaces.
fn lead_word(alloc: Global, table: &Table, b: usize) -> Result<Vec<u8>, AllocError>
    ensures { IfOk result (λ word. word.items ≡ spec.lead_word table.now b) }
{
    let mut word = Vec::new(alloc);
    word.extend_from_slice(id_bytes(table, b))?;
    word.extend_from_slice(b"  ")?;
    Ok(word)
}

/// Adds the numbers of what carries something, or that none is needed, or that a number is too wide, behind a text that has so many columns
/// left in its line. Where these are full the numbers go on below, behind a margin of eight columns.
///
/// # Errors
///
/// Only want of memory.
pub fn write_carrying(
    text: &mut Vec<u8>,
    room: usize,
    carrying: Option<&[u32]>,
) -> Result<(), AllocError>
    ensures { OnOk result (text.new.items
        ≡ text.old.items ++ wrapped 8 room (spec.carrying_words (option_map (λ x. x.now) carrying.entry))) }
{
    write_carried_by(text, room, carrying)?;
    Ok(())
}

/// The same, and what the line has left then.
fn write_carried_by(
    text: &mut Vec<u8>,
    room: usize,
    carrying: Option<&[u32]>,
) -> Result<usize, AllocError>
    ensures text { OnOk result (text.new.items
        ≡ text.old.items ++ wrapped 8 room (spec.carrying_words (option_map (λ x. x.now) carrying.entry))) }
    ensures room { IfOk result (λ left. left ≡ room_left 8 room (spec.carrying_words (option_map (λ x. x.now) carrying.entry))) }
{
    match carrying {
        Some(numbers) => write_numbers(text, room, numbers),
        None => write_one(text, room, b"too wide to say"),
    }
}

/// The numbers of statements, or that none is needed.
fn write_numbers(text: &mut Vec<u8>, room: usize, numbers: &[u32]) -> Result<usize, AllocError>
    ensures text { OnOk result (text.new.items ≡ text.old.items ++ wrapped 8 room (spec.number_words numbers.now)) }
    ensures room { IfOk result (λ left. left ≡ room_left 8 room (spec.number_words numbers.now)) }
{
    if numbers.is_empty() {
        return write_one(text, room, b"none is needed");
    }
    wrap_numbers(text, room, numbers)
}

fn write_one(text: &mut Vec<u8>, room: usize, word: &[u8]) -> Result<usize, AllocError>
    ensures text { OnOk result (text.new.items ≡ text.old.items ++ wrapped 8 room (word.now ∷ [])) }
    ensures room { IfOk result (λ left. left ≡ room_left 8 room (word.now ∷ [])) }
{
    write_word(text, MARGIN, room, word)
}

fn wrap_numbers(text: &mut Vec<u8>, room: usize, numbers: &[u32]) -> Result<usize, AllocError>
    ensures text { OnOk result (text.new.items ≡ text.old.items ++ wrapped 8 room (map decimal numbers.now)) }
    ensures room { IfOk result (λ left. left ≡ room_left 8 room (map decimal numbers.now)) }
{
    let mut left = room;
    'numbers: for number in numbers {
        left = write_word(text, MARGIN, left, Buffer::new().format(*number).as_bytes())?;
    }
    Ok(left)
}
