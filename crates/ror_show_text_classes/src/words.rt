//! The line of a bound.

ghost use Rattle.std.specs.Prelude.{◌≡◌, ◌++◌, OnOk, IfOk};
ghost use Rattle.ror_show_find_reasons.specs.Carrying.{numbers_of};
ghost use Rattle.ror_show_kit.specs.Layout.{next_room, next_word, wrapped};
ghost use Rattle.ror_show_text_classes.specs.BoundText as spec;

use itoa::Buffer;
use ror_show_find_reasons::{Bound, Side};
use ror_show_kit::{columns, id_bytes, room_behind, write_word};
use ror_show_text_relation::write_carrying;
use ror_table::Table;
use std::alloc::{AllocError, Global};

/// The margin of lines that go on.
const MARGIN: usize = 8;

/// The columns before an id.
const BEFORE: usize = 5;

/// Adds the line of a bound, with the numbers of the statements that settle it, where they are known.
pub(crate) fn write_bound(
    alloc: Global,
    text: &mut Vec<u8>,
    table: &Table,
    a: usize,
    side: Side,
    bound: &Bound,
) -> Result<(), AllocError>
    ensures { OnOk result (text.new.items
        ≡ text.old.items ++ spec.bound_line table.now a side bound.now.class (numbers_of bound.now.reason)) }
{
    write_name(text, table, a)?;
    let room = room_behind(BEFORE).saturating_sub(columns(id_bytes(table, a)));
    write_bound_words(alloc, text, room, side, bound)?;
    text.push(b'\n')?;
    Ok(())
}

/// The id of the alternative, behind a margin.
fn write_name(text: &mut Vec<u8>, table: &Table, a: usize) -> Result<(), AllocError>
    ensures { OnOk result (text.new.items ≡ text.old.items ++ spec.name_head table.now a) }
{
    text.extend_from_slice(b"     ")?;
    text.extend_from_slice(id_bytes(table, a))
}

/// The bound, and what settles it.
fn write_bound_words(
    alloc: Global,
    text: &mut Vec<u8>,
    room: usize,
    side: Side,
    bound: &Bound,
) -> Result<(), AllocError>
    ensures { OnOk result (text.new.items
        ≡ text.old.items ++ wrapped 8 room (spec.bound_words side bound.now.class (numbers_of bound.now.reason))) }
{
    let left = write_lead(alloc, text, room, side, bound.class)?;
    write_carrying(text, left, bound.numbers())
}

/// The class, and what the line has left then.
fn write_lead(
    alloc: Global,
    text: &mut Vec<u8>,
    room: usize,
    side: Side,
    class: u32,
) -> Result<usize, AllocError>
    ensures text { OnOk result (text.new.items ≡ text.old.items ++ next_word 8 room (spec.lead_word side class)) }
    ensures room { IfOk result (λ left. left ≡ next_room 8 room (spec.lead_word side class)) }
{
    let lead = lead_word(alloc, side, class)?;
    write_word(text, MARGIN, room, lead.as_slice())
}

/// The class behind words on the side.
fn lead_word(alloc: Global, side: Side, class: u32) -> Result<Vec<u8>, AllocError>
    ensures { IfOk result (λ word. word.items ≡ spec.lead_word side class) }
{
    let mut word = Vec::new(alloc);
    word.extend_from_slice(side_words(side))?;
    word.extend_from_slice(Buffer::new().format(class).as_bytes())?;
    word.push(b':')?;
    Ok(word)
}

fn side_words(side: Side) -> &'static [u8]
    ensures { result.now ≡ spec.side_words side }
{
    match side {
        Side::Below => b" not below ",
        Side::Above => b" not above ",
    }
}
