//! Which alternatives the statements assign to classes.

ghost use Rattle.std.specs.Prelude.{◌≡◌, ◌++◌, IfOk, OnOk};
ghost use Rattle.std.specs.List.{flat_map};
ghost use Rattle.ror_show_kit.specs.Layout.{room_behind, room_left, wrapped};
ghost use Rattle.ror_show_text_classes.specs.Text as spec;

use crate::foot::{class_word, write_list};
use ror_show_kit::{id_bytes, room_behind, write_word};
use ror_statement::{Numbered, Statement};
use ror_table::Table;
use ror_text::Items;
use std::alloc::{AllocError, Global};

/// The margin of lines that go on.
const MARGIN: usize = 11;

/// Which of what stood assign an alternative, in order, where what stood was kept.
pub(crate) fn write_assigned(
    alloc: Global,
    text: &mut Vec<u8>,
    table: &Table,
    standing: &Option<Items<Numbered>>,
) -> Result<(), AllocError>
    ensures { OnOk result (text.new.items ≡ text.old.items ++ spec.assigned_text table.now standing.now) }
{
    match standing {
        Some(list) => write_assigned_list(alloc, text, table, list.as_slice()),
        None => Ok(()),
    }
}

fn write_assigned_list(
    alloc: Global,
    text: &mut Vec<u8>,
    table: &Table,
    list: &[Numbered],
) -> Result<(), AllocError>
    ensures { OnOk result (text.new.items ≡ text.old.items ++ spec.assigned_list table.now list.now) }
{
    let mut words = Vec::new(alloc);
    write_each_assigned(alloc, &mut words, table, list)?;
    write_list(text, b"  assigned:", &words)
}

fn write_each_assigned(
    alloc: Global,
    text: &mut Vec<u8>,
    table: &Table,
    list: &[Numbered],
) -> Result<(), AllocError>
    ensures { OnOk result (text.new.items ≡ text.old.items
        ++ wrapped 11 (room_behind 11) (flat_map (spec.assigned_of table.now) list.now)) }
{
    let mut room = room_behind(MARGIN);
    'statements: for one in list {
        room = write_assigned_of(alloc, text, room, table, one)?;
    }
    Ok(())
}

/// The alternative that a statement assigns, if it does, and what the line has left then.
#[tactic(auto, unfolding(crate::specs::Text::assigned_of))]
fn write_assigned_of(
    alloc: Global,
    text: &mut Vec<u8>,
    room: usize,
    table: &Table,
    one: &Numbered,
) -> Result<usize, AllocError>
    ensures text { OnOk result (text.new.items
        ≡ text.old.items ++ wrapped 11 room (spec.assigned_of table.now one.now)) }
    ensures room { IfOk result (λ left. left ≡ room_left 11 room (spec.assigned_of table.now one.now)) }
{
    match one.statement {
        Statement::Class(a, lowest, highest) => {
            let word = class_word(alloc, id_bytes(table, a), lowest, highest)?;
            write_word(text, MARGIN, room, &word)
        }
        _ => Ok(room),
    }
}
