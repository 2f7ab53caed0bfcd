//! The reason for which a statement was dropped, below a head.

ghost use Rattle.std.specs.Prelude.{◌≡◌, ◌++◌, OnOk};
ghost use Rattle.ror_statement.specs.Statements.{statements_in};
ghost use Rattle.ror_value.specs.Over.{IsLawfulIn};
ghost use Rattle.ror_show_ground.specs.Grounds.{ground_of};
ghost use Rattle.ror_show_find_reasons.specs.Lines.{AsksIn};
ghost use Rattle.ror_show_text_reasons.specs.Pages as spec;
ghost use Rattle.ror_show_text_reasons.specs.Scenes.{scene_of, conflict_text};

use crate::reasons::write_wide;
use crate::scene::Scene;
use crate::told::write_reason;
use ror_bench::KeptLine;
use ror_reason::Reason;
use ror_show_find_reasons::DropFound;
use ror_show_ground::Ground;
use ror_show_kit::{write_count, write_line};
use std::alloc::{AllocError, Global};

/// Adds the line, its desk and the number of a statement that was dropped, its conflict, and an empty line.
pub(crate) fn write_drop(
    alloc: Global,
    text: &mut Vec<u8>,
    ground: &Ground<'_>,
    line: &KeptLine,
    scene: &Scene<'_>,
    dropped: &DropFound,
) -> Result<(), AllocError>
    requires lawful { IsLawfulIn scene.now.table.now (statements_in scene.now.list.now) }
    requires asked { AsksIn scene.now.table.now dropped.now.conflict }
    ensures { OnOk result (text.new.items ≡ text.old.items
        ++ spec.drop_in (ground_of ground.now) line.now (scene_of scene.now) dropped.now) }
{
    write_head(text, ground, line, dropped.number)?;
    let scene = Scene {
        table: scene.table,
        list: scene.list,
        lines: scene.lines,
        dropped: Some(dropped.number),
    };
    write_conflict(alloc, text, &scene, &dropped.conflict)?;
    text.push(b'\n')?;
    Ok(())
}

fn write_head(
    text: &mut Vec<u8>,
    ground: &Ground<'_>,
    line: &KeptLine,
    number: u32,
) -> Result<(), AllocError>
    ensures { OnOk result (text.new.items ≡ text.old.items ++ spec.drop_head (ground_of ground.now) line.now number) }
{
    write_line(text, line.block.line, ground.desk_at(line))?;
    write_count(text, b"  repair drops ", number as usize)?;
    text.push(b'\n')?;
    Ok(())
}

fn write_conflict(
    alloc: Global,
    text: &mut Vec<u8>,
    scene: &Scene<'_>,
    conflict: &Reason,
) -> Result<(), AllocError>
    requires lawful { IsLawfulIn scene.now.table.now (statements_in scene.now.list.now) }
    requires asked { AsksIn scene.now.table.now conflict.now }
    ensures { OnOk result (text.new.items ≡ text.old.items ++ conflict_text (scene_of scene.now) conflict.now) }
{
    match conflict {
        Reason::Carried(_) => write_reason(alloc, text, scene, conflict),
        Reason::Wide { .. } => write_reason(alloc, text, scene, conflict),
        _ => write_wide(text),
    }
}
