//! The reasons of lines that are found, as plain text.

ghost use Rattle.std.specs.Prelude.{◌≡◌, ◌++◌, OnOk};
ghost use Rattle.std.specs.List.{AllByRecursion, flat_map};
ghost use Rattle.ror_statement.specs.Statements.{statements_in};
ghost use Rattle.ror_value.specs.Over.{IsLawfulIn};
ghost use Rattle.ror_show_ground.specs.Grounds.{ground_of, IsJudged};
ghost use Rattle.ror_show_ground.specs.Ready.{IsReady};
ghost use Rattle.ror_show_find_reasons.specs.Lines.{AsksIn, AsksOf, AreAsked};
ghost use Rattle.ror_show_text_reasons.specs.Pages as spec;
ghost use Rattle.ror_show_text_reasons.specs.Scenes.{scene_of};

use crate::drops::write_drop;
use crate::rest::write_rest;
use crate::scene::{Scene, scene_for};
use crate::told::write_told;
use crate::withdrawn::{Beside, Explained, cores_at, withdrawals_at};
use ror_bench::KeptLine;
use ror_show_find_core::LineCores;
use ror_show_find_reasons::{DropFound, LineFound, Meant};
use ror_show_ground::Ground;
use std::alloc::{AllocError, Global};

/// Adds the reasons of each line, in order: of each answer that is told, below the line's number, its desk and what was asked, with what
/// is found beside it; and the conflict of each statement that a repair dropped. These answers were meant when the lines were found.
///
/// # Errors
///
/// Only want of memory.
pub fn write_lines(
    alloc: Global,
    text: &mut Vec<u8>,
    ground: &Ground<'_>,
    meant: Meant,
    found: &[LineFound],
    cores: &[LineCores],
) -> Result<(), AllocError>
    requires judged { IsJudged (ground_of ground.now) }
    requires asked { AllByRecursion (AreAsked ground.now.table.now) found.now }
    ensures { OnOk result (text.new.items ≡ text.old.items ++ spec.reasons_text meant (ground_of ground.now) found.now cores.now) }
{
    'found: for k in 0..found.len() {
        let line = Explained {
            found: &found[k],
            cores: cores_at(cores, k),
        };
        write_line_found(alloc, text, ground, meant, &line)?;
    }
    Ok(())
}

/// Adds the reasons of a line.
fn write_line_found(
    alloc: Global,
    text: &mut Vec<u8>,
    ground: &Ground<'_>,
    meant: Meant,
    explained: &Explained<'_>,
) -> Result<(), AllocError>
    requires judged { IsJudged (ground_of ground.now) }
    requires asked { AreAsked ground.now.table.now explained.now.found.now }
    ensures { OnOk result (text.new.items ≡ text.old.items
        ++ spec.line_words meant (ground_of ground.now) explained.now.cores.now explained.now.found.now) }
{
    match ground.kept.get(explained.found.place) {
        Some(line) => write_over(alloc, text, ground, meant, explained, line),
        None => Ok(()),
    }
}

/// Adds the reasons of what is found of this kept line.
fn write_over(
    alloc: Global,
    text: &mut Vec<u8>,
    ground: &Ground<'_>,
    meant: Meant,
    explained: &Explained<'_>,
    line: &KeptLine,
) -> Result<(), AllocError>
    requires ready { IsReady ground.now.table.now line.now }
    requires asked { AreAsked ground.now.table.now explained.now.found.now }
    ensures { OnOk result (text.new.items ≡ text.old.items
        ++ spec.line_over meant (ground_of ground.now) explained.now.cores.now explained.now.found.now line.now) }
{
    let found = explained.found;
    let scene = scene_for(ground, line, found);
    write_each_told(alloc, text, ground, line, &scene, explained)?;
    write_rest(text, ground, meant, line)?;
    write_each_drop(alloc, text, ground, line, &scene, found.drops.as_slice())
}

/// Adds the reason of each answer that is told.
fn write_each_told(
    alloc: Global,
    text: &mut Vec<u8>,
    ground: &Ground<'_>,
    line: &KeptLine,
    scene: &Scene<'_>,
    explained: &Explained<'_>,
) -> Result<(), AllocError>
    requires lawful { IsLawfulIn scene.now.table.now (statements_in scene.now.list.now) }
    requires asked { AllByRecursion (λ x. AsksOf scene.now.table.now x.reason) explained.now.found.now.told }
    ensures { OnOk result (text.new.items ≡ text.old.items
        ++ spec.each_told (ground_of ground.now) line.now (scene_of scene.now) explained.now.cores.now explained.now.found.now.told) }
{
    let told = explained.found.told.as_slice();
    'told: for k in 0..told.len() {
        let one = Beside {
            told: &told[k],
            withdrawals: withdrawals_at(explained.cores, k),
        };
        write_told(alloc, text, ground, line, scene, &one)?;
    }
    Ok(())
}

/// Adds the conflict of each statement that was dropped.
fn write_each_drop(
    alloc: Global,
    text: &mut Vec<u8>,
    ground: &Ground<'_>,
    line: &KeptLine,
    scene: &Scene<'_>,
    drops: &[DropFound],
) -> Result<(), AllocError>
    requires lawful { IsLawfulIn scene.now.table.now (statements_in scene.now.list.now) }
    requires asked { AllByRecursion (λ x. AsksIn scene.now.table.now x.conflict) drops.now }
    ensures { OnOk result (text.new.items ≡ text.old.items
        ++ flat_map (spec.drop_in (ground_of ground.now) line.now (scene_of scene.now)) drops.now) }
{
    'drops: for k in 0..drops.len() {
        let one = &drops[k];
        write_drop(alloc, text, ground, line, scene, one)?;
    }
    Ok(())
}
