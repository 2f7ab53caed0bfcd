//! The reason of one answer, below a head.

ghost use Rattle.std.specs.Prelude.{◌≡◌, ◌++◌, OnOk};
ghost use Rattle.ror_statement.specs.Statements.{statements_in};
ghost use Rattle.ror_value.specs.Over.{IsLawfulIn};
ghost use Rattle.ror_show_ground.specs.Grounds.{ground_of};
ghost use Rattle.ror_show_find_reasons.specs.Lines.{AsksIn, AsksOf};
ghost use Rattle.ror_show_text_reasons.specs.Pages as spec;
ghost use Rattle.ror_show_text_reasons.specs.Scenes.{scene_of, reason_text};

use crate::reasons::{write_bounded, write_decided, write_not_answered, write_reduct, write_wide};
use crate::scene::{Case, Scene};
use crate::withdrawn::{Beside, write_withdrawn};
use ror_bench::KeptLine;
use ror_proof::Answer;
use ror_reason::Reason;
use ror_show_ground::{Ground, answers_of};
use ror_show_kit::{write_asked, write_line};
use ror_show_text_functions::is_contradiction;
use std::alloc::{AllocError, Global};

/// Adds the line, its desk, what was asked and answered, the reason of the answer, what becomes of it without each statement of that,
/// and an empty line.
pub(crate) fn write_told(
    alloc: Global,
    text: &mut Vec<u8>,
    ground: &Ground<'_>,
    line: &KeptLine,
    scene: &Scene<'_>,
    beside: &Beside<'_>,
) -> Result<(), AllocError>
    requires lawful { IsLawfulIn scene.now.table.now (statements_in scene.now.list.now) }
    requires asked { AsksOf scene.now.table.now beside.now.told.now.reason }
    ensures { OnOk result (text.new.items ≡ text.old.items
        ++ spec.told_in (ground_of ground.now) line.now (scene_of scene.now) beside.now.withdrawals.now beside.now.told.now) }
{
    match answers_of(&line.block.body).get(beside.told.answer) {
        Some(answer) => {
            write_head(text, ground, line, answer)?;
            write_words(alloc, text, scene, &beside.told.reason)?;
            let clashes = is_contradiction(&answer.verdict);
            write_withdrawn(alloc, text, clashes, beside.withdrawals)?;
            text.push(b'\n')?;
            Ok(())
        }
        None => Ok(()),
    }
}

/// Adds the line, its desk, and what was asked and answered.
fn write_head(
    text: &mut Vec<u8>,
    ground: &Ground<'_>,
    line: &KeptLine,
    answer: &Answer,
) -> Result<(), AllocError>
    ensures { OnOk result (text.new.items ≡ text.old.items ++ spec.head_text (ground_of ground.now) line.now answer.now) }
{
    write_line(text, line.block.line, ground.desk_at(line))?;
    text.extend_from_slice(b"  ")?;
    write_asked(text, ground.table, &answer.question, &answer.verdict)?;
    text.push(b'\n')?;
    Ok(())
}

/// Adds the reason, or that the answer is too wide.
fn write_words(
    alloc: Global,
    text: &mut Vec<u8>,
    scene: &Scene<'_>,
    reason: &Option<Reason>,
) -> Result<(), AllocError>
    requires lawful { IsLawfulIn scene.now.table.now (statements_in scene.now.list.now) }
    requires asked { AsksOf scene.now.table.now reason.now }
    ensures { OnOk result (text.new.items ≡ text.old.items ++ spec.told_words (scene_of scene.now) reason.now) }
{
    match reason {
        Some(reason) => write_reason(alloc, text, scene, reason),
        None => write_not_answered(text),
    }
}

/// Adds the text of a reason.
pub(crate) fn write_reason(
    alloc: Global,
    text: &mut Vec<u8>,
    scene: &Scene<'_>,
    reason: &Reason,
) -> Result<(), AllocError>
    requires lawful { IsLawfulIn scene.now.table.now (statements_in scene.now.list.now) }
    requires asked { AsksIn scene.now.table.now reason.now }
    ensures { OnOk result (text.new.items ≡ text.old.items ++ reason_text (scene_of scene.now) reason.now) }
{
    match reason {
        Reason::Carried(x) => {
            let case = Case {
                numbers: x.numbers.as_slice(),
                answer: &x.answer,
                others: x.others.as_slice(),
            };
            write_reduct(alloc, text, scene, &case)
        }
        Reason::Wide {
            numbers,
            answer,
            others,
        } => {
            let case = Case {
                numbers: numbers.as_slice(),
                answer,
                others: others.as_slice(),
            };
            write_reduct(alloc, text, scene, &case)
        }
        Reason::OneHas(answer) => write_decided(alloc, text, scene.table, scene.list, answer),
        Reason::OneLacks(answer) => write_decided(alloc, text, scene.table, scene.list, answer),
        Reason::ClassLeft(answer) => write_bounded(alloc, text, scene.table, &answer.question),
        Reason::WhollyWide { .. } => write_wide(text),
    }
}
