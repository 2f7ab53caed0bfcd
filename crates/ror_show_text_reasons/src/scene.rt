//! What a reason is read against.

ghost use Rattle.std.specs.Prelude.{◌≡◌};
ghost use Rattle.ror_show_ground.specs.Grounds.{ground_of};
ghost use Rattle.ror_show_ground.specs.Lines.{stood};
ghost use Rattle.ror_show_text_reasons.specs.Pages.{scene_for};
ghost use Rattle.ror_show_text_reasons.specs.Scenes.{scene_of};

use ror_bench::KeptLine;
use ror_proof::Answer;
use ror_show_find_reasons::LineFound;
use ror_show_ground::Ground;
use ror_statement::Numbered;
use ror_table::Table;

/// A table, what stood at a line, the line that said each statement of it, and which of them the reason is of where a repair dropped one.
#[derive(Clone, Copy)]
pub(crate) struct Scene<'a> {
    pub(crate) table: &'a Table,
    pub(crate) list: &'a [Numbered],
    pub(crate) lines: &'a [Option<u32>],
    pub(crate) dropped: Option<u32>,
}

/// A part of the statements that carries an answer: the numbers of the part, the answer over it, and at each number's place the answer
/// over the part without its statement.
#[derive(Clone, Copy)]
pub(crate) struct Case<'a> {
    pub(crate) numbers: &'a [u32],
    pub(crate) answer: &'a Answer,
    pub(crate) others: &'a [Answer],
}

/// What the reasons of a line are read against.
pub(crate) fn scene_for<'a>(
    ground: &Ground<'a>,
    line: &'a KeptLine,
    found: &'a LineFound,
) -> Scene<'a>
    ensures { scene_of result ≡ scene_for (ground_of ground.now) line.now found.now }
{
    Scene {
        table: ground.table,
        list: stood(line),
        lines: found.said.as_slice(),
        dropped: None,
    }
}

/// What stood at a line, nothing where that isn't kept.
fn stood(line: &KeptLine) -> &[Numbered]
    ensures { result.now ≡ stood line.now }
{
    match &line.standing {
        Some(list) => list.as_slice(),
        None => &[],
    }
}
