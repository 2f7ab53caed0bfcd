//! Why answers to lines are what they are, and why repairs dropped what they did, as values.

ghost use Rattle.std.specs.Prelude.{◌≡◌, ◌<◌, ◌++◌, length, IfOk, OnOk};
ghost use Rattle.std.specs.List.{AllByRecursion, AllZip};
ghost use Rattle.ror_report.specs.Text.{answers_of};
ghost use Rattle.ror_show_ground.specs.Ready.{IsReady};
ghost use Rattle.ror_show_ground.specs.Grounds.{ground_of, IsJudged};
ghost use Rattle.ror_show_ground.specs.Lines.{place_if, is_at};
ghost use Rattle.ror_show_find_reasons.specs.Lines as spec;

use crate::drops::find_drops;
use crate::telling::find_told;
use ror_bench::KeptLine;
use ror_reason::Reason;
use ror_show_find_roll::said_before;
use ror_show_ground::{Ground, dropped_of, is_answered, is_repaired, stood_at};
use ror_statement::Pair;
use ror_table::Table;
use ror_text::Items;
use ror_warm::Engine;
use std::alloc::{AllocError, Global};

/// Which answers are told: all of few and else the first that statements carry, with the conflicts of repairs; those between
/// two alternatives; or all that statements carry, as certificates have them.
#[derive(Clone, Copy, Debug, PartialEq, Eq)]
pub enum Meant {
    All,
    Between(Pair),
    Carried,
}

/// Why an answer is what it is.
#[derive(Debug, Drop)]
pub struct Told {
    /// Its place among the answers to the line, from 0.
    pub answer: usize,
    /// None where the answer is too wide.
    pub reason: Option<Reason>,
}

/// With what a statement conflicts that a repair dropped.
#[derive(Debug, Drop)]
pub struct DropFound {
    /// Its place among what stood, from 0.
    pub at: usize,
    pub number: u32,
    /// A reduct of the contradiction of it and what was kept before it.
    pub conflict: Reason,
}

/// What is found of a line that is answered or repairs.
#[derive(Debug, Drop)]
pub struct LineFound {
    /// Its place among the kept lines.
    pub place: usize,
    /// For each statement that stood, the number of the line that said it; none where it came with the table's file. Empty for certificates.
    pub said: Items<Option<u32>>,
    pub told: Items<Told>,
    pub drops: Items<DropFound>,
}

/// The reasons at each kept line that is answered or repairs, with what stood. One engine decides for all answers. The questions in the
/// reasons may be asked of the table.
///
/// # Errors
///
/// Only want of memory, here and below.
pub fn find_lines(
    alloc: Global,
    ground: &Ground<'_>,
    meant: Meant,
) -> Result<Items<LineFound>, AllocError>
    requires { IsJudged (ground_of ground.now) }
    ensures found { IfOk result (spec.AreLinesFound meant (ground_of ground.now)) }
    ensures asked { IfOk result (AllByRecursion (spec.AreAsked ground.now.table.now)) }
{
    let places = explained_places(alloc, ground.kept)?;
    lines_at(alloc, ground, meant, places.as_slice())
}

/// Those of the lines at these places.
fn lines_at(
    alloc: Global,
    ground: &Ground<'_>,
    meant: Meant,
    places: &[usize],
) -> Result<Items<LineFound>, AllocError>
    requires judged { IsJudged (ground_of ground.now) }
    requires within { AllByRecursion (λ n. n < length ground.now.kept.now) places.now }
    ensures { IfOk result (AllZip (spec.IsLineFound meant (ground_of ground.now)) places.now) }
{
    let mut engine = Engine::new(alloc);
    let mut found = Vec::new(alloc);
    for place in places {
        let line = find_line(alloc, &mut engine, ground, meant, *place)?;
        found.push(line)?;
    }
    Ok(Items::from(found))
}

/// Those of the line at a place.
fn find_line(
    alloc: Global,
    engine: &mut Engine,
    ground: &Ground<'_>,
    meant: Meant,
    place: usize,
) -> Result<LineFound, AllocError>
    requires judged { IsJudged (ground_of ground.now) }
    requires there { place < length ground.now.kept.now }
    ensures { IfOk result (spec.IsLineFound meant (ground_of ground.now) place) }
{
    let line = &ground.kept[place];
    let said = said_for(alloc, ground, meant, line, place)?;
    let drops = line_drops(alloc, ground.table, meant, line)?;
    let told = line_told(alloc, engine, ground.table, meant, line)?;
    Ok(LineFound {
        place,
        said,
        told,
        drops,
    })
}

/// Which line said each statement that stood, where that is meant.
fn said_for(
    alloc: Global,
    ground: &Ground<'_>,
    meant: Meant,
    line: &KeptLine,
    place: usize,
) -> Result<Items<Option<u32>>, AllocError>
    requires judged { IsJudged (ground_of ground.now) }
    requires there { place < length ground.now.kept.now }
    ensures { IfOk result (λ said. said ≡ spec.said_for meant (ground_of ground.now) line.now place) }
{
    match meant {
        Meant::Carried => Ok(Items::from(Vec::new(alloc))),
        _ => said_before(alloc, ground, line, place),
    }
}

/// Why the answers to a line are what they are, where what stood is kept.
fn line_told(
    alloc: Global,
    engine: &mut Engine,
    table: &Table,
    meant: Meant,
    line: &KeptLine,
) -> Result<Items<Told>, AllocError>
    requires { IsReady table.now line.now }
    ensures { IfOk result (spec.AreToldOver meant table.now (answers_of line.now.block.body) line.now.standing) }
{
    match stood_at(table, line) {
        Some(stood) => find_told(alloc, engine, &stood, meant),
        None => Ok(Items::from(Vec::new(alloc))),
    }
}

/// With what each statement conflicts that a line dropped, where what stood is kept.
fn line_drops(
    alloc: Global,
    table: &Table,
    meant: Meant,
    line: &KeptLine,
) -> Result<Items<DropFound>, AllocError>
    requires { IsReady table.now line.now }
    ensures { IfOk result (spec.AreDropsOver meant table.now (spec.dropped_by line.now) line.now.standing) }
{
    match stood_at(table, line) {
        Some(stood) => find_drops(alloc, &stood, meant, dropped_of(&line.block.body)),
        None => Ok(Items::from(Vec::new(alloc))),
    }
}

/// The places of the kept lines that are answered or repair, and of which what stood is kept, in order.
fn explained_places(alloc: Global, kept: &[KeptLine]) -> Result<Vec<usize>, AllocError>
    ensures { IfOk result (λ places. places.items ≡ spec.explained_places kept.now) }
{
    let mut places = Vec::new(alloc);
    for n in 0..kept.len() {
        push_explained(&mut places, kept, n)?;
    }
    Ok(places)
}

fn push_explained(places: &mut Vec<usize>, kept: &[KeptLine], n: usize) -> Result<(), AllocError>
    ensures { OnOk result (places.new.items ≡ places.old.items ++ place_if spec.is_explained kept.now n) }
{
    if is_explained_at(kept, n) {
        places.push(n)?;
    }
    Ok(())
}

fn is_explained_at(kept: &[KeptLine], n: usize) -> bool
    ensures { result ≡ is_at spec.is_explained kept.now n }
{
    match kept.get(n) {
        Some(line) => is_explained(line),
        None => false,
    }
}

fn is_explained(line: &KeptLine) -> bool
    ensures { result ≡ spec.is_explained line.now }
{
    line.standing.is_some() && (is_answered(&line.block.body) || is_repaired(&line.block.body))
}
