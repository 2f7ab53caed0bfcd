//! What hangs on each statement at a line.

ghost use Rattle.std.specs.Prelude.{◌<◌, ◌-◌, ◌^◌, length, IfOk};
ghost use Rattle.ror_report.specs.Text.{answers_of};
ghost use Rattle.ror_show_ground.specs.Grounds.{ground_of, IsJudged};
ghost use Rattle.ror_show_ground.specs.Ready.{IsReady};
ghost use Rattle.ror_show_find_whatif.specs.Cases.{AreCasesOver};
ghost use Rattle.ror_show_find_whatif.specs.Findings.{IsWhatIf};

use crate::agreement::{Agreement, agreement_by};
use crate::cases::{Case, find_cases};
use crate::outcome::Asks;
use ror_bench::KeptLine;
use ror_show_find_classes::alternative_of;
use ror_show_ground::{Ground, answers_of, stood_at};
use ror_table::Table;
use ror_text::Items;
use ror_warm::Engine;
use std::alloc::{AllocError, Global};

/// What hangs on each statement that stood at a line.
#[derive(Debug, Drop)]
pub struct WhatIf {
    /// The line's place among the kept ones.
    pub place: usize,
    /// The alternative whose classes it asks for; 0 where it asks for none.
    pub alternative: usize,
    /// Whether some function agrees with what stood.
    pub agreement: Agreement,
    /// Of each statement that stood, in order.
    pub cases: Items<Case>,
}

/// At the line at a place, which asks this.
///
/// # Errors
///
/// Only want of memory, here and below.
pub(crate) fn find_whatif(
    alloc: Global,
    engine: &mut Engine,
    ground: &Ground<'_>,
    asks: Asks,
    place: usize,
) -> Result<WhatIf, AllocError>
    requires judged { IsJudged (ground_of ground.now) }
    requires there { place < length ground.now.kept.now }
    ensures { IfOk result (IsWhatIf asks (ground_of ground.now) place) }
{
    let line = &ground.kept[place];
    let cases = cases_over(alloc, engine, ground.table, asks, line)?;
    let answers = answers_of(&line.block.body);
    Ok(WhatIf {
        place,
        alternative: alternative_of(answers),
        agreement: agreement_by(answers),
        cases,
    })
}

/// Of each statement that stood at a line, where that is kept.
fn cases_over(
    alloc: Global,
    engine: &mut Engine,
    table: &Table,
    asks: Asks,
    line: &KeptLine,
) -> Result<Items<Case>, AllocError>
    requires ready { IsReady table.now line.now }
    requires few { length (answers_of line.now.block.body) < 2 ^ 32 - 1 }
    ensures { IfOk result (AreCasesOver table.now asks (answers_of line.now.block.body) line.now.standing) }
{
    match stood_at(table, line) {
        Some(stood) => find_cases(alloc, engine, &stood, asks),
        None => Ok(Items::from(Vec::new(alloc))),
    }
}
