//! Deciding the systems of a question, in order.

ghost use Rattle.std.specs.Prelude.{◌≡◌, ◌≤◌, ◌+◌, length, map, IfOk};
ghost use Rattle.std.specs.List.{AllByRecursion};
ghost use Rattle.ror_pivot.specs.Answers.{most_of};
ghost use Rattle.ror_statement.specs.declared.row_number.TheConstants.{MOST_ROWS, MOST_STATEMENTS};
ghost use Rattle.ror_table.specs.Table.{columns};
ghost use Rattle.ror_rows.specs.Rows.{extended_by, extras_of};
ghost use Rattle.ror_check.specs.Steps.{AreUsable};
ghost use Rattle.ror_relation.specs.Decisions.{IsSearch};

use crate::decision::{Decision, decide_system_warm};
use ror_pivot::Bits;
use ror_proof::{Certificate, Part, WideText};
use ror_rows::{Extras, with_extras};
use ror_system::System;
use ror_table::Table;
use ror_warm::Engine;
use std::alloc::{AllocError, Global};

/// What a search for a solvable system comes to. Systems are numbered from 1.
#[derive(Debug, Drop)]
pub(crate) enum Search {
    /// One that is solvable, with its solution.
    Solvable(Part),
    /// None is: the multipliers of each, in order.
    NoneSolvable(Vec<Part>),
    /// A number on the way to the certificate of a system is too wide, and none before it is solvable.
    TooWide { system: u32, note: WideText },
}

/// Decides the systems that the base makes with each of these extra rows, in order, up to the first that is solvable or too
/// wide, by the engine.
pub(crate) fn first_solvable(
    alloc: Global,
    engine: &mut Engine,
    table: &Table,
    base: &System,
    systems: &[Extras],
    bits: Bits,
) -> Result<Search, AllocError>
    requires columns { base.now.columns ≡ columns table.now }
    requires rows { length base.now.weak + length base.now.strict ≤ MOST_ROWS }
    requires few { length systems.now ≤ MOST_STATEMENTS }
    requires usable { AllByRecursion (AreUsable table.now) systems.now }
    ensures found { IfOk result (IsSearch (most_of bits)
        (map (extended_by table.now base.now) (map extras_of systems.now))) }
    ensures counted { engine.old.pivots ≤ engine.new.pivots }
{
    let mut parts = Vec::new(alloc);
    for (place, extra) in systems.iter().enumerate() {
        let at = place as u32 + 1;
        let system = with_extras(alloc, table, base, extra.as_slice())?;
        match decide_system_warm(alloc, engine, &system, bits)? {
            Decision::Solvable(solution) => {
                let body = Certificate::Solution(solution);
                return Ok(Search::Solvable(Part { at, body }));
            }
            Decision::NotSolvable(multipliers) => {
                let body = Certificate::Multipliers(multipliers);
                parts.push(Part { at, body })?;
            }
            Decision::TooWide(note) => return Ok(Search::TooWide { system: at, note }),
        }
    }
    Ok(Search::NoneSolvable(parts))
}
