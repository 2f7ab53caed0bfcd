//! The statements that come with a table.

ghost use Rattle.std.specs.Prelude.{◌≡◌, IfOk, slice_get};
ghost use Rattle.ror_statement.specs.declared.row_number.TheConstants.{MOST_STATEMENTS};
ghost use Rattle.ror_text.specs.Reading.{Gives};
ghost use Rattle.ror_table.specs.Plain.{table_fault};
ghost use Rattle.ror_xmcda.specs.Opening as spec;

use crate::fault::fault;
use crate::stated::Stated;
use ror_statement::{MOST_ROWS, MOST_STATEMENTS, Statement, row_count};
use ror_table::{TableError, TableKind, What};
use ror_text::Items;
use ror_text::reading::refuse_if;
use std::alloc::{AllocError, Global};

/// The statements without their lines.
fn statements(alloc: Global, stated: &[Stated]) -> Result<Vec<Statement>, AllocError>
    ensures { IfOk result (λ v. v.items ≡ spec.statements stated.now) }
{
    stated.iter().map(|s| s.statement).collect(alloc)
}

/// Refuses the first statement past the most that may stand.
fn refuse_more(stated: &[Stated]) -> Result<(), TableError>
    ensures { Gives (λ _. tt) table_fault result
        (spec.refuse_more (slice_get stated.now MOST_STATEMENTS)) }
{
    match stated.get(MOST_STATEMENTS) {
        None => Ok(()),
        Some(first) => Err(fault(TableKind::TooMany(What::Statements), first.line)),
    }
}

/// The statements, if they may stand at a desk.
#[tactic(auto, unfolding(crate::specs::Opening::opening_of))]
pub(crate) fn opening_of(alloc: Global, stated: &[Stated]) -> Result<Items<Statement>, TableError>
    ensures { Gives (λ opening. opening) table_fault result (spec.opening_of stated.now) }
{
    refuse_more(stated)?;
    let list = statements(alloc, stated)?;
    refuse_if(
        row_count(&list) > MOST_ROWS,
        fault(TableKind::TooMany(What::Rows), 0),
    )?;
    Ok(Items::from(list))
}
