//! The rows of a table: of each statement, how much hangs on it.

ghost use Rattle.std.specs.Prelude.{◌≡◌, length, option_map, IfOk};
ghost use Rattle.ror_show_text_whatif.specs.Rows as spec;

use crate::told::{Remark, Told, counts_of, first_of, remark_for, told_by};
use crate::ways::{Way, outcome_in, said_in};
use ror_show_find_whatif::{Agreement, Case, Outcome, WhatIf};
use ror_statement::Statement;
use std::alloc::{AllocError, Global};

/// A changed statement, and what is told of it.
#[derive(Clone, Copy, Debug)]
pub(crate) struct Row {
    pub(crate) number: u32,
    /// What is withdrawn, or said in its place.
    pub(crate) said: Statement,
    pub(crate) told: Told,
}

/// Those of a line that asks for the relation, in the order of the statements.
pub(crate) fn relation_rows(alloc: Global, way: Way, found: &WhatIf) -> Result<Vec<Row>, AllocError>
    ensures { IfOk result (λ rows. rows.items ≡ spec.relation_rows way found.now) }
{
    rows_over(alloc, way, found.agreement, found.cases.as_slice())
}

fn rows_over(
    alloc: Global,
    way: Way,
    now: Agreement,
    cases: &[Case],
) -> Result<Vec<Row>, AllocError>
    ensures { IfOk result (λ rows. rows.items ≡ spec.rows_over way now cases.now) }
{
    cases
        .iter()
        .map(|case| row_of(way, now, case))
        .collect(alloc)
}

fn row_of(way: Way, now: Agreement, case: &Case) -> Row
    ensures { result ≡ spec.row_of way now case.now }
{
    Row {
        number: case.stated.number,
        said: said_in(way, case),
        told: told_of(way, now, outcome_in(way, case)),
    }
}

fn told_of(way: Way, now: Agreement, outcome: Option<&Outcome>) -> Told
    ensures { result ≡ spec.told_of way now (option_map (λ x. x.now) outcome.entry) }
{
    match outcome {
        Some(outcome) => told_by(
            remark_for(way, now, outcome.agreement),
            counts_of(&outcome.effect),
        ),
        None => Told::Remark(Remark::NoContrary),
    }
}

/// The greatest count by which they are ordered.
pub(crate) fn most_in(rows: &[Row]) -> usize
    ensures { result ≡ spec.most_below rows.now (length rows.now) }
{
    let mut most = 0;
    for k in 0..rows.len() {
        let count = first_at(rows, k);
        if most < count {
            most = count;
        }
    }
    most
}

fn first_at(rows: &[Row], k: usize) -> usize
    ensures { result ≡ spec.first_at rows.now k }
{
    match rows.get(k) {
        Some(row) => first_of(row.told),
        None => 0,
    }
}
