//! The extreme rank that is asked for, and the systems of its side.

ghost use Rattle.std.specs.Prelude.{◌≡◌, true, IfOk};
ghost use Rattle.ror_ranks.specs.Conflicts.{are_others, row_on, rows_on, side_system};
ghost use Rattle.ror_ranks.specs.Steps.{IsAsked};

use crate::extreme::Side;
use ror_rows::{Extra, Form, with_extras};
use ror_system::System;
use ror_table::Table;
use std::alloc::{AllocError, Global};

/// The extreme rank of an alternative over a list of statements, whose system is the base.
#[derive(Clone, Copy)]
pub struct Asked<'a> {
    pub table: &'a Table,
    pub base: &'a System,
    pub alternative: usize,
    pub side: Side,
}

/// The system of the functions by which none of these other alternatives counts.
pub fn system_without(alloc: Global, asked: &Asked, members: &[usize]) -> Result<System, AllocError>
    requires asked { IsAsked asked.now }
    requires others { are_others asked.now.table.now asked.now.alternative members.now ≡ true }
    ensures { IfOk result (λ s. s ≡ side_system asked.now.table.now asked.now.base.now
        asked.now.side asked.now.alternative members.now) }
{
    let rows = rows_for(alloc, asked.side, asked.alternative, members)?;
    with_extras(alloc, asked.table, asked.base, rows.as_slice())
}

/// The rows that say that none of these counts.
fn rows_for(
    alloc: Global,
    side: Side,
    alternative: usize,
    members: &[usize],
) -> Result<Vec<Extra>, AllocError>
    ensures { IfOk result (λ rows. rows.items ≡ rows_on side alternative members.now) }
{
    members
        .iter()
        .map(|other| row_for(side, alternative, *other))
        .collect(alloc)
}

/// The row that says that the other alternative doesn't count.
fn row_for(side: Side, alternative: usize, other: usize) -> Extra
    ensures { result ≡ row_on side alternative other }
{
    match side {
        Side::Best => Extra {
            form: Form::Value(alternative, other),
            strict: false,
        },
        Side::Worst => Extra {
            form: Form::Value(other, alternative),
            strict: true,
        },
    }
}
