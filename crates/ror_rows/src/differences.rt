//! The row of a form, criterion by criterion and column by column.

ghost use Rattle.std.specs.Prelude.{◌≡◌, ◌<◌, ◌≤◌, ◌++◌, ◌^◌, length, map, unsigned_abs, IfOk, OnOk};
ghost use Rattle.std.specs.List.{range_with_len};
ghost use Rattle.ror_table.specs.Table.{steps, width};
ghost use Rattle.ror_value.specs.Over.{IsNamedIn};
ghost use Rattle.ror_rows.specs.Rows.{rank_in, form_row};
ghost use Rattle.ror_rows.specs.Steps.{ranks_of, entry_at, AreRanksWithin};

use ror_statement::{Form, Scope};
use ror_system::Row;
use ror_table::Table;
use std::alloc::{AllocError, Global};

/// The ranks on one criterion of the alternatives that a form names: its row has the columns at the first of each pair, less
/// those at the second, and this of the second pair is taken from that of the first.
#[derive(Clone, Copy, Debug)]
pub(crate) struct Ranks {
    pub(crate) first: (usize, usize),
    pub(crate) second: (usize, usize),
}

/// The row of a form.
pub(crate) fn row_of_form(alloc: Global, table: &Table, form: Form) -> Result<Row, AllocError>
    requires { IsNamedIn table.now form }
    ensures { IfOk result (λ row. row ≡ form_row table.now form) }
{
    let mut entries = Vec::new(alloc);
    for i in 0..table.criteria() {
        push_criterion(&mut entries, table, i, ranks_on(table, form, i))?;
    }
    Row::from_vec(alloc, entries)
}

fn ranks_on(table: &Table, form: Form, i: usize) -> Ranks
    requires named { IsNamedIn table.now form }
    requires criterion { i < length table.now.criteria }
    ensures ranks { result ≡ ranks_of table.now form i }
    ensures within { AreRanksWithin (steps table.now i) result }
{
    match form {
        Form::Value(a, b) => Ranks {
            first: (table.rank(a, i), 0),
            second: (table.rank(b, i), 0),
        },
        Form::Strength(p, q, scope) => Ranks {
            first: (
                rank_within(table, scope, p.first, i),
                rank_within(table, scope, p.second, i),
            ),
            second: (
                rank_within(table, scope, q.first, i),
                rank_within(table, scope, q.second, i),
            ),
        },
    }
}

fn rank_within(table: &Table, scope: Scope, a: usize, i: usize) -> usize
    requires alternative { a < length table.now.alternatives }
    requires criterion { i < length table.now.criteria }
    ensures rank { result ≡ rank_in table.now scope a i }
    ensures within { result ≤ steps table.now i }
{
    match scope {
        Scope::Whole => table.rank(a, i),
        Scope::One(criterion) => { if i == criterion { table.rank(a, i) } else { 0 } }
    }
}

/// Pushes the columns of one criterion.
fn push_criterion(
    row: &mut Vec<i128>,
    table: &Table,
    i: usize,
    ranks: Ranks,
) -> Result<(), AllocError>
    requires criterion { i < length table.now.criteria }
    requires within { AreRanksWithin (steps table.now i) ranks }
    ensures { OnOk result (row.new.items
        ≡ row.old.items ++ map (entry_at table.now i ranks) (range_with_len 0 (width table.now i))) }
{
    for column in 0..table.width(i) {
        row.push(entry_of(table, i, ranks, column))?;
    }
    Ok(())
}

fn entry_of(table: &Table, i: usize, ranks: Ranks, column: usize) -> i128
    requires criterion { i < length table.now.criteria }
    requires within { AreRanksWithin (steps table.now i) ranks }
    requires column { column < width table.now i }
    ensures value { result ≡ entry_at table.now i ranks column }
    ensures narrow { unsigned_abs result < 10 ^ 19 }
{
    let first = i128::from(table.block_entry(i, ranks.first.0, column))
        - i128::from(table.block_entry(i, ranks.first.1, column));
    let second = i128::from(table.block_entry(i, ranks.second.0, column))
        - i128::from(table.block_entry(i, ranks.second.1, column));
    first - second
}
