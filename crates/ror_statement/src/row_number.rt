//! How many rows statements take.

ghost use Rattle.std.specs.Prelude.{◌≡◌, ◌≤◌, ◌+◌, length};
ghost use Rattle.std.specs.List.{flat_map};
ghost use Rattle.ror_statement.specs.Statements.{outranking};
ghost use Rattle.ror_statement.specs.RowNumbers.{own_rows, rows_number, row_count};

use crate::comparison::Relation;
use crate::statement::Statement;

/// How many statements may stand at a desk.
pub const MOST_STATEMENTS: usize = 200;

/// How many rows the system of these may have.
pub const MOST_ROWS: usize = 2000;

/// How many rows the system of these statements takes: one says that the total is positive; each strict or weak
/// comparison takes one, each equality two; and each ordered pair of class statements takes one where every class of the
/// first is above every one of the second. It asks at most one statement more than may stand, and takes no memory.
pub fn row_count(list: &[Statement]) -> usize
    requires { length list.now ≤ MOST_STATEMENTS + 1 }
    ensures { result ≡ row_count list.now }
{
    let mut count = 1;
    for statement in list {
        count += own_rows(*statement);
    }
    for first in list {
        count += outranking_rows(*first, list);
    }
    count
}

/// How many rows a statement takes by itself.
fn own_rows(statement: Statement) -> usize
    ensures is { result ≡ own_rows statement }
    ensures few { result ≤ 2 }
{
    match statement.comparison() {
        None => 0,
        Some(comparison) => match comparison.relation {
            Relation::Above | Relation::AtLeast => 1,
            Relation::Equal => 2,
        },
    }
}

/// How many rows the statement takes together with those of the list that it outranks.
fn outranking_rows(first: Statement, list: &[Statement]) -> usize
    requires { length list.now ≤ MOST_STATEMENTS + 1 }
    ensures is { result ≡ rows_number (flat_map (outranking first) list.now) }
    ensures few { result ≤ length list.now }
{
    let mut count = 0;
    for second in list {
        count += pair_rows(first, *second);
    }
    count
}

/// How many rows two statements take together.
fn pair_rows(first: Statement, second: Statement) -> usize
    ensures is { result ≡ rows_number (outranking first second) }
    ensures few { result ≤ 1 }
{
    match (first.assignment(), second.assignment()) {
        (Some(above), Some(below)) if above.outranks(below) => 1,
        _ => 0,
    }
}
