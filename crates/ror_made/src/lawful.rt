//! Whether a desk may hold statements or be asked questions.

ghost use Rattle.std.specs.Prelude.{IsTrue, IfOk};
ghost use Rattle.std.specs.List.{AllByRecursion};
ghost use Rattle.std.specs.List.Sorted.{IsStrictlyIncreasing};
ghost use Rattle.ror_value.specs.Over.{IsValidIn, IsLawfulIn, IsAskedIn};
ghost use Rattle.ror_statement.specs.Statements.{numbers_in, statements_in};

use ror_statement::{
    MOST_ROWS, MOST_STATEMENTS, Numbered, Question, Statement, row_count, statements_in, valid,
    valid_question,
};
use ror_table::Table;
use std::alloc::{AllocError, Global};

/// Whether a desk may hold the list.
pub fn is_lawful(table: &Table, list: &[Statement]) -> bool
    ensures { IsTrue result → IsLawfulIn table.now list.now }
{
    list.len() <= MOST_STATEMENTS && row_count(list) <= MOST_ROWS && are_valid(table, list)
}

/// Whether all statements name what the table has.
pub fn are_valid(table: &Table, list: &[Statement]) -> bool
    ensures { IsTrue result → AllByRecursion (IsValidIn table.now) list.now }
{
    match list {
        [] => true,
        [first, rest @ ..] => {
            valid(
                first,
                table.alternatives(),
                table.criteria(),
                table.classes(),
            ) && are_valid(table, rest)
        }
    }
}

/// Whether the question names what the table has.
pub fn is_asked(table: &Table, question: &Question) -> bool
    ensures { IsTrue result → IsAskedIn table.now question.now }
{
    valid_question(
        question,
        table.alternatives(),
        table.criteria(),
        table.classes(),
    )
}

/// Whether all questions name what the table has.
pub fn are_asked(table: &Table, questions: &[Question]) -> bool
    ensures { IsTrue result → AllByRecursion (IsAskedIn table.now) questions.now }
{
    match questions {
        [] => true,
        [first, rest @ ..] => is_asked(table, first) && are_asked(table, rest),
    }
}

/// Whether each number is above the one before it.
fn are_rising(standing: &[Numbered]) -> bool
    ensures { IsTrue result → IsStrictlyIncreasing (numbers_in standing.now) }
{
    for place in 1..standing.len() {
        if standing[place - 1].number >= standing[place].number {
            return false;
        }
    }
    true
}

/// Whether a desk may hold the statements, with numbers that rise.
pub fn may_stand(alloc: Global, table: &Table, standing: &[Numbered]) -> Result<bool, AllocError>
    ensures { IfOk result (λ may. IsTrue may → IsLawfulIn table.now (statements_in standing.now)
        × IsStrictlyIncreasing (numbers_in standing.now)) }
{
    let list = statements_in(alloc, standing)?;
    Ok(is_lawful(table, list.as_slice()) && are_rising(standing))
}
