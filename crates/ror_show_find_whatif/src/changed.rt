//! What stands if statements are withdrawn, and if one says its contrary.

ghost use Rattle.std.specs.Prelude.{◌≡◌, IfOk};
ghost use Rattle.ror_show_find_whatif.specs.Changed as spec;

use ror_reason::is_among;
use ror_statement::{Numbered, Statement};
use std::alloc::{AllocError, Global};

/// What is left where the statements with these numbers are withdrawn.
///
/// # Errors
///
/// Only want of memory, here and below.
pub(crate) fn left_of(
    alloc: Global,
    list: &[Numbered],
    numbers: &[u32],
) -> Result<Vec<Statement>, AllocError>
    ensures { IfOk result (λ left. left.items ≡ spec.left_of numbers.now list.now) }
{
    list.iter()
        .filter(|x| !is_among(numbers, x.number))
        .map(|x| x.statement)
        .collect(alloc)
}

/// The contrary of a statement, where that is a statement too: what holds of a value function exactly where the statement doesn't. What
/// says that two are equal, or assigns to classes, has none.
pub fn contrary_of(statement: Statement) -> Option<Statement>
    ensures { result ≡ spec.contrary_of statement }
{
    match statement {
        Statement::Prefer(a, b) => Some(Statement::AtLeast(b, a)),
        Statement::AtLeast(a, b) => Some(Statement::Prefer(b, a)),
        Statement::Stronger(p, q, scope) => Some(Statement::AsStrong(q, p, scope)),
        Statement::AsStrong(p, q, scope) => Some(Statement::Stronger(q, p, scope)),
        _ => None,
    }
}

/// What stands where this is said in place of the statement with the number.
pub(crate) fn instead_of(
    alloc: Global,
    list: &[Numbered],
    number: u32,
    statement: Statement,
) -> Result<Vec<Statement>, AllocError>
    ensures { IfOk result (λ made. made.items ≡ spec.instead_of number statement list.now) }
{
    list.iter()
        .map(|x| placed(number, statement, *x))
        .collect(alloc)
}

fn placed(number: u32, statement: Statement, x: Numbered) -> Statement
    ensures { result ≡ spec.placed number statement x }
{
    if x.number == number {
        statement
    } else {
        x.statement
    }
}
