//! Answers over one base, and statements that a function meets.

ghost use Rattle.std.specs.Prelude.{IsTrue};
ghost use Rattle.std.specs.List.{AllByRecursion};
ghost use Rattle.ror_value.specs.Over.{IsAskedIn};
ghost use Rattle.ror_value.specs.Value.{IsFunctionOf};

use ror_check::check_answers;
use ror_made::{are_valid, is_asked, is_lawful, three_alternatives};
use ror_proof::{Answer, read_answer};
use ror_statement::{Pair, Scope, Statement};
use ror_table::Table;
use ror_value::ValueFunction;
use std::alloc::Global;
use std::test::Fail;

/// The row of a over b is (0, 1, 0, -1).
const A_OVER_B: &[Statement] = &[Statement::Prefer(0, 1)];

const SETTLED: &[u8] =
    b"answer necessary a b yes\nbase solution 0 1 0 0\npart 1 multipliers | 0 1 1\n";

const AGAIN: &[u8] = b"answer possible b a no\nbase solution 0 1 0 0\npart 1 multipliers 1 | 0 1\n";

const AGAINST_THE_BASE: &[u8] =
    b"answer necessary a b no\nbase solution 0 1 0 0\npart 1 solution 0 1 0 0\n";

/// Whether all questions name what the table has.
fn are_asked(table: &Table, answers: &[Answer]) -> bool
    ensures { IsTrue result → AllByRecursion (λ x. IsAskedIn table.now x.question) answers.now }
{
    match answers {
        [] => true,
        [first, rest @ ..] => is_asked(table, &first.question) && are_asked(table, rest),
    }
}

/// Adds the answer with this text.
fn push_answer(
    alloc: Global,
    table: &Table,
    text: &[u8],
    answers: &mut Vec<Answer>,
) -> Result<(), Fail> {
    let (answer, _) = read_answer(alloc, table, text, 0)?;
    Ok(answers.push(answer)?)
}

/// Whether the answers are accepted.
fn is_accepted(alloc: Global, table: &Table, answers: &[Answer]) -> Result<bool, Fail> {
    if !is_lawful(table, A_OVER_B) || answers.len() > 100 || !are_asked(table, answers) {
        return Err(Fail::new("the list is lawful and the questions valid, and they are few"));
    }
    Ok(check_answers(alloc, table, A_OVER_B, answers).is_ok())
}

/// Whether the answers with these texts are accepted.
fn are_accepted(alloc: Global, table: &Table, one: &[u8], other: &[u8]) -> Result<bool, Fail> {
    let mut answers = Vec::new(alloc);
    push_answer(alloc, table, one, &mut answers)?;
    push_answer(alloc, table, other, &mut answers)?;
    is_accepted(alloc, table, answers.as_slice())
}

#[test]
fn answers_are_accepted_over_one_base(rt: HostRuntime) -> Result<(), Fail> {
    let table = three_alternatives(rt.alloc())?;
    assert!(rt; are_accepted(rt.alloc(), &table, SETTLED, AGAIN)?);
    assert!(rt; !are_accepted(rt.alloc(), &table, SETTLED, AGAINST_THE_BASE)?);
    Ok(())
}

/// Whether the function meets the list, where the table has what it names.
fn is_met(table: &Table, function: &ValueFunction, list: &[Statement]) -> bool
    requires { IsFunctionOf table.now function.now }
{
    are_valid(table, list) && function.meets(table, list)
}

const AB: Pair = Pair {
    first: 0,
    second: 1,
};

const BA: Pair = Pair {
    first: 1,
    second: 0,
};

// By the steps 0, 2^126, 0, 0 the values of a, b and c are 2^126, 0 and 0: a is 2^126 above b and b as much below a, and the
// difference of these intensities, 2^127, is no number of 128 bits.
#[test]
fn statements_are_met_by_what_they_say(rt: HostRuntime) -> Result<(), Fail> {
    let table = three_alternatives(rt.alloc())?;
    let function = ValueFunction::new(rt.alloc(), &table, &[0, 1 << 126, 0, 0])?;
    let stronger = [Statement::Stronger(AB, BA, Scope::Whole)];
    assert!(rt; is_met(&table, &function, &stronger));
    let at_least = [Statement::AtLeast(2, 0)];
    assert!(rt; are_valid(&table, &at_least));
    assert!(rt; !is_met(&table, &function, &at_least));
    Ok(())
}
