//! Parts of a list, by the numbers of their statements.

ghost use Rattle.std.specs.Prelude.{◌≡◌, ◌↔◌, nat_eq, IsTrue, IfOk};
ghost use Rattle.std.specs.List.Sorted.{IsStrictlyIncreasing};
ghost use Rattle.std.specs.Set.{is_member};
ghost use Rattle.ror_statement.specs.Questions as questions;
ghost use Rattle.ror_statement.specs.Statements.{numbers_in};
ghost use Rattle.ror_check.specs.Repair.{AreNumbersIn};
ghost use Rattle.ror_reason.specs.Reducts as reducts;
ghost use Rattle.ror_reason.specs.Reducts.{Concludes};

use ror_proof::Verdict;
use ror_statement::{Conclusion, Numbered, Property, Question, QuestionKind, Statement, kind_of};
use std::alloc::{AllocError, Global};

/// Whether the numbers are numbers of the list, each once, in increasing order. The list's numbers rise.
pub(crate) fn are_numbers_in(list: &[Numbered], numbers: &[u32]) -> bool
    requires { IsStrictlyIncreasing (numbers_in list.now) }
    ensures { IsTrue result ↔ AreNumbersIn list.now numbers.now }
{
    let [next, rest @ ..] = numbers else {
        return true;
    };
    let [first, later @ ..] = list else {
        return false;
    };
    if first.number == *next {
        are_numbers_in(later, rest)
    } else {
        are_numbers_in(later, numbers)
    }
}

/// Whether the number is one of these.
pub fn is_among(numbers: &[u32], number: u32) -> bool
    ensures { result ≡ is_member nat_eq numbers.now number }
{
    match numbers {
        [] => false,
        [first, rest @ ..] => number == *first || is_among(rest, number),
    }
}

/// The numbers of the list.
pub(crate) fn numbers_of(alloc: Global, list: &[Numbered]) -> Result<Vec<u32>, AllocError>
    ensures { IfOk result (λ numbers. numbers.items ≡ numbers_in list.now) }
{
    list.iter().map(|x| x.number).collect(alloc)
}

/// The part of the list that these numbers name. The one error is want of memory.
pub fn part_of(
    alloc: Global,
    list: &[Numbered],
    numbers: &[u32],
) -> Result<Vec<Numbered>, AllocError>
    ensures { IfOk result (λ part. part.items ≡ reducts.part_of numbers.now list.now) }
{
    list.iter()
        .filter(|x| is_among(numbers, x.number))
        .copied()
        .collect(alloc)
}

/// What the part of the list with these numbers states. The one error is want of memory.
pub fn stated(
    alloc: Global,
    list: &[Numbered],
    numbers: &[u32],
) -> Result<Vec<Statement>, AllocError>
    ensures { IfOk result (λ part. part.items ≡ reducts.stated numbers.now list.now) }
{
    list.iter()
        .filter(|x| is_among(numbers, x.number))
        .map(|x| x.statement)
        .collect(alloc)
}

/// The numbers without one.
pub(crate) fn without(alloc: Global, number: u32, numbers: &[u32]) -> Result<Vec<u32>, AllocError>
    ensures { IfOk result (λ others. others.items ≡ reducts.without number numbers.now) }
{
    numbers
        .iter()
        .filter(|other| number != **other)
        .copied()
        .collect(alloc)
}

/// Whether the verdict has a proof and concludes this.
pub(crate) fn concludes(verdict: &Verdict, conclusion: Conclusion) -> bool
    ensures { IsTrue result ↔ Concludes conclusion verdict.now }
{
    match verdict {
        Verdict::Yes(_) => conclusion == Conclusion::Yes,
        Verdict::No(_) => conclusion == Conclusion::No,
        Verdict::Contradiction(_) => conclusion == Conclusion::Contradiction,
        Verdict::Wide { .. } => false,
    }
}

/// Whether statements carry that a question is answered so.
pub fn rests_on_part(question: &Question, conclusion: Conclusion) -> bool
    ensures { result ≡ reducts.rests_on_part (questions.kind_of question.now) (questions.property_of question.now) conclusion }
{
    match (kind_of(question), question.property(), conclusion) {
        (_, _, Conclusion::Contradiction) => true,
        (QuestionKind::Every, Property::AtLeast(_), Conclusion::Yes) => true,
        (QuestionKind::Any, _, Conclusion::No) => true,
        _ => false,
    }
}
