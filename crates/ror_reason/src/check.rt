//! The check of a reduct, test by test.

ghost use Rattle.std.specs.Prelude.{◌≡◌, ◌≢◌, ◌<◌, ◌^◌, length, OnOk, IfErr};
ghost use Rattle.std.specs.List.Sorted.{IsStrictlyIncreasing};
ghost use Rattle.ror_text.specs.FirstFault.{IsRefusedBy};
ghost use Rattle.ror_statement.specs.Statements.{numbers_in, statements_in};
ghost use Rattle.ror_value.specs.Over.{IsLawfulIn, IsAskedIn};
ghost use Rattle.ror_value.specs.Meaning.{Answers};
ghost use Rattle.ror_check.specs.Proof.{IsProvedAnswer};
ghost use Rattle.ror_check.specs.Repair.{AreNumbersIn};
ghost use Rattle.ror_reason.specs.Reducts as reducts;
ghost use Rattle.ror_reason.specs.Reducts.{IsReduct, IsProvedReduct, IsProvedOther};
ghost use Rattle.ror_reason.specs.ReductFaults.{FailsReduct, IsEarlierReductFault};
ghost use Rattle.ror_reason.specs.CheckSteps.{RefusesPart, RefusesOther, RefusesOthers, AreProvedBefore};

use crate::fault::ReductFault;
use crate::part::{are_numbers_in, concludes, rests_on_part, stated, without};
use crate::reducts::Reduct;
use ror_check::{CheckFault, Claim, check_answer};
use ror_proof::Answer;
use ror_statement::{Conclusion, Numbered, Question};
use ror_table::Table;
use std::alloc::Global;

/// Whether the reduct is proved: the question's answer is one that statements carry, its numbers name a part of the list, the
/// answer over that has a proof and concludes this, and so has each answer over all but one statement of the part, and concludes
/// something else. Where the conclusion answers the question over the list, the part is a reduct of it.
///
/// The statements are lawful, their numbers rise, and the question is valid for the table.
///
/// # Errors
///
/// The first test that fails, in the order of `ReductFault`.
pub fn check_reduct(
    alloc: Global,
    table: &Table,
    list: &[Numbered],
    question: &Question,
    conclusion: Conclusion,
    x: &Reduct,
) -> Result<(), ReductFault>
    requires lawful { IsLawfulIn table.now (statements_in list.now) }
    requires rising { IsStrictlyIncreasing (numbers_in list.now) }
    requires asked { IsAskedIn table.now question.now }

    ensures accepted { OnOk result (IsProvedReduct table.now list.now question.now conclusion x.now) }
    ensures true_reduct { OnOk result
        (Answers table.now (statements_in list.now) question.now conclusion
        → IsReduct table.now list.now question.now conclusion x.now.numbers) }

    // Nothing that is proved is refused, and a refusal names the first test that fails.
    ensures not_proved { IfErr result (λ e. e ≢ ReductFault.Memory
        → IsProvedReduct table.now list.now question.now conclusion x.now → ⊥) }
    ensures refused { IfErr result (IsRefusedBy
        (FailsReduct table.now list.now question.now conclusion x.now)
        IsEarlierReductFault ReductFault.Memory) }
{
    let numbers = x.numbers.as_slice();
    let others = x.others.as_slice();
    if !rests_on_part(question, conclusion) {
        return Err(ReductFault::NotCarried);
    }
    if !are_numbers_in(list, numbers) {
        return Err(ReductFault::WrongNumbers);
    }
    if others.len() != numbers.len() {
        return Err(ReductFault::Count);
    }
    if !concludes(&x.answer.verdict, conclusion) {
        return Err(ReductFault::AnotherAnswer);
    }
    check_part(alloc, table, list, question, numbers, &x.answer)?;
    let claim = Claim {
        question: *question,
        conclusion,
    };
    check_others(alloc, table, list, claim, numbers, others)
}

/// Checks the answer over the part with these numbers.
fn check_part(
    alloc: Global,
    table: &Table,
    list: &[Numbered],
    question: &Question,
    numbers: &[u32],
    answer: &Answer,
) -> Result<(), ReductFault>
    requires lawful { IsLawfulIn table.now (statements_in list.now) }
    requires asked { IsAskedIn table.now question.now }
    ensures ok { OnOk result
        (IsProvedAnswer table.now (reducts.stated numbers.now list.now) question.now answer.now) }
    ensures err { IfErr result
        (RefusesPart table.now list.now question.now numbers.now answer.now) }
{
    let part = stated(alloc, list, numbers)?;
    match check_answer(alloc, table, part.as_slice(), question, answer) {
        Ok(()) => Ok(()),
        Err(CheckFault::Memory) => Err(ReductFault::Memory),
        Err(fault) => Err(ReductFault::Answer(fault)),
    }
}

/// Checks the answer beside each number, from the first on.
fn check_others(
    alloc: Global,
    table: &Table,
    list: &[Numbered],
    claim: Claim,
    numbers: &[u32],
    others: &[Answer],
) -> Result<(), ReductFault>
    requires lawful { IsLawfulIn table.now (statements_in list.now) }
    requires asked { IsAskedIn table.now claim.question }
    requires as_many { length others.now ≡ length numbers.now }
    requires few { length numbers.now < 2 ^ 32 }
    ensures ok { OnOk result (AreProvedBefore table.now list.now claim.question claim.conclusion
        numbers.now others.now (length numbers.now)) }
    ensures err { IfErr result (RefusesOthers table.now list.now claim.question claim.conclusion
        numbers.now others.now) }
{
    for (place, number) in numbers.iter().enumerate() {
        let answer = &others[place];
        let other = Other {
            at: place as u32 + 1,
            number: *number,
            answer,
        };
        check_other(alloc, table, list, claim, numbers, other)?;
    }
    Ok(())
}

/// An answer at a place, counted from 1, and the number that it stands beside.
#[derive(Clone, Copy)]
struct Other<'a> {
    at: u32,
    number: u32,
    answer: &'a Answer,
}

/// Checks the answer at a place, over all but the number that it stands beside.
fn check_other(
    alloc: Global,
    table: &Table,
    list: &[Numbered],
    claim: Claim,
    numbers: &[u32],
    other: Other,
) -> Result<(), ReductFault>
    requires lawful { IsLawfulIn table.now (statements_in list.now) }
    requires asked { IsAskedIn table.now claim.question }
    ensures ok { OnOk result (IsProvedOther table.now list.now claim.question claim.conclusion
        numbers.now other.entry.number other.entry.answer.now) }
    ensures err { IfErr result (RefusesOther table.now list.now claim.question claim.conclusion
        numbers.now other.entry.at other.entry.number other.entry.answer.now) }
{
    if concludes(&other.answer.verdict, claim.conclusion) {
        return Err(ReductFault::SameAnswer(other.at));
    }
    let rest = without(alloc, other.number, numbers)?;
    let part = stated(alloc, list, rest.as_slice())?;
    let statements = part.as_slice();
    match check_answer(alloc, table, statements, &claim.question, other.answer) {
        Ok(()) => Ok(()),
        Err(CheckFault::Memory) => Err(ReductFault::Memory),
        Err(fault) => Err(ReductFault::Other(other.at, fault)),
    }
}
