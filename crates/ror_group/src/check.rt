//! The check of the answers and the words of a pair.

ghost use Rattle.std.specs.Prelude.{◌≡◌, ◌≢◌, ℕ, ◌≤◌, ◌<◌, ◌*◌, ◌/◌, ◌%◌, ◌==◌, length, map, OnOk, IfOk, IfErr, if◌then◌else◌};
ghost use Rattle.std.specs.List.{AllByRecursion};
ghost use Rattle.ror_text.specs.FirstFault.{IsRefusedBy};
ghost use Rattle.ror_table.specs.Table.{DecisionTable};
ghost use Rattle.ror_value.specs.Over.{IsLawfulIn};
ghost use Rattle.ror_group.specs.Group.{AreGroupAnswers};
ghost use Rattle.ror_group.specs.Combining.{asked_on, InStep};
ghost use Rattle.ror_group.specs.Proof.{IsJudgeIn, IsProvedPair, IsWideOrProvedFor, lists_of};
ghost use Rattle.ror_group.specs.Faults as faults;
ghost use Rattle.ror_group.specs.Faults.{FailsPair, IsEarlierPairFault, RefusesAnswers};

use crate::fault::GroupFault;
use crate::judge::Judge;
use crate::quartet::{Quartet, combine};
use ror_check::CheckFault;
use ror_proof::Answer;
use ror_statement::{Pair, Question, Statement};
use ror_table::Table;
use ror_text::Items;
use std::alloc::{AllocError, Global};

/// The statements of a judge.
#[derive(Debug, Drop)]
pub struct List {
    pub statements: Items<Statement>,
}

/// Whether the answers are those of the judges on the pair, each with its proof or too wide, and the words follow from them:
/// two answers for each judge in order, that to `Necessary` and then that to `Possible`. Of an answer that is too wide only the
/// question is compared.
///
/// There are at most 64 lists, each of them lawful, and the alternatives are of the table. Of words that are accepted those
/// that are not wide are the group's answers.
///
/// # Errors
///
/// The first test that fails, in the order of `GroupFault`.
pub fn check_pair(
    alloc: Global,
    table: &Table,
    lists: &[List],
    pair: Pair,
    answers: &[Answer],
    q: &Quartet,
) -> Result<(), GroupFault>
    requires few { length lists.now ≤ 64 }
    requires lawful { AllByRecursion (λ list. IsLawfulIn table.now list.statements) lists.now }
    requires first { pair.first < length table.now.alternatives }
    requires second { pair.second < length table.now.alternatives }

    ensures accepted { OnOk result (IsProvedPair table.now
        (map (λ list. list.statements) lists.now) pair.first pair.second answers.now q.now) }
    ensures true_answers { OnOk result (AreGroupAnswers table.now
        (map (λ list. list.statements) lists.now) pair.first pair.second q.now) }

    ensures not_proved { IfErr result (λ e. e ≢ GroupFault.Memory → IsProvedPair table.now
        (map (λ list. list.statements) lists.now) pair.first pair.second answers.now q.now → ⊥) }
    ensures refused { IfErr result (IsRefusedBy (FailsPair table.now
        (map (λ list. list.statements) lists.now) pair.first pair.second answers.now q.now)
        IsEarlierPairFault GroupFault.Memory) }
{
    let mut judges = judges_of(alloc, table, lists)?;
    check_pair_by(alloc, table, judges.as_mut_slice(), pair, answers, q)
}

/// The same by judges that are made already, and that may be asked again whatever comes of it.
///
/// # Errors
///
/// The first test that fails, in the order of `GroupFault`.
pub fn check_pair_by(
    alloc: Global,
    table: &Table,
    judges: &mut [Judge],
    pair: Pair,
    answers: &[Answer],
    q: &Quartet,
) -> Result<(), GroupFault>
    requires few { length judges.old ≤ 64 }
    requires judges { AllByRecursion (IsJudgeIn table.now) judges.old }
    requires first { pair.first < length table.now.alternatives }
    requires second { pair.second < length table.now.alternatives }

    ensures accepted { OnOk result
        (IsProvedPair table.now (lists_of judges.old) pair.first pair.second answers.now q.now) }
    ensures true_answers { OnOk result
        (AreGroupAnswers table.now (lists_of judges.old) pair.first pair.second q.now) }
    ensures not_proved { IfErr result (λ e. e ≢ GroupFault.Memory
        → IsProvedPair table.now (lists_of judges.old) pair.first pair.second answers.now q.now → ⊥) }
    ensures refused { IfErr result (IsRefusedBy
        (FailsPair table.now (lists_of judges.old) pair.first pair.second answers.now q.now)
        IsEarlierPairFault GroupFault.Memory) }

    ensures judges { AllByRecursion (IsJudgeIn table.now) judges.new }
    ensures lists { lists_of judges.new ≡ lists_of judges.old }
{
    if answers.len() != 2 * judges.len() {
        return Err(GroupFault::Count);
    }
    check_each(alloc, table, judges, pair.first, pair.second, answers)?;
    if !q.is_same(combine(answers)) {
        return Err(GroupFault::WrongQuartet);
    }
    Ok(())
}

/// Whether each answer is to its question, and too wide or proved, from the first one on.
fn check_each(
    alloc: Global,
    table: &Table,
    judges: &mut [Judge],
    a: usize,
    b: usize,
    answers: &[Answer],
) -> Result<(), GroupFault>
    requires few { length judges.old ≤ 64 }
    requires count { length answers.now ≡ 2 * length judges.old }
    requires judges { AllByRecursion (IsJudgeIn table.now) judges.old }
    requires first { a < length table.now.alternatives }
    requires second { b < length table.now.alternatives }
    ensures accepted { OnOk result (InStep (IsWideOrProvedFor table.now)
        (asked_on a b (lists_of judges.old)) answers.now) }
    ensures refused { IfErr result
        (RefusesAnswers table.now (asked_on a b (lists_of judges.old)) answers.now) }
    ensures judges { AllByRecursion (IsJudgeIn table.now) judges.new }
    ensures lists { lists_of judges.new ≡ lists_of judges.old }
{
    for (place, answer) in answers.iter().enumerate() {
        let asked = question_at(place, a, b);
        let judge = &mut judges[place / 2];
        if let Err(fault) = judge.check(alloc, table, &asked, answer) {
            return Err(refused_at(place as u32 + 1, fault));
        }
    }
    Ok(())
}

/// The question to which the answer at a place is.
fn question_at(place: usize, a: usize, b: usize) -> Question
    ensures { result ≡ if place % 2 == 0 then Question.Necessary a b else Question.Possible a b }
{
    if place % 2 == 0 {
        Question::Necessary(a, b)
    } else {
        Question::Possible(a, b)
    }
}

/// The fault of answers of which the one at a place is refused; want of memory is no fault of an answer.
fn refused_at(place: u32, fault: CheckFault) -> GroupFault
    ensures { result ≡ faults.refused_at place fault }
{
    match fault {
        CheckFault::Memory => GroupFault::Memory,
        fault => GroupFault::Answer(place, fault),
    }
}

/// A judge for each list.
fn judges_of(alloc: Global, table: &Table, lists: &[List]) -> Result<Vec<Judge>, AllocError>
    requires { AllByRecursion (λ list. IsLawfulIn table.now list.statements) lists.now }
    ensures judges { IfOk result (λ judges. AllByRecursion (IsJudgeIn table.now) judges.items) }
    ensures lists { IfOk result (λ judges. lists_of judges.items
        ≡ map (λ list. list.statements) lists.now) }
{
    let mut judges = Vec::new(alloc);
    'lists: for list in lists {
        judges.push(judge_of(alloc, table, list)?)?;
    }
    Ok(judges)
}

/// The judge with these statements.
fn judge_of(alloc: Global, table: &Table, list: &List) -> Result<Judge, AllocError>
    requires { IsLawfulIn table.now list.now.statements }
    ensures judge { IfOk result (IsJudgeIn table.now) }
    ensures statements { IfOk result (λ judge. judge.statements ≡ list.now.statements) }
{
    let mut statements = Vec::new(alloc);
    statements.extend_from_slice(list.statements.as_slice())?;
    Judge::new(alloc, table, Items::from(statements))
}
