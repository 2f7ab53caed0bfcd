//! The check of answers over one list of statements after another.

ghost use Rattle.std.specs.Prelude.{◌≡◌, ◌≢◌, ◌↔◌, ◌<◌, ◌-◌, ◌^◌, length, IsTrue, OnOk, IfOk, IfErr, IfSome};
ghost use Rattle.std.specs.List.{AllByRecursion};
ghost use Rattle.ror_text.specs.FirstFault.{IsRefusedBy};
ghost use Rattle.ror_table.specs.Table.{DecisionTable};
ghost use Rattle.ror_value.specs.Over.{IsLawfulIn, IsAskedIn};
ghost use Rattle.ror_check.specs.Proof.{IsWideOrProved, IsWideOrTrue, base_system};
ghost use Rattle.ror_check.specs.Faults.{FailsAnswers, IsEarlierAnswersFault};
ghost use Rattle.ror_check.specs.Steps.{IsBaseOf};
ghost use Rattle.ror_check.specs.Checkers.{IsCheckerOver, IsOfItsList};

use crate::base::Base;
use crate::check::check_each;
use crate::fault::AnswersFault;
use ror_proof::Answer;
use ror_rows::system_of;
use ror_statement::Statement;
use ror_table::Table;
use std::alloc::{AllocError, Global};

/// Checks answers over one list of statements after another, over one table. Where a list is the last one again, the system of
/// its statements is not made again, and a certificate of it that is still known is not tested again.
#[derive(Drop)]
pub struct AnswersChecker {
    last: Option<Last>,
}

/// The last list, and the base of its statements.
#[derive(Drop)]
pub(crate) struct Last {
    list: Vec<Statement>,
    base: Base,
}

impl AnswersChecker {
    /// The checker that has seen no list, over any table.
    pub fn new() -> AnswersChecker
        ensures { (t : DecisionTable) → IsCheckerOver t result }
    {
        AnswersChecker { last: None }
    }

    /// Whether each answer's proof proves its verdict over these statements, as `check_answers` has it. It checks further lists
    /// over the table whatever it says of this one.
    ///
    /// # Errors
    ///
    /// The first answer that is not accepted, by its place from 1, with the first test that it fails.
    pub fn check(
        &mut self,
        alloc: Global,
        table: &Table,
        list: Vec<Statement>,
        answers: &[Answer],
    ) -> Result<(), AnswersFault>
        requires lawful { IsLawfulIn table.now list.items }
        requires named { AllByRecursion (λ x. IsAskedIn table.now x.question) answers.now }
        requires few { length answers.now < 2 ^ 32 - 1 }
        requires checker { IsCheckerOver table.now self.old }
        ensures accepted { OnOk result (AllByRecursion
            (λ x. IsWideOrProved table.now list.items x.question x.verdict) answers.now) }
        ensures true_answers { OnOk result (AllByRecursion
            (λ x. IsWideOrTrue table.now list.items x.question x.verdict) answers.now) }
        ensures not_proved { IfErr result (λ e. e ≢ AnswersFault.Memory → AllByRecursion
            (λ x. IsWideOrProved table.now list.items x.question x.verdict) answers.now → ⊥) }
        ensures refused { IfErr result (IsRefusedBy
            (FailsAnswers table.now list.items answers.now)
            IsEarlierAnswersFault AnswersFault.Memory) }
        ensures kept { IsCheckerOver table.now self.new }
    {
        let last = self.last.take();
        let mut base = base_of(alloc, table, last, list.as_slice())?;
        let checked = check_each(alloc, table, list.as_slice(), &mut base, answers);
        self.last = Some(Last { list, base });
        checked
    }
}

/// The base of the statements: that of the last list, where this is the same.
fn base_of(
    alloc: Global,
    table: &Table,
    last: Option<Last>,
    list: &[Statement],
) -> Result<Base, AllocError>
    requires lawful { IsLawfulIn table.now list.now }
    requires last { IfSome last (IsOfItsList table.now) }
    ensures { IfOk result (IsBaseOf (base_system table.now list.now)) }
{
    if let Some(last) = last {
        let Last { list: before, base } = last;
        if are_same(before.as_slice(), list) {
            return Ok(base);
        }
    }
    Ok(Base::new(alloc, system_of(alloc, table, list)?))
}

/// Whether the lists are one.
fn are_same(one: &[Statement], other: &[Statement]) -> bool
    ensures { IsTrue result ↔ (one.now ≡ other.now) }
{
    if one.len() != other.len() {
        return false;
    }
    for place in 0..one.len() {
        if !is_same(one[place], other[place]) {
            return false;
        }
    }
    true
}

/// Whether the statements are one.
fn is_same(one: Statement, other: Statement) -> bool
    ensures { IsTrue result ↔ (one ≡ other) }
{
    one == other
}
