//! The check of one answer, and of one after the other over the same statements.

ghost use Rattle.std.specs.Prelude.{◌≢◌, OnOk, IfOk, IfErr};
ghost use Rattle.ror_text.specs.FirstFault.{IsRefusedBy};
ghost use Rattle.ror_value.specs.Over.{IsLawfulIn, IsAskedIn};
ghost use Rattle.ror_check.specs.Proof.{IsProvedAnswer, IsTrueVerdict};
ghost use Rattle.ror_check.specs.Faults.{FailsAnswer, IsEarlierFault};
ghost use Rattle.ror_check.specs.Checkers.{IsCheckerOf};

use crate::base::Base;
use crate::check::check_verdict;
use crate::fault::CheckFault;
use ror_proof::Answer;
use ror_rows::system_of;
use ror_statement::{Question, Statement};
use ror_table::Table;
use std::alloc::{AllocError, Global};

/// Whether the answer's proof proves its verdict on the question, over the statements. The base is a solution of the
/// system of the statements alone or, where the verdict is a contradiction, multipliers that refute it. The parts are
/// certificates of the question's systems: on every compatible function multipliers of each for yes, a solution of one
/// for no; on some compatible function a solution of its one system for yes, multipliers for no.
///
/// The statements are lawful and the question is valid for the table. The verdict of an answer that is accepted
/// answers the question.
///
/// # Errors
///
/// The first test that fails, in the order of `CheckFault`.
pub fn check_answer(
    alloc: Global,
    table: &Table,
    list: &[Statement],
    asked: &Question,
    x: &Answer,
) -> Result<(), CheckFault>
    requires lawful { IsLawfulIn table.now list.now }
    requires named { IsAskedIn table.now asked.now }

    ensures accepted { OnOk result (IsProvedAnswer table.now list.now asked.now x.now) }
    ensures true_answer { OnOk result (IsTrueVerdict table.now list.now asked.now x.now.verdict) }

    // Nothing that is proved is refused, and a refusal names the first test that fails.
    ensures not_proved { IfErr result (λ e. e ≢ CheckFault.Memory
        → IsProvedAnswer table.now list.now asked.now x.now → ⊥) }
    ensures refused { IfErr result (IsRefusedBy (FailsAnswer table.now list.now asked.now x.now)
        IsEarlierFault CheckFault.Memory) }
{
    let mut checker = Checker::new(alloc, table, list)?;
    checker.check(alloc, table, list, asked, x)
}

/// Checks answers over one list, one after the other: the system of its statements is made once, and a certificate of it that
/// is still known from an answer before is not tested again.
#[derive(Drop)]
pub struct Checker {
    base: Base,
}

impl Checker {
    /// The checker of answers over these statements, which are lawful. Its one error is want of memory.
    pub fn new(alloc: Global, table: &Table, list: &[Statement]) -> Result<Checker, AllocError>
        requires lawful { IsLawfulIn table.now list.now }
        ensures { IfOk result (IsCheckerOf table.now list.now) }
    {
        Ok(Checker {
            base: Base::new(alloc, system_of(alloc, table, list)?),
        })
    }

    /// Whether the answer's proof proves its verdict on the question, as `check_answer` has it, over the statements that the
    /// checker was made for. It checks further answers over them whatever it says of this one.
    ///
    /// # Errors
    ///
    /// The first test that fails, in the order of `CheckFault`.
    pub fn check(
        &mut self,
        alloc: Global,
        table: &Table,
        list: &[Statement],
        asked: &Question,
        x: &Answer,
    ) -> Result<(), CheckFault>
        requires lawful { IsLawfulIn table.now list.now }
        requires named { IsAskedIn table.now asked.now }
        requires checker { IsCheckerOf table.now list.now self.old }
        ensures accepted { OnOk result (IsProvedAnswer table.now list.now asked.now x.now) }
        ensures true_answer { OnOk result
            (IsTrueVerdict table.now list.now asked.now x.now.verdict) }
        ensures not_proved { IfErr result (λ e. e ≢ CheckFault.Memory
            → IsProvedAnswer table.now list.now asked.now x.now → ⊥) }
        ensures refused { IfErr result
            (IsRefusedBy (FailsAnswer table.now list.now asked.now x.now)
            IsEarlierFault CheckFault.Memory) }
        ensures kept { IsCheckerOf table.now list.now self.new }
    {
        if !x.question.is_same(*asked) {
            return Err(CheckFault::WrongQuestion);
        }
        check_verdict(alloc, table, list, &mut self.base, asked, &x.verdict)
    }
}
