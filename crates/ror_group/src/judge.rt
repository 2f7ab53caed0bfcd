//! A judge whose answers are checked.

ghost use Rattle.std.specs.Prelude.{◌≡◌, ◌≢◌, OnOk, IfOk, IfErr};
ghost use Rattle.ror_text.specs.FirstFault.{IsRefusedBy};
ghost use Rattle.ror_value.specs.Over.{IsLawfulIn, IsAskedIn};
ghost use Rattle.ror_check.specs.Faults.{IsEarlierFault};
ghost use Rattle.ror_group.specs.Proof.{IsJudgeIn, IsWideOrProvedFor};
ghost use Rattle.ror_group.specs.Faults.{FailsUnlessWide};

use ror_check::{CheckFault, Checker};
use ror_proof::{Answer, Verdict};
use ror_statement::{Question, Statement};
use ror_table::Table;
use ror_text::Items;
use std::alloc::{AllocError, Global};

/// A judge's statements, with the checker of answers over them, which is made once.
#[derive(Drop)]
pub struct Judge {
    statements: Items<Statement>,
    checker: Checker,
}

impl Judge {
    /// The judge with these statements, which are lawful. Its one error is want of memory.
    pub fn new(
        alloc: Global,
        table: &Table,
        statements: Items<Statement>,
    ) -> Result<Judge, AllocError>
        requires lawful { IsLawfulIn table.now statements }
        ensures judge { IfOk result (IsJudgeIn table.now) }
        ensures statements { IfOk result (λ judge. judge.statements ≡ statements) }
    {
        let checker = Checker::new(alloc, table, statements.as_slice())?;
        Ok(Judge {
            statements,
            checker,
        })
    }

    /// Whether the answer is to the question, and is too wide or has its proof over the judge's statements.
    pub(crate) fn check(
        &mut self,
        alloc: Global,
        table: &Table,
        asked: &Question,
        x: &Answer,
    ) -> Result<(), CheckFault>
        requires judge { IsJudgeIn table.now self.old }
        requires named { IsAskedIn table.now asked.now }
        ensures accepted { OnOk result (IsWideOrProvedFor table.now
            (record { list = self.old.statements; question = asked.now }) x.now) }
        ensures refused { IfErr result (IsRefusedBy (FailsUnlessWide table.now
            (record { list = self.old.statements; question = asked.now }) x.now)
            IsEarlierFault CheckFault.Memory) }
        ensures judge { IsJudgeIn table.now self.new }
        ensures statements { self.new.statements ≡ self.old.statements }
    {
        if let Verdict::Wide { .. } = x.verdict {
            return check_question(asked, x);
        }
        let statements = self.statements.as_slice();
        self.checker.check(alloc, table, statements, asked, x)
    }
}

/// Whether the answer is to the question.
fn check_question(asked: &Question, x: &Answer) -> Result<(), CheckFault>
    ensures same { OnOk result (x.now.question ≡ asked.now) }
    ensures other { IfErr result (λ e. (e ≡ CheckFault.WrongQuestion)
        × (x.now.question ≢ asked.now)) }
{
    if x.question.is_same(*asked) {
        Ok(())
    } else {
        Err(CheckFault::WrongQuestion)
    }
}
