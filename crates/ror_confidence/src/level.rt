//! The checker of answers over the statements of a level.

ghost use Rattle.std.specs.Prelude.{◌≡◌, ◌≢◌, OnOk, IfOk, IfErr};
ghost use Rattle.ror_text.specs.FirstFault.{IsRefusedBy};
ghost use Rattle.ror_value.specs.Over.{IsLawfulIn, IsAskedIn};
ghost use Rattle.ror_check.specs.Faults.{IsEarlierFault};
ghost use Rattle.ror_confidence.specs.Steps.{IsCheckerOfLevel, IsDueOver};
ghost use Rattle.ror_confidence.specs.Faults.{FailsDue};

use crate::due::{Due, concludes};
use crate::span::LevelAnswer;
use ror_check::{CheckFault, Checker};
use ror_statement::Statement;
use ror_table::Table;
use ror_text::Items;
use std::alloc::{AllocError, Global};

/// The statements of a level, with the checker of answers over them.
#[derive(Drop)]
pub(crate) struct LevelChecker {
    statements: Items<Statement>,
    checker: Checker,
}

impl LevelChecker {
    /// The checker of answers over these statements. Its one error is want of memory.
    pub(crate) fn new(
        alloc: Global,
        table: &Table,
        statements: Items<Statement>,
    ) -> Result<LevelChecker, AllocError>
        requires lawful { IsLawfulIn table.now statements }
        ensures checker { IfOk result (IsCheckerOfLevel table.now) }
        ensures statements { IfOk result (λ level. level.statements ≡ statements) }
    {
        let checker = Checker::new(alloc, table, statements.as_slice())?;
        Ok(LevelChecker {
            statements,
            checker,
        })
    }

    /// Whether the answer concludes what is due, and has its proof over the statements.
    pub(crate) fn check(
        &mut self,
        alloc: Global,
        table: &Table,
        due: &Due,
        x: &LevelAnswer,
    ) -> Result<(), CheckFault>
        requires checker { IsCheckerOfLevel table.now self.old }
        requires named { IsAskedIn table.now due.now.question }
        requires question { x.now.answer.question ≡ due.now.question }
        ensures accepted { OnOk result (IsDueOver table.now self.old.statements due.now x.now) }
        ensures refused { IfErr result (IsRefusedBy
            (FailsDue table.now self.old.statements due.now x.now)
            IsEarlierFault CheckFault.Memory) }
        ensures checker { IsCheckerOfLevel table.now self.new }
        ensures statements { self.new.statements ≡ self.old.statements }
    {
        if !concludes(due.conclusion, &x.answer.verdict) {
            return Err(CheckFault::WrongVerdict);
        }
        let statements = self.statements.as_slice();
        self.checker
            .check(alloc, table, statements, &due.question, &x.answer)
    }
}
