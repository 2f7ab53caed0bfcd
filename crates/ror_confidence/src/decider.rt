//! Whatever decides questions.

ghost use Rattle.std.specs.Prelude.{◌≡◌, false, IfOk};
ghost use Rattle.ror_pivot.specs.Answers.{most_of};
ghost use Rattle.ror_value.specs.Over.{IsLawfulIn, IsAskedIn};
ghost use Rattle.ror_given.specs.Answers.{IsGiven};
ghost use Rattle.ror_confidence.specs.Finding.{names_class};

use ror_pivot::Bits;
use ror_proof::Answer;
use ror_statement::{Question, Statement};
use ror_table::Table;
use std::alloc::{AllocError, Global};

/// What answers a question over all value functions that are compatible with statements, with a proof of which no number passes
/// the width, or by naming the first number that does.
pub trait Decider {
    /// Answers a question that names no class. The statements are lawful and the question is valid for the table. The one
    /// error is want of memory.
    fn decide(
        &mut self,
        alloc: Global,
        table: &Table,
        list: &[Statement],
        q: &Question,
        bits: Bits,
    ) -> Result<Answer, AllocError>
        requires lawful { IsLawfulIn table.now list.now }
        requires asked { IsAskedIn table.now q.now }
        requires no_class { names_class q.now ≡ false }
        ensures given { IfOk result (IsGiven (most_of bits) table.now list.now q.now) };
}
