//! The calls that decide questions on classes.

ghost use Rattle.std.specs.Prelude.{◌<◌, ◌≤◌, length, IfOk};
ghost use Rattle.std.specs.List.{AllZip};
ghost use Rattle.ror_pivot.specs.Answers.{most_of};
ghost use Rattle.ror_value.specs.Over.{IsLawfulIn, IsAskedIn};
ghost use Rattle.ror_given.specs.Answers.{IsGiven};
ghost use Rattle.ror_classes.specs.Classes.{IsClassQuestion};
ghost use Rattle.ror_classes.specs.Classes as spec;

use crate::questions::class_questions;
use ror_pivot::Bits;
use ror_proof::Answer;
use ror_relation::{decide_each_warm, decide_warm};
use ror_statement::{Question, Statement};
use ror_table::Table;
use ror_warm::Engine;
use std::alloc::{AllocError, Global};

/// Answers whether an alternative may belong to a class by some value function that is compatible with the statements, or by
/// every one (the possible and the necessary assignment of UTADIS-GMS), as `ror_relation::decide` answers the other questions:
/// a verdict is true and has a proof that `ror_check` accepts, or the answer names the first number that is too wide.
///
/// It asks a lawful list and a valid question on a class. Its one error is want of memory.
pub fn decide_class(
    alloc: Global,
    table: &Table,
    list: &[Statement],
    q: &Question,
    bits: Bits,
) -> Result<Answer, AllocError>
    requires lawful { IsLawfulIn table.now list.now }
    requires asked { IsAskedIn table.now q.now }
    requires on_class { IsClassQuestion q.now }
    ensures { IfOk result (IsGiven (most_of bits) table.now list.now q.now) }
{
    decide_class_warm(alloc, &mut Engine::new(alloc), table, list, q, bits)
}

/// Answers a question on a class as `decide_class` does, by an engine that may have decided others before.
pub fn decide_class_warm(
    alloc: Global,
    engine: &mut Engine,
    table: &Table,
    list: &[Statement],
    q: &Question,
    bits: Bits,
) -> Result<Answer, AllocError>
    requires lawful { IsLawfulIn table.now list.now }
    requires asked { IsAskedIn table.now q.now }
    requires on_class { IsClassQuestion q.now }
    ensures given { IfOk result (IsGiven (most_of bits) table.now list.now q.now) }
    ensures counted { engine.old.pivots ≤ engine.new.pivots }
{
    decide_warm(alloc, engine, table, list, q, bits)
}

/// Answers both questions on each class of the table for one alternative, in the order of `class_questions`. The system of
/// the statements is made and decided once.
///
/// It asks a lawful list and an alternative of the table; without classes there are no answers. Its one error is want of
/// memory.
pub fn decide_classes(
    alloc: Global,
    table: &Table,
    list: &[Statement],
    alternative: usize,
    bits: Bits,
) -> Result<Vec<Answer>, AllocError>
    requires lawful { IsLawfulIn table.now list.now }
    requires alternative { alternative < length table.now.alternatives }
    ensures { IfOk result (λ answers. AllZip (IsGiven (most_of bits) table.now list.now)
        (spec.class_questions alternative table.now.classes) answers.items) }
{
    decide_classes_warm(
        alloc,
        &mut Engine::new(alloc),
        table,
        list,
        alternative,
        bits,
    )
}

/// Answers the questions on the classes of an alternative as `decide_classes` does, by an engine that may have decided others
/// before.
pub fn decide_classes_warm(
    alloc: Global,
    engine: &mut Engine,
    table: &Table,
    list: &[Statement],
    alternative: usize,
    bits: Bits,
) -> Result<Vec<Answer>, AllocError>
    requires lawful { IsLawfulIn table.now list.now }
    requires alternative { alternative < length table.now.alternatives }
    ensures given { IfOk result (λ answers. AllZip (IsGiven (most_of bits) table.now list.now)
        (spec.class_questions alternative table.now.classes) answers.items) }
    ensures counted { engine.old.pivots ≤ engine.new.pivots }
{
    let questions = class_questions(alloc, alternative, table.classes())?;
    decide_each_warm(alloc, engine, table, list, questions.as_slice(), bits)
}
