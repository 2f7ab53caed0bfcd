//! The calls that decide questions.

ghost use Rattle.std.specs.Prelude.{◌≤◌, IfOk};
ghost use Rattle.std.specs.List.{AllByRecursion, AllZip};
ghost use Rattle.ror_pivot.specs.Answers.{most_of};
ghost use Rattle.ror_value.specs.Over.{IsLawfulIn, IsAskedIn};
ghost use Rattle.ror_check.specs.Proof.{IsAllowedAnswer, IsWideOrTrue};
ghost use Rattle.ror_given.specs.Notes.{HasNoteAt};
ghost use Rattle.ror_given.specs.Answers.{IsVerdictWithin, IsGiven};

use crate::decided::DecidedList;
use ror_pivot::Bits;
use ror_proof::Answer;
use ror_statement::{Question, Statement};
use ror_table::Table;
use ror_text::Items;
use ror_warm::Engine;
use std::alloc::{AllocError, Global};

/// Answers a question over all value functions that are compatible with the statements. Systems are decided at this width:
/// first the base, that of the statements alone, then those of the question in order, up to the first that settles it. A
/// verdict has a proof that `ror_check` accepts; a system with too wide a number ends the search, and the answer names it
/// and concludes nothing.
///
/// It asks a lawful list and a valid question. Its one error is want of memory.
pub fn decide(
    alloc: Global,
    table: &Table,
    list: &[Statement],
    q: &Question,
    bits: Bits,
) -> Result<Answer, AllocError>
    requires lawful { IsLawfulIn table.now list.now }
    requires asked { IsAskedIn table.now q.now }
    ensures allowed { IfOk result
        (IsAllowedAnswer (HasNoteAt (most_of bits)) table.now list.now q.now) }
    ensures narrow { IfOk result (λ x. IsVerdictWithin (most_of bits) x.verdict) }
    ensures true_answer { IfOk result (λ x. IsWideOrTrue table.now list.now q.now x.verdict) }
{
    decide_warm(alloc, &mut Engine::new(alloc), table, list, q, bits)
}

/// Answers a question as `decide` does, by an engine that may have decided others before.
pub fn decide_warm(
    alloc: Global,
    engine: &mut Engine,
    table: &Table,
    list: &[Statement],
    q: &Question,
    bits: Bits,
) -> Result<Answer, AllocError>
    requires lawful { IsLawfulIn table.now list.now }
    requires asked { IsAskedIn table.now q.now }
    ensures allowed { IfOk result
        (IsAllowedAnswer (HasNoteAt (most_of bits)) table.now list.now q.now) }
    ensures narrow { IfOk result (λ x. IsVerdictWithin (most_of bits) x.verdict) }
    ensures true_answer { IfOk result (λ x. IsWideOrTrue table.now list.now q.now x.verdict) }
    ensures counted { engine.old.pivots ≤ engine.new.pivots }
{
    let list = Items::from(Vec::from_slice(alloc, list)?);
    let decided = DecidedList::new(alloc, engine, table, list, bits)?;
    decided.answer(alloc, engine, table, q, bits)
}

/// Answers each of these questions as `decide` does, in order. The base is made and decided once.
pub fn decide_each(
    alloc: Global,
    table: &Table,
    list: &[Statement],
    questions: &[Question],
    bits: Bits,
) -> Result<Vec<Answer>, AllocError>
    requires lawful { IsLawfulIn table.now list.now }
    requires asked { AllByRecursion (IsAskedIn table.now) questions.now }
    ensures { IfOk result (λ answers.
        AllZip (IsGiven (most_of bits) table.now list.now) questions.now answers.items) }
{
    decide_each_warm(alloc, &mut Engine::new(alloc), table, list, questions, bits)
}

/// Answers each of these questions as `decide_each` does, by an engine that may have decided others before.
pub fn decide_each_warm(
    alloc: Global,
    engine: &mut Engine,
    table: &Table,
    list: &[Statement],
    questions: &[Question],
    bits: Bits,
) -> Result<Vec<Answer>, AllocError>
    requires lawful { IsLawfulIn table.now list.now }
    requires asked { AllByRecursion (IsAskedIn table.now) questions.now }
    ensures given { IfOk result (λ answers.
        AllZip (IsGiven (most_of bits) table.now list.now) questions.now answers.items) }
    ensures counted { engine.old.pivots ≤ engine.new.pivots }
{
    let list = Items::from(Vec::from_slice(alloc, list)?);
    let decided = DecidedList::new(alloc, engine, table, list, bits)?;
    decided.answer_each(alloc, engine, table, questions, bits)
}
