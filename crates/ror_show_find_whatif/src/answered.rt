//! Answers to a line's questions over another list.

ghost use Rattle.std.specs.Prelude.{◌≡◌, ◌<◌, ◌-◌, ◌^◌, length, map, IfOk};
ghost use Rattle.std.specs.List.{AllByRecursion, AllZip};
ghost use Rattle.ror_pivot.specs.declared.note.Bits.TheVariants.{B127};
ghost use Rattle.ror_pivot.specs.Answers.{most_of};
ghost use Rattle.ror_value.specs.Over.{IsAskedIn, IsLawfulIn};
ghost use Rattle.ror_given.specs.Answers.{IsGiven};
ghost use Rattle.ror_show_ground.specs.Stood.{stood_of, IsStood};
ghost use Rattle.ror_show_find_whatif.specs.Outcomes.{AreAnswersOver};

use ror_check::check_answers;
use ror_pivot::Bits;
use ror_proof::Answer;
use ror_relation::decide_each_warm;
use ror_show_ground::Stood;
use ror_statement::{Question, Statement};
use ror_table::Table;
use ror_warm::Engine;
use std::alloc::{AllocError, Global};

/// The answers over a list to the questions of what was answered, each with its proof or too wide at 127 bits. They are checked.
///
/// # Errors
///
/// Only want of memory, here and below.
pub(crate) fn answers_over(
    alloc: Global,
    engine: &mut Engine,
    stood: &Stood<'_>,
    list: &[Statement],
) -> Result<Vec<Answer>, AllocError>
    requires lawful { IsLawfulIn stood.now.table.now list.now }
    requires stood { IsStood (stood_of stood.now) }
    requires few { length stood.now.answers.now < 2 ^ 32 - 1 }
    ensures { IfOk result (λ answers. AreAnswersOver stood.now.table.now list.now stood.now.answers.now answers.items) }
{
    let questions = questions_of(alloc, stood.answers)?;
    answered(alloc, engine, stood.table, list, questions.as_slice())
}

fn questions_of(alloc: Global, answers: &[Answer]) -> Result<Vec<Question>, AllocError>
    ensures { IfOk result (λ questions. questions.items ≡ map (λ x. x.question) answers.now) }
{
    answers.iter().map(|x| x.question).collect(alloc)
}

/// The answers to these questions, checked.
fn answered(
    alloc: Global,
    engine: &mut Engine,
    table: &Table,
    list: &[Statement],
    questions: &[Question],
) -> Result<Vec<Answer>, AllocError>
    requires lawful { IsLawfulIn table.now list.now }
    requires asked { AllByRecursion (IsAskedIn table.now) questions.now }
    requires few { length questions.now < 2 ^ 32 - 1 }
    ensures { IfOk result (λ answers. AllZip (IsGiven (most_of B127) table.now list.now) questions.now answers.items) }
{
    let answers = decide_each_warm(alloc, engine, table, list, questions, Bits::B127)?;
    // What is decided is accepted: the one fault of the check that is left is want of memory.
    match check_answers(alloc, table, list, answers.as_slice()) {
        Ok(()) => Ok(answers),
        Err(_) => Err(AllocError),
    }
}
