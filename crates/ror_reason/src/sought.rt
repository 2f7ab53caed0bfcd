//! What is sought, and the step of a search: what is answered without one statement of a part.

ghost use Rattle.std.specs.Prelude.{◌≡◌, ◌≤◌, ◌↔◌, [], ◌∷◌, length, IsTrue, IfOk};
ghost use Rattle.ror_reason.specs.Reducts as reducts;
ghost use Rattle.ror_reason.specs.SearchSteps.{IsSought, IsDecided, IsDecidedPart, HasAnswer};

use crate::part::{concludes, stated, without};
use ror_pivot::Bits;
use ror_proof::Answer;
use ror_relation::DecidedList;
use ror_statement::{Conclusion, Numbered};
use ror_table::Table;
use ror_text::Items;
use ror_warm::Engine;
use std::alloc::{AllocError, Global};

/// The answer over a list whose reduct is sought, at a width.
#[derive(Clone, Copy)]
pub(crate) struct Sought<'a> {
    pub(crate) table: &'a Table,
    pub(crate) list: &'a [Numbered],
    pub(crate) answer: &'a Answer,
    pub(crate) conclusion: Conclusion,
    pub(crate) bits: Bits,
}

/// A part of the list, by the numbers of its statements, and the answer over it: in a list of one, as the proof of a search that
/// holds lists is shorter.
#[derive(Drop)]
pub(crate) struct Part {
    pub(crate) numbers: Vec<u32>,
    pub(crate) answers: Vec<Answer>,
}

/// A list of the answer alone.
pub(crate) fn alone(alloc: Global, answer: Answer) -> Result<Vec<Answer>, AllocError>
    ensures { IfOk result (λ answers. answers.items ≡ answer ∷ []) }
{
    let mut answers = Vec::new(alloc);
    answers.push(answer)?;
    Ok(answers)
}

/// The one answer of a list.
pub(crate) fn only(answers: Vec<Answer>) -> Answer
    requires { length answers.items ≡ 1 }
    ensures { answers.items ≡ result ∷ [] }
{
    let mut answers = answers;
    match answers.pop() {
        Some(answer) => answer,
        None => unreachable!(),
    }
}

/// Whether the part has the answer that is sought.
pub(crate) fn has_answer(sought: &Sought, part: &Part) -> bool
    ensures { IsTrue result ↔ HasAnswer sought.now.conclusion part.now.answers.items }
{
    match part.answers.as_slice() {
        [] => false,
        [x, ..] => concludes(&x.verdict, sought.conclusion),
    }
}

/// The answer over the part with these numbers, whatever that concludes.
fn decide_part(
    alloc: Global,
    engine: &mut Engine,
    sought: &Sought,
    numbers: &[u32],
) -> Result<Answer, AllocError>
    requires { IsSought sought.now }
    ensures ok { IfOk result (IsDecided sought.now numbers.now) }
    ensures counted { engine.old.pivots ≤ engine.new.pivots }
{
    let part = stated(alloc, sought.list, numbers)?;
    let part = Items::from(part);
    let question = &sought.answer.question;
    let decided = DecidedList::new(alloc, engine, sought.table, part, sought.bits)?;
    decided.answer(alloc, engine, sought.table, question, sought.bits)
}

/// The part with these numbers, and the answer over it.
pub(crate) fn answered_part(
    alloc: Global,
    engine: &mut Engine,
    sought: &Sought,
    numbers: Vec<u32>,
) -> Result<Part, AllocError>
    requires { IsSought sought.now }
    ensures ok { IfOk result (IsDecidedPart sought.now numbers.items) }
    ensures counted { engine.old.pivots ≤ engine.new.pivots }
{
    let answer = decide_part(alloc, engine, sought, numbers.as_slice())?;
    let answers = alone(alloc, answer)?;
    Ok(Part { numbers, answers })
}

/// The part without the statement with this number, and the answer over it.
pub(crate) fn part_without(
    alloc: Global,
    engine: &mut Engine,
    sought: &Sought,
    part: &Part,
    number: u32,
) -> Result<Part, AllocError>
    requires { IsSought sought.now }
    ensures ok { IfOk result (IsDecidedPart sought.now
        (reducts.without number part.now.numbers.items)) }
    ensures counted { engine.old.pivots ≤ engine.new.pivots }
{
    let numbers = without(alloc, number, part.numbers.as_slice())?;
    answered_part(alloc, engine, sought, numbers)
}
