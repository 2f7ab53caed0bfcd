//! The search for a reduct.

ghost use Rattle.std.specs.Prelude.{◌≡◌, ◌≤◌, ◌++◌, length, IfOk, OnOk};
ghost use Rattle.std.specs.List.{list_any};
ghost use Rattle.ror_check.specs.Proof.{is_wide};
ghost use Rattle.ror_reason.specs.SearchSteps.{IsSought, IsPart, AreOthers, AreOthersBefore, IsFound};

use crate::part::numbers_of;
use crate::reducts::{Reason, Reduct};
use crate::sought::{Part, Sought, alone, answered_part, has_answer, only, part_without};
use crate::weights::weighed;
use ror_proof::{Answer, Verdict};
use ror_text::Items;
use ror_warm::Engine;
use std::alloc::{AllocError, Global};

/// What a part comes to without any one of its statements.
#[derive(Drop)]
pub(crate) enum Others {
    /// A smaller part has the answer.
    Smaller(Part),
    /// None has, as far as is known: the answers beside the numbers, in order.
    All(Vec<Answer>),
}

/// The reason of the answer that is sought.
pub(crate) fn found(
    alloc: Global,
    engine: &mut Engine,
    sought: &Sought,
) -> Result<Reason, AllocError>
    requires { IsSought sought.now }
    ensures ok { IfOk result (IsFound sought.now) }
    ensures counted { engine.old.pivots ≤ engine.new.pivots }
{
    let part = first_part(alloc, engine, sought)?;
    let part = without_idle(alloc, engine, sought, part)?;
    smallest(alloc, engine, sought, part)
}

/// The part that the search begins with: of the statements that have weight in the proof, where that has the answer, else the
/// whole list.
fn first_part(alloc: Global, engine: &mut Engine, sought: &Sought) -> Result<Part, AllocError>
    requires { IsSought sought.now }
    ensures ok { IfOk result (IsPart sought.now) }
    ensures counted { engine.old.pivots ≤ engine.new.pivots }
{
    let numbers = weighed(alloc, sought.list, sought.answer)?;
    let part = answered_part(alloc, engine, sought, numbers)?;
    if has_answer(sought, &part) {
        Ok(part)
    } else {
        whole(alloc, sought)
    }
}

/// The whole list as the part.
fn whole(alloc: Global, sought: &Sought) -> Result<Part, AllocError>
    requires { IsSought sought.now }
    ensures { IfOk result (IsPart sought.now) }
{
    let numbers = numbers_of(alloc, sought.list)?;
    let answer = sought.answer.copied(alloc)?;
    let answers = alone(alloc, answer)?;
    Ok(Part { numbers, answers })
}

/// The part without each statement that is found to be spared, from the first on, of what is left.
fn without_idle(
    alloc: Global,
    engine: &mut Engine,
    sought: &Sought,
    part: Part,
) -> Result<Part, AllocError>
    requires sought { IsSought sought.now }
    requires part { IsPart sought.now part }
    ensures ok { IfOk result (IsPart sought.now) }
    ensures counted { engine.old.pivots ≤ engine.new.pivots }
{
    let mut part = part;
    let mut place = 0;
    'places: while place < part.numbers.len() {
        let number = part.numbers[place];
        let smaller = part_without(alloc, engine, sought, &part, number)?;
        if has_answer(sought, &smaller) {
            part = smaller;
        } else {
            place += 1;
        }
    }
    Ok(part)
}

/// The part as the reason, or, where a statement of it is found to be spared still, a smaller one.
fn smallest(
    alloc: Global,
    engine: &mut Engine,
    sought: &Sought,
    part: Part,
) -> Result<Reason, AllocError>
    requires sought { IsSought sought.now }
    requires part { IsPart sought.now part }
    ensures ok { IfOk result (IsFound sought.now) }
    ensures counted { engine.old.pivots ≤ engine.new.pivots }
{
    match try_each(alloc, engine, sought, &part)? {
        Others::Smaller(smaller) => smallest(alloc, engine, sought, smaller),
        Others::All(others) => Ok(reason_with(sought, part, others)),
    }
}

/// What the part comes to without each one of its statements, up to the first that is found to be spared.
fn try_each(
    alloc: Global,
    engine: &mut Engine,
    sought: &Sought,
    part: &Part,
) -> Result<Others, AllocError>
    requires sought { IsSought sought.now }
    requires part { IsPart sought.now part.now }
    ensures ok { IfOk result (AreOthers sought.now part.now.numbers.items) }
    ensures counted { engine.old.pivots ≤ engine.new.pivots }
{
    let mut others = Vec::new(alloc);
    for number in part.numbers.as_slice() {
        let smaller = part_without(alloc, engine, sought, part, *number)?;
        if has_answer(sought, &smaller) {
            return Ok(Others::Smaller(smaller));
        }
        push_answer(&mut others, smaller)?;
    }
    Ok(Others::All(others))
}

/// Adds the answer over the part.
fn push_answer(others: &mut Vec<Answer>, part: Part) -> Result<(), AllocError>
    ensures { OnOk result (others.new.items ≡ others.old.items ++ part.answers.items) }
{
    let mut answers = part.answers;
    others.append(&mut answers)
}

/// The part with the answers beside its numbers: a reduct, where each of them concludes something.
fn reason_with(sought: &Sought, part: Part, others: Vec<Answer>) -> Reason
    requires sought { IsSought sought.now }
    requires part { IsPart sought.now part }
    requires others { AreOthersBefore sought.now part.numbers.items others.items (length part.numbers.items) }
    ensures { IsFound sought.now result }
{
    let wide = is_some_wide(others.as_slice());
    let numbers = Items::from(part.numbers);
    let answer = only(part.answers);
    let others = Items::from(others);
    if wide {
        Reason::Wide {
            numbers,
            answer,
            others,
        }
    } else {
        Reason::Carried(Reduct {
            numbers,
            answer,
            others,
        })
    }
}

/// Whether one of the answers concludes nothing.
fn is_some_wide(answers: &[Answer]) -> bool
    ensures { result ≡ list_any (λ x. is_wide x.verdict) answers.now }
{
    answers
        .iter()
        .any(|x| matches!(x.verdict, Verdict::Wide { .. }))
}
