//! Which answers to a line are told, and why they are what they are.

ghost use Rattle.std.specs.Prelude.{◌≡◌, ◌<◌, ◌++◌, length, if◌then◌else◌, [], ◌∷◌, IfOk, OnOk};
ghost use Rattle.std.specs.List.{AllByRecursion, AllZip};
ghost use Rattle.ror_statement.specs.Statements.{statements_in};
ghost use Rattle.ror_show_ground.specs.Sound.{IsSoundAnswer};
ghost use Rattle.ror_show_ground.specs.Stood.{stood_of, IsStood};
ghost use Rattle.ror_show_find_reasons.specs.Carrying.{IsTold, is_carried};
ghost use Rattle.ror_show_find_reasons.specs.Lines as spec;

use crate::carrying::told_by;
use crate::lines::{Meant, Told};
use ror_proof::{Answer, Verdict};
use ror_reason::{Reason, rests_on_part};
use ror_show_ground::{Stood, is_wide};
use ror_statement::{Conclusion, Pair, Question};
use ror_text::Items;
use ror_warm::Engine;
use std::alloc::{AllocError, Global};

/// The most answers to a line that are all told, and how many are told where there are more.
pub const MOST_SHOWN: usize = 20;

/// The answers that are told, in order, each with its reason.
///
/// # Errors
///
/// Only want of memory, here and below.
pub(crate) fn find_told(
    alloc: Global,
    engine: &mut Engine,
    stood: &Stood<'_>,
    meant: Meant,
) -> Result<Items<Told>, AllocError>
    requires { IsStood (stood_of stood.now) }
    ensures { IfOk result (spec.AreTold meant stood.now.table.now stood.now.list.now stood.now.answers.now) }
{
    let places = told_places(alloc, meant, stood.answers)?;
    told_at(alloc, engine, stood, places.as_slice())
}

/// Those at these places.
fn told_at(
    alloc: Global,
    engine: &mut Engine,
    stood: &Stood<'_>,
    places: &[usize],
) -> Result<Items<Told>, AllocError>
    requires stood { IsStood (stood_of stood.now) }
    requires within { AllByRecursion (λ n. n < length stood.now.answers.now) places.now }
    ensures { IfOk result (AllZip (spec.IsToldAt stood.now.table.now stood.now.list.now stood.now.answers.now) places.now) }
{
    let mut found = Vec::new(alloc);
    for place in places {
        let told = tell(alloc, engine, stood, *place)?;
        found.push(told)?;
    }
    Ok(Items::from(found))
}

/// The answer at a place, with its reason.
fn tell(
    alloc: Global,
    engine: &mut Engine,
    stood: &Stood<'_>,
    place: usize,
) -> Result<Told, AllocError>
    requires stood { IsStood (stood_of stood.now) }
    requires there { place < length stood.now.answers.now }
    ensures { IfOk result (spec.IsToldAt stood.now.table.now stood.now.list.now stood.now.answers.now place) }
{
    let answer = &stood.answers[place];
    let reason = find_reason(alloc, engine, stood, answer)?;
    Ok(Told {
        answer: place,
        reason,
    })
}

/// Why an answer over what stood is what it is; none where it is too wide.
fn find_reason(
    alloc: Global,
    engine: &mut Engine,
    stood: &Stood<'_>,
    answer: &Answer,
) -> Result<Option<Reason>, AllocError>
    requires stood { IsStood (stood_of stood.now) }
    requires sound { IsSoundAnswer stood.now.table.now (statements_in stood.now.list.now) answer.now }
    ensures { IfOk result (IsTold stood.now.table.now stood.now.list.now answer.now.question answer.now.verdict) }
{
    if is_wide(&answer.verdict) {
        return Ok(None);
    }
    told_by(alloc, engine, stood, answer)
}

/// The places of the answers that are told.
fn told_places(alloc: Global, meant: Meant, answers: &[Answer]) -> Result<Vec<usize>, AllocError>
    ensures { IfOk result (λ places. places.items ≡ spec.told_places meant answers.now) }
{
    let mut places = Vec::new(alloc);
    let mut left = MOST_SHOWN;
    'answers: for k in 0..answers.len() {
        let answer = &answers[k];
        let is_told = is_told(meant, answers.len(), left, answer);
        push_if(&mut places, is_told, k)?;
        left = left_with(left, answer);
    }
    Ok(places)
}

fn push_if(places: &mut Vec<usize>, is_told: bool, k: usize) -> Result<(), AllocError>
    ensures { OnOk result (places.new.items ≡ places.old.items ++ (if is_told then k ∷ [] else [])) }
{
    if is_told {
        places.push(k)?;
    }
    Ok(())
}

/// Whether an answer is told, of so many answers, where so many that statements carry may still be.
fn is_told(meant: Meant, count: usize, left: usize, answer: &Answer) -> bool
    ensures { result ≡ spec.is_told meant count left answer.now }
{
    match meant {
        Meant::All => count <= MOST_SHOWN || (left > 0 && is_carried(answer)),
        Meant::Between(pair) => is_between(pair, &answer.question),
        Meant::Carried => is_carried(answer),
    }
}

/// Whether a question compares these two alternatives.
fn is_between(pair: Pair, question: &Question) -> bool
    ensures { result ≡ spec.is_between pair question.now }
{
    match question {
        Question::Necessary(a, b) | Question::Possible(a, b) => are_of(pair, *a, *b),
        _ => false,
    }
}

fn are_of(pair: Pair, a: usize, b: usize) -> bool
    ensures { result ≡ spec.are_of pair a b }
{
    (a == pair.first && b == pair.second) || (a == pair.second && b == pair.first)
}

/// How many may still be told behind an answer.
fn left_with(left: usize, answer: &Answer) -> usize
    ensures { result ≡ spec.left_with left answer.now }
{
    if is_carried(answer) {
        left.saturating_sub(1)
    } else {
        left
    }
}

/// Whether statements carry an answer.
pub fn is_carried(answer: &Answer) -> bool
    ensures { result ≡ is_carried answer.now }
{
    match &answer.verdict {
        Verdict::Yes(_) => rests_on_part(&answer.question, Conclusion::Yes),
        Verdict::No(_) => rests_on_part(&answer.question, Conclusion::No),
        Verdict::Contradiction(_) => true,
        Verdict::Wide { .. } => false,
    }
}
