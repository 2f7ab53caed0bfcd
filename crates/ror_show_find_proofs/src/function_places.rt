//! Which functions of answers are shown.

ghost use Rattle.std.specs.Prelude.{◌≡◌, ◌++◌, option_copied, IfOk, OnOk};
ghost use Rattle.ror_show_find_proofs.specs.Places as spec;

use crate::functions::{base_of, is_same, parts_of, steps_in};
use ror_proof::{Answer, Part};
use ror_system::Numbers;
use std::alloc::{AllocError, Global};

/// Where a function stands among answers.
#[derive(Clone, Copy, Debug)]
pub struct Place {
    /// The answer's place, from 0.
    pub answer: usize,
    /// The part's place among those of the answer, from 0; without one it is the answer's base.
    pub part: Option<usize>,
}

/// The places of those that are shown, in order.
pub fn places(alloc: Global, answers: &[Answer]) -> Result<Vec<Place>, AllocError>
    ensures { IfOk result (λ places. places.items ≡ spec.places answers.now) }
{
    let mut places = Vec::new(alloc);
    for k in 0..answers.len() {
        push_places(&mut places, answers, k)?;
    }
    Ok(places)
}

/// Adds those of the answer at a place.
#[tactic(auto, unfolding(crate::specs::Places::places_of))]
fn push_places(places: &mut Vec<Place>, answers: &[Answer], k: usize) -> Result<(), AllocError>
    ensures { OnOk result (places.new.items ≡ places.old.items ++ spec.places_of answers.now k) }
{
    push_base(places, answers, k)?;
    push_parts(places, answers, k)
}

/// Its base, unless it is that of the answer before.
fn push_base(places: &mut Vec<Place>, answers: &[Answer], k: usize) -> Result<(), AllocError>
    ensures { OnOk result (places.new.items ≡ places.old.items ++ spec.base_place answers.now k) }
{
    if is_new(base_before(answers, k), base_at(answers, k)) {
        places.push(Place {
            answer: k,
            part: None,
        })?;
    }
    Ok(())
}

/// Its parts that are solutions.
fn push_parts(places: &mut Vec<Place>, answers: &[Answer], k: usize) -> Result<(), AllocError>
    ensures { OnOk result (places.new.items ≡ places.old.items ++ spec.part_places answers.now k) }
{
    for j in 0..parts_at(answers, k).len() {
        push_part(places, answers, k, j)?;
    }
    Ok(())
}

fn push_part(
    places: &mut Vec<Place>,
    answers: &[Answer],
    k: usize,
    j: usize,
) -> Result<(), AllocError>
    ensures { OnOk result (places.new.items ≡ places.old.items ++ spec.part_place answers.now k j) }
{
    if part_steps(answers, k, j).is_some() {
        places.push(Place {
            answer: k,
            part: Some(j),
        })?;
    }
    Ok(())
}

/// The solution at a place, where there is one.
pub fn steps_at(answers: &[Answer], place: Place) -> Option<&Numbers>
    ensures { option_copied result ≡ spec.steps_at answers.now place }
{
    match place.part {
        None => base_at(answers, place.answer),
        Some(j) => part_steps(answers, place.answer, j),
    }
}

/// The solution of the base of the answer at a place, where it has one.
fn base_at(answers: &[Answer], k: usize) -> Option<&Numbers>
    ensures { option_copied result ≡ spec.base_at answers.now k }
{
    let answer = answers.get(k)?;
    steps_in(base_of(&answer.verdict)?)
}

/// That of the answer before it.
fn base_before(answers: &[Answer], k: usize) -> Option<&Numbers>
    ensures { option_copied result ≡ spec.base_before answers.now k }
{
    if k == 0 {
        return None;
    }
    base_at(answers, k - 1)
}

/// The parts of the answer at a place.
fn parts_at(answers: &[Answer], k: usize) -> &[Part]
    ensures { result.now ≡ spec.parts_at answers.now k }
{
    match answers.get(k) {
        Some(answer) => parts_of(&answer.verdict),
        None => &[],
    }
}

/// The solution that one of them is, where it is one.
fn part_steps(answers: &[Answer], k: usize, j: usize) -> Option<&Numbers>
    ensures { option_copied result ≡ spec.part_steps answers.now k j }
{
    let part = parts_at(answers, k).get(j)?;
    steps_in(&part.body)
}

/// Whether it is a solution, and not the one before.
fn is_new(before: Option<&Numbers>, base: Option<&Numbers>) -> bool
    ensures { result ≡ spec.is_new (option_copied before.entry) (option_copied base.entry) }
{
    match (before, base) {
        (_, None) => false,
        (None, Some(_)) => true,
        (Some(numbers), Some(steps)) => !is_same(numbers, steps),
    }
}
