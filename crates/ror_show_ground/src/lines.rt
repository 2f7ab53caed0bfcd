//! What is asked of kept lines.

ghost use Rattle.std.specs.Prelude.{◌≡◌, ◌++◌, slice_get, IfOk, OnOk};
ghost use Rattle.std.specs.Option.{option_map_or};
ghost use Rattle.ror_statement.specs.Statements.{numbers_in};
ghost use Rattle.ror_check.specs.Proof.{is_wide};
ghost use Rattle.ror_report.specs.Text.{answers_of};
ghost use Rattle.ror_show_ground.specs.Heads.{head_of};
ghost use Rattle.ror_show_ground.specs.Lines as spec;

use crate::ground::Ground;
use crate::heading::Heading;
use ror_bench::KeptLine;
use ror_proof::{Answer, Dropped, Verdict};
use ror_report::Body;
use ror_statement::Numbered;
use std::alloc::{AllocError, Global};

/// The answers to a line, none where it wasn't answered.
pub fn answers_of(body: &Body) -> &[Answer]
    ensures { result.now ≡ answers_of body.now }
{
    match body {
        Body::Answers(answers) => answers.as_slice(),
        _ => &[],
    }
}

/// What a repair dropped, none where the line repairs nothing.
pub fn dropped_of(body: &Body) -> &[Dropped]
    ensures { result.now ≡ spec.dropped_of body.now }
{
    match body {
        Body::Repaired(kept) => kept.dropped.as_slice(),
        _ => &[],
    }
}

/// Whether the line is answered.
pub fn is_answered(body: &Body) -> bool
    ensures { result ≡ spec.is_answered body.now }
{
    matches!(body, Body::Answers(_))
}

/// Whether the line is a repair that was made.
pub fn is_repaired(body: &Body) -> bool
    ensures { result ≡ spec.is_repaired body.now }
{
    matches!(body, Body::Repaired(_))
}

/// Whether nothing is concluded.
pub fn is_wide(verdict: &Verdict) -> bool
    ensures { result ≡ is_wide verdict.now }
{
    matches!(verdict, Verdict::Wide { .. })
}

/// Of how many of the answers there is a proof.
pub fn proved_among(answers: &[Answer]) -> usize
    ensures { result ≡ spec.proved_among answers.now }
{
    answers.iter().filter(|x| !is_wide(&x.verdict)).count()
}

/// The numbers of what stood at a line, none where that isn't kept.
///
/// # Errors
///
/// Only want of memory, here and below.
pub fn stood_numbers(alloc: Global, line: &KeptLine) -> Result<Vec<u32>, AllocError>
    ensures { IfOk result (λ numbers. numbers.items ≡ spec.stood_numbers line.now) }
{
    match &line.standing {
        Some(list) => numbers_in(alloc, list.as_slice()),
        None => Ok(Vec::new(alloc)),
    }
}

fn numbers_in(alloc: Global, list: &[Numbered]) -> Result<Vec<u32>, AllocError>
    ensures { IfOk result (λ numbers. numbers.items ≡ numbers_in list.now) }
{
    let mut numbers = Vec::new(alloc);
    for statement in list {
        numbers.push(statement.number)?;
    }
    Ok(numbers)
}

/// The places of the kept lines that are answered, in order.
pub fn answered_places(alloc: Global, kept: &[KeptLine]) -> Result<Vec<usize>, AllocError>
    ensures { IfOk result (λ places. places.items ≡ spec.answered_places kept.now) }
{
    let mut places = Vec::new(alloc);
    for n in 0..kept.len() {
        push_answered(&mut places, kept, n)?;
    }
    Ok(places)
}

/// Adds a place, if its line is answered.
fn push_answered(places: &mut Vec<usize>, kept: &[KeptLine], n: usize) -> Result<(), AllocError>
    ensures { OnOk result (places.new.items ≡ places.old.items ++ spec.place_if spec.has_answers kept.now n) }
{
    if is_answered_at(kept, n) {
        places.push(n)?;
    }
    Ok(())
}

fn is_answered_at(kept: &[KeptLine], n: usize) -> bool
    ensures { result ≡ spec.is_at spec.has_answers kept.now n }
{
    match kept.get(n) {
        Some(line) => is_answered(&line.block.body),
        None => false,
    }
}

/// What stands at the head of a relation, with the numbers of what stood at the line.
pub fn heading_of<'a>(ground: &Ground<'a>, line: &KeptLine, numbers: &'a [u32]) -> Heading<'a>
    requires { numbers.now ≡ spec.stood_numbers line.now }
    ensures { head_of result ≡ spec.head_of_line ground.now.session.now line.now }
{
    let answers = answers_of(&line.block.body);
    Heading {
        line: line.block.line,
        desk: ground.desk_at(line),
        numbers,
        proved: proved_among(answers),
        answers: answers.len(),
    }
}
