//! Which statements settle the bounds of an alternative.

ghost use Rattle.std.specs.Prelude.{◌≡◌, Ok, Err, IfOk};
ghost use Rattle.std.specs.Option.{option_map};
ghost use Rattle.std.specs.List.{find};
ghost use Rattle.ror_statement.specs.Statements.{statements_in};
ghost use Rattle.ror_value.specs.Over.{IsAskedIn};
ghost use Rattle.ror_check.specs.Proof.{IsProvedAnswer};
ghost use Rattle.ror_report.specs.Text.{answers_of};
ghost use Rattle.ror_show_ground.specs.Ready.{IsReady};
ghost use Rattle.ror_show_find_classes.specs.Signs.{alternative_of};
ghost use Rattle.ror_show_ground.specs.Stood.{stood_of, IsStood};
ghost use Rattle.ror_show_find_reasons.specs.Bounds as spec;

use crate::bounds::{Bound, Bounds, Side, end_of, is_beyond};
use crate::carrying::reason_over;
use ror_bench::KeptLine;
use ror_proof::{Answer, Verdict};
use ror_show_find_classes::alternative_of;
use ror_show_ground::{Stood, stood_at};
use ror_statement::Question;
use ror_table::Table;
use ror_warm::Engine;
use std::alloc::{AllocError, Global};

/// Both bounds by the answers to a line, over what stood there, where that is kept and they are sought; none else.
///
/// # Errors
///
/// Only want of memory, here and below.
pub(crate) fn find_bounds(
    alloc: Global,
    engine: &mut Engine,
    table: &Table,
    sought: bool,
    line: &KeptLine,
) -> Result<Bounds, AllocError>
    requires { IsReady table.now line.now }
    ensures { IfOk result (spec.AreBoundsWhere sought table.now line.now) }
{
    if !sought {
        return Ok(no_bounds());
    }
    bounds_over(alloc, engine, table, line)
}

fn bounds_over(
    alloc: Global,
    engine: &mut Engine,
    table: &Table,
    line: &KeptLine,
) -> Result<Bounds, AllocError>
    requires { IsReady table.now line.now }
    ensures { IfOk result (spec.AreBoundsOver table.now (answers_of line.now.block.body) line.now.standing) }
{
    match stood_at(table, line) {
        Some(stood) => find_both(alloc, engine, &stood),
        None => Ok(no_bounds()),
    }
}

fn no_bounds() -> Bounds
    ensures { result ≡ spec.no_bounds }
{
    Bounds {
        below: None,
        above: None,
    }
}

/// Both bounds, first the one below.
fn find_both(alloc: Global, engine: &mut Engine, stood: &Stood<'_>) -> Result<Bounds, AllocError>
    requires { IsStood (stood_of stood.now) }
    ensures { IfOk result (spec.AreBounds stood.now.table.now stood.now.list.now stood.now.answers.now) }
{
    let below = find_bound(alloc, engine, stood, Side::Below)?;
    let above = find_bound(alloc, engine, stood, Side::Above);
    both_of(below, above)
}

/// Both, where the one above is found. What is dropped on some paths alone takes long to prove, so each way takes the one below over.
fn both_of(
    below: Option<Bound>,
    above: Result<Option<Bound>, AllocError>,
) -> Result<Bounds, AllocError>
    ensures { IfOk result (λ bounds. (bounds.below ≡ below) × (above ≡ Ok bounds.above)) }
{
    match above {
        Ok(above) => Ok(Bounds { below, above }),
        Err(error) => stopped(below, error),
    }
}

fn stopped(below: Option<Bound>, error: AllocError) -> Result<Bounds, AllocError>
    ensures { result ≡ Err error }
{
    drop(below);
    Err(error)
}

/// The bound on a side, none where no answer excludes a class there.
fn find_bound(
    alloc: Global,
    engine: &mut Engine,
    stood: &Stood<'_>,
    side: Side,
) -> Result<Option<Bound>, AllocError>
    requires { IsStood (stood_of stood.now) }
    ensures { IfOk result (spec.IsBound side stood.now.table.now stood.now.list.now stood.now.answers.now) }
{
    let end = end_of(side, stood.answers, stood.table.classes());
    bound_from(alloc, engine, stood, side, end)
}

/// The same, where the class at the end is this.
fn bound_from(
    alloc: Global,
    engine: &mut Engine,
    stood: &Stood<'_>,
    side: Side,
    end: u32,
) -> Result<Option<Bound>, AllocError>
    requires { IsStood (stood_of stood.now) }
    ensures { IfOk result (spec.IsBoundFrom side end stood.now.table.now stood.now.list.now stood.now.answers.now) }
{
    match excluding(stood.answers, side, end) {
        Some(answer) => bound_by(alloc, engine, stood, end, answer),
        None => Ok(None),
    }
}

/// The first answer that excludes the class beyond the end.
fn excluding(answers: &[Answer], side: Side, end: u32) -> Option<&Answer>
    ensures { option_map (λ x. x.now) result ≡ find (spec.excludes side end (alternative_of answers.now)) answers.now }
{
    let a = alternative_of(answers);
    answers.iter().find(|answer| excludes(side, end, a, answer))
}

/// Whether the answer says that by no function the alternative may belong to the class beyond the end.
fn excludes(side: Side, end: u32, a: usize, answer: &Answer) -> bool
    ensures { result ≡ spec.excludes side end a answer.now }
{
    match (answer.question, &answer.verdict) {
        (Question::PossibleClass(x, class), Verdict::No(_)) => {
            x == a && is_beyond(side, end, class)
        }
        _ => false,
    }
}

/// The bound that an answer settles.
fn bound_by(
    alloc: Global,
    engine: &mut Engine,
    stood: &Stood<'_>,
    end: u32,
    answer: &Answer,
) -> Result<Option<Bound>, AllocError>
    requires stood { IsStood (stood_of stood.now) }
    requires asked { IsAskedIn stood.now.table.now answer.now.question }
    requires proved { IsProvedAnswer stood.now.table.now (statements_in stood.now.list.now) answer.now.question answer.now }
    ensures { IfOk result (spec.IsBoundBy end stood.now.table.now stood.now.list.now answer.now) }
{
    let reason = reason_over(alloc, engine, stood, answer)?;
    Ok(Some(Bound { class: end, reason }))
}
