//! What becomes of the answers that are told, without each statement of their reasons.

ghost use Rattle.std.specs.Prelude.{◌≡◌, [], IfOk};
ghost use Rattle.ror_statement.specs.Statements.{statements_in};
ghost use Rattle.ror_report.specs.Text.{answers_of};
ghost use Rattle.ror_show_ground.specs.Grounds.{ground_of, IsJudged};
ghost use Rattle.ror_show_ground.specs.Ready.{IsReady};
ghost use Rattle.ror_show_ground.specs.Sound.{IsSoundAnswer};
ghost use Rattle.ror_show_ground.specs.Stood.{stood_of, IsStood};
ghost use Rattle.ror_show_find_core.specs.Cores as spec;

use crate::outcomes::{CoreFound, LineCores};
use crate::withdrawing::find_withdrawals;
use ror_bench::KeptLine;
use ror_check::Claim;
use ror_proof::{Answer, Verdict};
use ror_reason::{Reason, rests_on_part};
use ror_show_find_reasons::{LineFound, Told};
use ror_show_ground::{Ground, Stood, stood_at};
use ror_statement::{Conclusion, Question};
use ror_table::Table;
use ror_text::Items;
use ror_warm::Engine;
use std::alloc::{AllocError, Global};

/// What becomes of each answer that is told of these lines, without each statement of its reason. One engine decides for all.
///
/// # Errors
///
/// Only want of memory, here and below.
pub fn find_cores(
    alloc: Global,
    ground: &Ground<'_>,
    lines: &[LineFound],
) -> Result<Items<LineCores>, AllocError>
    requires { IsJudged (ground_of ground.now) }
    ensures { IfOk result (spec.AreCoresFound (ground_of ground.now) lines.now) }
{
    let mut engine = Engine::new(alloc);
    let mut found = Vec::new(alloc);
    'lines: for k in 0..lines.len() {
        let line = &lines[k];
        let cores = find_line(alloc, &mut engine, ground, line)?;
        found.push(cores)?;
    }
    Ok(Items::from(found))
}

/// That of the answers that are told of a line.
fn find_line(
    alloc: Global,
    engine: &mut Engine,
    ground: &Ground<'_>,
    line: &LineFound,
) -> Result<LineCores, AllocError>
    requires { IsJudged (ground_of ground.now) }
    ensures { IfOk result (spec.AreLineCores (ground_of ground.now) line.now) }
{
    match ground.kept.get(line.place) {
        Some(kept) => {
            let cores = find_over(alloc, engine, ground.table, kept, line.told.as_slice())?;
            Ok(LineCores { cores })
        }
        None => Ok(no_cores(alloc)),
    }
}

fn no_cores(alloc: Global) -> LineCores
    ensures { result.cores ≡ [] }
{
    LineCores {
        cores: Items::from(Vec::new(alloc)),
    }
}

/// The same, by what stood at the line, where that is kept.
fn find_over(
    alloc: Global,
    engine: &mut Engine,
    table: &Table,
    kept: &KeptLine,
    told: &[Told],
) -> Result<Items<CoreFound>, AllocError>
    requires { IsReady table.now kept.now }
    ensures { IfOk result (spec.AreCoresOver table.now (answers_of kept.now.block.body) kept.now.standing told.now) }
{
    match stood_at(table, kept) {
        Some(stood) => find_each(alloc, engine, &stood, told),
        None => Ok(Items::from(Vec::new(alloc))),
    }
}

/// That of each answer that is told, in order.
fn find_each(
    alloc: Global,
    engine: &mut Engine,
    stood: &Stood<'_>,
    told: &[Told],
) -> Result<Items<CoreFound>, AllocError>
    requires { IsStood (stood_of stood.now) }
    ensures { IfOk result (spec.AreCores stood.now.table.now stood.now.list.now stood.now.answers.now told.now) }
{
    let mut found = Vec::new(alloc);
    'told: for k in 0..told.len() {
        let one = &told[k];
        let core = find_core(alloc, engine, stood, one)?;
        found.push(core)?;
    }
    Ok(Items::from(found))
}

/// That of an answer that is told.
fn find_core(
    alloc: Global,
    engine: &mut Engine,
    stood: &Stood<'_>,
    told: &Told,
) -> Result<CoreFound, AllocError>
    requires { IsStood (stood_of stood.now) }
    ensures { IfOk result (spec.IsCoreAt stood.now.table.now stood.now.list.now stood.now.answers.now told.now) }
{
    match stood.answers.get(told.answer) {
        Some(answer) => core_of(alloc, engine, stood, answer, named_by(&told.reason)),
        None => Ok(no_core(alloc)),
    }
}

/// That of an answer, without each of these statements; nothing where no statements carry it.
fn core_of(
    alloc: Global,
    engine: &mut Engine,
    stood: &Stood<'_>,
    answer: &Answer,
    numbers: &[u32],
) -> Result<CoreFound, AllocError>
    requires stood { IsStood (stood_of stood.now) }
    requires sound { IsSoundAnswer stood.now.table.now (statements_in stood.now.list.now) answer.now }
    ensures { IfOk result (spec.IsCoreOf stood.now.table.now stood.now.list.now answer.now.question numbers.now
        (spec.carried_conclusion answer.now.question answer.now.verdict)) }
{
    match carried_conclusion(answer) {
        Some(conclusion) => {
            let claim = Claim {
                question: answer.question,
                conclusion,
            };
            let withdrawals = find_withdrawals(alloc, engine, stood, claim, numbers)?;
            Ok(CoreFound { withdrawals })
        }
        None => Ok(no_core(alloc)),
    }
}

fn no_core(alloc: Global) -> CoreFound
    ensures { result.withdrawals ≡ [] }
{
    CoreFound {
        withdrawals: Items::from(Vec::new(alloc)),
    }
}

/// What an answer concludes, where statements carry that.
fn carried_conclusion(answer: &Answer) -> Option<Conclusion>
    ensures { result ≡ spec.carried_conclusion answer.now.question answer.now.verdict }
{
    match &answer.verdict {
        Verdict::Yes(_) => carried_as(&answer.question, Conclusion::Yes),
        Verdict::No(_) => carried_as(&answer.question, Conclusion::No),
        Verdict::Contradiction(_) => carried_as(&answer.question, Conclusion::Contradiction),
        Verdict::Wide { .. } => None,
    }
}

fn carried_as(question: &Question, conclusion: Conclusion) -> Option<Conclusion>
    ensures { result ≡ spec.carried_as question.now conclusion }
{
    if rests_on_part(question, conclusion) {
        Some(conclusion)
    } else {
        None
    }
}

/// The numbers of the statements that a reason names.
fn named_by(told: &Option<Reason>) -> &[u32]
    ensures { result.now ≡ spec.named_by told.now }
{
    match told {
        Some(reason) => named_in(reason),
        None => &[],
    }
}

fn named_in(reason: &Reason) -> &[u32]
    ensures { result.now ≡ spec.named_in reason.now }
{
    match reason {
        Reason::Carried(reduct) => reduct.numbers.as_slice(),
        Reason::Wide { numbers, .. } => numbers.as_slice(),
        _ => &[],
    }
}
