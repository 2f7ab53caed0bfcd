//! Which statements carry an answer, and which of them carry each of some pairs, and that the first is always better.

ghost use Rattle.std.specs.Prelude.{◌≡◌, Ok, Err, option_map, IfOk};
ghost use Rattle.std.specs.List.{find};
ghost use Rattle.ror_statement.specs.Statements.{statements_in};
ghost use Rattle.ror_value.specs.Over.{IsAskedIn};
ghost use Rattle.ror_check.specs.Proof.{IsProvedAnswer};
ghost use Rattle.ror_pivot.specs.declared.note.Bits.TheVariants.{B127};
ghost use Rattle.ror_pivot.specs.Answers.{most_of};
ghost use Rattle.ror_given.specs.Answers.{IsVerdictWithin};
ghost use Rattle.ror_reason.specs.Reasons.{IsReasonWithin};
ghost use Rattle.ror_report.specs.Text.{answers_of};
ghost use Rattle.ror_show_ground.specs.Ready.{IsReady};
ghost use Rattle.ror_show_ground.specs.Stood.{stood_of, IsStood};
ghost use Rattle.ror_show_find_reasons.specs.Carrying.{IsReasonFor, HasReason};
ghost use Rattle.ror_show_find_reasons.specs.Pairs as spec;

use crate::pairs::CarriedPair;
use ror_bench::KeptLine;
use ror_pivot::Bits;
use ror_proof::{Answer, Verdict};
use ror_reason::{Reason, reduct_of};
use ror_show_ground::{Stood, stood_at};
use ror_statement::Question;
use ror_table::Table;
use ror_text::Items;
use ror_warm::Engine;
use std::alloc::{AllocError, Global};

/// These pairs, each with what carries it over what stood at a line, where that is kept and they are sought; none else.
///
/// # Errors
///
/// Only want of memory, here and below.
pub(crate) fn find_carried(
    alloc: Global,
    engine: &mut Engine,
    table: &Table,
    sought: bool,
    line: &KeptLine,
    pairs: &[(usize, usize)],
) -> Result<Items<CarriedPair>, AllocError>
    requires { IsReady table.now line.now }
    ensures { IfOk result (spec.AreCarriedWhere sought table.now line.now pairs.now) }
{
    if !sought {
        return Ok(Items::from(Vec::new(alloc)));
    }
    find_over(alloc, engine, table, line, pairs)
}

fn find_over(
    alloc: Global,
    engine: &mut Engine,
    table: &Table,
    line: &KeptLine,
    pairs: &[(usize, usize)],
) -> Result<Items<CarriedPair>, AllocError>
    requires { IsReady table.now line.now }
    ensures { IfOk result (spec.AreCarriedOver table.now (answers_of line.now.block.body) line.now.standing pairs.now) }
{
    match stood_at(table, line) {
        Some(stood) => find_pairs(alloc, engine, &stood, pairs),
        None => Ok(Items::from(Vec::new(alloc))),
    }
}

/// These pairs, in order, each with what carries it.
fn find_pairs(
    alloc: Global,
    engine: &mut Engine,
    stood: &Stood<'_>,
    pairs: &[(usize, usize)],
) -> Result<Items<CarriedPair>, AllocError>
    requires { IsStood (stood_of stood.now) }
    ensures { IfOk result (spec.AreCarriedPairs stood.now.table.now stood.now.list.now stood.now.answers.now pairs.now) }
{
    let mut found = Vec::new(alloc);
    for pair in pairs {
        let carried = find_pair(alloc, engine, stood, *pair)?;
        found.push(carried)?;
    }
    Ok(Items::from(found))
}

fn find_pair(
    alloc: Global,
    engine: &mut Engine,
    stood: &Stood<'_>,
    pair: (usize, usize),
) -> Result<CarriedPair, AllocError>
    requires { IsStood (stood_of stood.now) }
    ensures { IfOk result (spec.IsCarriedPair stood.now.table.now stood.now.list.now stood.now.answers.now pair) }
{
    let reason = carrying_of(alloc, engine, stood, pair)?;
    let better = better_of(alloc, engine, stood, pair);
    with_better(pair, reason, better)
}

/// The pair, where it is found why it is better. What is dropped on some paths alone takes long to prove, so each way takes the reason over.
fn with_better(
    pair: (usize, usize),
    reason: Option<Reason>,
    better: Result<Option<Reason>, AllocError>,
) -> Result<CarriedPair, AllocError>
    ensures { IfOk result (λ f. (f.pair ≡ pair) × (f.reason ≡ reason) × (better ≡ Ok f.better)) }
{
    match better {
        Ok(better) => Ok(CarriedPair {
            pair,
            reason,
            better,
        }),
        Err(error) => stopped(reason, error),
    }
}

fn stopped(reason: Option<Reason>, error: AllocError) -> Result<CarriedPair, AllocError>
    ensures { result ≡ Err error }
{
    drop(reason);
    Err(error)
}

/// Why the one is at least as good as the other by every function; none where no answer says that it is.
fn carrying_of(
    alloc: Global,
    engine: &mut Engine,
    stood: &Stood<'_>,
    arrow: (usize, usize),
) -> Result<Option<Reason>, AllocError>
    requires { IsStood (stood_of stood.now) }
    ensures { IfOk result (spec.IsCarriedBy stood.now.table.now stood.now.list.now stood.now.answers.now arrow) }
{
    match answer_over(stood.answers, arrow) {
        Some(answer) => told_by(alloc, engine, stood, answer),
        None => Ok(None),
    }
}

/// The first answer that says that the one is at least as good as the other by every function.
fn answer_over(answers: &[Answer], arrow: (usize, usize)) -> Option<&Answer>
    ensures { option_map (λ x. x.now) result ≡ find (spec.says_over arrow) answers.now }
{
    answers.iter().find(|answer| says_over(answer, arrow))
}

/// Whether an answer says that the one is at least as good as the other by every function.
fn says_over(answer: &Answer, arrow: (usize, usize)) -> bool
    ensures { result ≡ spec.says_over arrow answer.now }
{
    match (answer.question, &answer.verdict) {
        (Question::Necessary(a, b), Verdict::Yes(_)) => a == arrow.0 && b == arrow.1,
        _ => false,
    }
}

/// Why the one is better than the other by every function; none where no answer says that by no function the other is at least as good.
fn better_of(
    alloc: Global,
    engine: &mut Engine,
    stood: &Stood<'_>,
    arrow: (usize, usize),
) -> Result<Option<Reason>, AllocError>
    requires { IsStood (stood_of stood.now) }
    ensures { IfOk result (spec.IsBetterBy stood.now.table.now stood.now.list.now stood.now.answers.now arrow) }
{
    match answer_back(stood.answers, arrow) {
        Some(answer) => told_by(alloc, engine, stood, answer),
        None => Ok(None),
    }
}

/// The first answer that says that by no function the other is at least as good as the one.
fn answer_back(answers: &[Answer], arrow: (usize, usize)) -> Option<&Answer>
    ensures { option_map (λ x. x.now) result ≡ find (spec.denies_back arrow) answers.now }
{
    answers.iter().find(|answer| denies_back(answer, arrow))
}

fn denies_back(answer: &Answer, arrow: (usize, usize)) -> bool
    ensures { result ≡ spec.denies_back arrow answer.now }
{
    match (answer.question, &answer.verdict) {
        (Question::Possible(b, a), Verdict::No(_)) => b == arrow.1 && a == arrow.0,
        _ => false,
    }
}

/// Why an answer over what stood is what it is, as one of those that are kept.
///
/// The question of the answer is valid for the table, and the answer has its proof. An engine that may have decided others before decides
/// which statements can be spared.
pub(crate) fn told_by(
    alloc: Global,
    engine: &mut Engine,
    stood: &Stood<'_>,
    answer: &Answer,
) -> Result<Option<Reason>, AllocError>
    requires stood { IsStood (stood_of stood.now) }
    requires asked { IsAskedIn stood.now.table.now answer.now.question }
    requires proved { IsProvedAnswer stood.now.table.now (statements_in stood.now.list.now) answer.now.question answer.now }
    ensures { IfOk result (HasReason stood.now.table.now stood.now.list.now answer.now.question answer.now.verdict) }
{
    let reason = reason_over(alloc, engine, stood, answer)?;
    Ok(Some(reason))
}

/// The reason itself.
pub(crate) fn reason_over(
    alloc: Global,
    engine: &mut Engine,
    stood: &Stood<'_>,
    answer: &Answer,
) -> Result<Reason, AllocError>
    requires stood { IsStood (stood_of stood.now) }
    requires asked { IsAskedIn stood.now.table.now answer.now.question }
    requires proved { IsProvedAnswer stood.now.table.now (statements_in stood.now.list.now) answer.now.question answer.now }
    ensures reason { IfOk result (IsReasonFor stood.now.table.now stood.now.list.now answer.now.question answer.now.verdict) }
    ensures narrow { IfOk result (λ reason. IsVerdictWithin (most_of B127) answer.now.verdict → IsReasonWithin (most_of B127) reason) }
{
    reduct_of(alloc, engine, stood.table, stood.list, answer, Bits::B127)
}
