//! What becomes of one answer, without each of some statements.

ghost use Rattle.std.specs.Prelude.{◌≡◌, ◌↔◌, option_map, IsTrue, IfOk};
ghost use Rattle.std.specs.List.{AllByRecursion, find};
ghost use Rattle.std.specs.List.Sorted.{IsStrictlyIncreasing};
ghost use Rattle.ror_statement.specs.Statements.{numbers_in, statements_in};
ghost use Rattle.ror_value.specs.Over.{IsLawfulIn};
ghost use Rattle.ror_pivot.specs.declared.note.Bits.TheVariants.{B127};
ghost use Rattle.ror_pivot.specs.Answers.{most_of};
ghost use Rattle.ror_given.specs.Notes.{HasNoteAt};
ghost use Rattle.ror_check.specs.Proof.{IsAllowedAnswer, IsProvedAnswer};
ghost use Rattle.ror_reason.specs.Reducts.{Concludes};
ghost use Rattle.ror_show_ground.specs.Stood.{stood_of, IsStood};
ghost use Rattle.ror_show_find_core.specs.Withdrawals as spec;

use crate::outcomes::{Outcome, Withdrawal};
use ror_check::Claim;
use ror_pivot::Bits;
use ror_proof::{Answer, Verdict};
use ror_reason::{Reason, is_among, reduct_of};
use ror_relation::decide_warm;
use ror_show_ground::{Stood, is_wide};
use ror_statement::{Conclusion, Numbered, statements_in};
use ror_table::Table;
use ror_text::Items;
use ror_warm::Engine;
use std::alloc::{AllocError, Global};

/// What becomes of the answer that is claimed, without each of these statements, in order.
///
/// The answer over what stood is that, and statements carry it.
///
/// # Errors
///
/// Only want of memory, here and below.
pub(crate) fn find_withdrawals(
    alloc: Global,
    engine: &mut Engine,
    stood: &Stood<'_>,
    claim: Claim,
    numbers: &[u32],
) -> Result<Items<Withdrawal>, AllocError>
    requires stood { IsStood (stood_of stood.now) }
    requires carried { spec.IsCarriedAnswer stood.now.table.now stood.now.list.now claim.question claim.conclusion }
    ensures { IfOk result (spec.AreWithdrawals stood.now.table.now stood.now.list.now claim.question claim.conclusion numbers.now) }
{
    let mut found = Vec::new(alloc);
    for number in numbers {
        let withdrawal = withdraw(alloc, engine, stood, claim, found.as_slice(), *number)?;
        found.push(withdrawal)?;
    }
    Ok(Items::from(found))
}

/// What becomes of it without this statement, where that is known of some others.
fn withdraw(
    alloc: Global,
    engine: &mut Engine,
    stood: &Stood<'_>,
    claim: Claim,
    before: &[Withdrawal],
    number: u32,
) -> Result<Withdrawal, AllocError>
    requires stood { IsStood (stood_of stood.now) }
    requires carried { spec.IsCarriedAnswer stood.now.table.now stood.now.list.now claim.question claim.conclusion }
    requires before { AllByRecursion (spec.IsFoundOutcome stood.now.table.now stood.now.list.now claim.question claim.conclusion) before.now }
    ensures { IfOk result (spec.IsWithdrawal stood.now.table.now stood.now.list.now claim.question claim.conclusion number) }
{
    match lacking(before, number) {
        Some(other) => {
            let outcome = same_outcome(alloc, other)?;
            Ok(Withdrawal { number, outcome })
        }
        None => {
            let outcome = decide_without(alloc, engine, stood, claim, number)?;
            Ok(Withdrawal { number, outcome })
        }
    }
}

/// The first of these by which the answer stays without another statement, and stays without this one too.
fn lacking(before: &[Withdrawal], number: u32) -> Option<&Withdrawal>
    ensures { option_map (λ x. x.now) result ≡ find (spec.lacks number) before.now }
{
    before.iter().find(|other| lacks(other, number))
}

fn lacks(other: &Withdrawal, number: u32) -> bool
    ensures { result ≡ spec.lacks number other.now }
{
    match &other.outcome {
        Outcome::Stays(numbers) => !is_among(numbers.as_slice(), number),
        _ => false,
    }
}

/// The outcome of another statement again.
fn same_outcome(alloc: Global, other: &Withdrawal) -> Result<Outcome, AllocError>
    ensures { IfOk result (λ same. same ≡ other.now.outcome) }
{
    match &other.outcome {
        Outcome::Stays(numbers) => Ok(Outcome::Stays(copied(alloc, numbers.as_slice())?)),
        Outcome::StaysWide(numbers) => Ok(Outcome::StaysWide(copied(alloc, numbers.as_slice())?)),
        Outcome::Goes => Ok(Outcome::Goes),
        Outcome::Unknown => Ok(Outcome::Unknown),
    }
}

fn copied(alloc: Global, numbers: &[u32]) -> Result<Items<u32>, AllocError>
    ensures { IfOk result (λ copy. copy ≡ numbers.now) }
{
    Ok(Items::from(Vec::from_slice(alloc, numbers)?))
}

/// What becomes of it, as the answer over all other statements tells.
fn decide_without(
    alloc: Global,
    engine: &mut Engine,
    stood: &Stood<'_>,
    claim: Claim,
    number: u32,
) -> Result<Outcome, AllocError>
    requires stood { IsStood (stood_of stood.now) }
    requires carried { spec.IsCarriedAnswer stood.now.table.now stood.now.list.now claim.question claim.conclusion }
    ensures { IfOk result (spec.IsOutcome stood.now.table.now stood.now.list.now claim.question claim.conclusion number) }
{
    let left = without_statement(alloc, stood.list, number)?;
    decide_over(alloc, engine, stood.table, left.as_slice(), claim)
}

/// All of these but the statement with this number.
fn without_statement(
    alloc: Global,
    list: &[Numbered],
    number: u32,
) -> Result<Vec<Numbered>, AllocError>
    ensures { IfOk result (λ left. left.items ≡ spec.without_statement number list.now) }
{
    list.iter()
        .filter(|x| number != x.number)
        .copied()
        .collect(alloc)
}

/// What becomes of it over the statements that are left.
fn decide_over(
    alloc: Global,
    engine: &mut Engine,
    table: &Table,
    left: &[Numbered],
    claim: Claim,
) -> Result<Outcome, AllocError>
    requires { spec.IsLeft table.now left.now claim.question claim.conclusion }
    ensures { IfOk result (spec.IsOver table.now left.now claim.question claim.conclusion) }
{
    let statements = statements_in(alloc, left)?;
    let question = &claim.question;
    let answer = decide_warm(
        alloc,
        engine,
        table,
        statements.as_slice(),
        question,
        Bits::B127,
    )?;
    judge(alloc, engine, table, left, claim, &answer)
}

/// The same, by the answer over them.
fn judge(
    alloc: Global,
    engine: &mut Engine,
    table: &Table,
    left: &[Numbered],
    claim: Claim,
    answer: &Answer,
) -> Result<Outcome, AllocError>
    requires left { spec.IsLeft table.now left.now claim.question claim.conclusion }
    requires allowed { IsAllowedAnswer (HasNoteAt (most_of B127)) table.now (statements_in left.now) claim.question answer.now }
    ensures { IfOk result (spec.IsOver table.now left.now claim.question claim.conclusion) }
{
    if is_wide(&answer.verdict) {
        return Ok(Outcome::Unknown);
    }
    if !concludes(&answer.verdict, claim.conclusion) {
        return Ok(Outcome::Goes);
    }
    stay(alloc, engine, table, left, claim, answer)
}

/// That it stays, and by which statements, where the answer over them is that. A reason that is dropped in place takes too long to prove.
fn stay(
    alloc: Global,
    engine: &mut Engine,
    table: &Table,
    left: &[Numbered],
    claim: Claim,
    answer: &Answer,
) -> Result<Outcome, AllocError>
    requires left { spec.IsLeft table.now left.now claim.question claim.conclusion }
    requires proved { IsProvedAnswer table.now (statements_in left.now) claim.question answer.now }
    requires concludes { Concludes claim.conclusion answer.now.verdict }
    ensures { IfOk result (spec.IsOver table.now left.now claim.question claim.conclusion) }
{
    let reason = reduct_of(alloc, engine, table, left, answer, Bits::B127)?;
    let outcome = staying(alloc, &reason);
    drop(reason);
    outcome
}

/// Whether the verdict has a proof and concludes this.
fn concludes(verdict: &Verdict, conclusion: Conclusion) -> bool
    ensures { IsTrue result ↔ Concludes conclusion verdict.now }
{
    match verdict {
        Verdict::Yes(_) => conclusion == Conclusion::Yes,
        Verdict::No(_) => conclusion == Conclusion::No,
        Verdict::Contradiction(_) => conclusion == Conclusion::Contradiction,
        Verdict::Wide { .. } => false,
    }
}

/// What stays, by its reason over what is left.
fn staying(alloc: Global, reason: &Reason) -> Result<Outcome, AllocError>
    ensures { IfOk result (λ outcome. outcome ≡ spec.staying reason.now) }
{
    match reason {
        Reason::Carried(reduct) => Ok(Outcome::Stays(copied(alloc, reduct.numbers.as_slice())?)),
        Reason::Wide { numbers, .. } => Ok(Outcome::StaysWide(copied(alloc, numbers.as_slice())?)),
        _ => Ok(Outcome::Unknown),
    }
}
