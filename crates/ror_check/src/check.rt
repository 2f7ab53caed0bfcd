//! The check of a verdict, test by test, and of many answers over the same statements.

ghost use Rattle.std.specs.Prelude.{◌≡◌, ◌≢◌, ℕ, [], ◌∷◌, ◌≤◌, ◌<◌, ◌+◌, ◌-◌, ◌^◌, ◌↔◌, length, map, true, false, IsTrue, OnOk, OnErr, IfErr, MatchOption};
ghost use Rattle.std.specs.List.{AllByRecursion, range_with_len};
ghost use Rattle.ror_text.specs.FirstFault.{IsRefusedBy};
ghost use Rattle.ror_statement.specs.declared.row_number.TheConstants.{MOST_ROWS};
ghost use Rattle.ror_table.specs.Table.{columns};
ghost use Rattle.ror_value.specs.Over.{IsLawfulIn, IsAskedIn};
ghost use Rattle.ror_check.specs.Proof.{IsWide, is_wide, IsWideOrProved, IsWideOrTrue, OfProof, verdict_with, IsProvedAnswer, IsTrueVerdict, Proves, AreNumbersFor, base_system};
ghost use Rattle.ror_check.specs.Faults.{FailsProof, FailsVerdict, FailsAnswer, IsEarlierFault, FailsAnswers, IsEarlierAnswersFault};
ghost use Rattle.ror_check.specs.Steps as steps;
ghost use Rattle.ror_check.specs.Steps.{IsAcceptedFor, IsBaseOf, AreUsable, AreShownBefore, NameSystems, RefusesBase, RefusesParts, systems_with};

use crate::base::{Base, accept};
use crate::claim::Claim;
use crate::fault::{AnswersFault, CheckFault};
use crate::few::is_shown_by_few;
use crate::side::has_kinds;
use ror_proof::{Answer, Certificate, Part, Proof, Verdict};
use ror_rows::{Extras, question_systems, system_of, with_extras};
use ror_statement::{Conclusion, Question, QuestionKind, Statement, kind_of};
use ror_table::Table;
use std::alloc::Global;

/// Whether each answer's proof proves its verdict on the question that it names, over the same statements, as
/// `check_answer` has it. An answer that is too wide concludes nothing, and is passed over. The system of the statements is
/// made once, and a certificate of it that is still known from an answer before is not tested again.
///
/// The statements are lawful, the questions are valid for the table, and there are fewer than 2^32 - 1 answers.
///
/// # Errors
///
/// The first answer that is not accepted, by its place from 1, with the first test that it fails.
pub fn check_answers(
    alloc: Global,
    table: &Table,
    list: &[Statement],
    answers: &[Answer],
) -> Result<(), AnswersFault>
    requires lawful { IsLawfulIn table.now list.now }
    requires named { AllByRecursion (λ x. IsAskedIn table.now x.question) answers.now }
    requires few { length answers.now < 2 ^ 32 - 1 }

    ensures accepted { OnOk result (AllByRecursion
        (λ x. IsWideOrProved table.now list.now x.question x.verdict) answers.now) }
    ensures true_answers { OnOk result (AllByRecursion
        (λ x. IsWideOrTrue table.now list.now x.question x.verdict) answers.now) }

    ensures not_proved { IfErr result (λ e. e ≢ AnswersFault.Memory → AllByRecursion
        (λ x. IsWideOrProved table.now list.now x.question x.verdict) answers.now → ⊥) }
    ensures refused { IfErr result (IsRefusedBy (FailsAnswers table.now list.now answers.now)
        IsEarlierAnswersFault AnswersFault.Memory) }
{
    let mut base = Base::new(alloc, system_of(alloc, table, list)?);
    check_each(alloc, table, list, &mut base, answers)
}

/// Whether each answer's proof proves its verdict, where the statements have this base, which stays one of theirs.
pub(crate) fn check_each(
    alloc: Global,
    table: &Table,
    list: &[Statement],
    base: &mut Base,
    answers: &[Answer],
) -> Result<(), AnswersFault>
    requires lawful { IsLawfulIn table.now list.now }
    requires named { AllByRecursion (λ x. IsAskedIn table.now x.question) answers.now }
    requires few { length answers.now < 2 ^ 32 - 1 }
    requires base { IsBaseOf (base_system table.now list.now) base.old }
    ensures accepted { OnOk result (AllByRecursion
        (λ x. IsWideOrProved table.now list.now x.question x.verdict) answers.now) }
    ensures true_answers { OnOk result (AllByRecursion
        (λ x. IsWideOrTrue table.now list.now x.question x.verdict) answers.now) }
    ensures not_proved { IfErr result (λ e. e ≢ AnswersFault.Memory → AllByRecursion
        (λ x. IsWideOrProved table.now list.now x.question x.verdict) answers.now → ⊥) }
    ensures refused { IfErr result (IsRefusedBy (FailsAnswers table.now list.now answers.now)
        IsEarlierAnswersFault AnswersFault.Memory) }
    ensures base { IsBaseOf (base_system table.now list.now) base.new }
{
    for (place, answer) in answers.iter().enumerate() {
        if let Err(fault) = check_unless_wide(alloc, table, list, base, answer) {
            return Err(refused_at(place as u32 + 1, fault));
        }
    }
    Ok(())
}

/// Whether the answer is too wide or its proof proves its verdict, where the statements have this base.
fn check_unless_wide(
    alloc: Global,
    table: &Table,
    list: &[Statement],
    base: &mut Base,
    x: &Answer,
) -> Result<(), CheckFault>
    requires lawful { IsLawfulIn table.now list.now }
    requires named { IsAskedIn table.now x.now.question }
    requires base { IsBaseOf (base_system table.now list.now) base.old }
    ensures ok { OnOk result (IsWideOrProved table.now list.now x.now.question x.now.verdict) }
    ensures base { IsBaseOf (base_system table.now list.now) base.new }
    ensures concludes { OnErr result (is_wide x.now.verdict ≡ false) }
    ensures err { IfErr result (IsRefusedBy
        (FailsVerdict table.now list.now x.now.question x.now.verdict)
        IsEarlierFault CheckFault.Memory) }
{
    match &x.verdict {
        Verdict::Wide { .. } => Ok(()),
        verdict => check_verdict(alloc, table, list, base, &x.question, verdict),
    }
}

/// The fault of answers of which the one at a place is refused; want of memory is no fault of an answer.
fn refused_at(place: u32, fault: CheckFault) -> AnswersFault
    ensures { result ≡ steps.refused_at place fault }
{
    match fault {
        CheckFault::Memory => AnswersFault::Memory,
        fault => AnswersFault::Answer(place, fault),
    }
}

/// Whether the verdict has a proof that proves it, where the statements have this base.
pub(crate) fn check_verdict(
    alloc: Global,
    table: &Table,
    list: &[Statement],
    base: &mut Base,
    asked: &Question,
    verdict: &Verdict,
) -> Result<(), CheckFault>
    requires lawful { IsLawfulIn table.now list.now }
    requires named { IsAskedIn table.now asked.now }
    requires base { IsBaseOf (base_system table.now list.now) base.old }
    ensures ok { OnOk result (OfProof (Proves table.now list.now asked.now) verdict.now) }
    ensures base { IsBaseOf (base_system table.now list.now) base.new }
    ensures err { IfErr result (IsRefusedBy
        (FailsVerdict table.now list.now asked.now verdict.now)
        IsEarlierFault CheckFault.Memory) }
{
    match concluded(verdict) {
        Some((conclusion, proof)) => {
            let claim = Claim {
                question: *asked,
                conclusion,
            };
            check_proof(alloc, table, list, base, claim, proof)
        }
        None => Err(CheckFault::WrongVerdict),
    }
}

/// The conclusion of a verdict and its proof, if it has one.
fn concluded(verdict: &Verdict) -> Option<(Conclusion, &Proof)>
    ensures { MatchOption result (IsWide verdict.now)
        (λ p. verdict.now ≡ verdict_with p.0 p.1.now) }
{
    match verdict {
        Verdict::Yes(proof) => Some((Conclusion::Yes, proof)),
        Verdict::No(proof) => Some((Conclusion::No, proof)),
        Verdict::Contradiction(proof) => Some((Conclusion::Contradiction, proof)),
        Verdict::Wide { .. } => None,
    }
}

/// Whether the proof proves the claim.
fn check_proof(
    alloc: Global,
    table: &Table,
    list: &[Statement],
    base: &mut Base,
    claim: Claim,
    proof: &Proof,
) -> Result<(), CheckFault>
    requires lawful { IsLawfulIn table.now list.now }
    requires named { IsAskedIn table.now claim.question }
    requires base { IsBaseOf (base_system table.now list.now) base.old }
    ensures ok { OnOk result (Proves table.now list.now claim.question claim.conclusion proof.now) }
    ensures base { IsBaseOf (base_system table.now list.now) base.new }
    ensures err { IfErr result (IsRefusedBy
        (FailsProof table.now list.now claim.question claim.conclusion proof.now)
        IsEarlierFault CheckFault.Memory) }
{
    let asked = &claim.question;
    if !has_kinds(asked, claim.conclusion, proof) {
        return Err(CheckFault::WrongVerdict);
    }
    let systems = question_systems(alloc, table, list, asked)?;
    let extras = systems.as_slice();
    let parts = proof.parts.as_slice();
    if !are_numbered_for(kind_of(asked), claim.conclusion, extras.len(), parts) {
        return Err(CheckFault::PartCount);
    }
    check_base(alloc, base, &proof.base)?;
    check_parts(alloc, table, base, extras, parts)
}

/// Whether the parts have the numbers that the conclusion wants, where the question has so many systems.
fn are_numbered_for(
    kind: QuestionKind,
    conclusion: Conclusion,
    count: usize,
    parts: &[Part],
) -> bool
    requires { count < 2 ^ 32 - 1 }
    ensures { IsTrue result ↔ AreNumbersFor kind conclusion count (map (λ p. p.at) parts.now) }
{
    match (kind, conclusion) {
        (_, Conclusion::Contradiction) | (QuestionKind::Plain, _) => parts.is_empty(),
        (QuestionKind::Any, _) | (QuestionKind::Every, Conclusion::Yes) => are_all(count, parts),
        (QuestionKind::Every, Conclusion::No) => is_one(count, parts),
    }
}

/// Whether there are so many parts, with the numbers from 1 in order.
fn are_all(count: usize, parts: &[Part]) -> bool
    requires { count < 2 ^ 32 - 1 }
    ensures { IsTrue result ↔ (map (λ p. p.at) parts.now ≡ range_with_len 1 count) }
{
    if parts.len() != count {
        return false;
    }
    are_numbered_from(1, parts)
}

/// Whether there is one part, with the number of one of so many systems.
fn is_one(count: usize, parts: &[Part]) -> bool
    ensures { IsTrue result ↔ ((n : ℕ) × (1 ≤ n) × (n ≤ count)
        × (map (λ p. p.at) parts.now ≡ n ∷ [])) }
{
    match parts {
        [part] => part.at >= 1 && part.at as usize <= count,
        _ => false,
    }
}

/// Whether the parts have the numbers from the first on, in order.
fn are_numbered_from(first: u32, parts: &[Part]) -> bool
    requires { first + length parts.now < 2 ^ 32 }
    ensures { IsTrue result ↔ (map (λ p. p.at) parts.now
        ≡ range_with_len first (length parts.now)) }
{
    match parts {
        [] => true,
        [part, rest @ ..] => part.at == first && are_numbered_from(first + 1, rest),
    }
}

fn check_base(alloc: Global, base: &mut Base, certificate: &Certificate) -> Result<(), CheckFault>
    requires { IsBaseOf base.old.system base.old }
    ensures ok { OnOk result (IsAcceptedFor base.old.system certificate.now) }
    ensures base { IsBaseOf base.old.system base.new }
    ensures err { IfErr result (RefusesBase base.old.system certificate.now) }
{
    match base.accept(alloc, certificate) {
        Ok(()) => Ok(()),
        Err(reject) => Err(CheckFault::Base(reject)),
    }
}

/// Checks each part for the system that has its number, the base with its extra rows, from the first part on.
fn check_parts(
    alloc: Global,
    table: &Table,
    base: &mut Base,
    systems: &[Extras],
    parts: &[Part],
) -> Result<(), CheckFault>
    requires base { IsBaseOf base.old.system base.old }
    requires columns { base.old.system.columns ≡ columns table.now }
    requires rows { length base.old.system.weak + length base.old.system.strict ≤ MOST_ROWS }
    requires usable { AllByRecursion (AreUsable table.now) systems.now }
    requires numbers { NameSystems (length systems.now) parts.now }
    requires few { length parts.now < 2 ^ 32 - 1 }
    ensures base { IsBaseOf base.old.system base.new }
    ensures ok { OnOk result
        (AreShownBefore (systems_with table.now base.old.system systems.now) parts.now
        (length parts.now)) }
    ensures err { IfErr result
        (RefusesParts (systems_with table.now base.old.system systems.now) parts.now) }
{
    for (i, part) in parts.iter().enumerate() {
        let extras = systems[part.at as usize - 1].as_slice();
        if is_shown_by_few(alloc, table, base, extras, &part.body)? {
            continue;
        }
        let system = with_extras(alloc, table, &base.system, extras)?;
        if let Err(reject) = accept(&system, &part.body) {
            return Err(CheckFault::Part(i as u32 + 1, reject));
        }
    }
    Ok(())
}
