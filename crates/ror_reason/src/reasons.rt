//! The calls that find reasons.

ghost use Rattle.std.specs.Prelude.{◌≡◌, ◌≤◌, IfOk};
ghost use Rattle.std.specs.List.Sorted.{IsStrictlyIncreasing};
ghost use Rattle.ror_pivot.specs.Answers.{most_of};
ghost use Rattle.ror_statement.specs.Questions as questions;
ghost use Rattle.ror_statement.specs.Statements.{numbers_in, statements_in};
ghost use Rattle.ror_value.specs.Over.{IsLawfulIn, IsAskedIn};
ghost use Rattle.ror_given.specs.Answers.{IsVerdictWithin, IsGiven};
ghost use Rattle.ror_check.specs.Proof.{OfProof, IsWide, IsProvedAnswer};
ghost use Rattle.ror_reason.specs.Reducts.{Concludes};
ghost use Rattle.ror_reason.specs.Reasons.{IsReason, IsReasonOf, IsReasonWithin};
ghost use Rattle.ror_reason.specs.SearchSteps.{IsAnswered, decided_by};

use crate::part::rests_on_part;
use crate::reducts::Reason;
use crate::search::found;
use crate::sought::{Sought, alone};
use ror_pivot::Bits;
use ror_proof::{Answer, Verdict};
use ror_relation::decide_warm;
use ror_statement::{Conclusion, Numbered, Question, QuestionKind, kind_of, statements_in};
use ror_table::Table;
use ror_warm::Engine;
use std::alloc::{AllocError, Global};

/// Answers the question over the list, and gives the reason of the answer. All is decided at this width; where a number of the
/// list passes it, the reason is `WhollyWide`.
///
/// The statements are lawful, their numbers rise, and the question is valid for the table. The one error is want of memory.
pub fn reduct(
    alloc: Global,
    table: &Table,
    list: &[Numbered],
    question: &Question,
    bits: Bits,
) -> Result<Reason, AllocError>
    requires lawful { IsLawfulIn table.now (statements_in list.now) }
    requires rising { IsStrictlyIncreasing (numbers_in list.now) }
    requires asked { IsAskedIn table.now question.now }
    ensures reason { IfOk result (IsReason (most_of bits) table.now list.now question.now) }
    ensures narrow { IfOk result (IsReasonWithin (most_of bits)) }
{
    let engine = &mut Engine::new(alloc);
    let answers = answer_over(alloc, engine, table, list, question, bits)?;
    match answers.as_slice() {
        [] => unreachable!(),
        [answer, ..] => reason_of(alloc, engine, table, list, answer, bits),
    }
}

/// The answer to the question over the list, in a list of one.
fn answer_over(
    alloc: Global,
    engine: &mut Engine,
    table: &Table,
    list: &[Numbered],
    question: &Question,
    bits: Bits,
) -> Result<Vec<Answer>, AllocError>
    requires lawful { IsLawfulIn table.now (statements_in list.now) }
    requires asked { IsAskedIn table.now question.now }
    ensures { IfOk result (λ answers.
        IsAnswered (most_of bits) table.now list.now question.now answers.items) }
{
    let statements = statements_in(alloc, list)?;
    let answer = decide_warm(alloc, engine, table, statements.as_slice(), question, bits)?;
    let answers = alone(alloc, answer)?;
    Ok(answers)
}

/// The reason of an answer that may be given over the list.
fn reason_of(
    alloc: Global,
    engine: &mut Engine,
    table: &Table,
    list: &[Numbered],
    answer: &Answer,
    bits: Bits,
) -> Result<Reason, AllocError>
    requires lawful { IsLawfulIn table.now (statements_in list.now) }
    requires rising { IsStrictlyIncreasing (numbers_in list.now) }
    requires asked { IsAskedIn table.now answer.now.question }
    requires given { IsGiven (most_of bits) table.now (statements_in list.now)
        answer.now.question answer.now }
    ensures reason { IfOk result (IsReason (most_of bits)
        table.now list.now answer.now.question) }
    ensures narrow { IfOk result (IsReasonWithin (most_of bits)) }
{
    match &answer.verdict {
        Verdict::Wide { system, note } => Ok(Reason::WhollyWide {
            system: *system,
            note: note.copied(alloc)?,
        }),
        _ => reduct_of(alloc, engine, table, list, answer, bits),
    }
}

/// The reason of an answer over the list that has its proof, by an engine that may have decided others before. Where statements
/// carry it, parts of the list are decided at this width; else the reason has a copy of the answer.
///
/// The statements are lawful, their numbers rise, and the question of the answer is valid for the table. The one error is want
/// of memory.
pub fn reduct_of(
    alloc: Global,
    engine: &mut Engine,
    table: &Table,
    list: &[Numbered],
    answer: &Answer,
    bits: Bits,
) -> Result<Reason, AllocError>
    requires lawful { IsLawfulIn table.now (statements_in list.now) }
    requires rising { IsStrictlyIncreasing (numbers_in list.now) }
    requires asked { IsAskedIn table.now answer.now.question }
    requires proved { IsProvedAnswer table.now (statements_in list.now) answer.now.question answer.now }
    ensures reason { IfOk result (λ reason. OfProof (λ c proof. IsReasonOf (most_of bits)
        table.now list.now answer.now.question c reason) answer.now.verdict) }
    ensures narrow { IfOk result (λ reason. IsVerdictWithin (most_of bits) answer.now.verdict
        → IsReasonWithin (most_of bits) reason) }
    ensures counted { engine.old.pivots ≤ engine.new.pivots }
{
    let conclusion = conclusion_of(&answer.verdict);
    if rests_on_part(&answer.question, conclusion) {
        let sought = Sought {
            table,
            list,
            answer,
            conclusion,
            bits,
        };
        found(alloc, engine, &sought)
    } else {
        let copy = answer.copied(alloc)?;
        Ok(decided(copy, conclusion))
    }
}

/// What the verdict concludes, which has a proof.
fn conclusion_of(verdict: &Verdict) -> Conclusion
    requires { IsWide verdict.now → ⊥ }
    ensures { Concludes result verdict.now }
{
    match verdict {
        Verdict::Yes(_) => Conclusion::Yes,
        Verdict::No(_) => Conclusion::No,
        Verdict::Contradiction(_) => Conclusion::Contradiction,
        Verdict::Wide { .. } => unreachable!(),
    }
}

/// The reason of an answer that no statement carries.
fn decided(answer: Answer, conclusion: Conclusion) -> Reason
    ensures { result ≡ decided_by (questions.kind_of answer.question) conclusion answer }
{
    match (kind_of(&answer.question), conclusion) {
        (_, Conclusion::No) => Reason::OneLacks(answer),
        (QuestionKind::Every, _) => Reason::ClassLeft(answer),
        _ => Reason::OneHas(answer),
    }
}
