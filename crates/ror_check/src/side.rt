//! The kinds of certificates, and which of them a conclusion wants.

ghost use Rattle.std.specs.Prelude.{◌≡◌};
ghost use Rattle.std.specs.List.{list_all};
ghost use Rattle.ror_check.specs.Proof as proof;
ghost use Rattle.ror_check.specs.Faults as faults;

use ror_proof::{Certificate, Part, Proof};
use ror_statement::{Conclusion, Question, QuestionKind, kind_of};

/// What a certificate shows of its system: a solution that it is solvable, multipliers that it is not.
#[derive(Clone, Copy)]
pub(crate) enum Side {
    Solvable,
    NotSolvable,
}

/// Whether the conclusion is one of those on the question, and the certificates of the proof are of the kinds that it
/// wants.
pub(crate) fn has_kinds(asked: &Question, conclusion: Conclusion, proof: &Proof) -> bool
    ensures { result ≡ faults.has_kinds asked.now conclusion proof.now }
{
    let kind = kind_of(asked);
    may_conclude(kind, conclusion)
        && is_side(base_side(conclusion), &proof.base)
        && have_kind(kind, conclusion, proof.parts.as_slice())
}

fn may_conclude(kind: QuestionKind, conclusion: Conclusion) -> bool
    ensures { result ≡ proof.may_conclude kind conclusion }
{
    !matches!((kind, conclusion), (QuestionKind::Plain, Conclusion::No))
}

fn have_kind(kind: QuestionKind, conclusion: Conclusion, parts: &[Part]) -> bool
    ensures { result ≡ faults.have_kind kind conclusion parts.now }
{
    match (kind, conclusion) {
        (_, Conclusion::Contradiction) | (QuestionKind::Plain, _) => true,
        _ => are_side(part_side(kind, conclusion), parts),
    }
}

fn are_side(side: Side, parts: &[Part]) -> bool
    ensures { result ≡ list_all (λ p. faults.is_side side p.body) parts.now }
{
    parts.iter().all(|part| is_side(side, &part.body))
}

fn is_side(side: Side, certificate: &Certificate) -> bool
    ensures { result ≡ faults.is_side side certificate.now }
{
    match (side, certificate) {
        (Side::Solvable, Certificate::Solution(_)) => true,
        (Side::NotSolvable, Certificate::Multipliers(_)) => true,
        _ => false,
    }
}

fn base_side(conclusion: Conclusion) -> Side
    ensures { result ≡ proof.base_side conclusion }
{
    match conclusion {
        Conclusion::Yes | Conclusion::No => Side::Solvable,
        Conclusion::Contradiction => Side::NotSolvable,
    }
}

fn part_side(kind: QuestionKind, conclusion: Conclusion) -> Side
    ensures { result ≡ proof.part_side kind conclusion }
{
    match (kind, conclusion) {
        (QuestionKind::Any, Conclusion::Yes) | (QuestionKind::Every, Conclusion::No) => {
            Side::Solvable
        }
        _ => Side::NotSolvable,
    }
}
