//! The answers that are due for a span.

ghost use Rattle.std.specs.Prelude.{◌≡◌, ◌≤◌, ◌<◌, ◌+◌, ◌^◌, ◌++◌, true, IfOk, OnOk};
ghost use Rattle.ror_confidence.specs.Proof as spec;
ghost use Rattle.ror_confidence.specs.Proof.{conclusion_from, conclusion_below, due_below, due_from, dues_of, is_in_range};

use crate::span::Span;
use ror_proof::Verdict;
use ror_statement::{Conclusion, Pair, Question, QuestionKind, kind_of};
use std::alloc::{AllocError, Global};

/// A conclusion on a question at a level.
#[derive(Clone, Copy, Debug, PartialEq, Eq)]
pub(crate) struct Due {
    pub(crate) level: u32,
    pub(crate) question: Question,
    pub(crate) conclusion: Conclusion,
}

/// What is concluded on a question of this kind from its border on, as statements are added.
pub(crate) fn conclusion_from(kind: QuestionKind) -> Conclusion
    ensures { result ≡ spec.conclusion_from kind }
{
    match kind {
        QuestionKind::Plain => Conclusion::Contradiction,
        QuestionKind::Every => Conclusion::Yes,
        QuestionKind::Any => Conclusion::No,
    }
}

/// What is concluded below it.
fn conclusion_below(kind: QuestionKind) -> Conclusion
    ensures { result ≡ spec.conclusion_below kind }
{
    match kind {
        QuestionKind::Every => Conclusion::No,
        QuestionKind::Plain | QuestionKind::Any => Conclusion::Yes,
    }
}

/// Whether the verdict has this conclusion.
pub(crate) fn concludes(conclusion: Conclusion, verdict: &Verdict) -> bool
    ensures { result ≡ spec.concludes conclusion verdict.now }
{
    match (conclusion, verdict) {
        (Conclusion::Yes, Verdict::Yes(_)) => true,
        (Conclusion::No, Verdict::No(_)) => true,
        (Conclusion::Contradiction, Verdict::Contradiction(_)) => true,
        _ => false,
    }
}

/// Adds what is due at the level of a border, where that is below the end.
fn push_from(
    dues: &mut Vec<Due>,
    question: Question,
    level: u32,
    end: u32,
) -> Result<(), AllocError>
    ensures { OnOk result (dues.new.items ≡ dues.old.items ++ due_from question level end) }
{
    if level < end {
        dues.push(Due {
            level,
            question,
            conclusion: conclusion_from(kind_of(&question)),
        })?;
    }
    Ok(())
}

/// Adds what is due at the level before it, where there is one.
fn push_below(dues: &mut Vec<Due>, question: Question, level: u32) -> Result<(), AllocError>
    ensures { OnOk result (dues.new.items ≡ dues.old.items ++ due_below question level) }
{
    if level > 1 {
        dues.push(Due {
            level: level - 1,
            question,
            conclusion: conclusion_below(kind_of(&question)),
        })?;
    }
    Ok(())
}

/// What is due for a span over so many levels, in order.
pub(crate) fn dues_of(alloc: Global, n: u32, pair: Pair, x: &Span) -> Result<Vec<Due>, AllocError>
    requires few { n < 2 ^ 16 }
    requires range { is_in_range n x.now.contradictory x.now.necessary x.now.possible ≡ true }
    ensures { IfOk result (λ dues. dues.items
        ≡ dues_of n pair.first pair.second x.now.contradictory x.now.necessary x.now.possible) }
{
    let Pair { first, second } = pair;
    let end = x.contradictory;
    let mut dues = Vec::new(alloc);
    push_from(&mut dues, Question::Consistent, end, n + 1)?;
    push_below(&mut dues, Question::Consistent, end)?;
    push_from(
        &mut dues,
        Question::Necessary(first, second),
        x.necessary,
        end,
    )?;
    push_below(&mut dues, Question::Necessary(first, second), x.necessary)?;
    push_below(&mut dues, Question::Possible(first, second), x.possible + 1)?;
    push_from(
        &mut dues,
        Question::Possible(first, second),
        x.possible + 1,
        end,
    )?;
    Ok(dues)
}

/// Whether the levels of a span over so many levels can be those of one.
pub(crate) fn is_in_range(n: u32, x: &Span) -> bool
    requires { n < 2 ^ 16 }
    ensures { result ≡ is_in_range n x.now.contradictory x.now.necessary x.now.possible }
{
    1 <= x.contradictory
        && x.contradictory <= n + 1
        && 1 <= x.necessary
        && x.necessary <= x.contradictory
        && x.possible < x.contradictory
}
