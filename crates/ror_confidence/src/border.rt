//! The search for the level from which on something is concluded.

ghost use Rattle.std.specs.Prelude.{◌≡◌, ◌<◌, ◌≤◌, ◌+◌, ◌^◌, ◌||◌, true, false, length, Some, IfOk, IfErr};
ghost use Rattle.ror_pivot.specs.Answers.{most_of};
ghost use Rattle.ror_value.specs.Over.{IsLawfulIn, IsAskedIn};
ghost use Rattle.ror_check.specs.Proof.{is_wide};
ghost use Rattle.ror_confidence.specs.Spans.{AreLevelLists};
ghost use Rattle.ror_confidence.specs.Proof as spec;
ghost use Rattle.ror_confidence.specs.Finding.{names_class};
ghost use Rattle.ror_confidence.specs.Searching.{HasTwoSides, IsBorder, IsDecidedAt, IsWideBorder, IsWideEnd, answers_at, is_above, is_open};

use crate::decider::Decider;
use crate::due::{concludes, conclusion_from};
use crate::fault::SpanFault;
use crate::span::LevelAnswer;
use ror_pivot::Bits;
use ror_proof::{Answer, Verdict};
use ror_statement::{Question, QuestionKind, Statement, kind_of};
use ror_table::Table;
use ror_text::Items;
use std::alloc::{AllocError, Global};

/// The level from which on a question is concluded otherwise than below it, with the answers on both sides where there are
/// levels there: none or one on each.
#[derive(Drop)]
pub(crate) struct Border {
    pub(crate) level: u32,
    pub(crate) below: Items<LevelAnswer>,
    pub(crate) from: Items<LevelAnswer>,
}

/// Whether the verdict is wide.
fn is_wide(verdict: &Verdict) -> bool
    ensures { result ≡ is_wide verdict.now }
{
    match verdict {
        Verdict::Wide { .. } => true,
        _ => false,
    }
}

/// Whether a level with this verdict on a question of this kind is taken to be above the border: one that is too wide is, until
/// a lower one shows where the border is.
fn is_verdict_above(kind: QuestionKind, verdict: &Verdict) -> bool
    ensures { result ≡ (is_wide verdict.now || spec.concludes (spec.conclusion_from kind) verdict.now) }
{
    if is_wide(verdict) {
        return true;
    }
    concludes(conclusion_from(kind), verdict)
}

/// Whether the level of the one answer is taken to be above the border.
fn is_above(kind: QuestionKind, answers: &[LevelAnswer]) -> bool
    ensures { result ≡ is_above kind answers.now }
{
    match answers {
        [] => false,
        [x, ..] => is_verdict_above(kind, &x.answer.verdict),
    }
}

/// Whether there is an answer that is too wide.
fn is_open(answers: &[LevelAnswer]) -> bool
    ensures { result ≡ is_open answers.now }
{
    match answers {
        [] => false,
        [x, ..] => is_wide(&x.answer.verdict),
    }
}

/// The answer at a level alone.
fn alone(alloc: Global, level: u32, answer: Answer) -> Result<Vec<LevelAnswer>, AllocError>
    ensures { IfOk result (λ answers. answers.items ≡ answers_at level (Some answer)) }
{
    let mut answers = Vec::new(alloc);
    answers.push(LevelAnswer { level, answer })?;
    Ok(answers)
}

/// A level with its list.
#[derive(Clone, Copy)]
struct LevelList<'a> {
    level: u32,
    list: &'a [Statement],
}

/// The answer to the question over the list of a level.
fn decide_at<K: Decider>(
    alloc: Global,
    decider: &mut K,
    table: &Table,
    at: LevelList,
    q: &Question,
    bits: Bits,
) -> Result<Vec<LevelAnswer>, AllocError>
    requires lawful { IsLawfulIn table.now at.list.now }
    requires asked { IsAskedIn table.now q.now }
    requires no_class { names_class q.now ≡ false }
    ensures { IfOk result (λ answers.
        IsDecidedAt (most_of bits) table.now at.entry.list.now q.now at.entry.level answers.items) }
{
    let answer = decider.decide(alloc, table, at.list, q, bits)?;
    let answers = alone(alloc, at.level, answer)?;
    Ok(answers)
}

/// The level that is tried next, between two that are known: the guess, or the one between them that is next to it.
fn level_between(low: u32, high: u32, guess: u32) -> u32
    requires { low + 1 < high }
    ensures above { low < result }
    ensures below { result < high }
{
    if guess <= low {
        return low + 1;
    }
    if guess < high {
        return guess;
    }
    high - 1
}

/// The border that is sought: of this question, among the levels before `end`, tried from a guess on.
#[derive(Clone, Copy)]
pub(crate) struct Sought {
    pub(crate) question: Question,
    pub(crate) guess: u32,
    pub(crate) end: u32,
}

/// The border that is sought over the lists of the levels.
pub(crate) fn find_border<K: Decider>(
    alloc: Global,
    decider: &mut K,
    table: &Table,
    lists: &[Items<Statement>],
    sought: Sought,
    bits: Bits,
) -> Result<Border, SpanFault>
    requires lists { AreLevelLists table.now lists.now }
    requires asked { IsAskedIn table.now sought.question }
    requires no_class { names_class sought.question ≡ false }
    requires some { 1 ≤ sought.end }
    requires within { sought.end ≤ length lists.now + 1 }
    requires sides { HasTwoSides (most_of bits) table.now lists.now sought.question sought.end }
    ensures border { IfOk result
        (IsBorder (most_of bits) table.now lists.now sought.question sought.end) }
    ensures wide { IfErr result
        (IsWideBorder (most_of bits) table.now lists.now sought.question sought.end) }
{
    let q = &sought.question;
    let mut low = 0;
    let mut high = sought.end;
    let mut below = Vec::new(alloc);
    let mut from = Vec::new(alloc);
    'levels: while low + 1 < high {
        let level = level_between(low, high, sought.guess);
        let list = lists[level as usize - 1].as_slice();
        let at = LevelList { level, list };
        let answers = decide_at(alloc, decider, table, at, q, bits)?;
        if is_above(kind_of(q), answers.as_slice()) {
            high = level;
            from = answers;
        } else {
            low = level;
            below = answers;
        }
    }
    border_of(high, below, from)
}

/// The border at a level with these answers, or the one from there on, if that is too wide.
fn border_of(
    level: u32,
    below: Vec<LevelAnswer>,
    from: Vec<LevelAnswer>,
) -> Result<Border, SpanFault>
    requires { length from.items ≤ 1 }
    ensures border { IfOk result (λ border. border ≡ record {
      level = level;
      below = below.items;
      from = from.items;
    }) }
    ensures narrow { IfOk result (λ border. is_open from.items ≡ false) }
    ensures wide { IfErr result (IsWideEnd from.items) }
{
    if is_open(from.as_slice()) {
        return Err(wide_fault(from));
    }
    Ok(Border {
        level,
        below: Items::from(below),
        from: Items::from(from),
    })
}

/// That the one answer is too wide.
fn wide_fault(answers: Vec<LevelAnswer>) -> SpanFault
    requires few { length answers.items ≤ 1 }
    requires wide { is_open answers.items ≡ true }
    ensures { IsWideEnd answers.items result }
{
    let mut answers = answers;
    match answers.pop() {
        Some(x) => SpanFault::Wide(x),
        None => unreachable!(),
    }
}
