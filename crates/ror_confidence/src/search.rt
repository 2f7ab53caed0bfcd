//! The search for spans.

ghost use Rattle.std.specs.Prelude.{◌≡◌, ◌<◌, ◌≤◌, ◌+◌, ◌++◌, ◌-◌, ◌^◌, length, OnOk, IfOk, IfErr};
ghost use Rattle.ror_statement.specs.Statements.{statements_in};
ghost use Rattle.ror_pivot.specs.Answers.{most_of};
ghost use Rattle.ror_value.specs.Over.{IsLawfulIn};
ghost use Rattle.ror_confidence.specs.Levels.{AreLevelsOf, level_lists};
ghost use Rattle.ror_confidence.specs.Spans.{AreLevelLists, IsSpan};
ghost use Rattle.ror_confidence.specs.Proof.{IsProvedSpan, IsSpanWithin};
ghost use Rattle.ror_confidence.specs.Finding.{HasNoWideQuestions, IsDueSpanFault};
ghost use Rattle.ror_confidence.specs.Searching.{IsBase, IsOpenBase, IsSearchOf, answers_of};

use crate::border::{Border, Sought, find_border};
use crate::decider::Decider;
use crate::fault::SpanFault;
use crate::levels::{Levelled, Levels, level_lists};
use crate::span::{LevelAnswer, Span};
use ror_pivot::Bits;
use ror_statement::{Numbered, Pair, Question, Statement};
use ror_table::Table;
use ror_text::Items;
use std::alloc::{AllocError, Global};

/// Finds the span of a pair over levels: the levels from which on, and up to which, each conclusion holds, with the answers at
/// the borders. The decider answers at this width, each question at a few of the levels.
///
/// The statements are lawful, the levels are theirs, and the alternatives are of the table.
///
/// # Errors
///
/// The answer that is too wide, on which the span depends; none where no number of the questions' systems passes the width.
pub fn find_span<K: Decider>(
    alloc: Global,
    decider: &mut K,
    table: &Table,
    levelled: Levelled,
    pair: Pair,
    bits: Bits,
) -> Result<Span, SpanFault>
    requires lawful { IsLawfulIn table.now (statements_in levelled.standing.now) }
    requires levels { AreLevelsOf levelled.standing.now levelled.levels.now }
    requires first { pair.first < length table.now.alternatives }
    requires second { pair.second < length table.now.alternatives }

    ensures proved { IfOk result
        (IsProvedSpan table.now (level_lists levelled.entry.standing.now levelled.entry.levels.now)
        pair.first pair.second) }
    ensures true_span { IfOk result (λ x. IsSpan table.now
        (level_lists levelled.entry.standing.now levelled.entry.levels.now) pair.first pair.second
        x.contradictory x.necessary x.possible) }
    ensures narrow { IfOk result (IsSpanWithin (most_of bits)) }

    ensures due { IfErr result (IsDueSpanFault (most_of bits) table.now
        (level_lists levelled.entry.standing.now levelled.entry.levels.now) pair.first pair.second) }
    ensures complete { HasNoWideQuestions (most_of bits) table.now
        (level_lists levelled.entry.standing.now levelled.entry.levels.now) pair.first pair.second
        → IfErr result (λ e. e ≡ SpanFault.Memory) }
{
    let Levelled { standing, levels } = levelled;
    let mut search = LevelSearch::new(alloc, decider, table, standing, levels, bits)?;
    search.find(alloc, decider, table, pair, bits)
}

/// Where statements begin to contradict each other, or the answer that leaves it open.
#[derive(Drop)]
pub(crate) enum Base {
    Found(Border),
    Open(LevelAnswer),
}

/// Finds spans over the same levels, one after the other. The statements of each level are listed once, and it is found once
/// where they begin to contradict each other. The borders of a pair are sought from those of the pair before.
#[derive(Drop)]
pub struct LevelSearch {
    lists: Vec<Items<Statement>>,
    base: Base,
    necessary: u32,
    possible: u32,
}

impl LevelSearch {
    /// The search over these levels of the statements, at this width. Its one error is want of memory.
    pub fn new<K: Decider>(
        alloc: Global,
        decider: &mut K,
        table: &Table,
        standing: &[Numbered],
        levels: &Levels,
        bits: Bits,
    ) -> Result<LevelSearch, AllocError>
        requires lawful { IsLawfulIn table.now (statements_in standing.now) }
        requires levels { AreLevelsOf standing.now levels.now }
        ensures search { IfOk result (IsSearchOf (most_of bits) table.now) }
        ensures lists { IfOk result
            (λ search. search.lists.items ≡ level_lists standing.now levels.now) }
    {
        let lists = level_lists(alloc, standing, levels)?;
        let base = base_of(alloc, decider, table, &lists, bits)?;
        Ok(LevelSearch {
            lists,
            base,
            necessary: 1,
            possible: levels.count + 1,
        })
    }

    /// Finds the span of a pair, as `find_span` does. It finds further spans whatever comes of this one.
    ///
    /// # Errors
    ///
    /// The answer that is too wide, on which the span depends.
    pub fn find<K: Decider>(
        &mut self,
        alloc: Global,
        decider: &mut K,
        table: &Table,
        pair: Pair,
        bits: Bits,
    ) -> Result<Span, SpanFault>
        requires search { IsSearchOf (most_of bits) table.now self.old }
        requires first { pair.first < length table.now.alternatives }
        requires second { pair.second < length table.now.alternatives }

        ensures proved { IfOk result (IsProvedSpan table.now self.old.lists.items
            pair.first pair.second) }
        ensures true_span { IfOk result (λ x. IsSpan table.now self.old.lists.items
            pair.first pair.second x.contradictory x.necessary x.possible) }
        ensures narrow { IfOk result (IsSpanWithin (most_of bits)) }

        ensures due { IfErr result
            (IsDueSpanFault (most_of bits) table.now self.old.lists.items
            pair.first pair.second) }
        ensures complete { HasNoWideQuestions (most_of bits) table.now self.old.lists.items
            pair.first pair.second → IfErr result (λ e. e ≡ SpanFault.Memory) }

        ensures search { IsSearchOf (most_of bits) table.now self.new }
        ensures lists { self.new.lists.items ≡ self.old.lists.items }
    {
        let contradictory = copied_base(alloc, &self.base)?;
        let end = contradictory.level;
        let sought = Sought {
            question: Question::Necessary(pair.first, pair.second),
            guess: self.necessary,
            end,
        };
        let necessary = find_border(alloc, decider, table, &self.lists, sought, bits)?;
        self.necessary = necessary.level;
        let sought = Sought {
            question: Question::Possible(pair.first, pair.second),
            guess: self.possible,
            end,
        };
        let possible = find_border(alloc, decider, table, &self.lists, sought, bits)?;
        self.possible = possible.level;
        Ok(span_of(alloc, contradictory, necessary, possible)?)
    }
}

/// Where the statements of the levels begin to contradict each other.
fn base_of<K: Decider>(
    alloc: Global,
    decider: &mut K,
    table: &Table,
    lists: &[Items<Statement>],
    bits: Bits,
) -> Result<Base, AllocError>
    requires lists { AreLevelLists table.now lists.now }
    requires few { length lists.now < 2 ^ 16 }
    ensures { IfOk result (IsBase (most_of bits) table.now lists.now) }
{
    let end = lists.len() as u32 + 1;
    let sought = Sought {
        question: Question::Consistent,
        guess: end,
        end,
    };
    match find_border(alloc, decider, table, lists, sought, bits) {
        Ok(border) => Ok(Base::Found(border)),
        Err(SpanFault::Wide(x)) => Ok(Base::Open(x)),
        Err(SpanFault::Memory) => Err(AllocError),
    }
}

/// The border at which statements begin to contradict each other, or the answer that leaves it open.
fn copied_base(alloc: Global, base: &Base) -> Result<Border, SpanFault>
    ensures border { IfOk result (λ border. base.now ≡ Base.Found border) }
    ensures open { IfErr result (IsOpenBase base.now) }
{
    match base {
        Base::Found(border) => Ok(border.copied(alloc)?),
        Base::Open(x) => Err(SpanFault::Wide(x.copied(alloc)?)),
    }
}

/// Adds the answers.
fn push_answers(proof: &mut Vec<LevelAnswer>, answers: Items<LevelAnswer>) -> Result<(), AllocError>
    ensures { OnOk result (proof.new.items ≡ proof.old.items ++ answers) }
{
    let mut answers = answers.into_vec();
    proof.append(&mut answers)
}

/// The span with these borders.
fn span_of(
    alloc: Global,
    contradictory: Border,
    necessary: Border,
    possible: Border,
) -> Result<Span, AllocError>
    requires { 1 ≤ possible.level }
    ensures { IfOk result (λ span. span ≡ record {
      contradictory = contradictory.level;
      necessary = necessary.level;
      possible = possible.level - 1;
      proof = answers_of contradictory necessary possible;
    }) }
{
    let (end, first, next) = (contradictory.level, necessary.level, possible.level);
    let mut proof = Vec::new(alloc);
    push_answers(&mut proof, contradictory.from)?;
    push_answers(&mut proof, contradictory.below)?;
    push_answers(&mut proof, necessary.from)?;
    push_answers(&mut proof, necessary.below)?;
    push_answers(&mut proof, possible.below)?;
    push_answers(&mut proof, possible.from)?;
    Ok(Span {
        contradictory: end,
        necessary: first,
        possible: next - 1,
        proof: Items::from(proof),
    })
}
