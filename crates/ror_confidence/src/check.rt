//! The check of a span.

ghost use Rattle.std.specs.Prelude.{◌≡◌, ◌≢◌, ◌↔◌, ◌<◌, ◌≤◌, ◌^◌, length, map, IsTrue, OnOk, IfOk, IfErr};
ghost use Rattle.std.specs.List.{AllByRecursion, AllZip};
ghost use Rattle.ror_text.specs.FirstFault.{IsRefusedBy};
ghost use Rattle.ror_statement.specs.Statements.{statements_in};
ghost use Rattle.ror_value.specs.Over.{IsLawfulIn, IsAskedIn};
ghost use Rattle.ror_check.specs.Faults.{IsEarlierFault};
ghost use Rattle.ror_confidence.specs.Levels.{AreLevelsOf, level_lists};
ghost use Rattle.ror_confidence.specs.Spans.{AreLevelLists, IsSpan};
ghost use Rattle.ror_confidence.specs.Proof.{IsProvedDue, IsProvedSpan};
ghost use Rattle.ror_confidence.specs.Faults.{FailsSpan, IsEarlierSpanFault, place_of_answer, place_of_due};
ghost use Rattle.ror_confidence.specs.Steps as steps;
ghost use Rattle.ror_confidence.specs.Steps.{AreCheckers, AreDuesWithin, RefusesAnswers, lists_of};

use crate::due::{Due, dues_of, is_in_range};
use crate::fault::SpanCheckFault;
use crate::level::LevelChecker;
use crate::levels::{Levelled, Levels, list_at};
use crate::span::{LevelAnswer, Span};
use ror_check::CheckFault;
use ror_statement::{Numbered, Pair};
use ror_table::Table;
use std::alloc::{AllocError, Global};

/// Whether the span's answers are those of its borders, each with its proof over the statements of its level. Of these few
/// answers all levels' follow: of a span that is accepted, the levels are those from which on, and up to which, each conclusion
/// holds.
///
/// The statements are lawful, the levels are theirs, and the alternatives are of the table.
///
/// # Errors
///
/// The first test that fails, in the order of `SpanCheckFault`.
pub fn check_span(
    alloc: Global,
    table: &Table,
    levelled: Levelled,
    pair: Pair,
    x: &Span,
) -> Result<(), SpanCheckFault>
    requires lawful { IsLawfulIn table.now (statements_in levelled.standing.now) }
    requires levels { AreLevelsOf levelled.standing.now levelled.levels.now }
    requires first { pair.first < length table.now.alternatives }
    requires second { pair.second < length table.now.alternatives }

    ensures accepted { OnOk result
        (IsProvedSpan table.now (level_lists levelled.entry.standing.now levelled.entry.levels.now)
        pair.first pair.second x.now) }
    ensures true_span { OnOk result (IsSpan table.now
        (level_lists levelled.entry.standing.now levelled.entry.levels.now) pair.first pair.second
        x.now.contradictory x.now.necessary x.now.possible) }

    ensures not_proved { IfErr result (λ e. e ≢ SpanCheckFault.Memory
        → IsProvedSpan table.now (level_lists levelled.entry.standing.now levelled.entry.levels.now)
        pair.first pair.second x.now → ⊥) }
    ensures refused { IfErr result (IsRefusedBy
        (FailsSpan table.now (level_lists levelled.entry.standing.now levelled.entry.levels.now)
        pair.first pair.second x.now)
        IsEarlierSpanFault SpanCheckFault.Memory) }
{
    let Levelled { standing, levels } = levelled;
    let mut checker = SpanChecker::new(alloc, table, standing, levels)?;
    checker.check(alloc, table, pair, x)
}

/// Checks spans over the same levels, one after the other: the statements of each level and their system are made once, and
/// what is known of a system is not tested again.
#[derive(Drop)]
pub struct SpanChecker {
    levels: Vec<LevelChecker>,
}

impl SpanChecker {
    /// The checker of spans over these levels of the statements. Its one error is want of memory.
    pub fn new(
        alloc: Global,
        table: &Table,
        standing: &[Numbered],
        levels: &Levels,
    ) -> Result<SpanChecker, AllocError>
        requires lawful { IsLawfulIn table.now (statements_in standing.now) }
        requires levels { AreLevelsOf standing.now levels.now }
        ensures checkers { IfOk result (λ checker. AreCheckers table.now checker.levels.items) }
        ensures lists { IfOk result (λ checker. lists_of checker.levels.items
            ≡ level_lists standing.now levels.now) }
        ensures nested { IfOk result
            (λ checker. AreLevelLists table.now (lists_of checker.levels.items)) }
        ensures few { IfOk result (λ checker. length checker.levels.items < 2 ^ 16) }
    {
        let mut checkers = Vec::new(alloc);
        let mut level = 0;
        'levels: while level < levels.count {
            level += 1;
            let list = list_at(alloc, standing, levels, level)?;
            checkers.push(LevelChecker::new(alloc, table, list)?)?;
        }
        Ok(SpanChecker { levels: checkers })
    }

    /// Whether the span's answers are those of its borders on the pair, as `check_span` has it. It checks further spans
    /// whatever it says of this one.
    ///
    /// # Errors
    ///
    /// The first test that fails, in the order of `SpanCheckFault`.
    pub fn check(
        &mut self,
        alloc: Global,
        table: &Table,
        pair: Pair,
        x: &Span,
    ) -> Result<(), SpanCheckFault>
        requires checkers { AreCheckers table.now self.old.levels.items }
        requires nested { AreLevelLists table.now (lists_of self.old.levels.items) }
        requires few { length self.old.levels.items < 2 ^ 16 }
        requires first { pair.first < length table.now.alternatives }
        requires second { pair.second < length table.now.alternatives }

        ensures accepted { OnOk result
            (IsProvedSpan table.now (lists_of self.old.levels.items) pair.first pair.second x.now) }
        ensures true_span { OnOk result (IsSpan table.now (lists_of self.old.levels.items)
            pair.first pair.second x.now.contradictory x.now.necessary x.now.possible) }
        ensures not_proved { IfErr result (λ e. e ≢ SpanCheckFault.Memory
            → IsProvedSpan table.now (lists_of self.old.levels.items)
            pair.first pair.second x.now → ⊥) }
        ensures refused { IfErr result (IsRefusedBy
            (FailsSpan table.now (lists_of self.old.levels.items) pair.first pair.second x.now)
            IsEarlierSpanFault SpanCheckFault.Memory) }

        ensures checkers { AreCheckers table.now self.new.levels.items }
        ensures lists { lists_of self.new.levels.items ≡ lists_of self.old.levels.items }
    {
        let n = self.levels.len() as u32;
        if !is_in_range(n, x) {
            return Err(SpanCheckFault::Range);
        }
        let dues = dues_of(alloc, n, pair, x)?;
        let answers = x.proof.as_slice();
        if !has_shape(&dues, answers) {
            return Err(SpanCheckFault::Shape);
        }
        check_each(alloc, table, self.levels.as_mut_slice(), &dues, answers)
    }
}

/// Whether the answers are at the levels and to the questions of those that are due, one for each.
fn has_shape(dues: &[Due], answers: &[LevelAnswer]) -> bool
    ensures { IsTrue result ↔ (map place_of_answer answers.now ≡ map place_of_due dues.now) }
{
    match (dues, answers) {
        ([], []) => true,
        ([due, dues @ ..], [x, answers @ ..]) => {
            if x.level != due.level || !x.answer.question.is_same(due.question) {
                return false;
            }
            has_shape(dues, answers)
        }
        _ => false,
    }
}

/// Whether each answer is the one that is due, with its proof, from the first one on.
fn check_each(
    alloc: Global,
    table: &Table,
    levels: &mut [LevelChecker],
    dues: &[Due],
    answers: &[LevelAnswer],
) -> Result<(), SpanCheckFault>
    requires checkers { AreCheckers table.now levels.old }
    requires within { AreDuesWithin table.now (length levels.old) dues.now }
    requires shape { map place_of_answer answers.now ≡ map place_of_due dues.now }
    requires few { length answers.now < 2 ^ 16 }
    ensures accepted { OnOk result
        (AllZip (IsProvedDue table.now (lists_of levels.old)) dues.now answers.now) }
    ensures refused { IfErr result
        (RefusesAnswers table.now (lists_of levels.old) dues.now answers.now) }
    ensures checkers { AreCheckers table.now levels.new }
    ensures lists { lists_of levels.new ≡ lists_of levels.old }
{
    for (place, x) in answers.iter().enumerate() {
        let due = dues[place];
        let level = &mut levels[due.level as usize - 1];
        if let Err(fault) = level.check(alloc, table, &due, x) {
            return Err(refused_at(place as u32 + 1, fault));
        }
    }
    Ok(())
}

/// The fault of a span of which the answer at a place is refused; want of memory is no fault of an answer.
fn refused_at(place: u32, fault: CheckFault) -> SpanCheckFault
    ensures { result ≡ steps.refused_at place fault }
{
    match fault {
        CheckFault::Memory => SpanCheckFault::Memory,
        fault => SpanCheckFault::Answer(place, fault),
    }
}
