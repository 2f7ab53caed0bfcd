//! The check of the entries of a report of spans.

ghost use Rattle.std.specs.Prelude.{◌≡◌, ◌↔◌, ◌<◌, length, IsTrue, IfOk, IfErr, OnOk};
ghost use Rattle.ror_statement.specs.Statements.{statements_in};
ghost use Rattle.ror_value.specs.Over.{IsLawfulIn};
ghost use Rattle.ror_bench.specs.Reports.{IsFreeOfMemory};
ghost use Rattle.ror_confidence.specs.Levels.{AreLevelsOf, level_lists};
ghost use Rattle.ror_confidence.specs.Proof.{IsProvedSpan};
ghost use Rattle.ror_confidence.specs.Steps.{lists_of};
ghost use Rattle.ror_entries.specs.Steps.{IfRefused};
ghost use Rattle.ror_work_levels.specs.Entries.{span_kind, entry_passed, IsOnSpan, IsProvedFor, IsWideForm, RefusesFor, RefusesSpan};
ghost use Rattle.ror_work_levels.specs.Steps.{IsCheckerIn};
ghost use Rattle.ror_work_levels.specs.Entries as spec;
ghost use Rattle.ror_work_levels.specs.Steps as steps;

use ror_bench::{Bench, Passed, Reason};
use ror_confidence::{LevelAnswer, Levels, Span, SpanCheckFault, SpanChecker};
use ror_entries::{EntryFault, Judge, pair_at};
use ror_proof::{ProofFault, Verdict};
use ror_relation::ordered_pairs;
use ror_spans::{Entry, read_entry};
use ror_statement::{Numbered, Pair, Question};
use ror_table::Table;
use std::alloc::{AllocError, Global};
use std::marker::Model;

/// Judges the entries of a report of spans over a bench's table, by the lists of the levels, of which there are so many.
#[derive(Drop)]
pub(crate) struct SpanJudge<'a> {
    bench: Bench,
    pairs: Vec<(usize, usize)>,
    checker: SpanChecker,
    levels: u32,
    bytes: &'a [u8],
}

impl<'a> Model for SpanJudge<'a> {
    ghost use Rattle.ror_confidence.specs.Steps.{lists_of};
    ghost use Rattle.ror_work_levels.specs.Steps.{SpanJudging, IsJudging};

    ghost Value = { SpanJudging };

    ghost view = { λ j. record {
      table = j.bench.table;
      lists = lists_of j.checker.levels.items;
      report = j.bytes.now;
    } };

    ghost invariant = { λ j. IsJudging j.bench.table j.pairs.items j.checker j.levels };
}

impl<'a> SpanJudge<'a> {
    /// The judge of these bytes over these levels of the statements, which are lawful in the bench's table. Its one error is want
    /// of memory.
    pub(crate) fn new(
        alloc: Global,
        bench: Bench,
        standing: &[Numbered],
        levels: &Levels,
        bytes: &'a [u8],
    ) -> Result<SpanJudge<'a>, AllocError>
        requires lawful { IsLawfulIn bench.table (statements_in standing.now) }
        requires levels { AreLevelsOf standing.now levels.now }
        ensures table { IfOk result (λ judge. judge.table ≡ bench.table) }
        ensures lists { IfOk result (λ judge. judge.lists ≡ level_lists standing.now levels.now) }
        ensures report { IfOk result (λ judge. judge.report ≡ bytes.now) }
    {
        prove!(bench.table().alternatives() > 0);
        let pairs = ordered_pairs(alloc, bench.table().alternatives())?;
        let checker = SpanChecker::new(alloc, bench.table(), standing, levels)?;
        Ok(SpanJudge {
            bench,
            pairs,
            checker,
            levels: levels.count,
            bytes,
        })
    }
}

impl<'a> Judge for SpanJudge<'a> {
    type Entry = Entry;

    ghost kind = { λ j. span_kind j.table j.lists };

    ghost report = { λ j. j.report };

    fn count(&self) -> u32 {
        self.pairs.len() as u32
    }

    fn bytes(&self) -> &[u8] {
        self.bytes
    }

    fn read(&mut self, alloc: Global, from: usize) -> Result<(Entry, usize), ProofFault> {
        read_entry(alloc, self.bench.table(), self.bytes, from)
    }

    fn check(&mut self, alloc: Global, place: u32, entry: &Entry) -> Result<Passed, EntryFault> {
        let pair = pair_at(self.pairs.as_slice(), place);
        if pair_of(entry) != pair {
            return Err(EntryFault::Refused(Reason::WrongBlock));
        }
        let table = self.bench.table();
        check_entry(alloc, table, &mut self.checker, self.levels, entry)
    }
}

/// The pair of an entry.
fn pair_of(entry: &Entry) -> (usize, usize)
    ensures { result ≡ spec.pair_of entry.now }
{
    match entry {
        Entry::Known { first, second, .. } | Entry::Wide { first, second, .. } => (*first, *second),
    }
}

/// Judges an entry for its pair: the span and its proof, or the form of the answer that is too wide.
fn check_entry(
    alloc: Global,
    table: &Table,
    checker: &mut SpanChecker,
    levels: u32,
    entry: &Entry,
) -> Result<Passed, EntryFault>
    requires checker { IsCheckerIn table.now checker.old levels }
    requires first { (spec.pair_of entry.now).0 < length table.now.alternatives }
    requires second { (spec.pair_of entry.now).1 < length table.now.alternatives }
    ensures proved { OnOk result (IsProvedFor table.now (lists_of checker.old.levels.items) entry.now) }
    ensures counted { IfOk result (λ passed. passed ≡ entry_passed entry.now) }
    ensures refused { IfErr result (IfRefused (RefusesFor table.now (lists_of checker.old.levels.items) entry.now)) }
    ensures pure { IfErr result (IfRefused IsFreeOfMemory) }
    ensures checker { IsCheckerIn table.now checker.new levels }
    ensures lists { lists_of checker.new.levels.items ≡ lists_of checker.old.levels.items }
{
    match entry {
        Entry::Known {
            first,
            second,
            span,
        } => {
            let pair = Pair {
                first: *first,
                second: *second,
            };
            check_known(alloc, table, checker, levels, pair, span)
        }
        Entry::Wide {
            first,
            second,
            found,
        } => check_wide(levels, *first, *second, found),
    }
}

/// Judges a span by its proof, and counts the answers of that. The checker is of so many levels.
fn check_known(
    alloc: Global,
    table: &Table,
    checker: &mut SpanChecker,
    levels: u32,
    pair: Pair,
    span: &Span,
) -> Result<Passed, EntryFault>
    requires checker { IsCheckerIn table.now checker.old levels }
    requires first { pair.first < length table.now.alternatives }
    requires second { pair.second < length table.now.alternatives }
    ensures proved { OnOk result (IsProvedSpan table.now (lists_of checker.old.levels.items)
        pair.first pair.second span.now) }
    ensures counted { IfOk result (λ passed. passed ≡ record { answers = length span.now.proof; wide = 0 }) }
    ensures refused { IfErr result (IfRefused (RefusesSpan table.now (lists_of checker.old.levels.items)
        pair.first pair.second span.now)) }
    ensures pure { IfErr result (IfRefused IsFreeOfMemory) }
    ensures checker { IsCheckerIn table.now checker.new levels }
    ensures lists { lists_of checker.new.levels.items ≡ lists_of checker.old.levels.items }
{
    match checker.check(alloc, table, pair, span) {
        Ok(()) => Ok(Passed {
            answers: span.proof.len() as u32,
            wide: 0,
        }),
        Err(fault) => Err(refused(fault)),
    }
}

/// Judges the form of an answer that is too wide, where there are so many levels.
fn check_wide(
    levels: u32,
    first: usize,
    second: usize,
    found: &LevelAnswer,
) -> Result<Passed, EntryFault>
    ensures proved { OnOk result (IsWideForm levels first second found.now) }
    ensures counted { IfOk result (λ passed. passed ≡ record { answers = 0; wide = 1 }) }
    ensures refused { IfErr result (λ fault. (fault ≡ EntryFault.Refused Reason.WrongBlock)
        × (IsWideForm levels first second found.now → ⊥)) }
{
    if is_wide_form(levels, first, second, found) {
        Ok(Passed {
            answers: 0,
            wide: 1,
        })
    } else {
        Err(EntryFault::Refused(Reason::WrongBlock))
    }
}

/// Whether the answer is too wide, to a question on the span of the pair, at one of so many levels.
fn is_wide_form(levels: u32, first: usize, second: usize, found: &LevelAnswer) -> bool
    ensures { IsTrue result ↔ IsWideForm levels first second found.now }
{
    if found.level < 1 || found.level > levels {
        return false;
    }
    if !matches!(found.answer.verdict, Verdict::Wide { .. }) {
        return false;
    }
    is_on_span(found.answer.question, first, second)
}

/// Whether the question is one on the span of the pair.
fn is_on_span(question: Question, first: usize, second: usize) -> bool
    ensures { IsTrue result ↔ IsOnSpan first second question }
{
    question == Question::Consistent
        || question == Question::Necessary(first, second)
        || question == Question::Possible(first, second)
}

/// The fault of an entry whose span is refused for this.
fn refused(fault: SpanCheckFault) -> EntryFault
    ensures { result ≡ steps.refused_entry fault }
{
    match fault {
        SpanCheckFault::Range | SpanCheckFault::Shape => EntryFault::Refused(Reason::WrongBlock),
        SpanCheckFault::Answer(answer, fault) => {
            EntryFault::Refused(Reason::Answer(answer, fault))
        }
        SpanCheckFault::Memory => EntryFault::Memory,
    }
}
