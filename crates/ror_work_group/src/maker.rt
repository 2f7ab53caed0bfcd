//! The making of the entries of a group's report.

ghost use Rattle.std.specs.Prelude.{◌≡◌, ◌≤◌, ◌<◌, ◌+◌, length, map, IfOk, OnOk};
ghost use Rattle.std.specs.List.{AllByRecursion};
ghost use Rattle.ror_pivot.specs.Answers.{most_of};
ghost use Rattle.ror_table.specs.Table.{IsTable};
ghost use Rattle.ror_value.specs.Over.{IsLawfulIn};
ghost use Rattle.ror_bench.specs.Bench.{IsLawfulBench};
ghost use Rattle.ror_relation.specs.DecidedLists.{IsDecidedList, statements_of};
ghost use Rattle.ror_group.specs.Combining.{asked_on, InStep};
ghost use Rattle.ror_entries.specs.Kind.{Kind, WriteTheSame};
ghost use Rattle.ror_work_group.specs.Entries.{group_kind, IsGivenFor, IsGivenEntry};
ghost use Rattle.ror_work_group.specs.Steps.{IsWritable};
ghost use Rattle.ror_work_group.specs.Steps as steps;

use crate::judge::copied;
use ror_bench::Bench;
use ror_entries::{Maker, pair_at};
use ror_group::{Entry, combine, print_entry};
use ror_pivot::Bits;
use ror_proof::{Answer, Verdict};
use ror_relation::{DecidedList, ordered_pairs};
use ror_statement::{Pair, Question, Statement};
use ror_table::Table;
use ror_text::Items;
use ror_warm::Engine;
use std::alloc::{AllocError, Global};
use std::marker::Model;

/// Makes the entries of a group's report over a bench's table, from the lists of its desks. Each desk has an engine of its own,
/// so that each goes from a question to the next as if the others weren't there.
#[derive(Drop)]
pub(crate) struct GroupMaker {
    bench: Bench,
    pairs: Vec<(usize, usize)>,
    lists: Vec<DecidedList>,
    engines: Vec<Engine>,
    bits: Bits,
}

impl Model for GroupMaker {
    ghost use Rattle.std.specs.Prelude.{map, length};
    ghost use Rattle.std.specs.List.{AllByRecursion};
    ghost use Rattle.ror_pivot.specs.Answers.{most_of};
    ghost use Rattle.ror_relation.specs.DecidedLists.{IsDecidedList, statements_of};
    ghost use Rattle.ror_work_group.specs.Steps.{GroupMaking, IsMaking};

    ghost Value = { GroupMaking };

    ghost view = { λ m. record {
      table = m.bench.table;
      lists = map statements_of m.lists.items;
      most = most_of m.bits;
    } };

    ghost invariant = { λ m. IsMaking m.bench.table m.pairs.items m.lists.items (length m.engines.items) (most_of m.bits) };
}

impl GroupMaker {
    /// Decides the base of each list, which is lawful in the bench's table, at a width. Its one error is want of memory.
    pub(crate) fn new(
        alloc: Global,
        bench: Bench,
        lists: &[Items<Statement>],
        bits: Bits,
    ) -> Result<GroupMaker, AllocError>
        requires lawful { AllByRecursion (IsLawfulIn bench.table) lists.now }
        requires few { length lists.now ≤ 64 }
        ensures table { IfOk result (λ maker. maker.table ≡ bench.table) }
        ensures lists { IfOk result (λ maker. maker.lists ≡ lists.now) }
        ensures most { IfOk result (λ maker. maker.most ≡ most_of bits) }
    {
        prove!(bench.table().alternatives() > 0);
        let pairs = ordered_pairs(alloc, bench.table().alternatives())?;
        let mut engines = Vec::with_capacity(alloc, lists.len())?;
        let decided = decided_lists(alloc, bench.table(), lists, &mut engines, bits)?;
        Ok(GroupMaker {
            bench,
            pairs,
            lists: decided,
            engines,
            bits,
        })
    }
}

impl Maker for GroupMaker {
    type Entry = Entry;

    ghost kind = { λ m. group_kind m.table m.lists };

    ghost given = { λ m. IsGivenEntry m.most m.table m.lists };

    ghost writable = { λ m. IsWritable m.table };

    fn count(&self) -> u32 {
        self.pairs.len() as u32
    }

    fn make(&mut self, alloc: Global, place: u32) -> Result<Entry, AllocError> {
        let (first, second) = pair_at(self.pairs.as_slice(), place);
        let pair = Pair { first, second };
        let table = self.bench.table();
        let bits = self.bits;
        let on = OnPair { table, pair, bits };
        let lists = self.lists.as_slice();
        let engines = self.engines.as_mut_slice();
        let answers = answers_on(alloc, &on, lists, engines)?;
        let quartet = combine(answers.as_slice());
        Ok(Entry {
            first,
            second,
            answers: Items::from(answers),
            quartet,
        })
    }

    fn print(&self, alloc: Global, entry: &Entry) -> Result<Vec<u8>, AllocError> {
        print_entry(alloc, self.bench.table(), entry)
    }

    fn is_wide(&self, entry: &Entry) -> bool {
        has_wide(entry.answers.as_slice())
    }
}

/// The lists, each with its base, decided by an engine of its own that is added to these.
fn decided_lists(
    alloc: Global,
    table: &Table,
    lists: &[Items<Statement>],
    engines: &mut Vec<Engine>,
    bits: Bits,
) -> Result<Vec<DecidedList>, AllocError>
    requires lawful { AllByRecursion (IsLawfulIn table.now) lists.now }
    requires none { length engines.old.items ≡ 0 }
    ensures decided { IfOk result
        (λ decided. AllByRecursion (IsDecidedList (most_of bits) table.now) decided.items) }
    ensures lists { IfOk result (λ decided. map statements_of decided.items ≡ lists.now) }
    ensures engines { OnOk result (length engines.new.items ≡ length lists.now) }
{
    let mut decided = Vec::with_capacity(alloc, lists.len())?;
    'lists: for list in lists {
        let mut engine = Engine::new(alloc);
        let statements = copied(alloc, list)?;
        decided.push(DecidedList::new(alloc, &mut engine, table, statements, bits)?)?;
        engines.push(engine)?;
    }
    Ok(decided)
}

/// On which pair the desks answer, over which table and at which width.
#[derive(Clone, Copy)]
struct OnPair<'a> {
    table: &'a Table,
    pair: Pair,
    bits: Bits,
}

/// The answers on a pair: of each list in order whether the first is necessarily worth at least as much as the second, and then
/// whether possibly, each list by its engine.
fn answers_on(
    alloc: Global,
    on: &OnPair<'_>,
    lists: &[DecidedList],
    engines: &mut [Engine],
) -> Result<Vec<Answer>, AllocError>
    requires decided { AllByRecursion (IsDecidedList (most_of on.now.bits) on.now.table.now) lists.now }
    requires engines { length engines.old ≡ length lists.now }
    requires few { length lists.now ≤ 64 }
    requires first { on.now.pair.first < length on.now.table.now.alternatives }
    requires second { on.now.pair.second < length on.now.table.now.alternatives }
    ensures given { IfOk result (λ answers. InStep (IsGivenFor (most_of on.now.bits) on.now.table.now)
        (asked_on on.now.pair.first on.now.pair.second (map statements_of lists.now)) answers.items) }
    ensures engines { length engines.new ≡ length engines.old }
{
    let mut answers = Vec::with_capacity(alloc, 2 * lists.len())?;
    for (place, list) in lists.iter().enumerate() {
        let engine = &mut engines[place];
        push_both(alloc, on, list, engine, &mut answers)?;
    }
    Ok(answers)
}

/// Adds a list's two answers on a pair.
fn push_both(
    alloc: Global,
    on: &OnPair<'_>,
    list: &DecidedList,
    engine: &mut Engine,
    answers: &mut Vec<Answer>,
) -> Result<(), AllocError>
    requires decided { IsDecidedList (most_of on.now.bits) on.now.table.now list.now }
    requires first { on.now.pair.first < length on.now.table.now.alternatives }
    requires second { on.now.pair.second < length on.now.table.now.alternatives }
    ensures { OnOk result (steps.HasBoth (most_of on.now.bits) on.now.table.now (statements_of list.now)
        on.now.pair.first on.now.pair.second answers.old.items answers.new.items) }
{
    let pair = on.pair;
    let necessary = Question::Necessary(pair.first, pair.second);
    answers.push(list.answer(alloc, engine, on.table, &necessary, on.bits)?)?;
    let possible = Question::Possible(pair.first, pair.second);
    answers.push(list.answer(alloc, engine, on.table, &possible, on.bits)?)?;
    Ok(())
}

/// Whether one of the answers is too wide.
fn has_wide(answers: &[Answer]) -> bool
    ensures { result ≡ steps.has_wide answers.now }
{
    answers
        .iter()
        .any(|answer| matches!(answer.verdict, Verdict::Wide { .. }))
}
