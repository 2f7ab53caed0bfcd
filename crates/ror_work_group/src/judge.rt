//! The check of the entries of a group's report.

ghost use Rattle.std.specs.Prelude.{◌≡◌, ◌≤◌, ◌<◌, length, IfOk, IfErr, OnOk};
ghost use Rattle.std.specs.List.{AllByRecursion};
ghost use Rattle.ror_value.specs.Over.{IsLawfulIn};
ghost use Rattle.ror_bench.specs.Blocks.{answers_passed};
ghost use Rattle.ror_bench.specs.Reports.{IsFreeOfMemory};
ghost use Rattle.ror_group.specs.Proof.{IsJudgeIn, IsProvedPair, lists_of};
ghost use Rattle.ror_entries.specs.Steps.{IfRefused};
ghost use Rattle.ror_work_group.specs.Steps.{RefusesPair};
ghost use Rattle.ror_work_group.specs.Steps as steps;

use ror_bench::{Passed, Reason};
use ror_entries::{EntryFault, pair_at};
use ror_group::{Entry, EntryReader, GroupFault, Judge, check_pair_by};
use ror_proof::ProofFault;
use ror_relation::ordered_pairs;
use ror_statement::{Pair, Statement};
use ror_table::Table;
use ror_text::Items;
use std::alloc::{AllocError, Global};
use std::marker::Model;

/// Judges the entries of a group's report over a table, by the lists of its desks.
#[derive(Drop)]
pub(crate) struct GroupJudge<'a> {
    table: &'a Table,
    pairs: Vec<(usize, usize)>,
    judges: Vec<Judge>,
    reader: EntryReader<'a>,
}

impl<'a> Model for GroupJudge<'a> {
    ghost use Rattle.ror_group.specs.Proof.{lists_of};
    ghost use Rattle.ror_work_group.specs.Steps.{GroupJudging, IsJudging};

    ghost Value = { GroupJudging };

    ghost view = { λ j. record {
      table = j.table.now;
      lists = lists_of j.judges.items;
      report = j.reader;
    } };

    ghost invariant = { λ j. IsJudging j.table.now j.pairs.items j.judges.items };
}

impl<'a> GroupJudge<'a> {
    /// Makes a checker for each list, which is lawful in the table, and a reader of these bytes. Its one error is want of memory.
    pub(crate) fn new(
        alloc: Global,
        table: &'a Table,
        lists: &[Items<Statement>],
        bytes: &'a [u8],
    ) -> Result<GroupJudge<'a>, AllocError>
        requires lawful { AllByRecursion (IsLawfulIn table.now) lists.now }
        requires few { length lists.now ≤ 64 }
        ensures table { IfOk result (λ judge. judge.table ≡ table.now) }
        ensures lists { IfOk result (λ judge. judge.lists ≡ lists.now) }
        ensures report { IfOk result (λ judge. judge.report ≡ bytes.now) }
    {
        prove!(table.alternatives() > 0);
        let pairs = ordered_pairs(alloc, table.alternatives())?;
        let judges = judges_of(alloc, table, lists)?;
        Ok(GroupJudge {
            table,
            pairs,
            judges,
            reader: EntryReader::new(alloc, bytes),
        })
    }
}

/// A judge for each list.
fn judges_of(
    alloc: Global,
    table: &Table,
    lists: &[Items<Statement>],
) -> Result<Vec<Judge>, AllocError>
    requires lawful { AllByRecursion (IsLawfulIn table.now) lists.now }
    ensures judges { IfOk result (λ judges. AllByRecursion (IsJudgeIn table.now) judges.items) }
    ensures lists { IfOk result (λ judges. lists_of judges.items ≡ lists.now) }
{
    let mut judges = Vec::with_capacity(alloc, lists.len())?;
    'lists: for list in lists {
        judges.push(Judge::new(alloc, table, copied(alloc, list)?)?)?;
    }
    Ok(judges)
}

/// The same statements again.
pub(crate) fn copied(alloc: Global, list: &Items<Statement>) -> Result<Items<Statement>, AllocError>
    ensures { IfOk result (λ copy. copy ≡ list.now) }
{
    let mut statements = Vec::new(alloc);
    statements.extend_from_slice(list.as_slice())?;
    Ok(Items::from(statements))
}

impl<'a> ror_entries::Judge for GroupJudge<'a> {
    type Entry = Entry;

    ghost use Rattle.ror_work_group.specs.Entries.{group_kind};

    ghost kind = { λ j. group_kind j.table j.lists };

    ghost report = { λ j. j.report };

    fn count(&self) -> u32 {
        self.pairs.len() as u32
    }

    fn bytes(&self) -> &[u8] {
        self.reader.bytes()
    }

    fn read(&mut self, alloc: Global, from: usize) -> Result<(Entry, usize), ProofFault> {
        self.reader.read(alloc, self.table, from)
    }

    fn check(&mut self, alloc: Global, place: u32, entry: &Entry) -> Result<Passed, EntryFault> {
        let (first, second) = pair_at(self.pairs.as_slice(), place);
        if entry.first != first || entry.second != second {
            return Err(EntryFault::Refused(Reason::WrongBlock));
        }
        check_on(alloc, self.table, &mut self.judges, entry)
    }
}

/// Judges the answers and the words of an entry for its pair.
fn check_on(
    alloc: Global,
    table: &Table,
    judges: &mut Vec<Judge>,
    entry: &Entry,
) -> Result<Passed, EntryFault>
    requires few { length judges.old.items ≤ 64 }
    requires judges { AllByRecursion (IsJudgeIn table.now) judges.old.items }
    requires first { entry.now.first < length table.now.alternatives }
    requires second { entry.now.second < length table.now.alternatives }
    ensures proved { OnOk result (IsProvedPair table.now (lists_of judges.old.items)
        entry.now.first entry.now.second entry.now.answers entry.now.quartet) }
    ensures counted { IfOk result (λ passed. passed ≡ answers_passed entry.now.answers) }
    ensures refused { IfErr result (IfRefused (RefusesPair table.now (lists_of judges.old.items) entry.now)) }
    ensures pure { IfErr result (IfRefused IsFreeOfMemory) }
    ensures judges { AllByRecursion (IsJudgeIn table.now) judges.new.items }
    ensures lists { lists_of judges.new.items ≡ lists_of judges.old.items }
    ensures length { length judges.new.items ≡ length judges.old.items }
{
    let answers = entry.answers.as_slice();
    let pair = Pair {
        first: entry.first,
        second: entry.second,
    };
    let checked = check_pair_by(
        alloc,
        table,
        judges.as_mut_slice(),
        pair,
        answers,
        &entry.quartet,
    );
    match checked {
        Ok(()) => Ok(Passed::of(answers)),
        Err(fault) => Err(refused(fault)),
    }
}

/// The fault of an entry of which this is refused.
fn refused(fault: GroupFault) -> EntryFault
    ensures { result ≡ steps.refused_entry fault }
{
    match fault {
        GroupFault::Count | GroupFault::WrongQuartet => EntryFault::Refused(Reason::WrongBlock),
        GroupFault::Answer(answer, fault) => { EntryFault::Refused(Reason::Answer(answer, fault)) }
        GroupFault::Memory => EntryFault::Memory,
    }
}
