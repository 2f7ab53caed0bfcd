//! The check of the entries of a report of most discriminating functions.

ghost use Rattle.std.specs.Prelude.{◌≡◌, ◌↔◌, ◌<◌, length, slice_get, Some, IsTrue, IfOk, OnOk, IfErr};
ghost use Rattle.ror_value.specs.Over.{IsLawfulIn};
ghost use Rattle.ror_bench.specs.Reports.{IsFreeOfMemory};
ghost use Rattle.ror_entries.specs.Steps.{IfRefused};
ghost use Rattle.ror_system.specs.declared.accept.Multipliers.{Multipliers};
ghost use Rattle.ror_discriminate.specs.declared.entry.EntryBody.TheVariants as bodies;
ghost use Rattle.ror_work_discriminate.specs.Entries.{best_kind, entry_passed, IsProvedBody, RefusesBody, IsProvedEntry, RefusesEntry};
ghost use Rattle.ror_work_discriminate.specs.Steps.{AreDesks};

use crate::maker::is_wide;
use ror_bench::{Bench, Passed, Reason};
use ror_discriminate::{
    ContradictionFault, Entry, EntryBody, OptimalFault, check_best, check_contradiction,
    read_entry, says_nothing_strictly,
};
use ror_entries::{EntryFault, Judge};
use ror_pivot::Optimum;
use ror_proof::ProofFault;
use ror_statement::Statement;
use ror_system::Multipliers;
use ror_table::Table;
use ror_text::{Items, Text};
use std::alloc::Global;
use std::marker::Model;

/// Judges the entries of a report over a bench's table, by the names and the lists of its desks.
#[derive(Drop)]
pub(crate) struct BestJudge<'a> {
    bench: Bench,
    names: Items<Text>,
    lists: Vec<Items<Statement>>,
    bytes: &'a [u8],
}

impl<'a> Model for BestJudge<'a> {
    ghost use Rattle.ror_work_discriminate.specs.Steps.{BestJudging, AreDesks};

    ghost Value = { BestJudging };

    ghost view = { λ j. record {
      table = j.bench.table;
      names = j.names;
      lists = j.lists.items;
      report = j.bytes.now;
    } };

    ghost invariant = { λ j. AreDesks j.bench.table j.names j.lists.items };
}

impl<'a> BestJudge<'a> {
    /// The judge of a report over the bench's table, of desks with these names and lists.
    pub(crate) fn new(
        bench: Bench,
        names: Items<Text>,
        lists: Vec<Items<Statement>>,
        bytes: &'a [u8],
    ) -> BestJudge<'a>
        requires { AreDesks bench.table names lists.items }
        ensures table { result.table ≡ bench.table }
        ensures names { result.names ≡ names }
        ensures lists { result.lists ≡ lists.items }
        ensures report { result.report ≡ bytes.now }
    {
        BestJudge {
            bench,
            names,
            lists,
            bytes,
        }
    }
}

impl<'a> Judge for BestJudge<'a> {
    type Entry = Entry;

    ghost kind = { λ j. best_kind j.table j.names j.lists };

    ghost report = { λ j. j.report };

    fn count(&self) -> u32 {
        self.names.len() as u32
    }

    fn bytes(&self) -> &[u8] {
        self.bytes
    }

    fn read(&mut self, alloc: Global, from: usize) -> Result<(Entry, usize), ProofFault> {
        read_entry(alloc, self.bench.table(), self.bytes, from)
    }

    fn check(&mut self, alloc: Global, place: u32, entry: &Entry) -> Result<Passed, EntryFault> {
        let names = self.names.as_slice();
        let lists = self.lists.as_slice();
        check_entry(alloc, self.bench.table(), names, lists, place, entry)
    }
}

/// Whether the entry is of the desk at the place, and too wide or proved over its list; and what it counts as.
fn check_entry(
    alloc: Global,
    table: &Table,
    names: &[Text],
    lists: &[Items<Statement>],
    place: u32,
    entry: &Entry,
) -> Result<Passed, EntryFault>
    requires desks { AreDesks table.now names.now lists.now }
    requires due { place < length names.now }
    ensures proved { OnOk result (IsProvedEntry table.now names.now lists.now place entry.now) }
    ensures counted { IfOk result (λ passed. passed ≡ entry_passed entry.now) }
    ensures refused { IfErr result
        (IfRefused (RefusesEntry table.now names.now lists.now place entry.now)) }
    ensures pure { IfErr result (IfRefused IsFreeOfMemory) }
{
    if !is_named(name_at(names, place), &entry.desk) {
        return Err(EntryFault::Refused(Reason::WrongBlock));
    }
    let list = list_at(lists, place).as_slice();
    check_body(alloc, table, list, &entry.body)?;
    Ok(passed_of(entry))
}

/// The name of the desk at a place.
pub(crate) fn name_at(names: &[Text], place: u32) -> &Text
    requires { place < length names.now }
    ensures { slice_get names.now place ≡ Some result.now }
{
    &names[place as usize]
}

/// Its list.
pub(crate) fn list_at(lists: &[Items<Statement>], place: u32) -> &Items<Statement>
    requires { place < length lists.now }
    ensures { slice_get lists.now place ≡ Some result.now }
{
    &lists[place as usize]
}

/// Whether the two names are the same.
fn is_named(name: &Text, other: &Text) -> bool
    ensures { IsTrue result ↔ (name.now ≡ other.now) }
{
    name == other
}

/// What an entry counts as.
fn passed_of(entry: &Entry) -> Passed
    ensures { result ≡ entry_passed entry.now }
{
    if is_wide(&entry.body) {
        Passed {
            answers: 0,
            wide: 1,
        }
    } else {
        Passed {
            answers: 1,
            wide: 0,
        }
    }
}

/// Whether a body is too wide, or has its proof over the list.
fn check_body(
    alloc: Global,
    table: &Table,
    list: &[Statement],
    body: &EntryBody,
) -> Result<(), EntryFault>
    requires lawful { IsLawfulIn table.now list.now }
    ensures proved { OnOk result (IsProvedBody table.now list.now body.now) }
    ensures refused { IfErr result (IfRefused (RefusesBody table.now list.now body.now)) }
    ensures pure { IfErr result (IfRefused IsFreeOfMemory) }
{
    match body {
        EntryBody::Best {
            margin,
            total,
            optimum,
        } => check_function(alloc, table, list, margin, total, optimum),
        EntryBody::NoStrictRow => check_none(alloc, table, list),
        EntryBody::Contradiction(multipliers) => {
            check_multipliers(alloc, table, list, multipliers)
        }
        EntryBody::BaseWide(_) | EntryBody::ClimbWide(_) => Ok(()),
    }
}

/// Whether the optimum is accepted over the list, and its solution has this margin.
fn check_function(
    alloc: Global,
    table: &Table,
    list: &[Statement],
    margin: &i128,
    total: &i128,
    optimum: &Optimum,
) -> Result<(), EntryFault>
    requires lawful { IsLawfulIn table.now list.now }
    ensures proved { OnOk result (IsProvedBody table.now list.now (bodies.Best margin.now total.now optimum.now)) }
    ensures refused { IfErr result (IfRefused (RefusesBody table.now list.now (bodies.Best margin.now total.now optimum.now))) }
    ensures pure { IfErr result (IfRefused IsFreeOfMemory) }
{
    match check_best(alloc, table, list, optimum) {
        Ok(found) if found.least == *margin && found.total == *total => Ok(()),
        Ok(_) => Err(EntryFault::Refused(Reason::WrongBlock)),
        Err(OptimalFault::Memory) => Err(EntryFault::Memory),
        Err(fault) => Err(EntryFault::Refused(Reason::Optimal(fault))),
    }
}

/// Whether the list says nothing strictly.
fn check_none(alloc: Global, table: &Table, list: &[Statement]) -> Result<(), EntryFault>
    requires lawful { IsLawfulIn table.now list.now }
    ensures proved { OnOk result (IsProvedBody table.now list.now bodies.NoStrictRow) }
    ensures refused { IfErr result (IfRefused (RefusesBody table.now list.now bodies.NoStrictRow)) }
    ensures pure { IfErr result (IfRefused IsFreeOfMemory) }
{
    match says_nothing_strictly(alloc, table, list) {
        Ok(true) => Ok(()),
        Ok(false) => Err(EntryFault::Refused(Reason::WrongBlock)),
        Err(_) => Err(EntryFault::Memory),
    }
}

/// Whether the multipliers show that the list is contradictory.
fn check_multipliers(
    alloc: Global,
    table: &Table,
    list: &[Statement],
    multipliers: &Multipliers,
) -> Result<(), EntryFault>
    requires lawful { IsLawfulIn table.now list.now }
    ensures proved { OnOk result (IsProvedBody table.now list.now (bodies.Contradiction multipliers.now)) }
    ensures refused { IfErr result (IfRefused (RefusesBody table.now list.now (bodies.Contradiction multipliers.now))) }
    ensures pure { IfErr result (IfRefused IsFreeOfMemory) }
{
    match check_contradiction(alloc, table, list, multipliers) {
        Ok(()) => Ok(()),
        Err(ContradictionFault::NoStrictRow) => Err(EntryFault::Refused(Reason::WrongBlock)),
        Err(ContradictionFault::Multipliers(reject)) => {
            Err(EntryFault::Refused(Reason::Contradiction(reject)))
        }
        Err(ContradictionFault::Memory) => Err(EntryFault::Memory),
    }
}
