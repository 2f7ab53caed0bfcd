//! The check of the entries of a report of ranks.

ghost use Rattle.std.specs.Prelude.{◌≡◌, ◌↔◌, ◌≤◌, ◌<◌, ◌^◌, length, slice_get, Some, IsTrue, IfOk, OnOk, IfErr};
ghost use Rattle.std.specs.List.{count_by};
ghost use Rattle.ror_value.specs.Over.{IsLawfulIn};
ghost use Rattle.ror_bench.specs.Reports.{IsFreeOfMemory};
ghost use Rattle.ror_entries.specs.Steps.{IfRefused};
ghost use Rattle.ror_ranks_text.specs.declared.entry.EntryBody.TheVariants as bodies;
ghost use Rattle.ror_ranks.specs.Proof as proof;
ghost use Rattle.ror_work_ranks.specs.Entries.{body_passed, ranks_kind, IsProvedBody, RefusesBody, IsProvedEntry, RefusesEntry};
ghost use Rattle.ror_work_ranks.specs.Steps.{AreDesks, HasFewRanks};

use ror_bench::{Bench, Passed, Reason};
use ror_entries::{EntryFault, Judge};
use ror_proof::ProofFault;
use ror_ranks::{Extreme, RanksFault, Said, check_ranks, refutation_fault};
use ror_ranks_text::{Entry, EntryBody, read_entry};
use ror_statement::Statement;
use ror_system::Multipliers;
use ror_table::Table;
use ror_text::{Items, Text};
use std::alloc::Global;
use std::marker::Model;

/// Judges the entries of a report over a bench's table, by the names and the lists of its desks.
#[derive(Drop)]
pub(crate) struct RanksJudge<'a> {
    bench: Bench,
    names: Items<Text>,
    lists: Vec<Items<Statement>>,
    bytes: &'a [u8],
}

impl<'a> Model for RanksJudge<'a> {
    ghost use Rattle.ror_work_ranks.specs.Steps.{RanksJudging, AreDesks};

    ghost Value = { RanksJudging };

    ghost view = { λ j. record {
      table = j.bench.table;
      names = j.names;
      lists = j.lists.items;
      report = j.bytes.now;
    } };

    ghost invariant = { λ j. AreDesks j.bench.table j.names j.lists.items };
}

impl<'a> RanksJudge<'a> {
    /// The judge of a report over the bench's table, of desks with these names and lists.
    pub(crate) fn new(
        bench: Bench,
        names: Items<Text>,
        lists: Vec<Items<Statement>>,
        bytes: &'a [u8],
    ) -> RanksJudge<'a>
        requires { AreDesks bench.table names lists.items }
        ensures table { result.table ≡ bench.table }
        ensures names { result.names ≡ names }
        ensures lists { result.lists ≡ lists.items }
        ensures report { result.report ≡ bytes.now }
    {
        RanksJudge {
            bench,
            names,
            lists,
            bytes,
        }
    }
}

impl<'a> Judge for RanksJudge<'a> {
    type Entry = Entry;

    ghost kind = { λ j. ranks_kind j.table j.names j.lists };

    ghost report = { λ j. j.report };

    fn count(&self) -> u32 {
        self.names.len() as u32
    }

    fn bytes(&self) -> &[u8] {
        self.bytes
    }

    fn read(&mut self, alloc: Global, from: usize) -> Result<(Entry, usize), ProofFault> {
        read_entry(alloc, self.bench.table(), self.bytes, from)
    }

    fn check(&mut self, alloc: Global, place: u32, entry: &Entry) -> Result<Passed, EntryFault> {
        let names = self.names.as_slice();
        let lists = self.lists.as_slice();
        check_entry(alloc, self.bench.table(), names, lists, place, entry)
    }
}

/// Whether the entry is of the desk at the place, and too wide or proved over its list; and what it counts as.
fn check_entry(
    alloc: Global,
    table: &Table,
    names: &[Text],
    lists: &[Items<Statement>],
    place: u32,
    entry: &Entry,
) -> Result<Passed, EntryFault>
    requires desks { AreDesks table.now names.now lists.now }
    requires due { place < length names.now }
    requires few { HasFewRanks entry.now.body }
    ensures proved { OnOk result (IsProvedEntry table.now names.now lists.now place entry.now) }
    ensures counted { IfOk result (λ passed. passed ≡ body_passed entry.now.body) }
    ensures refused { IfErr result
        (IfRefused (RefusesEntry table.now names.now lists.now place entry.now)) }
    ensures pure { IfErr result (IfRefused IsFreeOfMemory) }
{
    if !is_named(name_at(names, place), &entry.desk) {
        return Err(EntryFault::Refused(Reason::WrongBlock));
    }
    let list = list_at(lists, place).as_slice();
    check_body(alloc, table, list, &entry.body)?;
    Ok(passed_of(&entry.body))
}

/// The name of the desk at a place.
pub(crate) fn name_at(names: &[Text], place: u32) -> &Text
    requires { place < length names.now }
    ensures { slice_get names.now place ≡ Some result.now }
{
    &names[place as usize]
}

/// Its list.
pub(crate) fn list_at(lists: &[Items<Statement>], place: u32) -> &Items<Statement>
    requires { place < length lists.now }
    ensures { slice_get lists.now place ≡ Some result.now }
{
    &lists[place as usize]
}

/// Whether the two names are the same.
fn is_named(name: &Text, other: &Text) -> bool
    ensures { IsTrue result ↔ (name.now ≡ other.now) }
{
    name == other
}

/// What a body counts as.
fn passed_of(body: &EntryBody) -> Passed
    requires few { HasFewRanks body.now }
    ensures { result ≡ body_passed body.now }
{
    match body {
        EntryBody::Ranks(extremes) => {
            let wide = wide_count(extremes.as_slice());
            Passed {
                answers: (extremes.len() - wide) as u32,
                wide: wide as u32,
            }
        }
        EntryBody::Contradiction(_) => Passed {
            answers: 1,
            wide: 0,
        },
        EntryBody::BaseWide(_) => Passed {
            answers: 0,
            wide: 1,
        },
    }
}

/// How many of these are too wide.
pub(crate) fn wide_count(extremes: &[Extreme]) -> usize
    ensures count { result ≡ count_by (λ x. proof.is_wide x.said) extremes.now }
    ensures within { result ≤ length extremes.now }
{
    let mut count = 0;
    for extreme in extremes {
        if is_wide(&extreme.said) {
            count += 1;
        }
    }
    count
}

/// Whether this is too wide.
fn is_wide(said: &Said) -> bool
    ensures { result ≡ proof.is_wide said.now }
{
    matches!(said, Said::Wide(_))
}

/// Whether a body is too wide, or has its proof over the list.
fn check_body(
    alloc: Global,
    table: &Table,
    list: &[Statement],
    body: &EntryBody,
) -> Result<(), EntryFault>
    requires lawful { IsLawfulIn table.now list.now }
    ensures proved { OnOk result (IsProvedBody table.now list.now body.now) }
    ensures refused { IfErr result (IfRefused (RefusesBody table.now list.now body.now)) }
    ensures pure { IfErr result (IfRefused IsFreeOfMemory) }
{
    match body {
        EntryBody::Ranks(extremes) => check_each(alloc, table, list, extremes.as_slice()),
        EntryBody::Contradiction(multipliers) => {
            check_multipliers(alloc, table, list, multipliers)
        }
        EntryBody::BaseWide(_) => Ok(()),
    }
}

/// Whether these are the extreme ranks over the list, each proved or too wide.
fn check_each(
    alloc: Global,
    table: &Table,
    list: &[Statement],
    extremes: &[Extreme],
) -> Result<(), EntryFault>
    requires lawful { IsLawfulIn table.now list.now }
    ensures proved { OnOk result (IsProvedBody table.now list.now (bodies.Ranks extremes.now)) }
    ensures refused { IfErr result (IfRefused (RefusesBody table.now list.now (bodies.Ranks extremes.now))) }
    ensures pure { IfErr result (IfRefused IsFreeOfMemory) }
{
    match check_ranks(alloc, table, list, extremes) {
        Ok(()) => Ok(()),
        Err(RanksFault::NotDue) => Err(EntryFault::Refused(Reason::WrongBlock)),
        Err(RanksFault::Extreme(place, fault)) => {
            Err(EntryFault::Refused(Reason::Rank(place, fault)))
        }
        Err(RanksFault::Memory) => Err(EntryFault::Memory),
    }
}

/// Whether the multipliers show that the list is contradictory.
fn check_multipliers(
    alloc: Global,
    table: &Table,
    list: &[Statement],
    multipliers: &Multipliers,
) -> Result<(), EntryFault>
    requires lawful { IsLawfulIn table.now list.now }
    ensures proved { OnOk result (IsProvedBody table.now list.now (bodies.Contradiction multipliers.now)) }
    ensures refused { IfErr result (IfRefused (RefusesBody table.now list.now (bodies.Contradiction multipliers.now))) }
    ensures pure { IfErr result (IfRefused IsFreeOfMemory) }
{
    match refutation_fault(alloc, table, list, multipliers) {
        Ok(None) => Ok(()),
        Ok(Some(reject)) => Err(EntryFault::Refused(Reason::Contradiction(reject))),
        Err(_) => Err(EntryFault::Memory),
    }
}
