//! The making of the entries of a report of ranks.

ghost use Rattle.std.specs.Prelude.{◌≡◌, ◌≤◌, ◌<◌, true, length, slice_get, nat_lt, Some, IfOk};
ghost use Rattle.ror_pivot.specs.Answers.{most_of};
ghost use Rattle.ror_table.specs.Table.{IsTable};
ghost use Rattle.ror_value.specs.Over.{IsLawfulIn};
ghost use Rattle.ror_report.specs.Desk.{is_desk_name};
ghost use Rattle.ror_ranks_text.specs.Given.{IsGivenBody};
ghost use Rattle.ror_ranks_text.specs.Text.{IsPrintableBody, IsPrintableEntry};
ghost use Rattle.ror_work_ranks.specs.Entries.{body_passed, ranks_kind, IsGivenEntry};
ghost use Rattle.ror_work_ranks.specs.Steps.{AreDesks, AreNames, IsWritable};

use crate::judge::{list_at, name_at, wide_count};
use ror_bench::Bench;
use ror_entries::Maker;
use ror_pivot::Bits;
use ror_ranks_find::{RankingFault, find_ranks};
use ror_ranks_text::{Entry, EntryBody, print_entry};
use ror_statement::Statement;
use ror_table::Table;
use ror_text::{Items, Text};
use ror_warm::Engine;
use std::alloc::{AllocError, Global};
use std::marker::Model;

/// Makes the entries of a report over a bench's table, from the names and the lists of its desks. One engine goes from a desk to the
/// next.
#[derive(Drop)]
pub(crate) struct RanksMaker {
    bench: Bench,
    names: Items<Text>,
    lists: Vec<Items<Statement>>,
    engine: Engine,
    bits: Bits,
}

impl Model for RanksMaker {
    ghost use Rattle.ror_pivot.specs.Answers.{most_of};
    ghost use Rattle.ror_work_ranks.specs.Steps.{RanksMaking, AreDesks, AreNames};

    ghost Value = { RanksMaking };

    ghost view = { λ m. record {
      table = m.bench.table;
      names = m.names;
      lists = m.lists.items;
      most = most_of m.bits;
    } };

    ghost invariant = { λ m. AreDesks m.bench.table m.names m.lists.items × AreNames m.names };
}

impl RanksMaker {
    /// The maker over the bench's table of desks with these names and lists, at a width.
    pub(crate) fn new(
        alloc: Global,
        bench: Bench,
        names: Items<Text>,
        lists: Vec<Items<Statement>>,
        bits: Bits,
    ) -> RanksMaker
        requires desks { AreDesks bench.table names lists.items }
        requires names { AreNames names }
        ensures table { result.table ≡ bench.table }
        ensures names { result.names ≡ names }
        ensures lists { result.lists ≡ lists.items }
        ensures most { result.most ≡ most_of bits }
    {
        RanksMaker {
            bench,
            names,
            lists,
            engine: Engine::new(alloc),
            bits,
        }
    }
}

impl Maker for RanksMaker {
    type Entry = Entry;

    ghost kind = { λ m. ranks_kind m.table m.names m.lists };

    ghost given = { λ m. IsGivenEntry m.most m.table m.names m.lists };

    ghost writable = { λ m. IsWritable m.table };

    fn count(&self) -> u32 {
        self.names.len() as u32
    }

    fn make(&mut self, alloc: Global, place: u32) -> Result<Entry, AllocError> {
        let desks = Desks {
            names: self.names.as_slice(),
            lists: self.lists.as_slice(),
        };
        let table = self.bench.table();
        entry_of(alloc, &mut self.engine, table, desks, place, self.bits)
    }

    fn print(&self, alloc: Global, entry: &Entry) -> Result<Vec<u8>, AllocError> {
        print_entry(alloc, self.bench.table(), entry)
    }

    fn is_wide(&self, entry: &Entry) -> bool {
        has_wide(&entry.body)
    }
}

/// The names and the lists of the desks.
#[derive(Clone, Copy)]
struct Desks<'a> {
    names: &'a [Text],
    lists: &'a [Items<Statement>],
}

/// The entry of the desk at a place. Its one error is want of memory.
fn entry_of(
    alloc: Global,
    engine: &mut Engine,
    table: &Table,
    desks: Desks<'_>,
    place: u32,
    bits: Bits,
) -> Result<Entry, AllocError>
    requires desks { AreDesks table.now desks.names.now desks.lists.now }
    requires names { AreNames desks.names.now }
    requires due { place < length desks.names.now }
    ensures given { IfOk result
        (IsGivenEntry (most_of bits) table.now desks.entry.names.now desks.entry.lists.now place) }
    ensures printable { IfOk result (IsPrintableEntry table.now) }
{
    let desk = copied_name(alloc, desks.names, place)?;
    let list = list_at(desks.lists, place).as_slice();
    let body = body_of(alloc, engine, table, list, bits)?;
    Ok(Entry { desk, body })
}

/// The name of the desk at a place again, which is one that a session may have.
fn copied_name(alloc: Global, names: &[Text], place: u32) -> Result<Text, AllocError>
    requires names { AreNames names.now }
    requires due { place < length names.now }
    ensures there { IfOk result (λ name. slice_get names.now place ≡ Some name) }
    ensures named { IfOk result (λ name. is_desk_name name ≡ true) }
{
    Text::copied(alloc, name_at(names, place).as_str())
}

/// The extreme ranks over a list, or why there are none. Its one error is want of memory.
fn body_of(
    alloc: Global,
    engine: &mut Engine,
    table: &Table,
    list: &[Statement],
    bits: Bits,
) -> Result<EntryBody, AllocError>
    requires table { IsTable table.now }
    requires lawful { IsLawfulIn table.now list.now }
    ensures given { IfOk result (IsGivenBody (most_of bits) table.now list.now) }
    ensures printable { IfOk result (IsPrintableBody table.now) }
    ensures counted { engine.old.pivots ≤ engine.new.pivots }
{
    match find_ranks(alloc, engine, table, list, bits) {
        Ok(extremes) => Ok(EntryBody::Ranks(Items::from(extremes))),
        Err(RankingFault::Contradictory(multipliers)) => {
            Ok(EntryBody::Contradiction(multipliers))
        }
        Err(RankingFault::BaseWide(note)) => Ok(EntryBody::BaseWide(note)),
        Err(RankingFault::Memory) => Err(AllocError),
    }
}

/// Whether anything of a body is too wide.
fn has_wide(body: &EntryBody) -> bool
    ensures { result ≡ nat_lt 0 (body_passed body.now).wide }
{
    match body {
        EntryBody::Ranks(extremes) => wide_count(extremes.as_slice()) > 0,
        EntryBody::Contradiction(_) => false,
        EntryBody::BaseWide(_) => true,
    }
}
