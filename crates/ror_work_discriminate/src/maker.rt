//! The making of the entries of a report of most discriminating functions.

ghost use Rattle.std.specs.Prelude.{◌≡◌, ◌<◌, true, length, slice_get, Some, IfOk};
ghost use Rattle.ror_pivot.specs.Answers.{most_of};
ghost use Rattle.ror_table.specs.Table.{IsTable};
ghost use Rattle.ror_value.specs.Over.{IsLawfulIn};
ghost use Rattle.ror_discriminate.specs.Head.{is_desk_name};
ghost use Rattle.ror_discriminate.specs.Text.{IsPrintableBody, IsPrintableEntry};
ghost use Rattle.ror_work_discriminate.specs.Entries.{best_kind, is_wide_body, IsGivenBody, IsGivenEntry};
ghost use Rattle.ror_work_discriminate.specs.Steps.{AreDesks, AreNames, IsWritable};

use crate::judge::{list_at, name_at};
use ror_bench::Bench;
use ror_discriminate::{Best, DiscriminateFault, Entry, EntryBody, find_best, print_entry};
use ror_entries::Maker;
use ror_pivot::Bits;
use ror_statement::Statement;
use ror_table::Table;
use ror_text::{Items, Text};
use std::alloc::{AllocError, Global};
use std::marker::Model;

/// Makes the entries of a report over a bench's table, from the names and the lists of its desks.
#[derive(Drop)]
pub(crate) struct BestMaker {
    bench: Bench,
    names: Items<Text>,
    lists: Vec<Items<Statement>>,
    bits: Bits,
}

impl Model for BestMaker {
    ghost use Rattle.ror_pivot.specs.Answers.{most_of};
    ghost use Rattle.ror_work_discriminate.specs.Steps.{BestMaking, AreDesks, AreNames};

    ghost Value = { BestMaking };

    ghost view = { λ m. record {
      table = m.bench.table;
      names = m.names;
      lists = m.lists.items;
      most = most_of m.bits;
    } };

    ghost invariant = { λ m. AreDesks m.bench.table m.names m.lists.items × AreNames m.names };
}

impl BestMaker {
    /// The maker over the bench's table of desks with these names and lists, at a width.
    pub(crate) fn new(
        bench: Bench,
        names: Items<Text>,
        lists: Vec<Items<Statement>>,
        bits: Bits,
    ) -> BestMaker
        requires desks { AreDesks bench.table names lists.items }
        requires names { AreNames names }
        ensures table { result.table ≡ bench.table }
        ensures names { result.names ≡ names }
        ensures lists { result.lists ≡ lists.items }
        ensures most { result.most ≡ most_of bits }
    {
        BestMaker {
            bench,
            names,
            lists,
            bits,
        }
    }
}

impl Maker for BestMaker {
    type Entry = Entry;

    ghost kind = { λ m. best_kind m.table m.names m.lists };

    ghost given = { λ m. IsGivenEntry m.most m.table m.names m.lists };

    ghost writable = { λ m. IsWritable };

    fn count(&self) -> u32 {
        self.names.len() as u32
    }

    fn make(&mut self, alloc: Global, place: u32) -> Result<Entry, AllocError> {
        let names = self.names.as_slice();
        let lists = self.lists.as_slice();
        entry_of(alloc, self.bench.table(), names, lists, place, self.bits)
    }

    fn print(&self, alloc: Global, entry: &Entry) -> Result<Vec<u8>, AllocError> {
        print_entry(alloc, self.bench.table(), entry)
    }

    fn is_wide(&self, entry: &Entry) -> bool {
        is_wide(&entry.body)
    }
}

/// The entry of the desk at a place. Its one error is want of memory.
fn entry_of(
    alloc: Global,
    table: &Table,
    names: &[Text],
    lists: &[Items<Statement>],
    place: u32,
    bits: Bits,
) -> Result<Entry, AllocError>
    requires desks { AreDesks table.now names.now lists.now }
    requires names { AreNames names.now }
    requires due { place < length names.now }
    ensures given { IfOk result (IsGivenEntry (most_of bits) table.now names.now lists.now place) }
    ensures printable { IfOk result IsPrintableEntry }
{
    let desk = copied_name(alloc, names, place)?;
    let body = body_of(alloc, table, list_at(lists, place).as_slice(), bits)?;
    Ok(Entry { desk, body })
}

/// The name of the desk at a place again, which is one that a session may have.
fn copied_name(alloc: Global, names: &[Text], place: u32) -> Result<Text, AllocError>
    requires names { AreNames names.now }
    requires due { place < length names.now }
    ensures there { IfOk result (λ name. slice_get names.now place ≡ Some name) }
    ensures named { IfOk result (λ name. is_desk_name name ≡ true) }
{
    Text::copied(alloc, name_at(names, place).as_str())
}

/// What a list's most discriminating function is, or why there is none. Its one error is want of memory.
fn body_of(
    alloc: Global,
    table: &Table,
    list: &[Statement],
    bits: Bits,
) -> Result<EntryBody, AllocError>
    requires table { IsTable table.now }
    requires lawful { IsLawfulIn table.now list.now }
    ensures given { IfOk result (IsGivenBody (most_of bits) table.now list.now) }
    ensures printable { IfOk result IsPrintableBody }
{
    match find_best(alloc, table, list, bits) {
        Ok(Best { margin, optimum }) => Ok(EntryBody::Best {
            margin: margin.least,
            total: margin.total,
            optimum,
        }),
        Err(DiscriminateFault::NoStrictRow) => Ok(EntryBody::NoStrictRow),
        Err(DiscriminateFault::Contradictory(multipliers)) => {
            Ok(EntryBody::Contradiction(multipliers))
        }
        Err(DiscriminateFault::BaseWide(note)) => Ok(EntryBody::BaseWide(note)),
        Err(DiscriminateFault::Wide(note)) => Ok(EntryBody::ClimbWide(note)),
        Err(DiscriminateFault::Memory) => Err(AllocError),
    }
}

/// Whether a body is too wide.
pub(crate) fn is_wide(body: &EntryBody) -> bool
    ensures { result ≡ is_wide_body body.now }
{
    matches!(body, EntryBody::BaseWide(_) | EntryBody::ClimbWide(_))
}
