//! The making of the entries of a report of spans.

ghost use Rattle.std.specs.Prelude.{◌≡◌, ◌<◌, length, IfOk};
ghost use Rattle.ror_pivot.specs.Answers.{most_of};
ghost use Rattle.ror_statement.specs.Statements.{statements_in};
ghost use Rattle.ror_table.specs.Table.{IsTable};
ghost use Rattle.ror_value.specs.Over.{IsLawfulIn};
ghost use Rattle.ror_confidence.specs.Levels.{AreLevelsOf, level_lists};
ghost use Rattle.ror_confidence.specs.Searching.{IsSearchOf};
ghost use Rattle.ror_spans.specs.Text.{IsPrintableEntry};
ghost use Rattle.ror_work_levels.specs.Entries.{span_kind, pair_of, IsGivenSpan, IsGivenEntry};
ghost use Rattle.ror_work_levels.specs.Steps.{IsWritable};

use crate::decider::LevelDecider;
use ror_bench::Bench;
use ror_confidence::{LevelSearch, Levels, SpanFault};
use ror_entries::{Maker, pair_at};
use ror_pivot::Bits;
use ror_relation::ordered_pairs;
use ror_spans::{Entry, print_entry};
use ror_statement::{Numbered, Pair};
use ror_table::Table;
use std::alloc::{AllocError, Global};
use std::marker::Model;

/// Makes the entries of a report of spans over a bench's table, by a search over the lists of the levels.
#[derive(Drop)]
pub(crate) struct SpanMaker {
    bench: Bench,
    pairs: Vec<(usize, usize)>,
    search: LevelSearch,
    decider: LevelDecider,
    bits: Bits,
}

impl Model for SpanMaker {
    ghost use Rattle.ror_pivot.specs.Answers.{most_of};
    ghost use Rattle.ror_work_levels.specs.Steps.{SpanMaking, IsMaking};

    ghost Value = { SpanMaking };

    ghost view = { λ m. record {
      table = m.bench.table;
      lists = m.search.lists.items;
      most = most_of m.bits;
    } };

    ghost invariant = { λ m. IsMaking m.bench.table m.pairs.items m.search (most_of m.bits) };
}

impl SpanMaker {
    /// The maker over these levels of the statements, which are lawful in the bench's table, at a width. It is decided where the
    /// statements begin to contradict each other. Its one error is want of memory.
    pub(crate) fn new(
        alloc: Global,
        bench: Bench,
        standing: &[Numbered],
        levels: &Levels,
        bits: Bits,
    ) -> Result<SpanMaker, AllocError>
        requires lawful { IsLawfulIn bench.table (statements_in standing.now) }
        requires levels { AreLevelsOf standing.now levels.now }
        ensures table { IfOk result (λ maker. maker.table ≡ bench.table) }
        ensures lists { IfOk result (λ maker. maker.lists ≡ level_lists standing.now levels.now) }
        ensures most { IfOk result (λ maker. maker.most ≡ most_of bits) }
    {
        prove!(bench.table().alternatives() > 0);
        let pairs = ordered_pairs(alloc, bench.table().alternatives())?;
        let mut decider = LevelDecider::new(alloc);
        let search = LevelSearch::new(alloc, &mut decider, bench.table(), standing, levels, bits)?;
        Ok(SpanMaker {
            bench,
            pairs,
            search,
            decider,
            bits,
        })
    }
}

impl Maker for SpanMaker {
    type Entry = Entry;

    ghost kind = { λ m. span_kind m.table m.lists };

    ghost given = { λ m. IsGivenEntry m.most m.table m.lists };

    ghost writable = { λ m. IsWritable m.table };

    fn count(&self) -> u32 {
        self.pairs.len() as u32
    }

    fn make(&mut self, alloc: Global, place: u32) -> Result<Entry, AllocError> {
        let pair = pair_at(self.pairs.as_slice(), place);
        let table = self.bench.table();
        let decider = &mut self.decider;
        entry_of(alloc, table, &mut self.search, decider, pair, self.bits)
    }

    fn print(&self, alloc: Global, entry: &Entry) -> Result<Vec<u8>, AllocError> {
        print_entry(alloc, self.bench.table(), entry)
    }

    fn is_wide(&self, entry: &Entry) -> bool {
        matches!(entry, Entry::Wide { .. })
    }
}

/// The entry of a pair: its span, or the answer on which that depends and which is too wide. Its one error is want of memory.
fn entry_of(
    alloc: Global,
    table: &Table,
    search: &mut LevelSearch,
    decider: &mut LevelDecider,
    pair: (usize, usize),
    bits: Bits,
) -> Result<Entry, AllocError>
    requires table { IsTable table.now }
    requires search { IsSearchOf (most_of bits) table.now search.old }
    requires first { pair.0 < length table.now.alternatives }
    requires second { pair.1 < length table.now.alternatives }
    ensures on { IfOk result (λ x. pair_of x ≡ pair) }
    ensures given { IfOk result (IsGivenSpan (most_of bits) table.now search.old.lists.items) }
    ensures printable { IfOk result (IsPrintableEntry table.now) }
    ensures writable { IfOk result (IsWritable table.now) }
    ensures search { IsSearchOf (most_of bits) table.now search.new }
    ensures lists { search.new.lists.items ≡ search.old.lists.items }
{
    let (first, second) = pair;
    match search.find(alloc, decider, table, Pair { first, second }, bits) {
        Ok(span) => Ok(Entry::Known {
            first,
            second,
            span,
        }),
        Err(SpanFault::Wide(found)) => Ok(Entry::Wide {
            first,
            second,
            found,
        }),
        Err(SpanFault::Memory) => Err(AllocError),
    }
}
