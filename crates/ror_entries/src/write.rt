//! The writing of entries: each before the next one is made, and the line with their number.

ghost use Rattle.std.specs.Prelude.{◌≡◌, ◌<◌, ℕ, nat_lt, IfOk};
ghost use Rattle.ror_entries.specs.Kind.{Kind, WriteTheSame};
ghost use Rattle.ror_entries.specs.Writing.{WritesEntries, MakesEntries, WritesText};

use ror_io::{Sink, SinkFault, write_all};
use ror_report::print_end;
use std::alloc::{AllocError, Global};

/// Why not all entries were written.
#[derive(Clone, Copy, Debug, PartialEq, Eq)]
pub enum EntriesStop {
    /// The stream could not be written.
    Write,
    Memory,
}

impl From<AllocError> for EntriesStop {
    ghost use Rattle.ror_entries.specs.declared.write.EntriesStop.TheVariants.{Memory};

    ghost from_gives = { λ _ stop. stop ≡ Memory };

    fn from(_error: AllocError) -> EntriesStop {
        EntriesStop::Memory
    }
}

impl From<SinkFault> for EntriesStop {
    ghost use Rattle.ror_entries.specs.declared.write.EntriesStop.TheVariants.{Write};

    ghost from_gives = { λ _ stop. stop ≡ Write };

    fn from(_fault: SinkFault) -> EntriesStop {
        EntriesStop::Write
    }
}

/// Makes the entries of a kind, and their texts. Places are counted from 0.
pub trait Maker {
    type Entry: Drop;

    /// The kind of its entries.
    ghost kind: { Self → Kind Self.Entry };

    /// Which entries it may give at a place.
    ghost given: { Self → ℕ → Self.Entry → Type 0 };

    /// Which entries it can write the text of.
    ghost writable: { Self → Self.Entry → Type 0 };

    /// How many entries are due.
    fn count(&self) -> u32
        ensures { result ≡ (kind self.now).count };

    /// Makes the entry of a place. What may be given, and its text, stay as they are.
    fn make(&mut self, alloc: Global, place: u32) -> Result<Self::Entry, AllocError>
        requires { place < (kind self.old).count }
        ensures given { IfOk result (given self.old place) }
        ensures printable { IfOk result (λ x. (kind self.old).IsPrintable x) }
        ensures writable { IfOk result (writable self.new) }
        ensures same { WriteTheSame (kind self.new) (kind self.old) }
        ensures gives { (place : ℕ) (x : Self.Entry) → given self.new place x → given self.old place x };

    /// The text of an entry.
    fn print(&self, alloc: Global, entry: &Self::Entry) -> Result<Vec<u8>, AllocError>
        requires { writable self.now entry.now }
        ensures { IfOk result (λ text. text.items ≡ (kind self.now).text entry.now) };

    /// Whether anything of an entry is too wide.
    fn is_wide(&self, entry: &Self::Entry) -> bool
        ensures { result ≡ nat_lt 0 ((kind self.now).passed entry.now).wide };
}

/// Writes all entries that are due, each before the next one is made, and the line with their number. It says whether anything is
/// too wide. After a write that failed nothing more is written.
pub fn write_entries<M: Maker, O: Sink>(
    alloc: Global,
    maker: &mut M,
    out: &mut O,
) -> Result<bool, EntriesStop>
    ensures { WritesEntries (M.kind maker.old) (M.given maker.old) (O.faults out.old)
        (O.faults out.new) (O.written out.old) (O.written out.new) result }
{
    let count = maker.count();
    let wide = write_each(alloc, maker, count, out)?;
    let end = print_end(alloc, count)?;
    write_all(out, end.as_slice())?;
    Ok(wide)
}

/// Writes the entry of each place, and says whether anything is too wide.
fn write_each<M: Maker, O: Sink>(
    alloc: Global,
    maker: &mut M,
    count: u32,
    out: &mut O,
) -> Result<bool, EntriesStop>
    requires { count ≡ (M.kind maker.old).count }
    ensures { MakesEntries (M.kind maker.old) (M.given maker.old) (O.faults out.old)
        (O.faults out.new) (O.written out.old) (O.written out.new) result }
{
    let mut wide = false;
    for place in 0..count {
        let entry = maker.make(alloc, place)?;
        let written = write_entry(alloc, maker, &entry, out);
        let here = maker.is_wide(&entry);
        // What is dropped on some paths alone takes long to prove.
        drop(entry);
        written?;
        wide = wide || here;
    }
    Ok(wide)
}

/// Writes the text of an entry.
fn write_entry<M: Maker, O: Sink>(
    alloc: Global,
    maker: &M,
    entry: &M::Entry,
    out: &mut O,
) -> Result<(), EntriesStop>
    requires { M.writable maker.now entry.now }
    ensures { WritesText ((M.kind maker.now).text entry.now) (O.faults out.old) (O.faults out.new)
        (O.written out.old) (O.written out.new) result }
{
    let text = maker.print(alloc, entry)?;
    write_all(out, text.as_slice())?;
    Ok(())
}
