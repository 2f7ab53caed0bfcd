//! A shelf in memory of which no fetch fails by a fault.

ghost use Rattle.std.specs.Prelude.{◌≡◌, ◌≢◌, ◌≤◌, ℕ, ◌⊎◌, Option, Some, None, Err, List, IfOk, MatchResult, OnOk, OnErr, IsErrOf};
ghost use Rattle.ror_io.specs.Counts.{Rose, DidNotRise, next_count};
ghost use Rattle.ror_io.specs.Files.{Files, no_files, file, with_file, Lacks, HasFile};

use crate::files::FileMap;
use crate::shelf::{Fetched, Shelf, ShelfFault};
use std::alloc::{AllocError, Global};
use std::marker::Model;

/// Files in memory. It tells its files, and its count of faults is always 0.
#[derive(Drop)]
pub struct SteadyShelf {
    files: FileMap,
    fetches: u64,
}

impl Model for SteadyShelf {
    ghost use Rattle.ror_io.specs.ShelfMemory.{SteadyShelfMemory, steady_shelf_memory_code};

    ghost Value = { SteadyShelfMemory };

    ghost coded = { steady_shelf_memory_code };

    ghost view = { λ shelf. record { files = shelf.files; fetches = shelf.fetches } };
}

impl SteadyShelf {
    ghost use Rattle.ror_io.specs.ShelfMemory.{SteadyShelfMemory};

    /// A shelf with no files.
    pub fn new(alloc: Global) -> SteadyShelf
        ensures { result ≡ record { files = no_files; fetches = 0 } }
    {
        SteadyShelf {
            files: FileMap::new(alloc),
            fetches: 0,
        }
    }

    /// Puts these bytes in the file with this name, in the place of an earlier one. All else stays.
    pub fn put(&mut self, name: &str, bytes: &[u8]) -> Result<(), AllocError>
        ensures named { OnOk result (file self.new.files name.now ≡ Some bytes.now) }
        ensures others { OnOk result ((other : List ℕ) → other ≢ name.now
            → file self.new.files other ≡ file self.old.files other) }
        ensures ok { OnOk result
            (self.new ≡ record self.old { files = with_file self.old.files name.now bytes.now }) }
        ensures err { OnErr result (self.new ≡ self.old) }
    {
        self.files.put(name, bytes)
    }
}

impl Shelf for SteadyShelf {
    ghost use Rattle.ror_io.specs.Fetching.{OnFailed, UnlessFailed, IsNoLonger, Fetches};
    ghost use Rattle.ror_io.specs.ShelfMemory.{no_faults};
    ghost use Rattle.ror_io.specs.declared.shelf.ShelfFault.TheVariants.{Memory};

    ghost told = { λ shelf. Some shelf.files };

    ghost faults = { no_faults };

    ghost fetch_count = { λ shelf. shelf.fetches };

    fn fetch(&mut self, alloc: Global, name: &str, most: usize) -> Result<Fetched, ShelfFault>
        ensures never_falls { no_faults self.old ≤ no_faults self.new }
        ensures told_stays { Some self.new.files ≡ Some self.old.files }
        ensures counted { self.new.fetches ≡ next_count self.old.fetches }

        ensures failed { OnFailed result
            (Rose (no_faults self.old) (no_faults self.new) ⊎ Lacks (Some self.old.files) name.now) }
        ensures missing { Lacks (Some self.old.files) name.now
            → IsErrOf result ShelfFault.Failed × (no_faults self.new ≡ no_faults self.old) }
        ensures other { UnlessFailed result (no_faults self.new ≡ no_faults self.old) }

        ensures within { IfOk result (IsNoLonger most) }
        ensures found { (bytes : List ℕ) → HasFile (Some self.old.files) name.now bytes
            → DidNotRise (no_faults self.old) (no_faults self.new)
            → IfOk result (Fetches bytes most) }

        // A file that is there is fetched, but for want of memory.
        ensures whole { (bytes : List ℕ) → file self.old.files name.now ≡ Some bytes
            → MatchResult result (Fetches bytes most) (λ fault. fault ≡ Memory) }
    {
        self.fetches = self.fetches.saturating_add(1);
        let Some(bytes) = self.files.bytes(name) else {
            return Err(ShelfFault::Failed);
        };
        if bytes.len() > most {
            return Ok(Fetched::Longer);
        }
        Ok(Fetched::Whole(Vec::from_slice(alloc, bytes)?))
    }
}
