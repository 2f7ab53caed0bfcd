//! A shelf in memory.

ghost use Rattle.std.specs.Prelude.{◌≡◌, ◌≢◌, ◌≤◌, ℕ, ◌⊎◌, Option, Some, Err, List, IfOk, MatchResult, OnOk, OnErr, IsErrOf, Contains};
ghost use Rattle.ror_io.specs.Counts.{Rose, DidNotRise, next_count};
ghost use Rattle.ror_io.specs.Files.{Files, no_files, file, with_file, Lacks, HasFile};

use crate::calls::CallCounter;
use crate::files::FileMap;
use crate::shelf::{Fetched, Shelf, ShelfFault};
use std::alloc::{AllocError, Global};
use std::marker::Model;

/// Files in memory, with chosen fetches that fail. It tells its files.
#[derive(Drop)]
pub struct MemoryShelf {
    files: FileMap,
    calls: CallCounter,
    faults: u64,
}

impl Model for MemoryShelf {
    ghost use Rattle.ror_io.specs.ShelfMemory.{ShelfMemory, shelf_memory_code};

    ghost Value = { ShelfMemory };

    ghost coded = { shelf_memory_code };

    ghost view = { λ shelf. record { files = shelf.files; calls = shelf.calls; faults = shelf.faults } };
}

impl MemoryShelf {
    ghost use Rattle.ror_io.specs.Calls.{no_calls, with_failing};
    ghost use Rattle.ror_io.specs.ShelfMemory.{ShelfMemory};

    /// A shelf with no files, of which no fetch is to fail.
    pub fn new(alloc: Global) -> MemoryShelf
        ensures { result ≡ record { files = no_files; calls = no_calls; faults = 0 } }
    {
        MemoryShelf {
            files: FileMap::new(alloc),
            calls: CallCounter::new(alloc),
            faults: 0,
        }
    }

    /// Puts these bytes in the file with this name, in the place of an earlier one. All else stays.
    pub fn put(&mut self, name: &str, bytes: &[u8]) -> Result<(), AllocError>
        ensures named { OnOk result (file self.new.files name.now ≡ Some bytes.now) }
        ensures others { OnOk result ((other : List ℕ) → other ≢ name.now
            → file self.new.files other ≡ file self.old.files other) }
        ensures ok { OnOk result
            (self.new ≡ record self.old { files = with_file self.old.files name.now bytes.now }) }
        ensures err { OnErr result (self.new ≡ self.old) }
    {
        self.files.put(name, bytes)
    }

    /// Lets the fetch with this number fail, if there is such a file. Fetches are counted from 1
    /// since the shelf was made; the number of one that was made already has no effect.
    pub fn fail_at(&mut self, call: u64) -> Result<(), AllocError>
        ensures ok { OnOk result
            (self.new ≡ record self.old { calls = with_failing self.old.calls call }) }
        ensures err { OnErr result (self.new ≡ self.old) }
    {
        self.calls.fail_at(call)
    }
}

impl Shelf for MemoryShelf {
    ghost use Rattle.ror_io.specs.Calls.{after_call, FailsNext};
    ghost use Rattle.ror_io.specs.Fetching.{OnFailed, UnlessFailed, IsNoLonger, Fetches};
    ghost use Rattle.ror_io.specs.declared.shelf.ShelfFault.TheVariants.{Memory};

    ghost told = { λ shelf. Some shelf.files };

    ghost faults = { λ shelf. shelf.faults };

    ghost fetch_count = { λ shelf. shelf.calls.made };

    fn fetch(&mut self, alloc: Global, name: &str, most: usize) -> Result<Fetched, ShelfFault>
        ensures never_falls { self.old.faults ≤ self.new.faults }
        ensures told_stays { Some self.new.files ≡ Some self.old.files }
        ensures counted { self.new.calls.made ≡ next_count self.old.calls.made }

        ensures failed { OnFailed result
            (Rose self.old.faults self.new.faults ⊎ Lacks (Some self.old.files) name.now) }
        ensures missing { Lacks (Some self.old.files) name.now
            → IsErrOf result ShelfFault.Failed × (self.new.faults ≡ self.old.faults) }
        ensures other { UnlessFailed result (self.new.faults ≡ self.old.faults) }

        ensures within { IfOk result (IsNoLonger most) }
        ensures found { (bytes : List ℕ) → HasFile (Some self.old.files) name.now bytes
            → DidNotRise self.old.faults self.new.faults
            → IfOk result (Fetches bytes most) }

        // A file that is there is fetched, but for want of memory, unless this fetch is to fail.
        ensures chosen { (bytes : List ℕ) → file self.old.files name.now ≡ Some bytes
            → FailsNext self.old.calls
            → IsErrOf result ShelfFault.Failed
            × (self.new.faults ≡ next_count self.old.faults) }
        ensures others { (bytes : List ℕ) → file self.old.files name.now ≡ Some bytes
            → ¬ FailsNext self.old.calls
            → MatchResult result (Fetches bytes most) (λ fault. fault ≡ Memory) }

        ensures called { self.new.calls ≡ after_call self.old.calls }
    {
        let fails = self.calls.count_call();
        let Some(bytes) = self.files.bytes(name) else {
            return Err(ShelfFault::Failed);
        };
        if fails {
            self.faults = self.faults.saturating_add(1);
            return Err(ShelfFault::Failed);
        }
        if bytes.len() > most {
            return Ok(Fetched::Longer);
        }
        Ok(Fetched::Whole(Vec::from_slice(alloc, bytes)?))
    }
}
