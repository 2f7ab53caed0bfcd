//! Files by name.

ghost use Rattle.std.specs.Prelude.{◌≡◌, ◌≤◌, ℕ, ◌⊎◌, Option, List, IfOk, IsErrOf};
ghost use Rattle.ror_io.specs.Counts.{Rose, DidNotRise, next_count};
ghost use Rattle.ror_io.specs.Files.{Files, HasFile, Lacks};

use std::alloc::{AllocError, Global};
use thiserror::Error;

/// What a fetch brings.
#[derive(Debug, Drop, PartialEq, Eq)]
pub enum Fetched {
    /// The whole file.
    Whole(Vec<u8>),
    /// The file has more bytes than were allowed, and none of them is handed on.
    Longer,
}

/// Why a fetch brings nothing.
#[derive(Clone, Copy, Debug, PartialEq, Eq, Error)]
pub enum ShelfFault {
    /// There is no such file, or it could not be read.
    #[error("the file could not be read")]
    Failed,
    /// There was no memory for the file.
    #[error("out of memory")]
    Memory,
}

impl From<AllocError> for ShelfFault {
    ghost use Rattle.ror_io.specs.declared.shelf.ShelfFault.TheVariants.{Memory};

    ghost from_gives = { λ _ e. e ≡ Memory };

    fn from(_error: AllocError) -> ShelfFault {
        ShelfFault::Memory
    }
}

/// Files by name, of which some may fail.
///
/// A shelf counts its fetches and its faults. Where it tells its files, it says what each fetch
/// brings as long as the count of faults did not rise. A count of faults that stands at 2^64 - 1 may
/// stay there at a fault, and that of fetches stands still there.
pub trait Shelf {
    ghost use Rattle.ror_io.specs.Fetching.{OnFailed, UnlessFailed, IsNoLonger, Fetches};

    /// The files, where the shelf tells them.
    ghost told: { Self → Option Files };

    /// How many fetches failed by a fault of the shelf.
    ghost faults: { Self → ℕ };

    /// How many fetches were made, whatever came of them.
    ghost fetch_count: { Self → ℕ };

    /// Fetches the file with this name, if it has at most `most` bytes.
    fn fetch(&mut self, alloc: Global, name: &str, most: usize) -> Result<Fetched, ShelfFault>
        ensures never_falls { faults self.old ≤ faults self.new }
        ensures told_stays { told self.new ≡ told self.old }
        ensures counted { fetch_count self.new ≡ next_count (fetch_count self.old) }

        // `Failed` has a cause, and a name that is told to be missing is such a cause by itself.
        ensures failed { OnFailed result
            (Rose (faults self.old) (faults self.new) ⊎ Lacks (told self.old) name.now) }
        ensures missing { Lacks (told self.old) name.now
            → IsErrOf result ShelfFault.Failed × (faults self.new ≡ faults self.old) }
        ensures other { UnlessFailed result (faults self.new ≡ faults self.old) }

        ensures within { IfOk result (IsNoLonger most) }
        ensures found { (bytes : List ℕ) → HasFile (told self.old) name.now bytes
            → DidNotRise (faults self.old) (faults self.new)
            → IfOk result (Fetches bytes most) };
}
