//! A shelf that keeps what it brought last, so that what is at fault there need not be fetched once more.

ghost use Rattle.std.specs.Prelude.{◌≡◌};

use ror_io::{Fetched, Shelf, ShelfFault};
use ror_text::lines::MOST_TEXT_BYTES;
use std::alloc::Global;

/// A shelf of the same files, which keeps a copy of the file that it brought last. A file of more than 16,777,216 bytes, which is no
/// table and no session, isn't kept, nor one for whose copy there is no memory.
#[derive(Drop)]
pub struct KeepingShelf<F> {
    /// The shelf that brings the files.
    pub shelf: F,
    kept: Option<Vec<u8>>,
    fetches: usize,
}

impl<F: Shelf> KeepingShelf<F> {
    /// The shelf, with nothing kept.
    pub fn new(shelf: F) -> KeepingShelf<F>
        ensures { result.shelf ≡ shelf }
    {
        KeepingShelf {
            shelf,
            kept: None,
            fetches: 0,
        }
    }

    /// The file that was brought last; an empty one where it was longer than allowed, and none where it isn't kept.
    pub(crate) fn kept(&self) -> Option<&[u8]> {
        match &self.kept {
            Some(bytes) => Some(bytes.as_slice()),
            None => None,
        }
    }

    /// How many fetches were made.
    pub(crate) fn fetches(&self) -> usize {
        self.fetches
    }
}

impl<F: Shelf> Shelf for KeepingShelf<F> {
    ghost told = { λ keeping. F.told keeping.shelf };

    ghost faults = { λ keeping. F.faults keeping.shelf };

    ghost fetch_count = { λ keeping. F.fetch_count keeping.shelf };

    fn fetch(&mut self, alloc: Global, name: &str, most: usize) -> Result<Fetched, ShelfFault> {
        let brought = self.shelf.fetch(alloc, name, most);
        self.kept = copy_of(alloc, &brought);
        self.fetches = self.fetches.saturating_add(1);
        brought
    }
}

/// A copy of what was brought, where it is kept.
fn copy_of(alloc: Global, brought: &Result<Fetched, ShelfFault>) -> Option<Vec<u8>> {
    match brought {
        Ok(Fetched::Whole(bytes)) if bytes.len() <= MOST_TEXT_BYTES => {
            Vec::from_slice(alloc, bytes.as_slice()).ok()
        }
        Ok(Fetched::Longer) => Some(Vec::new(alloc)),
        _ => None,
    }
}
