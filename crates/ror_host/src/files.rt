//! The host's files. What they hold is told to no proof.

ghost use Rattle.std.specs.Prelude.{◌≡◌, None};

use ror_io::{Fetched, Shelf, ShelfFault};
use std::alloc::Global;
use std::fs;
use std::io::{self, ErrorKind, Read};
use std::rt::Files;

/// The files of the host, by their paths.
#[derive(Drop)]
pub struct FileShelf<R> {
    files: R,
    faults: u64,
    fetches: u64,
}

impl<R: Files> FileShelf<R> {
    /// The files that the runtime reaches, before any fetch.
    pub fn new(files: R) -> FileShelf<R>
        ensures faults { result.faults ≡ 0 }
        ensures fetches { result.fetches ≡ 0 }
    {
        FileShelf {
            files,
            faults: 0,
            fetches: 0,
        }
    }

    /// The bytes of the file, or those up to the first one past `most`.
    fn read(&self, alloc: Global, name: &str, most: usize) -> io::Result<Vec<u8>> {
        let file = fs::open(&self.files, name)?;
        let mut bytes = Vec::new(alloc);
        file.take((most as u64).saturating_add(1))
            .read_to_end(&mut bytes)?;
        Ok(bytes)
    }
}

impl<R: Files> Shelf for FileShelf<R> {
    ghost told = { λ _. None };

    ghost faults = { λ shelf. shelf.faults };

    ghost fetch_count = { λ shelf. shelf.fetches };

    fn fetch(&mut self, alloc: Global, name: &str, most: usize) -> Result<Fetched, ShelfFault> {
        self.fetches = self.fetches.saturating_add(1);
        match self.read(alloc, name, most) {
            Ok(bytes) if bytes.len() > most => Ok(Fetched::Longer),
            Ok(bytes) => Ok(Fetched::Whole(bytes)),
            Err(error) if error.kind() == ErrorKind::OutOfMemory => Err(ShelfFault::Memory),
            Err(_) => {
                self.faults = self.faults.saturating_add(1);
                Err(ShelfFault::Failed)
            }
        }
    }
}
