//! Files in memory, by their names.

ghost use Rattle.std.specs.Prelude.{◌≡◌, ◌≢◌, ℕ, Some, List, OnOk, OnErr};
ghost use Rattle.std.specs.Option.{option_copied};
ghost use Rattle.ror_io.specs.Files.{no_files, file, with_file};

use std::alloc::{AllocError, Global};
use std::collections::BTreeMap;
use std::marker::Model;

/// The files that a shelf in memory has.
#[derive(Drop)]
pub struct FileMap {
    alloc: Global,
    entries: BTreeMap<String, Vec<u8>>,
}

impl Model for FileMap {
    ghost use Rattle.ror_io.specs.Files.{Files};
    ghost use Rattle.ror_io.specs.ShelfMemory.{files_code, files_of};

    ghost Value = { Files };

    ghost coded = { files_code };

    ghost view = { λ map. files_of map.entries.entries };
}

impl FileMap {
    /// No files.
    pub fn new(alloc: Global) -> FileMap
        ensures { result ≡ no_files }
    {
        FileMap {
            alloc,
            entries: BTreeMap::new(alloc),
        }
    }

    /// Puts these bytes in the file with this name, in the place of an earlier one. All else stays.
    pub fn put(&mut self, name: &str, bytes: &[u8]) -> Result<(), AllocError>
        ensures named { OnOk result (file self.new name.now ≡ Some bytes.now) }
        ensures others { OnOk result ((other : List ℕ) → other ≢ name.now
            → file self.new other ≡ file self.old other) }
        ensures ok { OnOk result (self.new ≡ with_file self.old name.now bytes.now) }
        ensures err { OnErr result (self.new ≡ self.old) }
    {
        let name = String::from_str(self.alloc, name)?;
        let bytes = Vec::from_slice(self.alloc, bytes)?;
        self.entries.insert(name, bytes)?;
        Ok(())
    }

    /// The bytes of the file with this name, if there is one.
    pub fn bytes(&self, name: &str) -> Option<&[u8]>
        ensures { option_copied result ≡ file self.now name.now }
    {
        let bytes = self.entries.get(name)?;
        Some(bytes)
    }
}
