//! Bytes that are gathered one by one.

ghost use Rattle.std.specs.Prelude.{◌≡◌, [], ◌∷◌, ◌++◌, ◌-◌, take, length, OnOk};

use std::alloc::{AllocError, AllocFailed, Global};
use std::marker::Model;

/// Bytes, which clauses see as their list.
#[derive(Debug, Drop)]
pub(crate) struct Bytes {
    items: Vec<u8>,
}

impl Model for Bytes {
    ghost use Rattle.std.specs.Prelude.{List, ℕ};

    ghost Value = { List ℕ };

    ghost view = { λ fields. fields.items.items };
}

impl Bytes {
    /// No bytes.
    pub(crate) fn new(alloc: Global) -> Bytes
        ensures { result ≡ [] }
    {
        Bytes {
            items: Vec::new(alloc),
        }
    }

    /// Adds a byte at the end.
    pub(crate) fn push(&mut self, byte: u8) -> Result<(), AllocFailed<u8>>
        ensures { OnOk result (self.new ≡ self.old ++ byte ∷ []) }
    {
        self.items.push(byte)
    }

    /// Adds bytes at the end.
    pub(crate) fn append(&mut self, bytes: &[u8]) -> Result<(), AllocError>
        ensures { OnOk result (self.new ≡ self.old ++ bytes.now) }
    {
        self.items.extend_from_slice(bytes)
    }

    /// Removes two bytes at the end.
    pub(crate) fn drop_two(&mut self)
        ensures { self.new ≡ take (length self.old - 2) self.old }
    {
        let keep = self.items.len().saturating_sub(2);
        self.items.truncate(keep);
    }

    pub(crate) fn clear(&mut self)
        ensures { self.new ≡ [] }
    {
        self.items.clear();
    }

    /// The bytes, of which none are left behind.
    pub(crate) fn take(&mut self, alloc: Global) -> Bytes
        ensures taken { result ≡ self.old }
        ensures none { self.new ≡ [] }
    {
        std::mem::replace(self, Bytes::new(alloc))
    }

    pub(crate) fn as_slice(&self) -> &[u8]
        ensures { result.now ≡ self.now }
    {
        self.items.as_slice()
    }

    pub(crate) fn into_vec(self) -> Vec<u8>
        ensures { result.items ≡ self }
    {
        self.items
    }
}
