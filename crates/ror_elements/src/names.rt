//! Names that differ, kept sorted: whoever writes a text can choose names that all hash alike.

ghost use Rattle.std.specs.Prelude.{◌≡◌, [], ◌∷◌, ◌++◌, not, true, false, IfOk, OnOk};
ghost use Rattle.std.specs.List.{list_any};
ghost use Rattle.std.specs.Str.{bytes_eq};

use crate::bytes::Bytes;
use std::alloc::{AllocError, Global};
use std::collections::BTreeMap;
use std::marker::Model;

/// Names that differ from each other, in the order in which they came.
#[derive(Drop)]
pub struct Names {
    /// The place at which each name came.
    places: BTreeMap<Vec<u8>, usize>,
}

impl Model for Names {
    ghost use Rattle.std.specs.Prelude.{List, ℕ};
    ghost use Rattle.ror_elements.specs.Places.{in_order, ArePlaces};

    ghost Value = { List (List ℕ) };

    ghost view = { λ fields. in_order (λ name. name.items) fields.places.entries };

    ghost invariant = { λ fields. ArePlaces (λ name. name.items) fields.places.entries };
}

impl Names {
    /// No names.
    pub fn new(alloc: Global) -> Names
        ensures { result ≡ [] }
    {
        Names {
            places: BTreeMap::new(alloc),
        }
    }

    /// Whether a name is there.
    pub fn has(&self, name: &[u8]) -> bool
        ensures { result ≡ list_any (bytes_eq name.now) self.now }
    {
        self.places.contains_key(name)
    }

    /// Adds a name at the end.
    fn push(&mut self, name: Vec<u8>) -> Result<(), AllocError>
        requires { list_any (bytes_eq name.items) self.old ≡ false }
        ensures { OnOk result (self.new ≡ self.old ++ name.items ∷ []) }
    {
        let place = self.places.len();
        self.places.insert(name, place)?;
        Ok(())
    }

    /// Adds a name at the end, from its text.
    pub fn push_text(&mut self, alloc: Global, name: &str) -> Result<(), AllocError>
        requires { list_any (bytes_eq name.now) self.old ≡ false }
        ensures { OnOk result (self.new ≡ self.old ++ name.now ∷ []) }
    {
        self.push(Vec::from_slice(alloc, name.as_bytes())?)
    }

    /// Adds a name, and answers whether it is new.
    pub(crate) fn add(&mut self, name: Bytes) -> Result<bool, AllocError>
        ensures new { IfOk result (λ new. new ≡ not (list_any (bytes_eq name) self.old)) }
        ensures added { IfOk result (λ new. new ≡ true → self.new ≡ self.old ++ name ∷ []) }
    {
        if self.has(name.as_slice()) {
            return Ok(false);
        }
        self.push(name.into_vec())?;
        Ok(true)
    }
}
