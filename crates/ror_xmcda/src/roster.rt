//! The ids of what a file lists.

ghost use Rattle.std.specs.Prelude.{◌≡◌, [], ◌∷◌, ◌++◌, false, length, map, OnOk};
ghost use Rattle.std.specs.String.{string_bytes};
ghost use Rattle.ror_table.specs.Draft.{has_id};
ghost use Rattle.ror_table.specs.Table.{place_of};

use indexmap::IndexSet;
use ror_elements::Names;
use std::alloc::{AllocError, Global};
use std::marker::Model;

/// Distinct ids in order, which clauses see as their list. There are few, so their hashes may be the same.
#[derive(Drop)]
pub(crate) struct Ids {
    ids: IndexSet<String>,
}

impl Model for Ids {
    ghost use Rattle.std.specs.Prelude.{List, ℕ, map};
    ghost use Rattle.std.specs.String.{string_bytes};

    ghost Value = { List (List ℕ) };

    ghost view = { λ fields. map string_bytes fields.ids.keys };
}

impl Ids {
    pub(crate) fn new(alloc: Global) -> Ids
        ensures { result ≡ [] }
    {
        Ids {
            ids: IndexSet::new(alloc),
        }
    }

    pub(crate) fn len(&self) -> usize
        ensures { result ≡ length self.now }
    {
        self.ids.len()
    }

    /// Whether an id is there.
    pub(crate) fn has(&self, id: &str) -> bool
        ensures { result ≡ has_id self.now id.now }
    {
        self.ids.contains(id)
    }

    /// The place of an id, if it is there.
    pub(crate) fn place(&self, id: &str) -> Option<usize>
        ensures { result ≡ place_of self.now id.now }
    {
        self.ids.get_index_of(id)
    }

    /// The ids as texts.
    pub(crate) fn as_slice(&self) -> &[String]
        ensures { map string_bytes result.now ≡ self.now }
    {
        self.ids.as_slice()
    }

    /// Adds an id at the end.
    pub(crate) fn add(&mut self, alloc: Global, id: &str) -> Result<(), AllocError>
        requires { has_id self.old id.now ≡ false }
        ensures { OnOk result (self.new ≡ self.old ++ id.now ∷ []) }
    {
        self.ids.insert(String::from_str(alloc, id)?)?;
        Ok(())
    }
}

/// What a file lists: the ids of what is kept, and of what is left out.
#[derive(Drop)]
pub(crate) struct Roster {
    pub(crate) kept: Ids,
    pub(crate) left_out: Names,
}

impl Roster {
    ghost use Rattle.ror_xmcda.specs.Roster as spec;

    pub(crate) fn new(alloc: Global) -> Roster
        ensures { result ≡ spec.nothing_listed }
    {
        Roster {
            kept: Ids::new(alloc),
            left_out: Names::new(alloc),
        }
    }

    /// Whether an id is listed.
    pub(crate) fn lists(&self, id: &str) -> bool
        ensures { result ≡ spec.is_listed self.now id.now }
    {
        self.kept.has(id) || self.left_out.has(id.as_bytes())
    }

    /// What an id stands for, if it is listed: what is kept at a place, or nothing where it is left out.
    #[tactic(auto, unfolding(crate::specs::Roster::standing))]
    pub(crate) fn standing(&self, id: &str) -> Option<Option<usize>>
        ensures { result ≡ spec.standing self.now id.now }
    {
        if self.left_out.has(id.as_bytes()) {
            return Some(None);
        }
        match self.kept.place(id) {
            Some(place) => Some(Some(place)),
            None => None,
        }
    }
}
