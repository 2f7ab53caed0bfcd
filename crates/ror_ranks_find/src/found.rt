//! What is found of an extreme rank so far.

ghost use Rattle.std.specs.Prelude.{◌≡◌, ◌≤◌, ◌++◌, ◌∷◌, [], length, IfOk, OnOk};
ghost use Rattle.ror_ranks_find.specs.Search.{AreConflictsFor, HasMore, IsBaseFunction, IsFoundFor, IsReachedFor, IsSought, IsWideFor};

use crate::sought::Sought;
use ror_ranks::others::all_but;
use ror_ranks::{Conflict, WideExtreme};
use ror_system::Solution;
use ror_text::Items;
use std::alloc::{AllocError, Global};

/// So many conflicts are kept at most.
const MOST_CONFLICTS: usize = u32::MAX as usize;

/// Conflicts, and a function by which few count.
#[derive(Drop)]
pub(crate) struct Found {
    pub(crate) conflicts: Vec<Conflict>,
    /// The alternatives that may count by the function, in order of the table: of the functions that were found none has fewer.
    pub(crate) except: Items<usize>,
    pub(crate) function: Solution,
    /// What was too wide, where anything was.
    pub(crate) wide: Vec<WideExtreme>,
}

impl Found {
    /// No conflict, and a function that is compatible with the statements, by which all others may count.
    #[tactic(auto, using(crate::proofs::FindLemmas::start_reached))]
    pub(crate) fn start(
        alloc: Global,
        sought: &Sought,
        function: &Solution,
    ) -> Result<Found, AllocError>
        requires sought { IsSought sought.now }
        requires function { IsBaseFunction sought.now function.now }
        ensures found { IfOk result (IsFoundFor sought.now) }
        ensures none { IfOk result (λ found. found.conflicts.items ≡ []) }
    {
        let asked = &sought.asked;
        let except = all_but(alloc, asked.table, asked.alternative, &[])?;
        Ok(Found {
            conflicts: Vec::new(alloc),
            except: Items::from(except),
            function: function.copied(alloc)?,
            wide: Vec::new(alloc),
        })
    }

    /// Puts a conflict, which is alone in its list, behind those that are there.
    ///
    /// # Errors
    ///
    /// Only want of memory, which is said too where 2^32 - 1 conflicts are there.
    #[tactic(auto, using(crate::proofs::FoundLemmas::found_added, crate::proofs::FoundLemmas::has_added))]
    pub(crate) fn add(&mut self, sought: &Sought, conflict: Vec<Conflict>) -> Result<(), AllocError>
        requires found { IsFoundFor sought.now self.old }
        requires conflict { AreConflictsFor sought.now conflict.items }
        requires alone { length conflict.items ≡ 1 }
        ensures found { OnOk result (IsFoundFor sought.now self.new) }
        ensures more { OnOk result (HasMore self.old self.new) }
        ensures added { OnOk result (self.new.conflicts.items ≡ self.old.conflicts.items ++ conflict.items) }
        ensures except { self.new.except ≡ self.old.except }
        ensures wide { self.new.wide ≡ self.old.wide }
    {
        if self.conflicts.len() >= MOST_CONFLICTS {
            return Err(AllocError);
        }
        let mut conflict = conflict;
        self.conflicts.append(&mut conflict)
    }

    /// Keeps the function by which these alternatives may count, where they are fewer than by the one that is kept.
    pub(crate) fn reach(&mut self, sought: &Sought, except: Vec<usize>, function: Solution)
        requires found { IsFoundFor sought.now self.old }
        requires reached { IsReachedFor sought.now except.items function }
        ensures found { IsFoundFor sought.now self.new }
        ensures more { HasMore self.old self.new }
        ensures few { length self.new.except ≤ length except.items }
        ensures conflicts { self.new.conflicts ≡ self.old.conflicts }
        ensures wide { self.new.wide ≡ self.old.wide }
    {
        if except.len() < self.except.len() {
            self.except = Items::from(except);
            self.function = function;
        }
    }

    /// Keeps what is too wide.
    #[tactic(auto, using(crate::proofs::FoundLemmas::found_noted, crate::proofs::FoundLemmas::has_noted))]
    pub(crate) fn note(&mut self, sought: &Sought, wide: WideExtreme) -> Result<(), AllocError>
        requires found { IsFoundFor sought.now self.old }
        requires wide { IsWideFor sought.now wide }
        ensures found { OnOk result (IsFoundFor sought.now self.new) }
        ensures more { OnOk result (HasMore self.old self.new) }
        ensures noted { OnOk result (self.new.wide.items ≡ self.old.wide.items ++ wide ∷ []) }
        ensures conflicts { self.new.conflicts ≡ self.old.conflicts }
        ensures except { self.new.except ≡ self.old.except }
    {
        self.wide.push(wide)?;
        Ok(())
    }
}
