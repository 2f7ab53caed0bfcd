//! What is kept of the systems that were decided, and what it says of the present one. Nothing of it is promised: an outcome is
//! accepted before it is handed out.

ghost use Rattle.std.specs.Prelude.{◌≤◌};

use crate::certificates::KeptLists;
use crate::exact::exact_end;
use crate::fault::{TableauFault, without_lost};
use crate::near::near;
use crate::outcomes::{kept_outcome, multipliers_outcome, solution_outcome, sums_of};
use crate::store::{Front, RowStore};
use crate::tableau::{End, Tableau};
use ror_pivot::Outcome;
use ror_system::System;
use std::alloc::{AllocError, Global};

/// So many pivots are made from one tableau at most.
const MOST_PIVOTS: u64 = 20_000;

/// Rows, certificates and a tableau of the systems that were decided.
#[derive(Drop)]
pub(crate) struct Warm {
    store: Option<RowStore>,
    /// How many rows at the front of the present system were there before.
    front: Front,
    lists: KeptLists,
    tableau: Option<Tableau>,
    alloc: Global,
}

impl Warm {
    /// Nothing is kept.
    pub(crate) fn new(alloc: Global) -> Warm {
        Warm {
            store: None,
            front: Front { weak: 0, strict: 0 },
            lists: KeptLists::new(alloc),
            tableau: None,
            alloc,
        }
    }

    /// Forgets all that is kept.
    pub(crate) fn forget(&mut self) {
        self.store = None;
        self.lists = KeptLists::new(self.alloc);
        self.tableau = None;
    }

    /// Makes a system the present one, of which so many rows at the front of either part are those of the one before. Where an
    /// entry is too wide nothing is kept.
    ///
    /// # Errors
    ///
    /// Only want of memory.
    pub(crate) fn take_over(&mut self, s: &System, front: Front) -> Result<(), AllocError> {
        let (mut store, front) = match self.store.take() {
            Some(store) if store.columns == s.columns() => {
                let front = front.least(store.lengths());
                (store, front)
            }
            _ => {
                self.forget();
                let none = Front { weak: 0, strict: 0 };
                (RowStore::new(self.alloc, s.columns()), none)
            }
        };
        self.lists.note_front(front);
        self.front = front;
        if store.take_over(self.alloc, s, front)? {
            self.store = Some(store);
        } else {
            self.forget();
        }
        Ok(())
    }

    /// A kept solution that seems to be one of the present system.
    ///
    /// # Errors
    ///
    /// Only want of memory.
    pub(crate) fn kept_solution(&mut self) -> Result<Option<Outcome>, AllocError> {
        let Some(store) = &self.store else {
            return Ok(None);
        };
        match self.lists.solution_of(store) {
            Some(sums) => Ok(Some(solution_outcome(self.alloc, sums)?)),
            None => Ok(None),
        }
    }

    /// Kept multipliers that seem to refute the present system.
    ///
    /// # Errors
    ///
    /// Only want of memory.
    pub(crate) fn kept_multipliers(&self) -> Result<Option<Outcome>, AllocError> {
        let Some(store) = &self.store else {
            return Ok(None);
        };
        match self.lists.multipliers_of(store, self.front) {
            Some((position, kept)) => { Ok(Some(kept_outcome(self.alloc, store, kept, position)?)) }
            None => Ok(None),
        }
    }

    /// What the pivots from the last tableau, or else from a new one, come to at the present system. They are counted.
    ///
    /// # Errors
    ///
    /// Only want of memory.
    pub(crate) fn pivoted(&mut self, pivots: &mut u64) -> Result<Option<Outcome>, AllocError>
        ensures { pivots.old ≤ pivots.new }
    {
        let Some(mut store) = self.store.take() else {
            return Ok(None);
        };
        let found = self.pivoted_over(&mut store, pivots)?;
        self.store = Some(store);
        Ok(found)
    }

    /// What the pivots from the basis of the last tableau, built anew, come to at the present system. They are counted.
    ///
    /// # Errors
    ///
    /// Only want of memory.
    pub(crate) fn pivoted_anew(&mut self, pivots: &mut u64) -> Result<Option<Outcome>, AllocError>
        ensures { pivots.old ≤ pivots.new }
    {
        let Some(mut store) = self.store.take() else {
            return Ok(None);
        };
        let found = self.found_anew(&mut store, pivots)?;
        self.store = Some(store);
        Ok(found)
    }

    /// What exact pivots from nothing come to at the present system. They are counted.
    ///
    /// # Errors
    ///
    /// Only want of memory.
    pub(crate) fn pivoted_exactly(&self, pivots: &mut u64) -> Result<Option<Outcome>, AllocError>
        ensures { pivots.old ≤ pivots.new }
    {
        let Some(store) = &self.store else {
            return Ok(None);
        };
        let end = exact_end(self.alloc, store, pivots);
        match without_lost(end)? {
            Some(end) => outcome_of(self.alloc, store, end, pivots),
            None => Ok(None),
        }
    }

    /// Keeps an outcome of the present system.
    ///
    /// # Errors
    ///
    /// Only want of memory.
    pub(crate) fn keep(&mut self, outcome: &Outcome) -> Result<(), AllocError> {
        let Some(store) = &self.store else {
            return Ok(());
        };
        match outcome {
            Outcome::Feasible(solution) => {
                if let Some(sums) = sums_of(self.alloc, &solution.steps)? {
                    self.lists.keep_solution(store, sums)?;
                }
                Ok(())
            }
            Outcome::Infeasible(multipliers) => {
                self.lists
                    .keep_multipliers(self.alloc, store, self.front, multipliers)
            }
        }
    }

    /// As `pivoted`, over the rows of this store.
    fn pivoted_over(
        &mut self,
        store: &mut RowStore,
        pivots: &mut u64,
    ) -> Result<Option<Outcome>, AllocError>
        ensures { pivots.old ≤ pivots.new }
    {
        if self.tableau.is_some() {
            if let Some(outcome) = self.found_or_anew(store, pivots)? {
                return Ok(Some(outcome));
            }
        }
        store.leave_tableau();
        let widest_sum = store.widest_sum();
        self.tableau = Some(Tableau::new(self.alloc, store.columns, false, widest_sum)?);
        self.found_or_anew(store, pivots)
    }

    /// What the tableau that is there comes to, or else the same basis built anew.
    fn found_or_anew(
        &mut self,
        store: &mut RowStore,
        pivots: &mut u64,
    ) -> Result<Option<Outcome>, AllocError>
        ensures { pivots.old ≤ pivots.new }
    {
        match self.found(store, pivots)? {
            Some(outcome) => Ok(Some(outcome)),
            None => self.found_anew(store, pivots),
        }
    }

    /// What the basis of the tableau that is there, built anew, comes to.
    fn found_anew(
        &mut self,
        store: &mut RowStore,
        pivots: &mut u64,
    ) -> Result<Option<Outcome>, AllocError>
        ensures { pivots.old ≤ pivots.new }
    {
        let Some(old) = self.tableau.take() else {
            return Ok(None);
        };
        let new = old.rebuilt(self.alloc, store.rows.as_slice(), pivots);
        self.tableau = without_lost(new)?;
        self.found(store, pivots)
    }

    /// What the tableau that is there comes to.
    fn found(
        &mut self,
        store: &mut RowStore,
        pivots: &mut u64,
    ) -> Result<Option<Outcome>, AllocError>
        ensures { pivots.old ≤ pivots.new }
    {
        let end = self.end_over(store, pivots);
        match without_lost(end)? {
            Some(end) => outcome_of(self.alloc, store, end, pivots),
            None => Ok(None),
        }
    }

    /// How the pivots end from the tableau that is there, once it has the rows of the present system. At a fault it is gone.
    fn end_over(&mut self, store: &mut RowStore, pivots: &mut u64) -> Result<End, TableauFault>
        ensures { pivots.old ≤ pivots.new }
    {
        let Some(mut tableau) = self.tableau.take() else {
            return Err(TableauFault::Lost);
        };
        bring_up(&mut tableau, self.alloc, store, pivots)?;
        let end = tableau.run(self.alloc, store.rows.as_slice(), MOST_PIVOTS, pivots)?;
        self.tableau = Some(tableau);
        Ok(end)
    }
}

/// Brings a tableau to the rows of the present system.
///
/// # Errors
///
/// A number may be too wide, or want of memory; then the tableau is of no use.
fn bring_up(
    tableau: &mut Tableau,
    alloc: Global,
    store: &mut RowStore,
    pivots: &mut u64,
) -> Result<(), TableauFault>
    ensures { pivots.old ≤ pivots.new }
{
    for (place, uses) in store.uses.iter_mut().enumerate() {
        if uses.in_tableau && !uses.present {
            tableau.drop_row(store.rows.as_slice(), place, pivots)?;
            uses.in_tableau = false;
        }
    }
    for (place, uses) in store.uses.iter_mut().enumerate() {
        if uses.present && !uses.in_tableau {
            tableau.add_row(alloc, store.rows.as_slice(), place)?;
            uses.in_tableau = true;
        }
    }
    Ok(())
}

/// What an end shows of the present system, if anything. Pivots are counted.
///
/// # Errors
///
/// Only want of memory.
fn outcome_of(
    alloc: Global,
    store: &RowStore,
    end: End,
    pivots: &mut u64,
) -> Result<Option<Outcome>, AllocError>
    ensures { pivots.old ≤ pivots.new }
{
    match end {
        End::Solution(sums) => Ok(Some(solution_outcome(alloc, sums.as_slice())?)),
        End::Multipliers(list) => {
            let outcome = multipliers_outcome(alloc, store, list.as_slice())?;
            Ok(Some(outcome))
        }
        End::Near(list, steps) => match near(alloc, store, list, steps.as_slice(), pivots)? {
            Some(list) => {
                let outcome = multipliers_outcome(alloc, store, list.as_slice())?;
                Ok(Some(outcome))
            }
            None => Ok(None),
        },
        End::Apart | End::TooLong => Ok(None),
    }
}
