//! Solutions and multipliers that are kept, to be tried on systems that have most rows in common with theirs.

use crate::rows::RunRow;
use crate::store::{Front, Position, RowStore};
use ror_system::Multipliers;
use std::alloc::{AllocError, Global};

/// How many solutions are kept at most, and how many lists of multipliers.
const MOST_KEPT: usize = 100;

/// The sums of a kept solution end below this.
const MOST_TOTAL: i64 = 1 << 62;

/// A solution that is kept.
#[derive(Debug, Drop)]
struct KeptSums {
    /// The sums of the steps before each place.
    sums: Vec<i64>,
    /// At how many rows at the front of either part of the present system it is known to hold.
    known: Front,
}

impl KeptSums {
    /// Whether the solution holds at the rows of the present system.
    fn holds(&mut self, store: &RowStore) -> bool {
        for position in self.known.weak..store.weak.len() {
            match store.weak_row(position) {
                Some(row) if row.holds_at(self.sums.as_slice()) => {}
                _ => return false,
            }
            self.known.weak = position.saturating_add(1);
        }
        for position in self.known.strict..store.strict.len() {
            match store.strict_row(position) {
                Some(row) if row.holds_at(self.sums.as_slice()) => {}
                _ => return false,
            }
            self.known.strict = position.saturating_add(1);
        }
        true
    }
}

/// A weighted sum of rows.
#[derive(Debug, Drop)]
struct WeightedSum {
    columns: Vec<i128>,
    /// At least the sum of the absolute terms of each column.
    width: i128,
    /// Whether a strict row has a weight above 0.
    is_strict: bool,
}

impl WeightedSum {
    /// The sum of no rows.
    fn new(alloc: Global, columns: usize) -> Result<WeightedSum, AllocError> {
        Ok(WeightedSum {
            columns: vec![in alloc; 0; columns]?,
            width: 0,
            is_strict: false,
        })
    }

    /// Adds a row with a weight. `None` where the weight is below 0 or a sum of absolute terms may be too wide; then the sum
    /// is of no use.
    fn add(&mut self, row: &RunRow, weight: i128) -> Option<()> {
        if weight < 0 {
            return None;
        }
        let most = weight.checked_mul(i128::from(row.widest))?;
        self.width = self.width.checked_add(most)?;
        self.is_strict = self.is_strict || (row.strict && weight > 0);
        for (column, entry) in self.columns.iter_mut().zip(row.entries.iter()) {
            *column = column.checked_add(weight.checked_mul(i128::from(*entry))?)?;
        }
        Some(())
    }

    /// Whether no sum of absolute terms is too wide once a row is added with a weight.
    fn has_room(&self, row: &RunRow, weight: i128) -> bool {
        match weight.checked_mul(i128::from(row.widest)) {
            Some(most) => self.width.checked_add(most).is_some(),
            None => false,
        }
    }

    /// Whether a strict row has a weight and no column is above 0, once a row is added with a weight of at least 0. Not where
    /// a sum of absolute terms may be too wide.
    fn refutes_with(&self, row: &RunRow, weight: i128) -> bool {
        if !self.is_strict && !(row.strict && weight > 0) {
            return false;
        }
        if !self.has_room(row, weight) {
            return false;
        }
        for (column, entry) in self.columns.iter().zip(row.entries.iter()) {
            match sum_with(*column, weight, *entry) {
                Some(sum) if sum <= 0 => {}
                _ => return false,
            }
        }
        true
    }
}

/// The multiplier of the row at a position of a part.
#[derive(Clone, Copy, Debug, PartialEq, Eq)]
pub(crate) struct Weight {
    pub position: usize,
    pub value: i128,
}

/// Multipliers of rows at the front of a system, with the weight of one further row.
#[derive(Debug, Drop)]
pub(crate) struct KeptMultipliers {
    pub weak: Vec<Weight>,
    pub strict: Vec<Weight>,
    /// The weight of the further row; 0 where none is needed.
    pub weight: i128,
    /// How many rows at the front of either part they need.
    needed: Front,
    sum: WeightedSum,
}

impl KeptMultipliers {
    /// No multipliers.
    fn new(alloc: Global, columns: usize) -> Result<KeptMultipliers, AllocError> {
        Ok(KeptMultipliers {
            weak: Vec::new(alloc),
            strict: Vec::new(alloc),
            weight: 0,
            needed: Front { weak: 0, strict: 0 },
            sum: WeightedSum::new(alloc, columns)?,
        })
    }

    /// The multipliers of rows at the front and of one further row. `None` where another further row has one too, one is below
    /// 0, or a number is too wide.
    ///
    /// # Errors
    ///
    /// Only want of memory.
    fn of(
        alloc: Global,
        store: &RowStore,
        front: Front,
        multipliers: &Multipliers,
    ) -> Result<Option<KeptMultipliers>, AllocError> {
        let mut kept = KeptMultipliers::new(alloc, store.columns)?;
        for position in 0..multipliers.weak.len() {
            let value = multipliers.weak.entry(position);
            if value != 0 && !kept.add(store, front, Position::Weak(position), value)? {
                return Ok(None);
            }
        }
        for position in 0..multipliers.strict.len() {
            let value = multipliers.strict.entry(position);
            if value != 0 && !kept.add(store, front, Position::Strict(position), value)? {
                return Ok(None);
            }
        }
        Ok(Some(kept))
    }

    /// Adds the multiplier of a row. False where these multipliers can't be kept.
    fn add(
        &mut self,
        store: &RowStore,
        front: Front,
        position: Position,
        value: i128,
    ) -> Result<bool, AllocError> {
        if !front.has(position) {
            return Ok(self.set_weight(value));
        }
        let Some(row) = store.row(position) else {
            return Ok(false);
        };
        if self.sum.add(row, value).is_none() {
            return Ok(false);
        }
        match position {
            Position::Weak(position) => {
                self.needed.weak = position.saturating_add(1);
                self.weak.push(Weight { position, value })?;
            }
            Position::Strict(position) => {
                self.needed.strict = position.saturating_add(1);
                self.strict.push(Weight { position, value })?;
            }
        }
        Ok(true)
    }

    /// Gives the further row its weight, unless one has it already or it is below 0.
    fn set_weight(&mut self, value: i128) -> bool {
        if self.weight != 0 || value < 0 {
            return false;
        }
        self.weight = value;
        true
    }

    /// Whether the multipliers refute what is at the front together with this row.
    fn refutes(&self, row: &RunRow) -> bool {
        self.sum.refutes_with(row, self.weight)
    }

    /// The further row with which they refute the present system, past its front.
    fn further_row(&self, store: &RowStore, front: Front) -> Option<Position> {
        for position in front.weak..store.weak.len() {
            if self.refutes(store.weak_row(position)?) {
                return Some(Position::Weak(position));
            }
        }
        for position in front.strict..store.strict.len() {
            if self.refutes(store.strict_row(position)?) {
                return Some(Position::Strict(position));
            }
        }
        None
    }
}

/// The solutions and multipliers that are kept. Those solutions come first that were of more use.
#[derive(Debug, Drop)]
pub(crate) struct KeptLists {
    solutions: Vec<KeptSums>,
    multipliers: Vec<KeptMultipliers>,
    next_solution: usize,
    next_multipliers: usize,
}

impl KeptLists {
    /// Nothing is kept.
    pub(crate) fn new(alloc: Global) -> KeptLists {
        KeptLists {
            solutions: Vec::new(alloc),
            multipliers: Vec::new(alloc),
            next_solution: 0,
            next_multipliers: 0,
        }
    }

    /// Takes note that only so many rows at the front of either part of the present system are those of the one before.
    pub(crate) fn note_front(&mut self, front: Front) {
        for kept in self.solutions.iter_mut() {
            kept.known = kept.known.least(front);
        }
        self.multipliers.retain(|kept| kept.needed.weak <= front.weak
            && kept.needed.strict <= front.strict);
    }

    /// The sums of a kept solution of the present system. It moves to half its place.
    pub(crate) fn solution_of(&mut self, store: &RowStore) -> Option<&[i64]> {
        let found = self.place_of_solution(store)?;
        let place = found / 2;
        if found < self.solutions.len() {
            self.solutions.as_mut_slice().swap(found, place);
        }
        let kept = self.solutions.get(place)?;
        Some(kept.sums.as_slice())
    }

    /// The place of the first kept solution of the present system.
    fn place_of_solution(&mut self, store: &RowStore) -> Option<usize> {
        for (place, kept) in self.solutions.iter_mut().enumerate() {
            if kept.holds(store) {
                return Some(place);
            }
        }
        None
    }

    /// Kept multipliers that refute the present system, of which so many rows at the front were there before, and the further
    /// row.
    pub(crate) fn multipliers_of(
        &self,
        store: &RowStore,
        front: Front,
    ) -> Option<(Position, &KeptMultipliers)> {
        for kept in self.multipliers.iter() {
            if let Some(position) = kept.further_row(store, front) {
                return Some((position, kept));
            }
        }
        None
    }

    /// Keeps a solution of the present system, by the sums of its steps, which are to begin with 0, not to fall, and to end
    /// above 0 and below 2^62; others are dropped. Where there is no room those of the second half go in turn.
    ///
    /// # Errors
    ///
    /// Only want of memory.
    pub(crate) fn keep_solution(
        &mut self,
        store: &RowStore,
        sums: Vec<i64>,
    ) -> Result<(), AllocError> {
        if !are_rising(sums.as_slice()) {
            return Ok(());
        }
        let known = store.lengths();
        let solution = KeptSums { sums, known };
        let len = self.solutions.len();
        if len < MOST_KEPT {
            self.solutions.push(solution)?;
            return Ok(());
        }
        let place = place_in_turn(len / 2, self.next_solution, len);
        if let Some(kept) = self.solutions.get_mut(place) {
            *kept = solution;
        }
        self.next_solution = place.saturating_add(1);
        Ok(())
    }

    /// Keeps multipliers that refute the present system, of which so many rows at the front were there before, unless more than
    /// one further row has one. Where there is no room they go in turn.
    ///
    /// # Errors
    ///
    /// Only want of memory.
    pub(crate) fn keep_multipliers(
        &mut self,
        alloc: Global,
        store: &RowStore,
        front: Front,
        multipliers: &Multipliers,
    ) -> Result<(), AllocError> {
        let Some(kept) = KeptMultipliers::of(alloc, store, front, multipliers)? else {
            return Ok(());
        };
        let len = self.multipliers.len();
        if len < MOST_KEPT {
            self.multipliers.push(kept)?;
            return Ok(());
        }
        let place = place_in_turn(0, self.next_multipliers, len);
        if let Some(old) = self.multipliers.get_mut(place) {
            *old = kept;
        }
        self.next_multipliers = place.saturating_add(1);
        Ok(())
    }
}

/// The place that goes next, from the first one that may go up to and without the end.
fn place_in_turn(first: usize, next: usize, end: usize) -> usize {
    if next < first || next >= end {
        first
    } else {
        next
    }
}

/// Whether the sums begin with 0, never fall, and end above 0 and below the greatest total.
fn are_rising(sums: &[i64]) -> bool {
    if sums.first() != Some(&0) {
        return false;
    }
    let mut before = 0;
    for sum in sums {
        if *sum < before {
            return false;
        }
        before = *sum;
    }
    0 < before && before < MOST_TOTAL
}

/// A sum with so many times an entry more, unless a number is too wide.
fn sum_with(sum: i128, weight: i128, entry: i64) -> Option<i128> {
    sum.checked_add(weight.checked_mul(i128::from(entry))?)
}
