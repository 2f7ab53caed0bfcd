//! The rows of the present system as runs, and those that a tableau still has.

use crate::rows::RunRow;
use ror_system::{Row, System};
use std::alloc::{AllocError, Global};

/// How many rows at the front of either part of a system.
#[derive(Clone, Copy, Debug, PartialEq, Eq)]
pub(crate) struct Front {
    pub weak: usize,
    pub strict: usize,
}

impl Front {
    /// The lesser number of either part.
    pub(crate) fn least(self, other: Front) -> Front {
        Front {
            weak: self.weak.min(other.weak),
            strict: self.strict.min(other.strict),
        }
    }

    /// Whether the row at a position is one of these.
    pub(crate) fn has(self, position: Position) -> bool {
        match position {
            Position::Weak(position) => position < self.weak,
            Position::Strict(position) => position < self.strict,
        }
    }
}

/// A row of the present system, by its part and its position there.
#[derive(Clone, Copy, Debug, PartialEq, Eq)]
pub(crate) enum Position {
    Weak(usize),
    Strict(usize),
}

/// Who needs the row at a place. The place is free where nobody does.
#[derive(Clone, Copy, Debug, PartialEq, Eq)]
pub(crate) struct Use {
    pub present: bool,
    pub in_tableau: bool,
}

/// Rows, each at a place that it has until nobody needs it any more, and the places of those of the present system.
#[derive(Debug, Drop)]
pub(crate) struct RowStore {
    pub columns: usize,
    pub rows: Vec<RunRow>,
    pub uses: Vec<Use>,
    /// The places of the weak rows of the present system, in order.
    pub weak: Vec<usize>,
    /// The places of the strict rows of the present system, in order.
    pub strict: Vec<usize>,
}

impl RowStore {
    /// No rows, over so many columns.
    pub(crate) fn new(alloc: Global, columns: usize) -> RowStore {
        RowStore {
            columns,
            rows: Vec::new(alloc),
            uses: Vec::new(alloc),
            weak: Vec::new(alloc),
            strict: Vec::new(alloc),
        }
    }

    /// How many rows the present system has in either part.
    pub(crate) fn lengths(&self) -> Front {
        Front {
            weak: self.weak.len(),
            strict: self.strict.len(),
        }
    }

    /// The weak row of the present system at a position.
    pub(crate) fn weak_row(&self, position: usize) -> Option<&RunRow> {
        self.rows.get(*self.weak.get(position)?)
    }

    /// The strict row of the present system at a position.
    pub(crate) fn strict_row(&self, position: usize) -> Option<&RunRow> {
        self.rows.get(*self.strict.get(position)?)
    }

    /// The row of the present system at a position.
    pub(crate) fn row(&self, position: Position) -> Option<&RunRow> {
        match position {
            Position::Weak(position) => self.weak_row(position),
            Position::Strict(position) => self.strict_row(position),
        }
    }

    /// Makes a system the present one, of which so many rows at the front of either part are those of the one before. False
    /// where an entry is too wide; then the store is of no use.
    ///
    /// # Errors
    ///
    /// Only want of memory.
    pub(crate) fn take_over(
        &mut self,
        alloc: Global,
        s: &System,
        front: Front,
    ) -> Result<bool, AllocError> {
        self.leave(front);
        for row in s.weak().iter().skip(front.weak) {
            let Some(place) = self.place_of(alloc, row, false)? else {
                return Ok(false);
            };
            self.weak.push(place)?;
        }
        for row in s.strict().iter().skip(front.strict) {
            let Some(place) = self.place_of(alloc, row, true)? else {
                return Ok(false);
            };
            self.strict.push(place)?;
        }
        Ok(true)
    }

    /// Lets the rows go that stand past so many at the front of either part.
    fn leave(&mut self, front: Front) {
        leave_places(&mut self.uses, &self.weak, front.weak);
        leave_places(&mut self.uses, &self.strict, front.strict);
        self.weak.truncate(front.weak);
        self.strict.truncate(front.strict);
    }

    /// Gives a row of the present system a place, unless an entry is too wide.
    fn place_of(
        &mut self,
        alloc: Global,
        row: &Row,
        strict: bool,
    ) -> Result<Option<usize>, AllocError> {
        let Some(row) = RunRow::new(alloc, row, strict)? else {
            return Ok(None);
        };
        let new = Use {
            present: true,
            in_tableau: false,
        };
        if let Some(place) = self.free_place() {
            if let (Some(old), Some(uses)) = (self.rows.get_mut(place), self.uses.get_mut(place)) {
                *old = row;
                *uses = new;
                return Ok(Some(place));
            }
            return Ok(None);
        }
        let place = self.rows.len();
        self.rows.push(row)?;
        self.uses.push(new)?;
        Ok(Some(place))
    }

    /// The first place that nobody needs.
    fn free_place(&self) -> Option<usize> {
        self.uses
            .iter()
            .position(|uses| !uses.present && !uses.in_tableau)
    }

    /// Twice the widest entry of the rows of the present system.
    pub(crate) fn widest_sum(&self) -> i64 {
        let mut widest: i64 = 0;
        for (row, uses) in self.rows.iter().zip(self.uses.iter()) {
            if uses.present {
                widest = widest.max(row.widest);
            }
        }
        widest.saturating_mul(2)
    }

    /// Takes note that no tableau has a row.
    pub(crate) fn leave_tableau(&mut self) {
        for uses in self.uses.iter_mut() {
            uses.in_tableau = false;
        }
    }
}

/// Marks the rows at the places past the front as no longer present.
fn leave_places(uses: &mut Vec<Use>, places: &Vec<usize>, front: usize) {
    for place in places.iter().skip(front) {
        if let Some(uses) = uses.get_mut(*place) {
            uses.present = false;
        }
    }
}
