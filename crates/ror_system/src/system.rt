//! Systems of linear inequalities.

ghost use Rattle.std.specs.Prelude.{◌≡◌, ◌<◌, ◌≤◌, ◌+◌, length, slice_get, Some};
ghost use Rattle.std.specs.List.{AllByRecursion};
ghost use Rattle.ror_integers.specs.Vectors.{ones};
ghost use Rattle.ror_system.specs.declared.limits.TheConstants.{MOST_COLUMNS, MOST_SYSTEM_ROWS};
ghost use Rattle.ror_system.specs.System.{LinearSystem, IsWellFormed};
ghost use Rattle.ror_system.specs.Acceptance.{rows_of, row_at};

use crate::row::Row;
use std::marker::Model;

/// A system of inequalities over so many columns: each weak row is to be at least 0, each strict row above 0.
#[derive(Debug, Drop)]
pub struct System {
    columns: usize,
    weak: Vec<Row>,
    strict: Vec<Row>,
}

impl Model for System {
    ghost use Rattle.ror_system.specs.System.{LinearSystem, IsWellFormed};

    ghost Value = { LinearSystem };

    ghost view = { λ s. record { columns = s.columns; weak = s.weak.items; strict = s.strict.items } };

    ghost invariant = { λ s. IsWellFormed (record {
      columns = s.columns;
      weak = s.weak.items;
      strict = s.strict.items;
    }) };
}

impl System {
    /// The system of these rows. The first strict row, all ones, says that the total is positive.
    pub fn new(columns: usize, weak: Vec<Row>, strict: Vec<Row>) -> System
        requires columns_limit { columns ≤ MOST_COLUMNS }
        requires rows_limit { length weak.items + length strict.items ≤ MOST_SYSTEM_ROWS }
        requires weak_widths { AllByRecursion (λ row. length row ≡ columns) weak.items }
        requires strict_widths { AllByRecursion (λ row. length row ≡ columns) strict.items }
        requires total_row { slice_get strict.items 0 ≡ Some (ones columns) }
        ensures { result ≡ record { columns = columns; weak = weak.items; strict = strict.items } }
    {
        System {
            columns,
            weak,
            strict,
        }
    }

    /// How many columns there are.
    pub fn columns(&self) -> usize
        ensures value { result ≡ self.now.columns }
        ensures form { IsWellFormed self.now }
    {
        self.columns
    }

    /// The rows that are to be at least 0.
    pub fn weak(&self) -> &[Row]
        ensures value { result.now ≡ self.now.weak }
        ensures form { IsWellFormed self.now }
    {
        self.weak.as_slice()
    }

    /// The rows that are to be above 0.
    pub fn strict(&self) -> &[Row]
        ensures value { result.now ≡ self.now.strict }
        ensures form { IsWellFormed self.now }
    {
        self.strict.as_slice()
    }

    /// How many rows there are, weak and strict.
    pub(crate) fn number_of_rows(&self) -> usize
        ensures value { result ≡ length (rows_of self.now) }
        ensures form { IsWellFormed self.now }
    {
        self.weak.len() + self.strict.len()
    }

    /// The row at a place, weak rows first.
    pub(crate) fn row(&self, place: usize) -> &Row
        requires { place < length (rows_of self.now) }
        ensures value { result.now ≡ row_at self.now place }
        ensures width { length result.now ≡ self.now.columns }
    {
        let weak = self.weak.len();
        if place < weak {
            &self.weak[place]
        } else {
            &self.strict[place - weak]
        }
    }
}
