//! The rows of a system.

ghost use Rattle.std.specs.Prelude.{◌≡◌, ◌<◌, ◌≤◌, ◌==◌, length, IfOk};
ghost use Rattle.std.specs.List.{AllByRecursion};
ghost use Rattle.ror_integers.specs.Vectors.{entry};
ghost use Rattle.ror_system.specs.System.{IsNarrow};

use std::alloc::{AllocError, Global};
use std::marker::Model;
use std::rc::Rc;

/// A row of a system: whole numbers of absolute value at most 2^127 - 1. A copy of it shares its entries.
#[derive(Debug, Drop)]
pub struct Row {
    entries: Rc<Vec<i128>, Global>,
}

impl Model for Row {
    ghost use Rattle.std.specs.Prelude.{ℤ, List};
    ghost use Rattle.std.specs.List.{AllByRecursion};
    ghost use Rattle.ror_system.specs.System.{IsNarrow};

    ghost Value = { List ℤ };

    ghost view = { λ row. row.entries.value.items };

    ghost invariant = { λ row. AllByRecursion IsNarrow row.entries.value.items };
}

impl Row {
    /// The row with a copy of these entries.
    ///
    /// # Errors
    ///
    /// Only want of memory.
    pub fn from_slice(alloc: Global, entries: &[i128]) -> Result<Row, AllocError>
        requires { AllByRecursion IsNarrow entries.now }
        ensures { IfOk result (λ row. row ≡ entries.now) }
    {
        Row::from_vec(alloc, Vec::from_slice(alloc, entries)?)
    }

    /// The row with these entries, which are moved and not copied.
    ///
    /// # Errors
    ///
    /// Only want of memory.
    pub fn from_vec(alloc: Global, entries: Vec<i128>) -> Result<Row, AllocError>
        requires { AllByRecursion IsNarrow entries.items }
        ensures { IfOk result (λ row. row ≡ entries.items) }
    {
        let entries = Rc::new(alloc, entries)?;
        Ok(Row { entries })
    }

    /// The same row again. It shares the entries, and takes no memory.
    ///
    /// # Errors
    ///
    /// Want of memory is said where more copies share the entries than can be counted.
    pub fn copied(&self) -> Result<Row, AllocError>
        ensures { IfOk result (λ row. row ≡ self.now) }
    {
        let entries = self.entries.clone()?;
        Ok(Row { entries })
    }

    /// The entries as a slice.
    pub fn as_slice(&self) -> &[i128]
        ensures value { result.now ≡ self.now }
        ensures narrow { AllByRecursion IsNarrow self.now }
    {
        self.entries.as_slice()
    }

    /// How many entries there are.
    pub fn len(&self) -> usize
        ensures { result ≡ length self.now }
    {
        self.entries.len()
    }

    /// Whether there is no entry.
    pub fn is_empty(&self) -> bool
        ensures { result ≡ (length self.now == 0) }
    {
        self.entries.is_empty()
    }

    /// The entry of a column.
    pub fn entry(&self, j: usize) -> i128
        requires { j < length self.now }
        ensures value { result ≡ entry self.now j }
        ensures narrow { IsNarrow result }
    {
        self.entries[j]
    }
}

/// How many rows at the front of two lists share their entries, as a row and its copies do. Rows that don't share them may be the
/// same all the same: it saves the comparison of most that are. It takes no memory.
pub fn shared_front(rows: &[Row], others: &[Row]) -> usize
    ensures within { result ≤ length rows.now }
    ensures within_others { result ≤ length others.now }
{
    let most = rows.len().min(others.len());
    for place in 0..most {
        let row = &rows[place];
        let other = &others[place];
        if !Rc::ptr_eq(&row.entries, &other.entries) {
            return place;
        }
    }
    most
}
