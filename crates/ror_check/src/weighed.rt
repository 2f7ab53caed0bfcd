//! The rows that multipliers weigh.

ghost use Rattle.std.specs.Prelude.{◌≡◌, ◌≤◌, ◌++◌, ◌∷◌, [], length, take, IfOk, OnOk};
ghost use Rattle.ror_check.specs.Weighed.{StandsFor};

use ror_system::{Numbers, Row};
use std::alloc::{AllocError, Global};

/// Rows with their multipliers.
#[derive(Drop)]
pub(crate) struct Weighed {
    pub(crate) rows: Vec<Row>,
    pub(crate) multipliers: Numbers,
}

impl Weighed {
    /// The first of these rows and those whose multiplier is not 0, with their multipliers. What stands behind a multiplier for
    /// each row is left out.
    pub(crate) fn of(
        alloc: Global,
        rows: &[Row],
        multipliers: &Numbers,
    ) -> Result<Weighed, AllocError>
        requires { length rows.now ≤ length multipliers.now }
        ensures { IfOk result
            (λ few. StandsFor few.multipliers few.rows.items
            (take (length rows.now) multipliers.now) rows.now) }
    {
        let mut few = Weighed {
            rows: Vec::new(alloc),
            multipliers: Numbers::new(alloc),
        };
        for i in 0..rows.len() {
            let multiplier = multipliers.entry(i);
            if i == 0 || multiplier != 0 {
                few.push(&rows[i], multiplier)?;
            }
        }
        Ok(few)
    }

    /// Adds a copy of the row with its multiplier.
    fn push(&mut self, row: &Row, multiplier: i128) -> Result<(), AllocError>
        ensures rows { OnOk result (self.new.rows.items ≡ self.old.rows.items ++ row.now ∷ []) }
        ensures multipliers { OnOk result
            (self.new.multipliers ≡ self.old.multipliers ++ multiplier ∷ []) }
    {
        self.rows.push(row.copied()?)?;
        self.multipliers.push(multiplier)?;
        Ok(())
    }
}
