//! Systems of two rows.

ghost use Rattle.std.specs.List.{AllByRecursion};
ghost use Rattle.ror_system.specs.System.{IsNarrow};

use ror_system::{Row, System};
use std::alloc::Global;

/// The system of the row of ones and this strict row, within the limits.
pub(crate) fn system(alloc: Global, entries: &[i128]) -> Option<System>
    requires { AllByRecursion IsNarrow entries.now }
{
    let columns = entries.len();
    if columns > 2000 {
        return None;
    }
    let total = Row::from_slice(alloc, vec![in alloc; 1i128; columns].ok()?.as_slice()).ok()?;
    let row = Row::from_slice(alloc, entries).ok()?;
    let mut strict = Vec::new(alloc);
    strict.push(total).ok()?;
    strict.push(row).ok()?;
    Some(System::new(columns, Vec::new(alloc), strict))
}
