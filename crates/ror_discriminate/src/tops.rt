//! What the best levels count of each column.

ghost use Rattle.std.specs.Prelude.{◌≡◌, IfOk};
ghost use Rattle.ror_table.specs.Table.{columns};
ghost use Rattle.ror_table.specs.Blocks.{tops};
ghost use Rattle.ror_pivot.specs.Optimality.{AreTops};

use ror_system::Row;
use ror_table::Table;
use std::alloc::{AllocError, Global};

/// The row of what the best levels count of each column: at the steps of a value function it comes to the ideal value.
pub(crate) fn row_of_tops(alloc: Global, table: &Table) -> Result<Row, AllocError>
    ensures value { IfOk result (λ row. row ≡ tops table.now) }
    ensures tops { IfOk result (λ row. AreTops (columns table.now) row) }
{
    let mut entries = Vec::with_capacity(alloc, table.columns())?;
    for column in 0..table.columns() {
        entries.push(i128::from(table.top(column)))?;
    }
    Row::from_vec(alloc, entries)
}
