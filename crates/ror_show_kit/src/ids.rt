//! The ids of a table by their places.

ghost use Rattle.std.specs.Prelude.{◌≡◌};
ghost use Rattle.ror_table.specs.Table.{id_of};

use ror_table::Table;

/// The id of the alternative at a place from 0, and nothing past the last one.
pub fn id_bytes(table: &Table, a: usize) -> &[u8]
    ensures { result.now ≡ id_of table.now a }
{
    if a >= table.alternatives() {
        return &[];
    }
    table.alternative_id(a).as_bytes()
}
