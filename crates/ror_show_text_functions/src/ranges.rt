//! Runs of levels, in words.

ghost use Rattle.std.specs.Prelude.{◌≡◌, ◌<◌, ◌≤◌, ◌++◌, length, OnOk};
ghost use Rattle.ror_table.specs.Table.{steps};
ghost use Rattle.ror_show_text_functions.specs.Ranges as spec;

use ror_show_kit::write_amount;
use ror_table::Table;
use std::alloc::AllocError;

/// Adds a level, and the one up to which others follow it.
pub(crate) fn write_range(
    text: &mut Vec<u8>,
    table: &Table,
    i: usize,
    r: usize,
    s: usize,
) -> Result<(), AllocError>
    requires criterion { i < length table.now.criteria }
    requires first { r ≤ steps table.now i }
    requires last { s ≤ steps table.now i }
    ensures { OnOk result (text.new.items ≡ text.old.items ++ spec.range_text table.now i r s) }
{
    write_amount(text, table.level(i, r))?;
    write_upto(text, table, i, r, s)
}

fn write_upto(
    text: &mut Vec<u8>,
    table: &Table,
    i: usize,
    r: usize,
    s: usize,
) -> Result<(), AllocError>
    requires criterion { i < length table.now.criteria }
    requires last { s ≤ steps table.now i }
    ensures { OnOk result (text.new.items ≡ text.old.items ++ spec.upto_text table.now i r s) }
{
    if r == s {
        return Ok(());
    }
    text.extend_from_slice(b" .. ")?;
    write_amount(text, table.level(i, s))
}
