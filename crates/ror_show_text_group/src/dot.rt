//! What holds for all judges as a graph that `dot` draws.

ghost use Rattle.std.specs.Prelude.{◌≡◌, ◌++◌, OnOk};
ghost use Rattle.ror_show_text_group.specs.Dot as spec;

use ror_show_find_group::GroupFound;
use ror_show_forms::write_graph_body;
use ror_table::Table;
use std::alloc::AllocError;

/// Adds the graph of the arrows of what holds for every judge who is heard: each alternative, and then each arrow.
///
/// # Errors
///
/// Only want of memory.
pub fn write_group_dot(
    text: &mut Vec<u8>,
    table: &Table,
    found: &GroupFound,
) -> Result<(), AllocError>
    ensures { OnOk result (text.new.items ≡ text.old.items ++ spec.dot_text table.now found.now) }
{
    text.extend_from_slice(b"digraph \"group\" {\n")?;
    write_graph_body(text, table, found.common.arrows.as_slice())
}
