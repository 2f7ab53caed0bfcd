//! The arrows of relations as graphs that `dot` draws.

ghost use Rattle.std.specs.Prelude.{◌≡◌, ◌++◌, length, OnOk};
ghost use Rattle.std.specs.List.{flat_map, range_with_len};
ghost use Rattle.ror_show_ground.specs.Grounds.{ground_of};
ghost use Rattle.ror_show_forms.specs.Dot as spec;

use itoa::Buffer;
use ror_show_find_reasons::RelationFound;
use ror_show_ground::Ground;
use ror_show_kit::id_bytes;
use ror_table::Table;
use std::alloc::AllocError;

/// Adds for each relation the graph of its arrows, whose name is the session's line: each alternative, and then each arrow. In ids
/// quotation marks and backslashes have a backslash before them.
///
/// # Errors
///
/// Only want of memory.
pub fn write_relations_dot(
    text: &mut Vec<u8>,
    ground: &Ground<'_>,
    found: &[RelationFound],
) -> Result<(), AllocError>
    ensures { OnOk result (text.new.items
        ≡ text.old.items ++ flat_map (spec.relation_graph (ground_of ground.now)) found.now) }
{
    'lines: for relation in found {
        write_graph(text, ground, relation)?;
    }
    Ok(())
}

/// The graph of a relation, if its line is one of the kept ones.
fn write_graph(
    text: &mut Vec<u8>,
    ground: &Ground<'_>,
    found: &RelationFound,
) -> Result<(), AllocError>
    ensures { OnOk result (text.new.items
        ≡ text.old.items ++ spec.relation_graph (ground_of ground.now) found.now) }
{
    match ground.kept.get(found.place) {
        Some(line) => write_dot(
            text,
            ground.table,
            line.block.line,
            found.relation.arrows.as_slice(),
        ),
        None => Ok(()),
    }
}

fn write_dot(
    text: &mut Vec<u8>,
    table: &Table,
    line: u32,
    arrows: &[(usize, usize)],
) -> Result<(), AllocError>
    ensures { OnOk result (text.new.items ≡ text.old.items ++ spec.dot_text table.now line arrows.now) }
{
    write_head(text, line)?;
    write_graph_body(text, table, arrows)
}

/// Adds what stands behind the head of a graph: each alternative, and then each arrow, by places from 0.
///
/// # Errors
///
/// Only want of memory.
pub fn write_graph_body(
    text: &mut Vec<u8>,
    table: &Table,
    arrows: &[(usize, usize)],
) -> Result<(), AllocError>
    ensures { OnOk result (text.new.items ≡ text.old.items ++ spec.graph_body table.now arrows.now) }
{
    write_nodes(text, table)?;
    write_arrows(text, table, arrows)?;
    text.extend_from_slice(b"}\n")
}

fn write_head(text: &mut Vec<u8>, line: u32) -> Result<(), AllocError>
    ensures { OnOk result (text.new.items ≡ text.old.items ++ spec.graph_head line) }
{
    text.extend_from_slice(b"digraph \"line ")?;
    text.extend_from_slice(Buffer::new().format(line).as_bytes())?;
    text.extend_from_slice(b"\" {\n")
}

fn write_nodes(text: &mut Vec<u8>, table: &Table) -> Result<(), AllocError>
    ensures { OnOk result (text.new.items
        ≡ text.old.items ++ flat_map (spec.node table.now) (range_with_len 0 (length table.now.alternatives))) }
{
    for a in 0..table.alternatives() {
        write_node(text, table, a)?;
    }
    Ok(())
}

fn write_node(text: &mut Vec<u8>, table: &Table, a: usize) -> Result<(), AllocError>
    ensures { OnOk result (text.new.items ≡ text.old.items ++ spec.node table.now a) }
{
    text.extend_from_slice(b"  ")?;
    write_quoted(text, id_bytes(table, a))?;
    text.extend_from_slice(b";\n")
}

fn write_arrows(
    text: &mut Vec<u8>,
    table: &Table,
    arrows: &[(usize, usize)],
) -> Result<(), AllocError>
    ensures { OnOk result (text.new.items ≡ text.old.items ++ flat_map (spec.arrow table.now) arrows.now) }
{
    'arrows: for arrow in arrows {
        write_arrow(text, table, *arrow)?;
    }
    Ok(())
}

fn write_arrow(text: &mut Vec<u8>, table: &Table, arrow: (usize, usize)) -> Result<(), AllocError>
    ensures { OnOk result (text.new.items ≡ text.old.items ++ spec.arrow table.now arrow) }
{
    text.extend_from_slice(b"  ")?;
    write_quoted(text, id_bytes(table, arrow.0))?;
    text.extend_from_slice(b" -> ")?;
    write_quoted(text, id_bytes(table, arrow.1))?;
    text.extend_from_slice(b";\n")
}

/// The name between quotation marks.
fn write_quoted(text: &mut Vec<u8>, name: &[u8]) -> Result<(), AllocError>
    ensures { OnOk result (text.new.items ≡ text.old.items ++ spec.quoted name.now) }
{
    text.push(b'"')?;
    write_escaped(text, name)?;
    text.push(b'"')?;
    Ok(())
}

fn write_escaped(text: &mut Vec<u8>, name: &[u8]) -> Result<(), AllocError>
    ensures { OnOk result (text.new.items ≡ text.old.items ++ flat_map spec.escaped name.now) }
{
    'bytes: for byte in name {
        write_byte(text, *byte)?;
    }
    Ok(())
}

/// The byte, behind a backslash where it is one or a quotation mark.
fn write_byte(text: &mut Vec<u8>, byte: u8) -> Result<(), AllocError>
    ensures { OnOk result (text.new.items ≡ text.old.items ++ spec.escaped byte) }
{
    if byte == b'"' || byte == b'\\' {
        text.push(b'\\')?;
    }
    text.push(byte)?;
    Ok(())
}
