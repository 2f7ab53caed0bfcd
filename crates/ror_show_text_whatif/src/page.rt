//! What hangs on each statement at lines that ask for the relation.

ghost use Rattle.std.specs.Prelude.{◌≡◌, ◌++◌, OnOk};
ghost use Rattle.ror_show_ground.specs.Grounds.{ground_of};
ghost use Rattle.ror_show_text_whatif.specs.Pages as spec;

use crate::legend::{agreement_text, legend, no_statement};
use crate::lists::write_lists;
use crate::rows::relation_rows;
use crate::table::write_table;
use crate::ways::Way;
use ror_bench::KeptLine;
use ror_show_find_whatif::{Asks, WhatIf};
use ror_show_ground::Ground;
use ror_show_kit::write_line;
use ror_show_text_classes::write_stood;
use ror_table::Table;
use std::alloc::{AllocError, Global};

/// Adds what hangs on each statement at each line that is found, one after the other: how many pairs, in two tables, and below them which
/// ones; and an empty line.
///
/// # Errors
///
/// Only want of memory, here and below.
pub fn write_relation_whatifs(
    alloc: Global,
    text: &mut Vec<u8>,
    ground: &Ground<'_>,
    found: &[WhatIf],
) -> Result<(), AllocError>
    ensures { OnOk result (text.new.items ≡ text.old.items ++ spec.relations_text (ground_of ground.now) found.now) }
{
    'lines: for whatif in found {
        write_section(alloc, text, ground, whatif)?;
    }
    Ok(())
}

/// At a kept line.
fn write_section(
    alloc: Global,
    text: &mut Vec<u8>,
    ground: &Ground<'_>,
    found: &WhatIf,
) -> Result<(), AllocError>
    ensures { OnOk result (text.new.items ≡ text.old.items ++ spec.section_text (ground_of ground.now) found.now) }
{
    match ground.kept.get(found.place) {
        Some(line) => write_section_over(alloc, text, ground, found, line),
        None => Ok(()),
    }
}

fn write_section_over(
    alloc: Global,
    text: &mut Vec<u8>,
    ground: &Ground<'_>,
    found: &WhatIf,
    line: &KeptLine,
) -> Result<(), AllocError>
    ensures { OnOk result (text.new.items ≡ text.old.items ++ spec.section_over (ground_of ground.now) found.now line.now) }
{
    write_head(alloc, text, ground, line)?;
    text.extend_from_slice(agreement_text(found.agreement))?;
    write_body(alloc, text, ground.table, found)?;
    text.push(b'\n')?;
    Ok(())
}

/// The line, and what stood.
fn write_head(
    alloc: Global,
    text: &mut Vec<u8>,
    ground: &Ground<'_>,
    line: &KeptLine,
) -> Result<(), AllocError>
    ensures { OnOk result (text.new.items ≡ text.old.items ++ spec.head_text ground.now.session.now line.now) }
{
    write_line(text, line.block.line, ground.desk_at(line))?;
    text.extend_from_slice(b"  ask relation\n")?;
    write_stood(alloc, text, line)
}

fn write_body(
    alloc: Global,
    text: &mut Vec<u8>,
    table: &Table,
    found: &WhatIf,
) -> Result<(), AllocError>
    ensures { OnOk result (text.new.items ≡ text.old.items ++ spec.body_text table.now found.now) }
{
    if found.cases.is_empty() {
        return text.extend_from_slice(no_statement());
    }
    write_tables(alloc, text, table, found)
}

/// Both tables, and below them the pairs.
fn write_tables(
    alloc: Global,
    text: &mut Vec<u8>,
    table: &Table,
    found: &WhatIf,
) -> Result<(), AllocError>
    ensures { OnOk result (text.new.items ≡ text.old.items ++ spec.tables_text table.now found.now) }
{
    text.extend_from_slice(legend(Asks::Relation))?;
    write_way(alloc, text, table, Way::Withdrawn, found)?;
    write_way(alloc, text, table, Way::Contrary, found)?;
    write_lists(alloc, text, table, found.cases.as_slice())
}

/// The table of a way.
fn write_way(
    alloc: Global,
    text: &mut Vec<u8>,
    table: &Table,
    way: Way,
    found: &WhatIf,
) -> Result<(), AllocError>
    ensures { OnOk result (text.new.items ≡ text.old.items ++ spec.way_text table.now way found.now) }
{
    let rows = relation_rows(alloc, way, found)?;
    write_table(text, table, Asks::Relation, way, rows.as_slice())
}
