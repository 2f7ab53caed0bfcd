//! The page of the relations that were asked.

ghost use Rattle.std.specs.Prelude.{◌≡◌, ◌++◌, OnOk};
ghost use Rattle.std.specs.List.{flat_map};
ghost use Rattle.ror_show_ground.specs.Grounds.{ground_of};
ghost use Rattle.ror_show_ground.specs.Heads.{head_of};
ghost use Rattle.ror_show_ground.specs.Lines.{head_of_line};
ghost use Rattle.ror_show_text_relation.specs.Text.{relation_text};
ghost use Rattle.ror_show_text_relation.specs.Pages as spec;

use crate::text::print_relation;
use crate::words::write_pair;
use ror_bench::KeptLine;
use ror_show_find_reasons::{CarriedPair, RelationFound};
use ror_show_find_relation::RelationPage;
use ror_show_ground::{Ground, Heading, answers_of, proved_among, stood_numbers};
use ror_table::Table;
use std::alloc::{AllocError, Global};

/// Adds the relation at each line that is found, one after the other: what [`print_relation`] adds, below it its arrows, each with the
/// numbers of statements that carry it, and an empty line.
///
/// # Errors
///
/// Only want of memory.
pub fn write_relations(
    alloc: Global,
    text: &mut Vec<u8>,
    ground: &Ground<'_>,
    found: &[RelationFound],
) -> Result<(), AllocError>
    ensures { OnOk result (text.new.items
        ≡ text.old.items ++ spec.relations_text (ground_of ground.now) found.now) }
{
    'relations: for relation in found {
        write_section(alloc, text, ground, relation)?;
    }
    Ok(())
}

/// The relation at a kept line.
fn write_section(
    alloc: Global,
    text: &mut Vec<u8>,
    ground: &Ground<'_>,
    found: &RelationFound,
) -> Result<(), AllocError>
    ensures { OnOk result (text.new.items ≡ text.old.items ++ spec.section_text (ground_of ground.now) found.now) }
{
    let Some(line) = ground.kept.get(found.place) else {
        return Ok(());
    };
    write_section_over(alloc, text, ground, found, line)
}

/// The same, with what carries its arrows below, and an empty line behind.
fn write_section_over(
    alloc: Global,
    text: &mut Vec<u8>,
    ground: &Ground<'_>,
    found: &RelationFound,
    line: &KeptLine,
) -> Result<(), AllocError>
    ensures { OnOk result (text.new.items
        ≡ text.old.items ++ spec.section_over (ground_of ground.now) found.now line.now) }
{
    write_relation(alloc, text, ground, &found.relation, line)?;
    let arrows = found.carried.as_slice();
    write_carried(alloc, text, ground.table, carried_head(), arrows)?;
    text.push(b'\n')?;
    Ok(())
}

/// A relation, below what stands above that of a line.
fn write_relation(
    alloc: Global,
    text: &mut Vec<u8>,
    ground: &Ground<'_>,
    relation: &RelationPage,
    line: &KeptLine,
) -> Result<(), AllocError>
    ensures { OnOk result (text.new.items ≡ text.old.items
        ++ relation_text ground.now.table.now (head_of_line ground.now.session.now line.now) relation.now) }
{
    let numbers = stood_numbers(alloc, line)?;
    let heading = heading_with(line, ground.desk_at(line), numbers.as_slice());
    print_relation(text, ground.table, &heading, relation)
}

/// What stands above the relation of a line at a desk of this name, with these numbers of what stood.
fn heading_with<'a>(line: &KeptLine, desk: &'a str, numbers: &'a [u32]) -> Heading<'a>
    ensures { head_of result ≡ spec.head_with line.now desk.now numbers.now }
{
    let answers = answers_of(&line.block.body);
    Heading {
        line: line.block.line,
        desk,
        numbers,
        proved: proved_among(answers),
        answers: answers.len(),
    }
}

fn carried_head() -> &'static [u8]
    ensures { result.now ≡ spec.carried_head }
{
    b"\n  statements that carry each arrow (of these alone none can be spared; others may carry it too)\n"
}

/// Adds pairs below a head, each with the numbers of statements that carry it and of which none can be spared; nothing where there are no
/// pairs.
///
/// # Errors
///
/// Only want of memory.
pub fn write_carried(
    alloc: Global,
    text: &mut Vec<u8>,
    table: &Table,
    head: &[u8],
    found: &[CarriedPair],
) -> Result<(), AllocError>
    ensures { OnOk result (text.new.items ≡ text.old.items ++ spec.carried_text table.now head.now found.now) }
{
    if found.is_empty() {
        return Ok(());
    }
    text.extend_from_slice(head)?;
    write_each_pair(alloc, text, table, found)
}

fn write_each_pair(
    alloc: Global,
    text: &mut Vec<u8>,
    table: &Table,
    found: &[CarriedPair],
) -> Result<(), AllocError>
    ensures { OnOk result (text.new.items ≡ text.old.items ++ flat_map (spec.pair_line table.now) found.now) }
{
    'pairs: for pair in found {
        write_pair(alloc, text, table, pair)?;
    }
    Ok(())
}
