//! The page of a relation as plain text.

ghost use Rattle.std.specs.Prelude.{◌≡◌, ◌≤◌, ◌++◌, OnOk};
ghost use Rattle.ror_show_ground.specs.Heads.{head_of};
ghost use Rattle.ror_show_text_relation.specs.Text as spec;
ghost use Rattle.ror_show_find_relation.specs.Rows as rows;

use crate::lists::{write_arrows, write_levels};
use crate::matrix::write_matrix;
use ror_show_find_relation::{Counts, RelationPage, contradictory_pairs, unknown_pairs};
use ror_show_ground::Heading;
use ror_show_kit::{write_count, write_line, write_statements};
use ror_table::Table;
use std::alloc::AllocError;

/// Adds the page of a relation: what stands above it, what the signs mean, the matrix, of how many pairs something is known, the
/// levels and the arrows. The matrix stands in parts of as many columns as fit beside the longest id, at least one and at most
/// 25, and in a list a number or an id that would pass the 120th column begins a new line.
///
/// # Errors
///
/// Only want of memory.
pub fn print_relation(
    text: &mut Vec<u8>,
    table: &Table,
    heading: &Heading,
    page: &RelationPage,
) -> Result<(), AllocError>
    ensures { OnOk result (text.new.items ≡ text.old.items ++ spec.relation_text table.now (head_of heading.now) page.now) }
{
    write_above(text, heading)?;
    write_matrix(text, table, page.rows.as_slice())?;
    write_counts(text, table, page)?;
    write_lists(text, table, page)
}

/// What stands above the matrix.
fn write_above(text: &mut Vec<u8>, heading: &Heading) -> Result<(), AllocError>
    ensures { OnOk result (text.new.items ≡ text.old.items ++ spec.above_text (head_of heading.now)) }
{
    write_head(text, heading)?;
    write_statements(text, heading.numbers)?;
    text.extend_from_slice(legend())?;
    Ok(())
}

/// The lists of ids below it.
fn write_lists(text: &mut Vec<u8>, table: &Table, page: &RelationPage) -> Result<(), AllocError>
    ensures { OnOk result (text.new.items ≡ text.old.items ++ spec.lists_text table.now page.now) }
{
    write_levels(text, table, page)?;
    write_arrows(text, table, page.arrows.as_slice())
}

/// The line, its desk, and how many answers are proved.
fn write_head(text: &mut Vec<u8>, heading: &Heading) -> Result<(), AllocError>
    ensures { OnOk result (text.new.items ≡ text.old.items ++ spec.head_text (head_of heading.now)) }
{
    write_line(text, heading.line, heading.desk)?;
    write_proved(text, heading)
}

fn write_proved(text: &mut Vec<u8>, heading: &Heading) -> Result<(), AllocError>
    ensures { OnOk result (text.new.items ≡ text.old.items ++ spec.proved_text (head_of heading.now)) }
{
    write_count(text, b"  ask relation    proved: ", heading.proved)?;
    write_count(text, b" of ", heading.answers)?;
    text.push(b'\n')?;
    Ok(())
}

/// What the signs of the cells mean.
fn legend() -> &'static [u8]
    ensures { result.now ≡ spec.legend }
{
    b"\n  the row's alternative against the column's, over all value functions that agree with the statements:\n     N  always better                         n  at least as good, and some function makes them equal\n     -  always worse                          m  at most as good, and some function makes them equal\n     =  always equally good                   .  open: some functions say the one, some the other\n     !  no function agrees                    ?  not concluded\n"
}

/// How many pairs so many alternatives have.
pub fn pairs_among(size: usize) -> usize
    requires { size ≤ 200 }
    ensures { result ≡ rows.pairs_among size }
{
    size * size.saturating_sub(1) / 2
}

/// Of how many pairs something is known.
fn write_counts(text: &mut Vec<u8>, table: &Table, page: &RelationPage) -> Result<(), AllocError>
    ensures { OnOk result (text.new.items ≡ text.old.items ++ spec.counts_text table.now page.now) }
{
    let size = table.alternatives();
    let unknown = unknown_pairs(page.rows.as_slice(), size);
    let contradictory = contradictory_pairs(page.rows.as_slice(), size);
    write_pairs(text, pairs_among(size), page.counts, unknown)?;
    write_rest(text, contradictory, page.counts.by_dominance)
}

fn write_pairs(
    text: &mut Vec<u8>,
    pairs: usize,
    counts: Counts,
    unknown: usize,
) -> Result<(), AllocError>
    ensures { OnOk result (text.new.items ≡ text.old.items ++ spec.pairs_text pairs counts unknown) }
{
    write_count(text, b"\n  of ", pairs)?;
    write_count(text, b" pairs ", counts.decided)?;
    write_count(text, b" are decided, ", counts.open)?;
    write_count(text, b" open, ", unknown)
}

fn write_rest(
    text: &mut Vec<u8>,
    contradictory: usize,
    by_dominance: usize,
) -> Result<(), AllocError>
    ensures { OnOk result (text.new.items ≡ text.old.items ++ spec.rest_text contradictory by_dominance) }
{
    text.extend_from_slice(b" not concluded")?;
    write_contradiction(text, contradictory)?;
    write_count(text, b"; by dominance alone ", by_dominance)?;
    text.push(b'\n')?;
    Ok(())
}

/// Of how many pairs it is known that no function agrees with the statements, where there are any.
fn write_contradiction(text: &mut Vec<u8>, count: usize) -> Result<(), AllocError>
    ensures { OnOk result (text.new.items ≡ text.old.items ++ spec.contradiction_text count) }
{
    if count == 0 {
        return Ok(());
    }
    write_count(text, b", ", count)?;
    text.extend_from_slice(b" without a function that agrees")
}
