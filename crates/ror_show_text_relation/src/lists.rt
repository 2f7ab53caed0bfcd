//! Levels and arrows as lists of ids.

ghost use Rattle.std.specs.Prelude.{◌≡◌, ◌-◌, ◌++◌, length, OnOk, IfOk};
ghost use Rattle.std.specs.List.{flat_map, list_any, range_with_len};
ghost use Rattle.ror_show_find_relation.specs.Levels as order;
ghost use Rattle.ror_show_find_relation.specs.Relations.{some_below};
ghost use Rattle.ror_table.specs.Table.{id_of};
ghost use Rattle.ror_show_kit.specs.Layout.{columns, room_behind, room_left, wrapped};
ghost use Rattle.ror_show_text_relation.specs.Text as spec;

use crate::apart::{is_apart, write_apart};
use ror_show_find_relation::RelationPage;
use ror_show_kit::{columns, id_bytes, room_behind, write_number, write_word};
use ror_table::Table;
use std::alloc::AllocError;

/// The margin of lines that go on.
const MARGIN: usize = 8;

/// Adds the alternatives of each level, then those without one, and behind the levels those of which nothing is known.
///
/// # Errors
///
/// Only want of memory.
pub fn write_levels(
    text: &mut Vec<u8>,
    table: &Table,
    page: &RelationPage,
) -> Result<(), AllocError>
    ensures { OnOk result (text.new.items ≡ text.old.items ++ spec.levels_text table.now page.now) }
{
    text.extend_from_slice(
        b"\n  levels (all that is above an alternative is in levels before its own)\n",
    )?;
    write_all_levels(text, table, page)?;
    write_level(text, table, page, None)?;
    write_apart(text, table, page.rows.as_slice())
}

fn write_all_levels(
    text: &mut Vec<u8>,
    table: &Table,
    page: &RelationPage,
) -> Result<(), AllocError>
    ensures { OnOk result (text.new.items ≡ text.old.items
        ++ flat_map (spec.some_level_text table.now page.now) (range_with_len 0 (length table.now.alternatives))) }
{
    for k in 0..table.alternatives() {
        write_level(text, table, page, Some(k + 1))?;
    }
    Ok(())
}

/// The line of a level, where some have it.
fn write_level(
    text: &mut Vec<u8>,
    table: &Table,
    page: &RelationPage,
    level: Option<usize>,
) -> Result<(), AllocError>
    ensures { OnOk result (text.new.items ≡ text.old.items ++ spec.level_text table.now page.now level) }
{
    if !has_member(page, table.alternatives(), level) {
        return Ok(());
    }
    write_mark(text, level)?;
    text.extend_from_slice(b"  ")?;
    write_members(text, table, page, level)?;
    text.push(b'\n')?;
    Ok(())
}

fn has_member(page: &RelationPage, size: usize, level: Option<usize>) -> bool
    ensures { result ≡ some_below (spec.is_member page.now level) size }
{
    let mut found = false;
    for a in 0..size {
        if is_member(page, level, a) {
            found = true;
        }
    }
    found
}

/// Whether an alternative has this level, and something is known of it.
fn is_member(page: &RelationPage, level: Option<usize>, a: usize) -> bool
    ensures { result ≡ spec.is_member page.now level a }
{
    is_same(level, level_at(page.levels.as_slice(), a)) && !is_apart(page.rows.as_slice(), a)
}

fn is_same(level: Option<usize>, other: Option<usize>) -> bool
    ensures { result ≡ spec.is_same level other }
{
    match (level, other) {
        (Some(k), Some(n)) => k == n,
        (None, None) => true,
        _ => false,
    }
}

fn write_mark(text: &mut Vec<u8>, level: Option<usize>) -> Result<(), AllocError>
    ensures { OnOk result (text.new.items ≡ text.old.items ++ spec.level_mark level) }
{
    match level {
        Some(number) => write_number(text, 6, number),
        None => text.extend_from_slice(b"     -"),
    }
}

fn write_members(
    text: &mut Vec<u8>,
    table: &Table,
    page: &RelationPage,
    level: Option<usize>,
) -> Result<(), AllocError>
    ensures { OnOk result (text.new.items
        ≡ text.old.items ++ wrapped 8 (room_behind 8) (spec.members table.now page.now level)) }
{
    let mut room = room_behind(MARGIN);
    for a in 0..table.alternatives() {
        room = write_member(text, room, table, page, level, a)?;
    }
    Ok(())
}

/// The id of the alternative, where it has this level and something is known of it, and what the line has left then.
fn write_member(
    text: &mut Vec<u8>,
    room: usize,
    table: &Table,
    page: &RelationPage,
    level: Option<usize>,
    a: usize,
) -> Result<usize, AllocError>
    ensures text { OnOk result (text.new.items
        ≡ text.old.items ++ wrapped 8 room (spec.member table.now page.now level a)) }
    ensures room { IfOk result (λ left. left ≡ room_left 8 room (spec.member table.now page.now level a)) }
{
    if !is_member(page, level, a) {
        return Ok(room);
    }
    write_word(text, MARGIN, room, id_bytes(table, a))
}

/// The level at a place, if it has one.
fn level_at(levels: &[Option<usize>], a: usize) -> Option<usize>
    ensures { result ≡ order.level_at levels.now a }
{
    match levels.get(a) {
        Some(level) => *level,
        None => None,
    }
}

/// Adds the arrows, by where they begin.
pub(crate) fn write_arrows(
    text: &mut Vec<u8>,
    table: &Table,
    arrows: &[(usize, usize)],
) -> Result<(), AllocError>
    ensures { OnOk result (text.new.items ≡ text.old.items ++ spec.arrows_text table.now arrows.now) }
{
    write_pairs(text, table, arrows_head(), arrows)
}

fn arrows_head() -> &'static [u8]
    ensures { result.now ≡ spec.arrows_head }
{
    b"\n  arrows (those that follow from others are left out)\n"
}

/// Adds pairs of alternatives, by their places from 0, below a head: a line for each at which some begin, with its id and where they lead,
/// in the order in which they are given, or that there are none.
///
/// # Errors
///
/// Only want of memory.
pub fn write_pairs(
    text: &mut Vec<u8>,
    table: &Table,
    head: &[u8],
    pairs: &[(usize, usize)],
) -> Result<(), AllocError>
    ensures { OnOk result (text.new.items ≡ text.old.items ++ spec.pairs_below table.now head.now pairs.now) }
{
    text.extend_from_slice(head)?;
    write_none(text, pairs)?;
    write_each_pair(text, table, pairs)
}

fn write_none(text: &mut Vec<u8>, arrows: &[(usize, usize)]) -> Result<(), AllocError>
    ensures { OnOk result (text.new.items ≡ text.old.items ++ spec.none_text arrows.now) }
{
    if arrows.is_empty() {
        return text.extend_from_slice(b"     none\n");
    }
    Ok(())
}

fn write_each_pair(
    text: &mut Vec<u8>,
    table: &Table,
    pairs: &[(usize, usize)],
) -> Result<(), AllocError>
    ensures { OnOk result (text.new.items ≡ text.old.items ++ spec.pairs_listed table.now pairs.now) }
{
    for a in 0..table.alternatives() {
        write_from(text, table, pairs, a)?;
    }
    Ok(())
}

/// The line of the arrows that begin at an alternative, where some do.
fn write_from(
    text: &mut Vec<u8>,
    table: &Table,
    arrows: &[(usize, usize)],
    a: usize,
) -> Result<(), AllocError>
    ensures { OnOk result (text.new.items ≡ text.old.items ++ spec.from_text table.now arrows.now a) }
{
    if !has_arrow(arrows, a) {
        return Ok(());
    }
    write_from_head(text, table, a)?;
    write_targets(text, table, arrows, a)?;
    text.push(b'\n')?;
    Ok(())
}

fn has_arrow(arrows: &[(usize, usize)], a: usize) -> bool
    ensures { result ≡ list_any (spec.begins_at a) arrows.now }
{
    arrows.iter().any(|arrow| begins_at(a, *arrow))
}

/// Where an arrow begins.
pub(crate) fn write_from_head(text: &mut Vec<u8>, table: &Table, a: usize) -> Result<(), AllocError>
    ensures { OnOk result (text.new.items ≡ text.old.items ++ spec.from_head table.now a) }
{
    text.extend_from_slice(b"     ")?;
    text.extend_from_slice(id_bytes(table, a))?;
    text.extend_from_slice(b" ->")
}

fn begins_at(a: usize, arrow: (usize, usize)) -> bool
    ensures { result ≡ spec.begins_at a arrow }
{
    arrow.0 == a
}

fn write_targets(
    text: &mut Vec<u8>,
    table: &Table,
    arrows: &[(usize, usize)],
    a: usize,
) -> Result<(), AllocError>
    ensures { OnOk result (text.new.items ≡ text.old.items
        ++ wrapped 8 (room_behind 8 - columns (id_of table.now a)) (spec.targets table.now arrows.now a)) }
{
    let mut room = room_behind(MARGIN).saturating_sub(columns(id_bytes(table, a)));
    'arrows: for arrow in arrows {
        room = write_target(text, room, table, a, *arrow)?;
    }
    Ok(())
}

/// Where the arrow leads, if it begins here, and what the line has left then.
fn write_target(
    text: &mut Vec<u8>,
    room: usize,
    table: &Table,
    a: usize,
    arrow: (usize, usize),
) -> Result<usize, AllocError>
    ensures text { OnOk result (text.new.items
        ≡ text.old.items ++ wrapped 8 room (spec.target table.now a arrow)) }
    ensures room { IfOk result (λ left. left ≡ room_left 8 room (spec.target table.now a arrow)) }
{
    if !begins_at(a, arrow) {
        return Ok(room);
    }
    write_word(text, MARGIN, room, id_bytes(table, arrow.1))
}
