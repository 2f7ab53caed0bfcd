//! Where judges differ, and what one says alone.

ghost use Rattle.std.specs.Prelude.{◌≡◌, ◌≤◌, ◌++◌, length, OnOk};
ghost use Rattle.std.specs.List.{flat_map, list_all, range_with_len};
ghost use Rattle.ror_show_text_group.specs.Apart as spec;

use crate::judges::{label, name_at};
use ror_show_find_group::JudgeFound;
use ror_show_find_relation::Cell;
use ror_show_kit::{Part, id_bytes, part_at, widest, write_left, write_part_numbers, write_spaces};
use ror_show_text_relation::write_pairs;
use ror_table::Table;
use ror_text::{Items, Text};
use std::alloc::AllocError;

/// The columns of a line for two ids and cells: the rest is for margins.
const ROOM: usize = 110;

/// Adds the pairs on which judges differ, with the sign of each judge, in parts of as many columns as fit.
pub(crate) fn write_differing(
    text: &mut Vec<u8>,
    table: &Table,
    judges: &[JudgeFound],
    pairs: &[(usize, usize)],
) -> Result<(), AllocError>
    requires { length judges.now ≤ 64 }
    ensures { OnOk result (text.new.items ≡ text.old.items ++ spec.differing_text table.now judges.now pairs.now) }
{
    text.extend_from_slice(differing_head())?;
    write_listed(text, table, judges, pairs)
}

/// The pairs, or that there are none.
fn write_listed(
    text: &mut Vec<u8>,
    table: &Table,
    judges: &[JudgeFound],
    pairs: &[(usize, usize)],
) -> Result<(), AllocError>
    requires { length judges.now ≤ 64 }
    ensures { OnOk result (text.new.items ≡ text.old.items ++ spec.listed_text table.now judges.now pairs.now) }
{
    if pairs.is_empty() {
        return text.extend_from_slice(b"     none\n");
    }
    write_parts(text, table, judges, pairs)
}

fn differing_head() -> &'static [u8]
    ensures { result.now ≡ spec.differing_head }
{
    b"\n  pairs on which it is proved that judges differ, with what each judge says of the first against the second:\n  the signs are those above, for this judge alone, and ! where no value function agrees\n"
}

fn write_parts(
    text: &mut Vec<u8>,
    table: &Table,
    judges: &[JudgeFound],
    pairs: &[(usize, usize)],
) -> Result<(), AllocError>
    requires { length judges.now ≤ 64 }
    ensures { OnOk result (text.new.items ≡ text.old.items ++ spec.parts_text table.now judges.now pairs.now) }
{
    let width = widest(table);
    for place in 0..judges.len() {
        write_part_at(text, table, judges, pairs, width, place)?;
    }
    Ok(())
}

/// The part at a place, where it has columns.
fn write_part_at(
    text: &mut Vec<u8>,
    table: &Table,
    judges: &[JudgeFound],
    pairs: &[(usize, usize)],
    width: usize,
    place: usize,
) -> Result<(), AllocError>
    requires judges { length judges.now ≤ 64 }
    requires place { place ≤ 200 }
    ensures { OnOk result (text.new.items ≡ text.old.items
        ++ spec.part_text_at table.now judges.now pairs.now width place) }
{
    let part = part_at(room_for(width), width, place);
    if part.first < judges.len() {
        write_part(text, table, judges, pairs, part)?;
    }
    Ok(())
}

/// What a line has for one id of so many columns and cells, behind another id.
fn room_for(width: usize) -> usize
    ensures { result ≡ spec.room_for width }
{
    ROOM.saturating_sub(width)
}

fn write_part(
    text: &mut Vec<u8>,
    table: &Table,
    judges: &[JudgeFound],
    pairs: &[(usize, usize)],
    part: Part,
) -> Result<(), AllocError>
    requires { length judges.now ≤ 64 }
    ensures { OnOk result (text.new.items ≡ text.old.items ++ spec.part_text table.now judges.now pairs.now part) }
{
    write_head(text, part, judges.len())?;
    write_rows(text, table, judges, pairs, part)
}

/// The numbers of the judges.
fn write_head(text: &mut Vec<u8>, part: Part, judges: usize) -> Result<(), AllocError>
    requires { judges ≤ 64 }
    ensures { OnOk result (text.new.items ≡ text.old.items ++ spec.numbers_text part judges) }
{
    write_margin(text, part.width)?;
    write_part_numbers(text, part, judges)?;
    text.extend_from_slice(b"\n")
}

fn write_margin(text: &mut Vec<u8>, width: usize) -> Result<(), AllocError>
    ensures { OnOk result (text.new.items ≡ text.old.items ++ spec.margin width) }
{
    text.extend_from_slice(b"\n      ")?;
    write_spaces(text, width)?;
    write_spaces(text, width)
}

fn write_rows(
    text: &mut Vec<u8>,
    table: &Table,
    judges: &[JudgeFound],
    pairs: &[(usize, usize)],
    part: Part,
) -> Result<(), AllocError>
    ensures { OnOk result (text.new.items ≡ text.old.items
        ++ flat_map (spec.row_text table.now judges.now part) pairs.now) }
{
    'pairs: for pair in pairs {
        write_row(text, table, judges, part, *pair)?;
    }
    Ok(())
}

/// A pair, and the signs of the judges of the part.
fn write_row(
    text: &mut Vec<u8>,
    table: &Table,
    judges: &[JudgeFound],
    part: Part,
    pair: (usize, usize),
) -> Result<(), AllocError>
    ensures { OnOk result (text.new.items ≡ text.old.items ++ spec.row_text table.now judges.now part pair) }
{
    write_ids(text, table, part.width, pair)?;
    write_votes(text, judges, part, pair)?;
    text.extend_from_slice(b"\n")
}

fn write_ids(
    text: &mut Vec<u8>,
    table: &Table,
    width: usize,
    pair: (usize, usize),
) -> Result<(), AllocError>
    ensures { OnOk result (text.new.items ≡ text.old.items ++ spec.ids_text table.now width pair) }
{
    text.extend_from_slice(b"     ")?;
    write_left(text, width, id_bytes(table, pair.0))?;
    text.extend_from_slice(b" ")?;
    write_left(text, width, id_bytes(table, pair.1))
}

fn write_votes(
    text: &mut Vec<u8>,
    judges: &[JudgeFound],
    part: Part,
    pair: (usize, usize),
) -> Result<(), AllocError>
    ensures { OnOk result (text.new.items ≡ text.old.items
        ++ flat_map (spec.vote_text judges.now part pair) (range_with_len 0 (length judges.now))) }
{
    for k in 0..judges.len() {
        write_vote(text, judges, part, pair, k)?;
    }
    Ok(())
}

/// The sign of a judge, where the part has it.
fn write_vote(
    text: &mut Vec<u8>,
    judges: &[JudgeFound],
    part: Part,
    pair: (usize, usize),
    k: usize,
) -> Result<(), AllocError>
    ensures { OnOk result (text.new.items ≡ text.old.items ++ spec.vote_text judges.now part pair k) }
{
    if part.has(k) {
        text.extend_from_slice(b"   ")?;
        text.push(vote_at(judges, k, pair).sign())?;
    }
    Ok(())
}

/// What the judge at a place says of a pair.
fn vote_at(judges: &[JudgeFound], k: usize, pair: (usize, usize)) -> Cell
    ensures { result ≡ spec.vote_at judges.now k pair }
{
    match judges.get(k) {
        Some(judge) => judge.cell(pair.0, pair.1),
        None => Cell::Unknown,
    }
}

/// Adds what one judge alone says, judge by judge.
pub(crate) fn write_alone(
    text: &mut Vec<u8>,
    table: &Table,
    desks: &[Text],
    alone: &[Items<(usize, usize)>],
) -> Result<(), AllocError>
    ensures { OnOk result (text.new.items ≡ text.old.items ++ spec.alone_text table.now desks.now alone.now) }
{
    text.extend_from_slice(alone_head())?;
    write_none(text, alone)?;
    write_each(text, table, desks, alone)
}

fn alone_head() -> &'static [u8]
    ensures { result.now ≡ spec.alone_head }
{
    b"\n  what one judge says alone (at least as good for this judge, and for no other)\n"
}

fn write_none(text: &mut Vec<u8>, alone: &[Items<(usize, usize)>]) -> Result<(), AllocError>
    ensures { OnOk result (text.new.items ≡ text.old.items ++ spec.none_text alone.now) }
{
    if all_nothing(alone) {
        return text.extend_from_slice(b"     none\n");
    }
    Ok(())
}

fn all_nothing(alone: &[Items<(usize, usize)>]) -> bool
    ensures { result ≡ list_all spec.is_nothing alone.now }
{
    alone.iter().all(|pairs| is_nothing(pairs))
}

fn is_nothing(pairs: &Items<(usize, usize)>) -> bool
    ensures { result ≡ spec.is_nothing pairs.now }
{
    pairs.is_empty()
}

fn write_each(
    text: &mut Vec<u8>,
    table: &Table,
    desks: &[Text],
    alone: &[Items<(usize, usize)>],
) -> Result<(), AllocError>
    ensures { OnOk result (text.new.items ≡ text.old.items
        ++ flat_map (spec.alone_at table.now desks.now alone.now) (range_with_len 0 (length alone.now))) }
{
    for k in 0..alone.len() {
        write_alone_at(text, table, desks, alone, k)?;
    }
    Ok(())
}

/// What the judge at a place says alone, if something.
fn write_alone_at(
    text: &mut Vec<u8>,
    table: &Table,
    desks: &[Text],
    alone: &[Items<(usize, usize)>],
    k: usize,
) -> Result<(), AllocError>
    ensures { OnOk result (text.new.items ≡ text.old.items ++ spec.alone_at table.now desks.now alone.now k) }
{
    let Some(pairs) = alone.get(k) else {
        return Ok(());
    };
    if pairs.is_empty() {
        return Ok(());
    }
    write_of_judge(text, table, name_at(desks, k), pairs.as_slice())
}

fn write_of_judge(
    text: &mut Vec<u8>,
    table: &Table,
    name: &[u8],
    pairs: &[(usize, usize)],
) -> Result<(), AllocError>
    ensures { OnOk result (text.new.items ≡ text.old.items ++ spec.of_judge table.now name.now pairs.now) }
{
    text.extend_from_slice(b"   ")?;
    text.extend_from_slice(label(name))?;
    write_pairs(text, table, b"\n", pairs)
}
