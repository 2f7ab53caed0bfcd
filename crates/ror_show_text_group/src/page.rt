//! The page of a group as plain text.

ghost use Rattle.std.specs.Prelude.{◌≡◌, ◌≤◌, ◌++◌, length, OnOk};
ghost use Rattle.ror_show_text_group.specs.Text as spec;

use crate::apart::{write_alone, write_differing};
use crate::judges::write_judges;
use crate::matrix::write_matrix;
use ror_show_find_group::{GroupCell, GroupFound, Stand, heard_count, pairs_standing};
use ror_show_kit::write_count;
use ror_show_text_relation::{pairs_among, write_levels, write_pairs};
use ror_table::Table;
use ror_text::{Items, Text};
use std::alloc::AllocError;

/// Adds the page of a group: the judges, first those who contradict themselves and those of whom nothing stands; what the signs mean; the
/// matrix of the judges who are heard; of how many pairs they say what; levels and arrows of what holds for all of them; the pairs on which
/// they differ, with the sign of each; and what one of them says alone. The last two are left out where fewer than two are heard.
///
/// # Errors
///
/// Only want of memory.
pub fn write_group(
    text: &mut Vec<u8>,
    table: &Table,
    desks: &[Text],
    found: &GroupFound,
) -> Result<(), AllocError>
    requires { length found.now.judges ≤ 64 }
    ensures { OnOk result (text.new.items ≡ text.old.items ++ spec.group_text table.now desks.now found.now) }
{
    write_judges(text, desks, found.judges.as_slice(), table.alternatives())?;
    write_heard(text, table, desks, found)
}

/// What is said of the judges who are heard, or that there are none.
fn write_heard(
    text: &mut Vec<u8>,
    table: &Table,
    desks: &[Text],
    found: &GroupFound,
) -> Result<(), AllocError>
    requires { length found.now.judges ≤ 64 }
    ensures { OnOk result (text.new.items ≡ text.old.items ++ spec.heard_text table.now desks.now found.now) }
{
    if heard_count(found.judges.as_slice()) == 0 {
        return text.extend_from_slice(none_left());
    }
    write_all(text, table, desks, found)
}

fn none_left() -> &'static [u8]
    ensures { result.now ≡ spec.none_left }
{
    b"\n  no judge is left of whom something could be said\n"
}

fn write_all(
    text: &mut Vec<u8>,
    table: &Table,
    desks: &[Text],
    found: &GroupFound,
) -> Result<(), AllocError>
    requires { length found.now.judges ≤ 64 }
    ensures { OnOk result (text.new.items ≡ text.old.items ++ spec.all_text table.now desks.now found.now) }
{
    text.extend_from_slice(legend())?;
    write_cells(text, table, found.rows.as_slice())?;
    write_common(text, table, found)?;
    write_apart(text, table, desks, found)
}

/// What the signs of the cells mean.
fn legend() -> &'static [u8]
    ensures { result.now ≡ spec.legend }
{
    b"\n  the row's alternative against the column's, for each judge over all value functions that agree with the judge:\n     for every judge\n     N  always better                         n  at least as good, and for some judge some function makes them equal\n     -  always worse                          m  at most as good, and for some judge some function makes them equal\n     =  always equally good                   .  open: some functions say the one, some the other\n     for some judges\n     >  at least as good, for the others open            <  at most as good, for the others open\n     x  always better, and for others at most as good, or the other way round: they differ\n     ~  at least as good, for others at most as good, and for none always better or always worse\n     ?  not concluded for some judge\n"
}

/// The matrix, and of how many pairs the judges say what.
fn write_cells(
    text: &mut Vec<u8>,
    table: &Table,
    rows: &[Items<GroupCell>],
) -> Result<(), AllocError>
    ensures { OnOk result (text.new.items ≡ text.old.items ++ spec.cells_text table.now rows.now) }
{
    write_matrix(text, table, rows)?;
    write_counts(text, rows, table.alternatives())
}

fn write_counts(
    text: &mut Vec<u8>,
    rows: &[Items<GroupCell>],
    size: usize,
) -> Result<(), AllocError>
    requires { size ≤ 200 }
    ensures { OnOk result (text.new.items ≡ text.old.items ++ spec.counts_text rows.now size) }
{
    write_agreed(text, rows, size)?;
    write_divided(text, rows, size)
}

/// On how many pairs all say the same.
fn write_agreed(
    text: &mut Vec<u8>,
    rows: &[Items<GroupCell>],
    size: usize,
) -> Result<(), AllocError>
    requires { size ≤ 200 }
    ensures { OnOk result (text.new.items ≡ text.old.items ++ spec.agreed_text rows.now size) }
{
    let decided = pairs_standing(Stand::Decided, rows, size);
    let open = pairs_standing(Stand::Open, rows, size);
    write_count(text, b"\n  of ", pairs_among(size))?;
    write_count(text, b" pairs ", decided)?;
    write_count(text, b" are decided and ", open)?;
    text.extend_from_slice(b" open for every judge, ")?;
    Ok(())
}

/// On how many they don't.
fn write_divided(
    text: &mut Vec<u8>,
    rows: &[Items<GroupCell>],
    size: usize,
) -> Result<(), AllocError>
    requires { size ≤ 200 }
    ensures { OnOk result (text.new.items ≡ text.old.items ++ spec.divided_text rows.now size) }
{
    let partly = pairs_standing(Stand::Partly, rows, size);
    let differ = pairs_standing(Stand::Differ, rows, size);
    let unknown = pairs_standing(Stand::Unknown, rows, size);
    write_count(text, b"", partly)?;
    write_count(text, b" decided for some, on ", differ)?;
    write_count(text, b" judges differ, ", unknown)?;
    text.extend_from_slice(b" not concluded\n")?;
    Ok(())
}

/// What holds for all: levels and arrows.
fn write_common(text: &mut Vec<u8>, table: &Table, found: &GroupFound) -> Result<(), AllocError>
    ensures { OnOk result (text.new.items ≡ text.old.items ++ spec.common_text table.now found.now) }
{
    text.extend_from_slice(b"\n  what holds for every judge\n")?;
    write_levels(text, table, &found.common)?;
    write_pairs(text, table, arrows_head(), found.common.arrows.as_slice())
}

fn arrows_head() -> &'static [u8]
    ensures { result.now ≡ spec.arrows_head }
{
    b"\n  arrows (at least as good for every judge, and not back; those that follow from others are left out)\n"
}

/// Where they differ, and what one says alone, where two or more are heard.
fn write_apart(
    text: &mut Vec<u8>,
    table: &Table,
    desks: &[Text],
    found: &GroupFound,
) -> Result<(), AllocError>
    requires { length found.now.judges ≤ 64 }
    ensures { OnOk result (text.new.items ≡ text.old.items ++ spec.apart_text table.now desks.now found.now) }
{
    if heard_count(found.judges.as_slice()) < 2 {
        return Ok(());
    }
    write_both(text, table, desks, found)
}

fn write_both(
    text: &mut Vec<u8>,
    table: &Table,
    desks: &[Text],
    found: &GroupFound,
) -> Result<(), AllocError>
    requires { length found.now.judges ≤ 64 }
    ensures { OnOk result (text.new.items ≡ text.old.items ++ spec.both_text table.now desks.now found.now) }
{
    let judges = found.judges.as_slice();
    write_differing(text, table, judges, found.differing.as_slice())?;
    write_alone(text, table, desks, found.alone.as_slice())
}
