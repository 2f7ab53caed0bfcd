//! The pairs of each change, and the levels.

ghost use Rattle.std.specs.Prelude.{◌≡◌, ◌++◌, OnOk};
ghost use Rattle.ror_show_text_relation.specs.Text.{pairs_below};
ghost use Rattle.ror_show_text_changes.specs.Text as spec;

use ror_show_find_relation::{Change, Differences, RelationPage};
use ror_show_text_relation::{write_levels, write_pairs};
use ror_table::Table;
use std::alloc::AllocError;

/// The pairs of each change.
pub(crate) fn write_differences(
    text: &mut Vec<u8>,
    table: &Table,
    pairs: &Differences,
) -> Result<(), AllocError>
    ensures { OnOk result (text.new.items ≡ text.old.items ++ spec.differences_text table.now pairs.now) }
{
    write_list(text, table, Change::TurnedRound, pairs.turned.as_slice())?;
    write_list(text, table, Change::NoLonger, pairs.no_longer.as_slice())?;
    write_list(text, table, Change::Stayed, pairs.stayed.as_slice())?;
    write_list(text, table, Change::New, pairs.new.as_slice())
}

fn write_list(
    text: &mut Vec<u8>,
    table: &Table,
    change: Change,
    pairs: &[(usize, usize)],
) -> Result<(), AllocError>
    ensures { OnOk result (text.new.items
        ≡ text.old.items ++ pairs_below table.now (spec.change_head change) pairs.now) }
{
    write_pairs(text, table, change_head(change), pairs)
}

fn change_head(change: Change) -> &'static [u8]
    ensures { result.now ≡ spec.change_head change }
{
    match change {
        Change::TurnedRound => {
            b"\n  turned round, as they were before (now each leads the other way alone)\n"
        }
        Change::NoLonger => b"\n  no longer so, and not turned round\n",
        Change::Stayed => b"\n  stayed\n",
        Change::New => b"\n  new, and not turned round\n",
    }
}

/// The levels before and now.
pub(crate) fn write_both_levels(
    text: &mut Vec<u8>,
    table: &Table,
    before: &RelationPage,
    now: &RelationPage,
) -> Result<(), AllocError>
    ensures { OnOk result (text.new.items ≡ text.old.items ++ spec.both_levels table.now before.now now.now) }
{
    text.extend_from_slice(b"\n  before")?;
    write_levels(text, table, before)?;
    text.extend_from_slice(b"\n  now")?;
    write_levels(text, table, now)
}
