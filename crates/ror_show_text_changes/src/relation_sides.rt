//! What stands above the lists: both lines, and of how many pairs something is known.

ghost use Rattle.std.specs.Prelude.{◌≡◌, ◌++◌, OnOk};
ghost use Rattle.ror_show_text_changes.specs.Text as spec;

use ror_bench::KeptLine;
use ror_show_find_relation::{RelationPage, unknown_pairs};
use ror_show_ground::Ground;
use ror_show_kit::{write_count, write_line};
use ror_show_text_classes::write_stood;
use ror_show_text_relation::pairs_among;
use ror_table::Table;
use std::alloc::{AllocError, Global};

/// Both lines, and what stood there.
pub(crate) fn write_head(
    alloc: Global,
    text: &mut Vec<u8>,
    ground: &Ground<'_>,
    before: &KeptLine,
    now: &KeptLine,
) -> Result<(), AllocError>
    ensures { OnOk result (text.new.items
        ≡ text.old.items ++ spec.head_text ground.now.session.now before.now now.now) }
{
    write_side(alloc, text, ground, b"  before\n", before)?;
    write_side(alloc, text, ground, b"  now\n", now)
}

/// What the lists mean.
pub(crate) fn legend() -> &'static [u8]
    ensures { result.now ≡ spec.legend }
{
    b"\n  x -> y: by every value function that agrees with the statements x is at least as good as y\n"
}

/// A line, its desk and what stood there.
fn write_side(
    alloc: Global,
    text: &mut Vec<u8>,
    ground: &Ground<'_>,
    words: &[u8],
    line: &KeptLine,
) -> Result<(), AllocError>
    ensures { OnOk result (text.new.items
        ≡ text.old.items ++ spec.side_text ground.now.session.now words.now line.now) }
{
    write_line(text, line.block.line, ground.desk_at(line))?;
    text.extend_from_slice(words)?;
    write_stood(alloc, text, line)
}

/// Of how many pairs something is known, before and now.
pub(crate) fn write_counts(
    text: &mut Vec<u8>,
    table: &Table,
    before: &RelationPage,
    now: &RelationPage,
) -> Result<(), AllocError>
    ensures { OnOk result (text.new.items ≡ text.old.items ++ spec.counts_text table.now before.now now.now) }
{
    let size = table.alternatives();
    write_decided(
        text,
        pairs_among(size),
        before.counts.decided,
        now.counts.decided,
    )?;
    let unknown_before = unknown_pairs(before.rows.as_slice(), size);
    let unknown_now = unknown_pairs(now.rows.as_slice(), size);
    write_missing(text, unknown_before, unknown_now)
}

fn write_decided(
    text: &mut Vec<u8>,
    pairs: usize,
    before: usize,
    now: usize,
) -> Result<(), AllocError>
    ensures { OnOk result (text.new.items ≡ text.old.items ++ spec.decided_text pairs before now) }
{
    write_count(text, b"  of ", pairs)?;
    write_both(text, b" pairs decided: ", before, now)?;
    text.extend_from_slice(b"\n")
}

/// How many pairs the lists don't have, though they may be so.
fn write_missing(text: &mut Vec<u8>, before: usize, now: usize) -> Result<(), AllocError>
    ensures { OnOk result (text.new.items ≡ text.old.items ++ spec.missing_text before now) }
{
    if before == 0 && now == 0 {
        return Ok(());
    }
    write_some_missing(text, before, now)
}

fn write_some_missing(text: &mut Vec<u8>, before: usize, now: usize) -> Result<(), AllocError>
    ensures { OnOk result (text.new.items ≡ text.old.items ++ spec.some_missing before now) }
{
    write_both(text, b"  not concluded: ", before, now)?;
    text.extend_from_slice(b"; the lists take them as not so\n")
}

/// How many before, and how many now.
fn write_both(text: &mut Vec<u8>, words: &[u8], before: usize, now: usize) -> Result<(), AllocError>
    ensures { OnOk result (text.new.items ≡ text.old.items ++ spec.both_text words.now before now) }
{
    write_count(text, words, before)?;
    write_count(text, b" before, ", now)?;
    text.extend_from_slice(b" now")
}
