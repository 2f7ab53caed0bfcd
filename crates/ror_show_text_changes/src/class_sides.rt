//! What stands above the lists: both times, and how many alternatives are settled.

ghost use Rattle.std.specs.Prelude.{◌≡◌, ◌++◌, OnOk};
ghost use Rattle.ror_show_ground.specs.Grounds.{ground_of};
ghost use Rattle.ror_show_text_changes.specs.ClassText as spec;

use ror_bench::KeptLine;
use ror_show_find_classes::{ClassRow, ClassTime};
use ror_show_ground::Ground;
use ror_show_kit::{write_count, write_line};
use ror_show_text_classes::{write_stood, write_to};
use std::alloc::{AllocError, Global};

/// Both times.
pub(crate) fn write_head(
    alloc: Global,
    text: &mut Vec<u8>,
    ground: &Ground<'_>,
    before: &ClassTime,
    now: &ClassTime,
) -> Result<(), AllocError>
    ensures { OnOk result (text.new.items
        ≡ text.old.items ++ spec.head_text (ground_of ground.now) before.now now.now) }
{
    write_side(alloc, text, ground, b"  before\n", before)?;
    write_side(alloc, text, ground, b"  now\n", now)
}

/// What the lists say.
pub(crate) fn legend() -> &'static [u8]
    ensures { result.now ≡ spec.legend }
{
    b"\n  of each alternative the lowest and the highest class that isn't excluded\n"
}

/// The first and the last line of a time, its desk and what stood there.
fn write_side(
    alloc: Global,
    text: &mut Vec<u8>,
    ground: &Ground<'_>,
    words: &[u8],
    time: &ClassTime,
) -> Result<(), AllocError>
    ensures { OnOk result (text.new.items
        ≡ text.old.items ++ spec.side_text (ground_of ground.now) words.now time.now) }
{
    let Some(line) = ground.kept.get(time.place) else {
        return Ok(());
    };
    write_side_of(alloc, text, ground, words, time.last, line)
}

fn write_side_of(
    alloc: Global,
    text: &mut Vec<u8>,
    ground: &Ground<'_>,
    words: &[u8],
    last: u32,
    line: &KeptLine,
) -> Result<(), AllocError>
    ensures { OnOk result (text.new.items
        ≡ text.old.items ++ spec.side_of ground.now.session.now words.now last line.now) }
{
    write_line(text, line.block.line, ground.desk_at(line))?;
    text.extend_from_slice(b"  ask classes")?;
    write_to(text, line.block.line, last)?;
    text.extend_from_slice(words)?;
    write_stood(alloc, text, line)
}

/// How many of the rows are settled, before and now.
pub(crate) fn write_settled(
    text: &mut Vec<u8>,
    before: &[ClassRow],
    now: &[ClassRow],
) -> Result<(), AllocError>
    ensures { OnOk result (text.new.items ≡ text.old.items ++ spec.settled_text before.now now.now) }
{
    write_settled_of(text, b"  settled: ", before)?;
    write_settled_of(text, b" before, ", now)?;
    text.extend_from_slice(b" now\n")
}

fn write_settled_of(text: &mut Vec<u8>, words: &[u8], rows: &[ClassRow]) -> Result<(), AllocError>
    ensures { OnOk result (text.new.items ≡ text.old.items ++ spec.settled_of words.now rows.now) }
{
    write_count(text, words, settled_among(rows))?;
    write_count(text, b" of ", rows.len())
}

fn settled_among(rows: &[ClassRow]) -> usize
    ensures { result ≡ spec.settled_among rows.now }
{
    rows.iter().filter(|row| row.settled).count()
}
