//! The classes as comma-separated values.

ghost use Rattle.std.specs.Prelude.{◌≡◌, ◌≤◌, ◌++◌, false, slice_index_or, IfOk, OnOk};
ghost use Rattle.std.specs.List.{flat_map, range_with_len};
ghost use Rattle.ror_show_ground.specs.Grounds.{ground_of};
ghost use Rattle.ror_show_find_classes.specs.declared.sign.Sign.TheVariants as signs;
ghost use Rattle.ror_show_forms.specs.ClassCsv as spec;

use crate::front::line_front;
use itoa::Buffer;
use ror_bench::KeptLine;
use ror_show_find_classes::{ClassLine, Sign};
use ror_show_ground::Ground;
use ror_show_kit::{id_bytes, write_next_field};
use ror_table::Table;
use std::alloc::{AllocError, Global};

/// The names of the values, as the first line of a file.
pub fn classes_head() -> &'static [u8]
    ensures { result.now ≡ spec.csv_head }
{
    b"line,desk,alternative,class,sign,assigned\n"
}

/// Adds a line for each class of each alternative that was asked for: the number of the session's line, the desk, the id, the
/// class, its sign, and `assigned` where a statement assigned the alternative to it. A value with a comma, a quotation mark or an
/// end of a line stands between quotation marks, with those within it doubled.
///
/// # Errors
///
/// Only want of memory.
pub fn write_classes_csv(
    alloc: Global,
    text: &mut Vec<u8>,
    ground: &Ground<'_>,
    found: &[ClassLine],
) -> Result<(), AllocError>
    ensures { OnOk result (text.new.items
        ≡ text.old.items ++ flat_map (spec.class_values (ground_of ground.now)) found.now) }
{
    'lines: for line in found {
        write_line(alloc, text, ground, line)?;
    }
    Ok(())
}

/// The values of a line, if it is one of the kept ones.
fn write_line(
    alloc: Global,
    text: &mut Vec<u8>,
    ground: &Ground<'_>,
    found: &ClassLine,
) -> Result<(), AllocError>
    ensures { OnOk result (text.new.items
        ≡ text.old.items ++ spec.class_values (ground_of ground.now) found.now) }
{
    match ground.kept.get(found.place) {
        Some(line) => write_of_line(alloc, text, ground, line, found),
        None => Ok(()),
    }
}

fn write_of_line(
    alloc: Global,
    text: &mut Vec<u8>,
    ground: &Ground<'_>,
    line: &KeptLine,
    found: &ClassLine,
) -> Result<(), AllocError>
    ensures { OnOk result (text.new.items
        ≡ text.old.items ++ spec.line_values (ground_of ground.now) found.now line.now) }
{
    let front = class_front(alloc, ground, line, found)?;
    write_each_class(text, ground.table, front.as_slice(), found)
}

/// What each line begins with: the number of the session's line, its desk and the alternative.
fn class_front(
    alloc: Global,
    ground: &Ground<'_>,
    line: &KeptLine,
    found: &ClassLine,
) -> Result<Vec<u8>, AllocError>
    ensures { IfOk result (λ front. front.items ≡ spec.class_front (ground_of ground.now) line.now found.now) }
{
    let mut front = line_front(alloc, ground, line)?;
    write_next_field(&mut front, id_bytes(ground.table, found.row.alternative))?;
    Ok(front)
}

fn write_each_class(
    text: &mut Vec<u8>,
    table: &Table,
    front: &[u8],
    found: &ClassLine,
) -> Result<(), AllocError>
    ensures { OnOk result (text.new.items
        ≡ text.old.items ++ flat_map (spec.class_value front.now found.now) (range_with_len 0 table.now.classes)) }
{
    for h in 0..table.classes() as usize {
        write_class(text, front, found, h)?;
    }
    Ok(())
}

fn write_class(
    text: &mut Vec<u8>,
    front: &[u8],
    found: &ClassLine,
    h: usize,
) -> Result<(), AllocError>
    requires { h ≤ 200 }
    ensures { OnOk result (text.new.items ≡ text.old.items ++ spec.class_value front.now found.now h) }
{
    text.extend_from_slice(front)?;
    text.push(b',')?;
    text.extend_from_slice(Buffer::new().format(h + 1).as_bytes())?;
    text.push(b',')?;
    text.push(sign_at(found, h).byte(found.row.settled))?;
    text.extend_from_slice(assigned_word(is_assigned_at(found, h)))
}

/// The sign of a class, by its place from 0.
fn sign_at(found: &ClassLine, h: usize) -> Sign
    ensures { result ≡ slice_index_or found.now.signs h signs.Unknown }
{
    match found.signs.as_slice().get(h) {
        Some(sign) => *sign,
        None => Sign::Unknown,
    }
}

/// Whether a statement assigns the alternative to a class.
fn is_assigned_at(found: &ClassLine, h: usize) -> bool
    ensures { result ≡ slice_index_or found.now.assigned h false }
{
    match found.assigned.as_slice().get(h) {
        Some(is_assigned) => *is_assigned,
        None => false,
    }
}

fn assigned_word(assigned: bool) -> &'static [u8]
    ensures { result.now ≡ spec.assigned_word assigned }
{
    if assigned { b",assigned\n" } else { b",\n" }
}
