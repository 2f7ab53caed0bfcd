//! How much hangs on each statement, as comma-separated values.

ghost use Rattle.std.specs.Prelude.{◌≡◌, ◌++◌, IfOk, OnOk};
ghost use Rattle.std.specs.List.{flat_map};
ghost use Rattle.ror_show_ground.specs.Grounds.{ground_of};
ghost use Rattle.ror_show_text_whatif.specs.Csv as spec;

use crate::told::{Counts, counts_of};
use crate::ways::{Way, outcome_in};
use itoa::Buffer;
use ror_bench::KeptLine;
use ror_show_find_whatif::{Agreement, Asks, Case, Outcome, TimeWhatIf, WhatIf};
use ror_show_ground::Ground;
use ror_show_kit::{id_bytes, write_next_field};
use ror_table::Table;
use std::alloc::{AllocError, Global};

/// The names of the values, as the first line of a file.
pub fn whatifs_head() -> &'static [u8]
    ensures { result.now ≡ spec.csv_head }
{
    b"line,desk,asks,alternative,statement,change,agrees,lost,weaker,won,stronger,opened,closed,loosened,bound,unknown\n"
}

/// Adds for each statement at each line that is found a line for its withdrawal, and one for its contrary where it has one: the number of the
/// session's line, the desk, what was asked, the alternative where that is its classes, the statement's number, whether some function agrees
/// then, and how many pairs or classes change. A value with a comma, a quotation mark or an end of a line stands between quotation marks, with
/// those within it doubled.
///
/// # Errors
///
/// Only want of memory, here and below.
pub fn write_line_values(
    alloc: Global,
    text: &mut Vec<u8>,
    ground: &Ground<'_>,
    asks: Asks,
    found: &[WhatIf],
) -> Result<(), AllocError>
    ensures { OnOk result (text.new.items ≡ text.old.items ++ spec.lines_values (ground_of ground.now) asks found.now) }
{
    'lines: for whatif in found {
        write_whatif(alloc, text, ground, asks, whatif)?;
    }
    Ok(())
}

/// Adds the same for each line of each time.
pub fn write_time_values(
    alloc: Global,
    text: &mut Vec<u8>,
    ground: &Ground<'_>,
    found: &[TimeWhatIf],
) -> Result<(), AllocError>
    ensures { OnOk result (text.new.items ≡ text.old.items ++ spec.times_values (ground_of ground.now) found.now) }
{
    'times: for time in found {
        write_time(alloc, text, ground, time)?;
    }
    Ok(())
}

fn write_time(
    alloc: Global,
    text: &mut Vec<u8>,
    ground: &Ground<'_>,
    found: &TimeWhatIf,
) -> Result<(), AllocError>
    ensures { OnOk result (text.new.items ≡ text.old.items ++ spec.time_values (ground_of ground.now) found.now) }
{
    write_line_values(alloc, text, ground, Asks::Classes, found.rows.as_slice())
}

/// The values of a line, if it is one of the kept ones.
fn write_whatif(
    alloc: Global,
    text: &mut Vec<u8>,
    ground: &Ground<'_>,
    asks: Asks,
    found: &WhatIf,
) -> Result<(), AllocError>
    ensures { OnOk result (text.new.items ≡ text.old.items ++ spec.whatif_values (ground_of ground.now) asks found.now) }
{
    match ground.kept.get(found.place) {
        Some(line) => write_of_line(alloc, text, ground, asks, found, line),
        None => Ok(()),
    }
}

fn write_of_line(
    alloc: Global,
    text: &mut Vec<u8>,
    ground: &Ground<'_>,
    asks: Asks,
    found: &WhatIf,
    line: &KeptLine,
) -> Result<(), AllocError>
    ensures { OnOk result (text.new.items ≡ text.old.items ++ spec.line_values (ground_of ground.now) asks found.now line.now) }
{
    let front = front(alloc, ground, line, asks, found.alternative)?;
    write_cases(text, front.as_slice(), asks, found.cases.as_slice())
}

/// The number of the line, its desk, and what it asks.
fn front(
    alloc: Global,
    ground: &Ground<'_>,
    line: &KeptLine,
    asks: Asks,
    a: usize,
) -> Result<Vec<u8>, AllocError>
    ensures { IfOk result (λ front. front.items ≡ spec.front (ground_of ground.now) line.now asks a) }
{
    let mut front = Vec::new(alloc);
    front.extend_from_slice(Buffer::new().format(line.block.line).as_bytes())?;
    write_next_field(&mut front, ground.desk_at(line).as_bytes())?;
    write_asks(&mut front, ground.table, asks, a)?;
    front.push(b',')?;
    Ok(front)
}

fn write_asks(text: &mut Vec<u8>, table: &Table, asks: Asks, a: usize) -> Result<(), AllocError>
    ensures { OnOk result (text.new.items ≡ text.old.items ++ spec.asks_values table.now asks a) }
{
    match asks {
        Asks::Relation => text.extend_from_slice(b",relation,"),
        Asks::Classes => write_asked_classes(text, table, a),
    }
}

fn write_asked_classes(text: &mut Vec<u8>, table: &Table, a: usize) -> Result<(), AllocError>
    ensures { OnOk result (text.new.items ≡ text.old.items ++ spec.asks_values table.now Asks.Classes a) }
{
    text.extend_from_slice(b",classes")?;
    write_next_field(text, id_bytes(table, a))
}

fn write_cases(
    text: &mut Vec<u8>,
    front: &[u8],
    asks: Asks,
    cases: &[Case],
) -> Result<(), AllocError>
    ensures { OnOk result (text.new.items ≡ text.old.items ++ spec.cases_values front.now asks cases.now) }
{
    'cases: for case in cases {
        write_case(text, front, asks, case)?;
    }
    Ok(())
}

fn write_case(text: &mut Vec<u8>, front: &[u8], asks: Asks, case: &Case) -> Result<(), AllocError>
    ensures { OnOk result (text.new.items ≡ text.old.items ++ spec.case_values front.now asks case.now) }
{
    write_way(text, front, asks, Way::Withdrawn, case)?;
    write_way(text, front, asks, Way::Contrary, case)
}

/// The line of a way, where it is open to the statement.
fn write_way(
    text: &mut Vec<u8>,
    front: &[u8],
    asks: Asks,
    way: Way,
    case: &Case,
) -> Result<(), AllocError>
    ensures { OnOk result (text.new.items ≡ text.old.items ++ spec.way_values front.now asks way case.now) }
{
    match outcome_in(way, case) {
        Some(outcome) => write_outcome(text, front, asks, way, case.stated.number, outcome),
        None => Ok(()),
    }
}

fn write_outcome(
    text: &mut Vec<u8>,
    front: &[u8],
    asks: Asks,
    way: Way,
    number: u32,
    outcome: &Outcome,
) -> Result<(), AllocError>
    ensures { OnOk result (text.new.items ≡ text.old.items ++ spec.outcome_values front.now asks way number outcome.now) }
{
    text.extend_from_slice(front)?;
    text.extend_from_slice(Buffer::new().format(number).as_bytes())?;
    text.extend_from_slice(way_word(way))?;
    text.extend_from_slice(agrees_word(outcome.agreement))?;
    write_counts(text, asks, counts_of(&outcome.effect))?;
    text.push(b'\n')?;
    Ok(())
}

fn way_word(way: Way) -> &'static [u8]
    ensures { result.now ≡ spec.way_word way }
{
    match way {
        Way::Withdrawn => b",withdrawn,",
        Way::Contrary => b",contrary,",
    }
}

fn agrees_word(agreement: Agreement) -> &'static [u8]
    ensures { result.now ≡ spec.agrees_word agreement }
{
    match agreement {
        Agreement::Agrees => b"yes",
        Agreement::Contradicts => b"no",
        Agreement::Unknown => b"unknown",
    }
}

/// Those of pairs, or those of classes; of the others nothing.
fn write_counts(text: &mut Vec<u8>, asks: Asks, counts: Counts) -> Result<(), AllocError>
    ensures { OnOk result (text.new.items ≡ text.old.items ++ spec.counts_values asks counts) }
{
    match asks {
        Asks::Relation => write_pair_counts(text, counts),
        Asks::Classes => write_class_counts(text, counts),
    }
}

fn write_pair_counts(text: &mut Vec<u8>, counts: Counts) -> Result<(), AllocError>
    ensures { OnOk result (text.new.items ≡ text.old.items ++ spec.counts_values Asks.Relation counts) }
{
    write_four(text, counts)?;
    text.extend_from_slice(b",,,,")?;
    write_value(text, counts.unknown)
}

fn write_class_counts(text: &mut Vec<u8>, counts: Counts) -> Result<(), AllocError>
    ensures { OnOk result (text.new.items ≡ text.old.items ++ spec.counts_values Asks.Classes counts) }
{
    text.extend_from_slice(b",,,,")?;
    write_four(text, counts)?;
    write_value(text, counts.unknown)
}

fn write_four(text: &mut Vec<u8>, counts: Counts) -> Result<(), AllocError>
    ensures { OnOk result (text.new.items ≡ text.old.items ++ spec.four_values counts) }
{
    write_value(text, counts.first)?;
    write_value(text, counts.second)?;
    write_value(text, counts.third)?;
    write_value(text, counts.fourth)
}

fn write_value(text: &mut Vec<u8>, count: usize) -> Result<(), AllocError>
    ensures { OnOk result (text.new.items ≡ text.old.items ++ spec.value count) }
{
    text.push(b',')?;
    text.extend_from_slice(Buffer::new().format(count).as_bytes())
}
