//! What lines say, and where statements come from.

ghost use Rattle.std.specs.Prelude.{◌≡◌, ◌++◌, slice_get, OnOk};
ghost use Rattle.ror_show_ground.specs.Grounds.{ground_of};
ghost use Rattle.ror_show_text_roll.specs.Page as spec;
ghost use Rattle.ror_show_find_roll.specs.declared.roll.Source.TheVariants as sources;

use crate::refusals::write_fault;
use crate::words::{write_command, write_number, write_stated};
use ror_report::LineFault;
use ror_session::Command;
use ror_show_find_roll::{Entry, Gone, RefusedLine, Source, TakenBack};
use ror_show_ground::Ground;
use ror_show_kit::write_statement;
use ror_table::Table;
use std::alloc::AllocError;

/// Adds the number of a line in the session's file.
pub(crate) fn write_line(
    text: &mut Vec<u8>,
    ground: &Ground<'_>,
    place: usize,
) -> Result<(), AllocError>
    ensures { OnOk result (text.new.items
        ≡ text.old.items ++ spec.line_text ground.now.session.now.lines place) }
{
    text.extend_from_slice(b"line")?;
    write_number(text, number_at(ground, place))
}

fn number_at(ground: &Ground<'_>, place: usize) -> u32
    ensures { result ≡ spec.number_of (slice_get ground.now.session.now.lines place) }
{
    match ground.line_at(place) {
        Some(line) => line.number,
        None => 0,
    }
}

/// Adds all that a line says.
pub(crate) fn write_said(
    text: &mut Vec<u8>,
    ground: &Ground<'_>,
    place: usize,
) -> Result<(), AllocError>
    ensures { OnOk result (text.new.items
        ≡ text.old.items ++ spec.said_text ground.now.session.now.lines place) }
{
    match ground.line_at(place) {
        Some(line) => write_command(text, &line.command),
        None => Ok(()),
    }
}

/// Adds the statement with a number as it came from there.
pub(crate) fn write_source_statement(
    text: &mut Vec<u8>,
    ground: &Ground<'_>,
    number: u32,
    source: Source,
) -> Result<(), AllocError>
    ensures { OnOk result (text.new.items
        ≡ text.old.items ++ spec.source_statement (ground_of ground.now) number source) }
{
    match source {
        Source::File => write_opened(text, ground, number),
        Source::Line(place) => match ground.line_at(place) {
            Some(line) => write_stated(text, &line.command),
            None => Ok(()),
        },
    }
}

/// Adds the statement with a number that came with the table's file.
fn write_opened(text: &mut Vec<u8>, ground: &Ground<'_>, number: u32) -> Result<(), AllocError>
    ensures { OnOk result (text.new.items ≡ text.old.items
        ++ spec.source_statement (ground_of ground.now) number sources.File) }
{
    match ground.opening.get((number as usize).saturating_sub(1)) {
        Some(statement) => write_statement(text, ground.table, *statement),
        None => Ok(()),
    }
}

/// Adds where a statement comes from.
fn write_source(text: &mut Vec<u8>, ground: &Ground<'_>, source: Source) -> Result<(), AllocError>
    ensures { OnOk result (text.new.items
        ≡ text.old.items ++ spec.source_text (ground_of ground.now) source) }
{
    match source {
        Source::File => text.extend_from_slice(b"the table's file"),
        Source::Line(place) => write_line(text, ground, place),
    }
}

/// Adds the statement in whose place another was put, if it was.
fn write_instead(
    text: &mut Vec<u8>,
    ground: &Ground<'_>,
    number: u32,
    instead_of: Option<Source>,
) -> Result<(), AllocError>
    ensures { OnOk result (text.new.items
        ≡ text.old.items ++ spec.instead_text (ground_of ground.now) number instead_of) }
{
    match instead_of {
        Some(source) => write_place(text, ground, number, source),
        None => Ok(()),
    }
}

/// Adds the statement in whose place another was put.
fn write_place(
    text: &mut Vec<u8>,
    ground: &Ground<'_>,
    number: u32,
    source: Source,
) -> Result<(), AllocError>
    ensures { OnOk result (text.new.items
        ≡ text.old.items ++ spec.place_text (ground_of ground.now) number source) }
{
    text.extend_from_slice(b" (in the place of ")?;
    write_source(text, ground, source)?;
    write_behind(text, ground, number, source)
}

/// Adds the statement behind the place that it came from.
fn write_behind(
    text: &mut Vec<u8>,
    ground: &Ground<'_>,
    number: u32,
    source: Source,
) -> Result<(), AllocError>
    ensures { OnOk result (text.new.items
        ≡ text.old.items ++ spec.behind_text (ground_of ground.now) number source) }
{
    text.extend_from_slice(b": ")?;
    write_source_statement(text, ground, number, source)?;
    text.extend_from_slice(b")")
}

/// Adds where a statement that stands comes from.
pub(crate) fn write_origin(
    text: &mut Vec<u8>,
    ground: &Ground<'_>,
    entry: &Entry,
) -> Result<(), AllocError>
    ensures { OnOk result (text.new.items
        ≡ text.old.items ++ spec.origin_text (ground_of ground.now) entry.now) }
{
    write_source(text, ground, entry.said)?;
    write_instead(text, ground, entry.number, entry.instead_of)
}

/// Adds where a statement came from, and what took it away.
pub(crate) fn write_gone(
    text: &mut Vec<u8>,
    ground: &Ground<'_>,
    gone: &Gone,
) -> Result<(), AllocError>
    ensures { OnOk result (text.new.items
        ≡ text.old.items ++ spec.gone_text (ground_of ground.now) gone.now) }
{
    write_origin(text, ground, &gone.entry)?;
    text.extend_from_slice(removal(gone))?;
    write_line(text, ground, gone.by)
}

fn removal(gone: &Gone) -> &'static [u8]
    ensures { result.now ≡ spec.removal gone.now }
{
    if gone.by_repair {
        b", dropped by the repair of "
    } else {
        b", withdrawn by "
    }
}

/// Adds the line that was taken back, and the one that took it back.
pub(crate) fn write_taken(
    text: &mut Vec<u8>,
    ground: &Ground<'_>,
    taken: &TakenBack,
) -> Result<(), AllocError>
    ensures { OnOk result (text.new.items
        ≡ text.old.items ++ spec.taken_text ground.now.session.now.lines taken.now) }
{
    write_line(text, ground, taken.taken)?;
    text.extend_from_slice(b", by ")?;
    write_line(text, ground, taken.by)
}

/// Adds the line that was refused, and why.
pub(crate) fn write_refused(
    text: &mut Vec<u8>,
    ground: &Ground<'_>,
    refused: &RefusedLine,
) -> Result<(), AllocError>
    ensures { OnOk result (text.new.items
        ≡ text.old.items ++ spec.refused_text (ground_of ground.now) refused.now) }
{
    write_line(text, ground, refused.place)?;
    write_refusal(text, ground, refused)
}

/// Adds why it was refused, if it is one of the lines.
fn write_refusal(
    text: &mut Vec<u8>,
    ground: &Ground<'_>,
    refused: &RefusedLine,
) -> Result<(), AllocError>
    ensures { OnOk result (text.new.items ≡ text.old.items
        ++ spec.fault_in ground.now.table.now (slice_get ground.now.session.now.lines refused.now.place) refused.now.fault) }
{
    match ground.line_at(refused.place) {
        Some(line) => write_why(text, ground.table, &line.command, refused.fault),
        None => Ok(()),
    }
}

fn write_why(
    text: &mut Vec<u8>,
    table: &Table,
    command: &Command,
    fault: LineFault,
) -> Result<(), AllocError>
    ensures { OnOk result (text.new.items
        ≡ text.old.items ++ spec.why_text table.now command.now fault) }
{
    text.extend_from_slice(b", ")?;
    write_fault(text, table, command, fault)
}
