//! At which times classes were asked for.

ghost use Rattle.std.specs.Prelude.{◌≡◌, ◌++◌, slice_get, IfOk, OnOk};
ghost use Rattle.ror_show_find_classes.specs.Times as spec;

use ror_bench::KeptLine;
use ror_report::Body;
use ror_session::{Asked, Command, Session};
use ror_show_ground::{Ground, is_answered};
use std::alloc::{AllocError, Global};

/// The places of the kept lines that begin a time, in order.
///
/// # Errors
///
/// Only want of memory.
pub fn all_times(alloc: Global, ground: &Ground<'_>) -> Result<Vec<usize>, AllocError>
    ensures { IfOk result (λ made. made.items ≡ spec.times ground.now.session.now ground.now.kept.now) }
{
    let mut made = Vec::new(alloc);
    for n in 0..ground.kept.len() {
        push_time(&mut made, ground, n)?;
    }
    Ok(made)
}

fn push_time(made: &mut Vec<usize>, ground: &Ground<'_>, n: usize) -> Result<(), AllocError>
    ensures { OnOk result (made.new.items ≡ made.old.items ++ spec.if_begins ground.now.session.now ground.now.kept.now n) }
{
    if begins(ground, n) {
        made.push(n)?;
    }
    Ok(())
}

/// Whether the line at a place begins a time.
fn begins(ground: &Ground<'_>, n: usize) -> bool
    ensures { result ≡ spec.begins ground.now.session.now ground.now.kept.now n }
{
    match ground.kept.get(n) {
        Some(line) => begins_at(ground, n, ground.desk_of(line)),
        None => false,
    }
}

fn begins_at(ground: &Ground<'_>, n: usize, desk: u32) -> bool
    ensures { result ≡ spec.begins_at ground.now.session.now ground.now.kept.now n desk }
{
    answers_at(ground, desk, n) && !goes_on(ground, desk, n)
}

/// Whether one of the first `end` lines is answered at this desk, and none behind it changes what stands there.
fn goes_on(ground: &Ground<'_>, desk: u32, end: usize) -> bool
    ensures { result ≡ spec.goes_on (spec.answers_at ground.now.session.now ground.now.kept.now desk) (spec.revises_at ground.now.session.now ground.now.kept.now desk) end }
{
    let mut place = end;
    'places: while place > 0 {
        place -= 1;
        if revises_at(ground, desk, place) {
            return false;
        }
        if answers_at(ground, desk, place) {
            return true;
        }
    }
    false
}

/// The places of the answered lines of a desk from a place on, before the next change there: those of a time, where the line at the place
/// begins one.
///
/// # Errors
///
/// Only want of memory.
pub fn rows(
    alloc: Global,
    ground: &Ground<'_>,
    first: usize,
    desk: u32,
) -> Result<Vec<usize>, AllocError>
    ensures { IfOk result (λ made. made.items ≡ spec.rows ground.now.session.now ground.now.kept.now first desk) }
{
    let mut made = Vec::new(alloc);
    let mut place = first;
    'places: while place < ground.kept.len() {
        if revises_at(ground, desk, place) {
            return Ok(made);
        }
        push_asked(&mut made, ground, desk, place)?;
        place += 1;
    }
    Ok(made)
}

/// Adds the place, if its line is answered at the desk.
fn push_asked(
    made: &mut Vec<usize>,
    ground: &Ground<'_>,
    desk: u32,
    place: usize,
) -> Result<(), AllocError>
    ensures { OnOk result (made.new.items
        ≡ made.old.items ++ spec.if_asked (spec.answers_at ground.now.session.now ground.now.kept.now desk) place) }
{
    if answers_at(ground, desk, place) {
        made.push(place)?;
    }
    Ok(())
}

/// Whether there is a kept line at the place that asks for classes at this desk, and is answered.
pub fn answers_at(ground: &Ground<'_>, desk: u32, place: usize) -> bool
    ensures { result ≡ spec.answers_at ground.now.session.now ground.now.kept.now desk place }
{
    match ground.kept.get(place) {
        Some(line) => is_answered_at(ground.session, desk, line),
        None => false,
    }
}

fn is_answered_at(session: &Session, desk: u32, line: &KeptLine) -> bool
    ensures { result ≡ spec.is_answered_at session.now desk line.now }
{
    asks_at(session, desk, line.place) && is_answered(&line.block.body)
}

/// Whether there is a kept line at the place that changes what stands at this desk.
fn revises_at(ground: &Ground<'_>, desk: u32, place: usize) -> bool
    ensures { result ≡ spec.revises_at ground.now.session.now ground.now.kept.now desk place }
{
    match ground.kept.get(place) {
        Some(line) => is_revision_at(ground.session, desk, line),
        None => false,
    }
}

fn is_revision_at(session: &Session, desk: u32, line: &KeptLine) -> bool
    ensures { result ≡ spec.is_revision_at session.now desk line.now }
{
    is_at(session, desk, line.place) && is_revision(&line.block.body)
}

fn asks_at(session: &Session, desk: u32, place: usize) -> bool
    ensures { result ≡ spec.asks_at desk (slice_get session.now.lines place) }
{
    match session.lines.as_slice().get(place) {
        Some(line) => line.desk == desk && asks_for_classes(&line.command),
        None => false,
    }
}

fn is_at(session: &Session, desk: u32, place: usize) -> bool
    ensures { result ≡ spec.is_at desk (slice_get session.now.lines place) }
{
    match session.lines.as_slice().get(place) {
        Some(line) => line.desk == desk,
        None => false,
    }
}

fn asks_for_classes(command: &Command) -> bool
    ensures { result ≡ spec.asks_for_classes command.now }
{
    matches!(command, Command::Ask(Asked::Classes(_)))
}

/// Whether what stands at the desk is changed.
fn is_revision(body: &Body) -> bool
    ensures { result ≡ spec.is_revision body.now }
{
    match body {
        Body::Added(_) | Body::Withdrawn(_) | Body::Replaced(_) => true,
        Body::Undone | Body::Repaired(_) => true,
        _ => false,
    }
}
