//! Which kept lines follow one another.

ghost use Rattle.std.specs.Prelude.{◌≡◌, ◌++◌, slice_get, IfOk, OnOk};
ghost use Rattle.ror_show_ground.specs.Turns as spec;

use crate::desk::desk_of as desk_of_line;
use ror_bench::KeptLine;
use ror_report::Body;
use ror_session::{Asked, Command, Session};
use std::alloc::{AllocError, Global};

/// Each answered line that has one before it at its desk, with the last one before it, by their places among the kept lines, in order of
/// the later one.
///
/// # Errors
///
/// Only want of memory.
pub fn turns_among(
    alloc: Global,
    session: &Session,
    kept: &[KeptLine],
) -> Result<Vec<(usize, usize)>, AllocError>
    ensures { IfOk result (λ made. made.items ≡ spec.turns session.now kept.now) }
{
    let mut made = Vec::new(alloc);
    for n in 0..kept.len() {
        push_turn_of(&mut made, session, kept, n)?;
    }
    Ok(made)
}

/// Adds that of the line at a place.
fn push_turn_of(
    made: &mut Vec<(usize, usize)>,
    session: &Session,
    kept: &[KeptLine],
    n: usize,
) -> Result<(), AllocError>
    ensures { OnOk result (made.new.items ≡ made.old.items ++ spec.turn_of session.now kept.now n) }
{
    push_turn_at(made, session, kept, n, desk_of(session, kept, n))
}

/// The same, where the line is at this desk.
fn push_turn_at(
    made: &mut Vec<(usize, usize)>,
    session: &Session,
    kept: &[KeptLine],
    n: usize,
    desk: u32,
) -> Result<(), AllocError>
    ensures { OnOk result (made.new.items ≡ made.old.items ++ spec.turn_at session.now kept.now n desk) }
{
    if !counts_at(session, kept, desk, n) {
        return Ok(());
    }
    push_pair(made, n, last_at(session, kept, desk, n))
}

fn push_pair(
    made: &mut Vec<(usize, usize)>,
    n: usize,
    last: Option<usize>,
) -> Result<(), AllocError>
    ensures { OnOk result (made.new.items ≡ made.old.items ++ spec.pair_with n last) }
{
    if let Some(before) = last {
        made.push((before, n))?;
    }
    Ok(())
}

/// The last of the first `end` kept lines that is answered at this desk.
fn last_at(session: &Session, kept: &[KeptLine], desk: u32, end: usize) -> Option<usize>
    ensures { result ≡ spec.last_below (spec.counts_at session.now kept.now desk) end }
{
    let mut place = end;
    'places: while place > 0 {
        place -= 1;
        if counts_at(session, kept, desk, place) {
            return Some(place);
        }
    }
    None
}

/// Whether there is a kept line at the place that asks for the relation at this desk, and is answered.
fn counts_at(session: &Session, kept: &[KeptLine], desk: u32, place: usize) -> bool
    ensures { result ≡ spec.counts_at session.now kept.now desk place }
{
    match kept.get(place) {
        Some(line) => is_answered_at(session, desk, line),
        None => false,
    }
}

fn is_answered_at(session: &Session, desk: u32, line: &KeptLine) -> bool
    ensures { result ≡ spec.is_answered_at session.now desk line.now }
{
    asks_at(session, desk, line.place) && is_answered(&line.block.body)
}

/// Whether the session's line at the place is at this desk, and asks for the relation.
fn asks_at(session: &Session, desk: u32, place: usize) -> bool
    ensures { result ≡ spec.asks_at desk (slice_get session.now.lines place) }
{
    match session.lines.as_slice().get(place) {
        Some(line) => line.desk == desk && asks_for_relation(&line.command),
        None => false,
    }
}

fn asks_for_relation(command: &Command) -> bool
    ensures { result ≡ spec.asks_for_relation command.now }
{
    matches!(command, Command::Ask(Asked::Relation))
}

fn is_answered(body: &Body) -> bool
    ensures { result ≡ spec.is_answered body.now }
{
    matches!(body, Body::Answers(_))
}

/// The place of the desk of the kept line at a place.
fn desk_of(session: &Session, kept: &[KeptLine], n: usize) -> u32
    ensures { result ≡ spec.desk_of session.now kept.now n }
{
    match kept.get(n) {
        Some(line) => desk_of_line(session, line),
        None => 0,
    }
}
