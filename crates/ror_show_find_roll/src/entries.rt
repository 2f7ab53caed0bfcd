//! What stands after the revisions that survive, and what stands no more.

ghost use Rattle.std.specs.Prelude.{◌≡◌, ◌≤◌, ◌==◌, [], ◌∷◌, ◌++◌, not, map, filter, IfOk, OnOk};
ghost use Rattle.std.specs.List.{list_any};
ghost use Rattle.ror_show_find_roll.specs.Roll as spec;

use crate::roll::{Entry, Gone, Source};
use crate::step::Step;
use crate::survivor::Survivor;
use ror_proof::Dropped;
use ror_report::Body;
use ror_statement::MOST_STATEMENTS;
use std::alloc::{AllocError, Global};

/// What stands, and what stands no more.
#[derive(Drop)]
pub(crate) struct Tally {
    pub(crate) entries: Vec<Entry>,
    pub(crate) gone: Vec<Gone>,
}

/// After the surviving revisions, of which each is done in its turn.
pub(crate) fn tally_of(
    alloc: Global,
    opening: usize,
    survivors: &[Survivor<'_>],
) -> Result<Tally, AllocError>
    requires { opening ≤ MOST_STATEMENTS }
    ensures entries { IfOk result (λ tally. tally.entries.items ≡ (spec.tally_of opening survivors.now).entries) }
    ensures gone { IfOk result (λ tally. tally.gone.items ≡ (spec.tally_of opening survivors.now).gone) }
{
    let mut entries = opened(alloc, opening)?;
    let mut gone = Vec::new(alloc);
    'survivors: for survivor in survivors {
        push_gone(&mut gone, &entries, &survivor.step)?;
        let next = stand(alloc, entries, &survivor.step)?;
        entries = next;
    }
    Ok(Tally { entries, gone })
}

/// The statements that came with the table's file.
fn opened(alloc: Global, opening: usize) -> Result<Vec<Entry>, AllocError>
    requires { opening ≤ MOST_STATEMENTS }
    ensures { IfOk result (λ entries. entries.items ≡ spec.opened opening) }
{
    let mut entries = Vec::new(alloc);
    for k in 0..opening {
        entries.push(Entry {
            number: (k + 1) as u32,
            said: Source::File,
            instead_of: None,
        })?;
    }
    Ok(entries)
}

/// What stands after a line.
fn stand(alloc: Global, entries: Vec<Entry>, step: &Step<'_>) -> Result<Vec<Entry>, AllocError>
    ensures { IfOk result (λ list. list.items ≡ spec.stand entries.items step.now.place step.now.body) }
{
    match step.body() {
        Body::Added(number) => with_added(entries, step.place(), *number),
        Body::Replaced(number) => with_replaced(alloc, &entries, step.place(), *number),
        body => without_taken(alloc, &entries, body),
    }
}

fn with_added(entries: Vec<Entry>, place: usize, number: u32) -> Result<Vec<Entry>, AllocError>
    ensures { IfOk result (λ list. list.items ≡ entries.items ++ spec.added place number ∷ []) }
{
    let mut entries = entries;
    let said = Source::Line(place);
    entries.push(Entry {
        number,
        said,
        instead_of: None,
    })?;
    Ok(entries)
}

fn with_replaced(
    alloc: Global,
    entries: &[Entry],
    place: usize,
    number: u32,
) -> Result<Vec<Entry>, AllocError>
    ensures { IfOk result (λ list. list.items ≡ map (spec.put_instead place number) entries.now) }
{
    entries
        .iter()
        .map(|entry| put_instead(place, number, *entry))
        .collect(alloc)
}

fn put_instead(place: usize, number: u32, entry: Entry) -> Entry
    ensures { result ≡ spec.put_instead place number entry }
{
    if entry.number == number {
        Entry {
            number: entry.number,
            said: Source::Line(place),
            instead_of: Some(entry.said),
        }
    } else {
        entry
    }
}

fn without_taken(alloc: Global, entries: &[Entry], body: &Body) -> Result<Vec<Entry>, AllocError>
    ensures { IfOk result (λ list. list.items
        ≡ filter (λ e. not (spec.takes body.now e.number)) entries.now) }
{
    entries
        .iter()
        .copied()
        .filter(|entry| !takes(body, entry.number))
        .collect(alloc)
}

/// Whether what came of a line takes the statement with this number away.
fn takes(body: &Body, number: u32) -> bool
    ensures { result ≡ spec.takes body.now number }
{
    match body {
        Body::Withdrawn(withdrawn) => number == *withdrawn,
        Body::Repaired(kept) => is_dropped(kept.dropped.as_slice(), number),
        _ => false,
    }
}

fn is_dropped(dropped: &[Dropped], number: u32) -> bool
    ensures { result ≡ list_any (λ x. number == x.number) dropped.now }
{
    dropped.iter().any(|statement| number == statement.number)
}

/// Adds what a line takes away.
fn push_gone(gone: &mut Vec<Gone>, entries: &[Entry], step: &Step<'_>) -> Result<(), AllocError>
    ensures { OnOk result (gone.new.items ≡ gone.old.items ++ spec.taken_away step.now entries.now) }
{
    'entries: for entry in entries {
        push_taken(gone, entry, step)?;
    }
    Ok(())
}

/// Adds a statement that a line takes away.
fn push_taken(gone: &mut Vec<Gone>, entry: &Entry, step: &Step<'_>) -> Result<(), AllocError>
    ensures { OnOk result (gone.new.items ≡ gone.old.items ++ spec.taken_one step.now entry.now) }
{
    if !takes(step.body(), entry.number) {
        return Ok(());
    }
    gone.push(Gone {
        entry: *entry,
        by: step.place(),
        by_repair: is_repair(step.body()),
    })?;
    Ok(())
}

fn is_repair(body: &Body) -> bool
    ensures { result ≡ spec.is_repair body.now }
{
    match body {
        Body::Repaired(_) => true,
        _ => false,
    }
}
