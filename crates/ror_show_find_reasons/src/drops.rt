//! With what each statement conflicts that a repair dropped.

ghost use Rattle.std.specs.Prelude.{◌≡◌, ◌<◌, ◌∷◌, [], ◌++◌, length, slice_get, nat_eq, if◌then◌else◌, Some, IfOk, OnOk};
ghost use Rattle.std.specs.List.{AllByRecursion, AllZip};
ghost use Rattle.std.specs.List.Sorted.{IsStrictlyIncreasing};
ghost use Rattle.std.specs.Set.{is_member};
ghost use Rattle.ror_statement.specs.Statements.{numbers_in, statements_in};
ghost use Rattle.ror_value.specs.Over.{IsLawfulIn};
ghost use Rattle.ror_check.specs.Repair.{kept_of, numbers_of};
ghost use Rattle.ror_show_ground.specs.Stood.{stood_of, IsStood};
ghost use Rattle.ror_show_find_reasons.specs.Lines as spec;

use crate::lines::{DropFound, Meant};
use ror_pivot::Bits;
use ror_proof::Dropped;
use ror_reason::{Reason, reduct};
use ror_show_ground::Stood;
use ror_statement::{Numbered, Question};
use ror_table::Table;
use ror_text::Items;
use std::alloc::{AllocError, Global};

/// What was dropped, in order, each with its conflict, where all that a line did is meant. Each has an engine of its own.
///
/// # Errors
///
/// Only want of memory, here and below.
pub(crate) fn find_drops(
    alloc: Global,
    stood: &Stood<'_>,
    meant: Meant,
    dropped: &[Dropped],
) -> Result<Items<DropFound>, AllocError>
    requires { IsStood (stood_of stood.now) }
    ensures { IfOk result (spec.AreDrops meant stood.now.table.now stood.now.list.now (numbers_of dropped.now)) }
{
    match meant {
        Meant::All => all_drops(alloc, stood, dropped),
        _ => Ok(Items::from(Vec::new(alloc))),
    }
}

fn all_drops(
    alloc: Global,
    stood: &Stood<'_>,
    dropped: &[Dropped],
) -> Result<Items<DropFound>, AllocError>
    requires { IsStood (stood_of stood.now) }
    ensures { IfOk result (spec.AreAllDrops stood.now.table.now stood.now.list.now (numbers_of dropped.now)) }
{
    let places = dropped_places(alloc, stood.list, dropped)?;
    drops_at(alloc, stood, dropped, places.as_slice())
}

/// Those at these places.
fn drops_at(
    alloc: Global,
    stood: &Stood<'_>,
    dropped: &[Dropped],
    places: &[usize],
) -> Result<Items<DropFound>, AllocError>
    requires stood { IsStood (stood_of stood.now) }
    requires within { AllByRecursion (λ n. n < length stood.now.list.now) places.now }
    ensures { IfOk result (AllZip (spec.IsDropAt stood.now.table.now stood.now.list.now (numbers_of dropped.now)) places.now) }
{
    let mut found = Vec::new(alloc);
    for place in places {
        let drop_found = find_drop(alloc, stood, dropped, *place)?;
        found.push(drop_found)?;
    }
    Ok(Items::from(found))
}

/// The statement at a place, with its conflict.
fn find_drop(
    alloc: Global,
    stood: &Stood<'_>,
    dropped: &[Dropped],
    place: usize,
) -> Result<DropFound, AllocError>
    requires stood { IsStood (stood_of stood.now) }
    requires there { place < length stood.now.list.now }
    ensures { IfOk result (spec.IsDropAt stood.now.table.now stood.now.list.now (numbers_of dropped.now) place) }
{
    let x = &stood.list[place];
    let conflict = conflict_of(alloc, stood, dropped, place, x)?;
    Ok(DropFound {
        at: place,
        number: x.number,
        conflict,
    })
}

/// A conflict of a statement with what was kept before it.
fn conflict_of(
    alloc: Global,
    stood: &Stood<'_>,
    dropped: &[Dropped],
    place: usize,
    x: &Numbered,
) -> Result<Reason, AllocError>
    requires stood { IsStood (stood_of stood.now) }
    requires there { slice_get stood.now.list.now place ≡ Some x.now }
    ensures { IfOk result (spec.IsConflict stood.now.table.now
        (spec.clash_list (numbers_of dropped.now) stood.now.list.now place x.now)) }
{
    let clash = clash_list(alloc, &stood.list[..place], dropped, *x)?;
    conflict_in(alloc, stood.table, clash.as_slice())
}

/// The statements that were kept before one, and that one.
fn clash_list(
    alloc: Global,
    before: &[Numbered],
    dropped: &[Dropped],
    x: Numbered,
) -> Result<Vec<Numbered>, AllocError>
    ensures { IfOk result (λ made. made.items ≡ kept_of (numbers_of dropped.now) before.now ++ x ∷ []) }
{
    let mut made = kept_before(alloc, before, dropped)?;
    made.push(x)?;
    Ok(made)
}

fn kept_before(
    alloc: Global,
    before: &[Numbered],
    dropped: &[Dropped],
) -> Result<Vec<Numbered>, AllocError>
    ensures { IfOk result (λ made. made.items ≡ kept_of (numbers_of dropped.now) before.now) }
{
    before
        .iter()
        .filter(|y| !is_dropped(dropped, y.number))
        .copied()
        .collect(alloc)
}

/// Whether the number is one of those that were dropped.
fn is_dropped(dropped: &[Dropped], number: u32) -> bool
    ensures { result ≡ is_member nat_eq (numbers_of dropped.now) number }
{
    match dropped {
        [] => false,
        [first, rest @ ..] => number == first.number || is_dropped(rest, number),
    }
}

/// Why some value function agrees with these statements, or none does.
fn conflict_in(alloc: Global, table: &Table, clash: &[Numbered]) -> Result<Reason, AllocError>
    requires lawful { IsLawfulIn table.now (statements_in clash.now) }
    requires rising { IsStrictlyIncreasing (numbers_in clash.now) }
    ensures { IfOk result (spec.IsConflict table.now clash.now) }
{
    reduct(alloc, table, clash, &Question::Consistent, Bits::B127)
}

/// The places of what was dropped among what stood.
fn dropped_places(
    alloc: Global,
    list: &[Numbered],
    dropped: &[Dropped],
) -> Result<Vec<usize>, AllocError>
    ensures { IfOk result (λ places. places.items ≡ spec.dropped_places (numbers_of dropped.now) list.now) }
{
    let mut places = Vec::new(alloc);
    for k in 0..list.len() {
        push_dropped(&mut places, list, dropped, k)?;
    }
    Ok(places)
}

fn push_dropped(
    places: &mut Vec<usize>,
    list: &[Numbered],
    dropped: &[Dropped],
    k: usize,
) -> Result<(), AllocError>
    ensures { OnOk result (places.new.items ≡ places.old.items ++ spec.dropped_if (numbers_of dropped.now) list.now k) }
{
    if is_dropped_at(list, dropped, k) {
        places.push(k)?;
    }
    Ok(())
}

fn is_dropped_at(list: &[Numbered], dropped: &[Dropped], k: usize) -> bool
    ensures { result ≡ spec.is_dropped_at (numbers_of dropped.now) list.now k }
{
    match list.get(k) {
        Some(x) => is_dropped(dropped, x.number),
        None => false,
    }
}
