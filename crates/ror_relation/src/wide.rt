//! Notes of numbers that are too wide, as answers name them.

ghost use Rattle.std.specs.Prelude.{◌≡◌, ◌<◌, ◌^◌, IfOk};
ghost use Rattle.std.specs.List.{AllByRecursion};
ghost use Rattle.ror_given.specs.Notes.{pivots_of, place_of};
ghost use Rattle.ror_relation.specs.Wide.{IsPlaceBelow};

use ror_pivot::{Place, WideNote};
use ror_proof::{Pivot, PlaceText, WideText};
use ror_text::Items;
use std::alloc::{AllocError, Global};

/// The note with its numbers as those of an answer.
pub(crate) fn note_text(alloc: Global, note: &WideNote) -> Result<WideText, AllocError>
    requires pivots { AllByRecursion (λ p. (p.0 < 2 ^ 32) × (p.1 < 2 ^ 32)) note.now.path }
    requires place { IsPlaceBelow (2 ^ 32) note.now.place }
    ensures pivots { IfOk result (λ text. pivots_of text.path ≡ note.now.path) }
    ensures place { IfOk result (λ text. place_of text.place ≡ note.now.place) }
{
    let mut path = Vec::with_capacity(alloc, note.path.len())?;
    for pivot in note.path.as_slice() {
        path.push(Pivot {
            column: pivot.0 as u32,
            row: pivot.1 as u32,
        })?;
    }
    Ok(WideText {
        path: Items::from(path),
        place: place_text(note.place),
    })
}

fn place_text(place: Place) -> PlaceText
    requires { IsPlaceBelow (2 ^ 32) place }
    ensures { place_of result ≡ place }
{
    match place {
        Place::Start(row, column) => PlaceText::Start(row as u32, column as u32),
        Place::Step(row, column) => PlaceText::Step(row as u32, column as u32),
        Place::Denominator(row) => PlaceText::Denominator(row as u32),
        Place::RowSum(row) => PlaceText::RowSum(row as u32),
        Place::ColumnSum(column) => PlaceText::ColumnSum(column as u32),
    }
}
