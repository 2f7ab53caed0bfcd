//! A text of certificates, fetched.

ghost use Rattle.std.specs.Prelude.{◌≡◌};
ghost use Rattle.ror_frame.specs.States.{shelf_state};
ghost use Rattle.ror_frame.specs.Courses.{IsFetch};
ghost use Rattle.ror_frame.specs.Stops.{counted};
ghost use Rattle.ror_show_check.specs.Reading.{text_of};

use ror_bench::MOST_REPORT_BYTES;
use ror_frame::Stop;
use ror_io::{Fetched, Shelf};
use ror_text::Items;
use std::alloc::Global;

/// Fetches the bytes of a text of certificates; None where there are more than `MOST_REPORT_BYTES`.
///
/// # Errors
///
/// Only the shelf's faults.
pub(crate) fn fetch_text<F: Shelf>(
    alloc: Global,
    name: &str,
    shelf: &mut F,
) -> Result<Option<Items<u8>>, Stop>
    ensures { IsFetch name.now (counted 3) (λ bytes text. text ≡ text_of bytes) (λ bytes r. ⊥)
        (shelf_state (F.told shelf.old) (F.faults shelf.old) (F.fetch_count shelf.old))
        (shelf_state (F.told shelf.new) (F.faults shelf.new) (F.fetch_count shelf.new)) result }
{
    let fetched = shelf.fetch(alloc, name, MOST_REPORT_BYTES)?;
    match fetched {
        Fetched::Whole(bytes) => Ok(Some(Items::from(bytes))),
        Fetched::Longer => Ok(None),
    }
}
