//! A small system, decided at one width.

use crate::made::system;
use ror_pivot::{Place, SolveFault, WideNote, solve};
use ror_system::System;
use std::alloc::Global;
use std::test::Fail;

/// The number that is too wide for 15 bits.
fn wide_note(alloc: Global, s: &System) -> Option<WideNote> {
    match solve::<i16>(alloc, s) {
        Err(SolveFault::Wide(note)) => Some(note),
        _ => None,
    }
}

// A solution has 200 x > 199 y, and a positive total.
#[test]
fn names_the_first_wide_number(rt: HostRuntime) -> Result<(), Fail> {
    let s = system(rt.alloc(), &[200, -199]).ok_or("a system")?;
    let note = wide_note(rt.alloc(), &s).ok_or("a number is too wide")?;
    assert!(rt; note.path.as_slice() == [(2, 1), (0, 0)].as_slice());
    assert!(rt; note.place == Place::Step(1, 0));
    Ok(())
}
