//! Bounds of the classes between which an alternative is, as values.

ghost use Rattle.std.specs.Prelude.{◌≡◌, option_map};
ghost use Rattle.ror_show_find_reasons.specs.Carrying.{numbers_of};
ghost use Rattle.ror_show_find_reasons.specs.Bounds as spec;

use crate::numbers::numbers_of;
use ror_proof::Answer;
use ror_reason::Reason;
use ror_show_find_classes::{TimeFound, highest, lowest};
use ror_text::Items;

/// On which side of the classes that are left another one is excluded.
#[derive(Clone, Copy, Debug, PartialEq, Eq)]
pub enum Side {
    Below,
    Above,
}

/// The least class that is left, or the greatest, and why the one beyond it is excluded.
#[derive(Debug, Drop)]
pub struct Bound {
    pub class: u32,
    pub reason: Reason,
}

impl Bound {
    /// The numbers of statements that settle it, of which none can be spared; none where a number is too wide to know which.
    pub fn numbers(&self) -> Option<&[u32]>
        ensures { option_map (λ x. x.now) result ≡ numbers_of self.now.reason }
    {
        numbers_of(&self.reason)
    }
}

/// What is found on each side; none where no answer excludes a class there.
#[derive(Debug, Drop)]
pub struct Bounds {
    pub below: Option<Bound>,
    pub above: Option<Bound>,
}

/// The classes at a time, and what settles the bounds of each row.
#[derive(Debug, Drop)]
pub struct ClassesFound {
    pub time: TimeFound,
    /// Those of each row, at its place.
    pub bounds: Items<Bounds>,
}

/// The class at this end of those of the first `classes` that these answers don't exclude, 0 where they exclude each.
pub(crate) fn end_of(side: Side, answers: &[Answer], classes: u32) -> u32
    ensures { result ≡ spec.end_of side answers.now classes }
{
    match side {
        Side::Below => lowest(answers, classes),
        Side::Above => highest(answers, classes),
    }
}

/// Whether a class is the next one beyond an end.
pub(crate) fn is_beyond(side: Side, end: u32, class: u32) -> bool
    ensures { result ≡ spec.is_beyond side end class }
{
    end != 0 && is_next(side, end, class)
}

fn is_next(side: Side, end: u32, class: u32) -> bool
    ensures { result ≡ spec.is_next side end class }
{
    match side {
        Side::Below => class == end.saturating_sub(1),
        Side::Above => class.saturating_sub(1) == end,
    }
}
