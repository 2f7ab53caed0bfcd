//! Between which classes an alternative is, and the last line of a time.

ghost use Rattle.ror_show_find_classes.specs.Intervals as spec;
ghost use Rattle.std.specs.Prelude.{◌≡◌};

use crate::sign::sign_of_class;
use ror_bench::KeptLine;
use ror_proof::Answer;

/// Whether one class alone isn't excluded, and it is possible.
pub fn is_settled(classes: u32, answers: &[Answer]) -> bool
    ensures { result ≡ spec.is_settled classes answers.now }
{
    let lowest = lowest(answers, classes);
    lowest == highest(answers, classes) && sign_of_class(answers, lowest).is_possible()
}

/// The least of the first `classes` classes that these answers don't exclude, 0 where they exclude each.
pub fn lowest(answers: &[Answer], classes: u32) -> u32
    ensures { result ≡ spec.lowest answers.now classes }
{
    let mut found = 0;
    for h in 0..classes {
        if found == 0 && sign_of_class(answers, h + 1).may_be() {
            found = h + 1;
        }
    }
    found
}

/// The greatest of the first `classes` classes that these answers don't exclude, 0 where they exclude each.
pub fn highest(answers: &[Answer], classes: u32) -> u32
    ensures { result ≡ spec.highest answers.now classes }
{
    let mut found = 0;
    for h in 0..classes {
        if sign_of_class(answers, h + 1).may_be() {
            found = h + 1;
        }
    }
    found
}

/// Whether of each of the first `classes` classes these answers conclude whether it is possible, or that no function agrees.
pub fn is_whole(answers: &[Answer], classes: u32) -> bool
    ensures { result ≡ spec.is_whole answers.now classes }
{
    let mut whole = true;
    for h in 0..classes {
        if !sign_of_class(answers, h + 1).is_known() {
            whole = false;
        }
    }
    whole
}

/// Whether of one of the first `classes` classes these answers conclude that no function agrees.
pub fn is_contradictory(answers: &[Answer], classes: u32) -> bool
    ensures { result ≡ spec.is_contradictory answers.now classes }
{
    let mut found = false;
    for h in 0..classes {
        if sign_of_class(answers, h + 1).is_contradiction() {
            found = true;
        }
    }
    found
}

/// The number of the line at the last of these places.
pub fn last_line(kept: &[KeptLine], places: &[usize]) -> u32
    ensures { result ≡ spec.last_line kept.now places.now }
{
    let Some(place) = places.get(places.len().saturating_sub(1)) else {
        return 0;
    };
    match kept.get(*place) {
        Some(line) => line.block.line,
        None => 0,
    }
}
