//! The revisions that survive.

ghost use Rattle.std.specs.Prelude.{◌≡◌, ◌++◌, OnOk, IfOk, [], fold};
ghost use Rattle.ror_show_find_roll.specs.Roll as spec;

use crate::roll::TakenBack;
use crate::step::Step;
use ror_report::Body;
use std::alloc::{AllocError, Global};

/// A revision that survives.
#[derive(Drop)]
pub(crate) struct Survivor<'a> {
    pub(crate) step: Step<'a>,
    /// How many statements are left after it.
    pub(crate) left: usize,
}

/// What the lines of a desk come to, but for those that are refused.
#[derive(Drop)]
pub(crate) struct Walk<'a> {
    pub(crate) survivors: Vec<Survivor<'a>>,
    pub(crate) taken_back: Vec<TakenBack>,
    pub(crate) asked_of_nothing: Vec<usize>,
}

/// Goes through the lines of a desk at which so many statements stood at first.
pub(crate) fn walk_through<'a>(
    alloc: Global,
    opening: usize,
    steps: &[Step<'a>],
) -> Result<Walk<'a>, AllocError>
    ensures survivors { IfOk result (λ walk. walk.survivors.items ≡ spec.survivors opening steps.now) }
    ensures taken_back { IfOk result (λ walk. walk.taken_back.items ≡ spec.taken_back opening [] steps.now) }
    ensures asked { IfOk result (λ walk. walk.asked_of_nothing.items
        ≡ spec.asked_of_nothing opening [] steps.now) }
{
    let mut survivors = Vec::new(alloc);
    let mut taken_back = Vec::new(alloc);
    let mut asked_of_nothing = Vec::new(alloc);
    'steps: for step in steps {
        push_taken(&mut taken_back, &survivors, step)?;
        push_asked(&mut asked_of_nothing, left_after(opening, &survivors), step)?;
        survive(&mut survivors, opening, step)?;
    }
    Ok(Walk {
        survivors,
        taken_back,
        asked_of_nothing,
    })
}

/// How many statements are left after these.
fn left_after(opening: usize, survivors: &[Survivor<'_>]) -> usize
    ensures { result ≡ spec.left_after opening survivors.now }
{
    match survivors.last() {
        Some(survivor) => survivor.left,
        None => opening,
    }
}

/// How many are left after what came of a line.
fn left_with(left: usize, body: &Body) -> usize
    ensures { result ≡ spec.left_with left body.now }
{
    match body {
        Body::Added(_) => left.saturating_add(1),
        Body::Withdrawn(_) => left.saturating_sub(1),
        Body::Repaired(kept) => left.saturating_sub(kept.dropped.len()),
        _ => left,
    }
}

/// An undo takes the last one back, and a revision comes last.
fn survive<'a>(
    survivors: &mut Vec<Survivor<'a>>,
    opening: usize,
    step: &Step<'a>,
) -> Result<(), AllocError>
    ensures { OnOk result (survivors.new.items ≡ spec.survivors_with opening survivors.old.items step.now) }
{
    match step.body() {
        Body::Undone => {
            let _last = survivors.pop();
            Ok(())
        }
        Body::RepairWide(_, _) | Body::Answers(_) | Body::Refused(_) => Ok(()),
        body => {
            let left = left_with(left_after(opening, survivors), body);
            let step = step.same();
            survivors.push(Survivor { step, left })?;
            Ok(())
        }
    }
}

/// Adds an undo, and the revision that it takes back.
fn push_taken(
    taken_back: &mut Vec<TakenBack>,
    survivors: &[Survivor<'_>],
    step: &Step<'_>,
) -> Result<(), AllocError>
    ensures { OnOk result (taken_back.new.items
        ≡ taken_back.old.items ++ spec.taken_by survivors.now step.now.place step.now.body) }
{
    match (step.body(), survivors.last()) {
        (Body::Undone, Some(survivor)) => {
            taken_back.push(TakenBack {
                taken: survivor.step.place(),
                by: step.place(),
            })?;
            Ok(())
        }
        _ => Ok(()),
    }
}

/// Adds a line that is answered where no statement is left.
fn push_asked(
    asked_of_nothing: &mut Vec<usize>,
    left: usize,
    step: &Step<'_>,
) -> Result<(), AllocError>
    ensures { OnOk result (asked_of_nothing.new.items
        ≡ asked_of_nothing.old.items ++ spec.asked_by left step.now.place step.now.body) }
{
    match step.body() {
        Body::Answers(_) if left == 0 => {
            asked_of_nothing.push(step.place())?;
            Ok(())
        }
        _ => Ok(()),
    }
}
