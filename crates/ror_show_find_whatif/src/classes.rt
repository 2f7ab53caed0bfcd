//! Which classes of an alternative another list changes.

ghost use Rattle.std.specs.Prelude.{◌≡◌, ◌<◌, ◌^◌, ◌++◌, IfOk, OnOk};
ghost use Rattle.ror_show_find_whatif.specs.ClassShifts as spec;

use ror_proof::Answer;
use ror_show_find_classes::{Sign, sign_of_class};
use ror_text::Items;
use std::alloc::{AllocError, Global};

/// What becomes of a class of an alternative where another list stands.
#[derive(Clone, Copy, Debug, PartialEq, Eq)]
pub enum ClassShift {
    /// By no function the alternative may belong to it now, and by some one then.
    Opened,
    /// By some function it may now, and by none then.
    Closed,
    /// By every function it may now, and by some then, but not by every one.
    Loosened,
    /// By some function it may now, but not by every one, and by every one then.
    Bound,
    /// It isn't concluded, now or then.
    Unknown,
}

/// The classes of an alternative that another list changes, from the worst on.
#[derive(Debug, Drop)]
pub struct ClassEffect {
    /// By no function it may belong to them now, and by some one then.
    pub opened: Items<u32>,
    /// By some function it may now, and by none then.
    pub closed: Items<u32>,
    /// By every function it may now, and by some then, but not by every one.
    pub loosened: Items<u32>,
    /// By some function it may now, but not by every one, and by every one then.
    pub bound: Items<u32>,
    /// It isn't concluded, now or then.
    pub unknown: Items<u32>,
}

/// Of so many classes, from the answers of what is to those of what would be.
///
/// # Errors
///
/// Only want of memory, here and below.
pub(crate) fn class_effect(
    alloc: Global,
    classes: u32,
    before: &[Answer],
    after: &[Answer],
) -> Result<ClassEffect, AllocError>
    ensures { IfOk result (spec.IsClassEffect classes before.now after.now) }
{
    let opened = shifted_classes(alloc, classes, before, after, ClassShift::Opened)?;
    let closed = shifted_classes(alloc, classes, before, after, ClassShift::Closed)?;
    let loosened = shifted_classes(alloc, classes, before, after, ClassShift::Loosened)?;
    let bound = shifted_classes(alloc, classes, before, after, ClassShift::Bound)?;
    let unknown = shifted_classes(alloc, classes, before, after, ClassShift::Unknown)?;
    Ok(ClassEffect {
        opened: Items::from(opened),
        closed: Items::from(closed),
        loosened: Items::from(loosened),
        bound: Items::from(bound),
        unknown: Items::from(unknown),
    })
}

/// The classes of which this becomes.
fn shifted_classes(
    alloc: Global,
    classes: u32,
    before: &[Answer],
    after: &[Answer],
    shift: ClassShift,
) -> Result<Vec<u32>, AllocError>
    ensures { IfOk result (λ made. made.items ≡ spec.shifted_classes classes before.now after.now shift) }
{
    let mut made = Vec::new(alloc);
    for n in 0..classes {
        push_class(&mut made, before, after, shift, n + 1)?;
    }
    Ok(made)
}

/// Adds the class, if this becomes of it.
fn push_class(
    made: &mut Vec<u32>,
    before: &[Answer],
    after: &[Answer],
    shift: ClassShift,
    class: u32,
) -> Result<(), AllocError>
    ensures { OnOk result (made.new.items ≡ made.old.items ++ spec.class_of before.now after.now shift class) }
{
    if has_shift(before, after, shift, class) {
        made.push(class)?;
    }
    Ok(())
}

fn has_shift(before: &[Answer], after: &[Answer], shift: ClassShift, class: u32) -> bool
    ensures { result ≡ spec.has_class_shift before.now after.now shift class }
{
    let now = sign_of_class(before, class);
    let later = sign_of_class(after, class);
    is_found(shift, shift_of(now, later))
}

/// From the sign of what is to that of what would be. Where no function agrees, now or then, nothing is compared.
fn shift_of(before: Sign, after: Sign) -> Option<ClassShift>
    ensures { result ≡ spec.class_shift_of before after }
{
    match (before, after) {
        (Sign::Contradiction, _) => None,
        (_, Sign::Contradiction) => None,
        (Sign::Unknown, _) => Some(ClassShift::Unknown),
        (_, Sign::Unknown) => Some(ClassShift::Unknown),
        (Sign::Impossible, Sign::Necessary) => Some(ClassShift::Opened),
        (Sign::Impossible, Sign::Possible) => Some(ClassShift::Opened),
        (Sign::Necessary, Sign::Impossible) => Some(ClassShift::Closed),
        (Sign::Possible, Sign::Impossible) => Some(ClassShift::Closed),
        (Sign::Necessary, Sign::Possible) => Some(ClassShift::Loosened),
        (Sign::Possible, Sign::Necessary) => Some(ClassShift::Bound),
        _ => None,
    }
}

fn is_found(shift: ClassShift, found: Option<ClassShift>) -> bool
    ensures { result ≡ spec.is_found shift found }
{
    match found {
        Some(found) => is_same(shift, found),
        None => false,
    }
}

fn is_same(one: ClassShift, other: ClassShift) -> bool
    ensures { result ≡ spec.is_same one other }
{
    match (one, other) {
        (ClassShift::Opened, ClassShift::Opened) => true,
        (ClassShift::Closed, ClassShift::Closed) => true,
        (ClassShift::Loosened, ClassShift::Loosened) => true,
        (ClassShift::Bound, ClassShift::Bound) => true,
        (ClassShift::Unknown, ClassShift::Unknown) => true,
        _ => false,
    }
}
