//! The present system: a copy of the one that was asked of last.

ghost use Rattle.std.specs.Prelude.{◌≡◌, ◌↔◌, IsTrue, IfOk};

use crate::store::Front;
use ror_system::{Row, System, shared_front};
use std::alloc::{AllocError, Global};

/// The same system again.
///
/// # Errors
///
/// Only want of memory.
pub(crate) fn copied(alloc: Global, s: &System) -> Result<System, AllocError>
    ensures { IfOk result (λ copy. copy ≡ s.now) }
{
    let weak = copied_rows(alloc, s.weak())?;
    let strict = copied_rows(alloc, s.strict())?;
    Ok(System::new(s.columns(), weak, strict))
}

/// The same rows again.
fn copied_rows(alloc: Global, rows: &[Row]) -> Result<Vec<Row>, AllocError>
    ensures { IfOk result (λ copies. copies.items ≡ rows.now) }
{
    let mut copies = Vec::with_capacity(alloc, rows.len())?;
    for row in rows {
        copies.push(row.copied()?)?;
    }
    Ok(copies)
}

/// Whether two systems have the same rows: the weak ones, and the strict ones, each in order, over as many columns.
pub(crate) fn is_same(a: &System, b: &System) -> bool
    ensures { IsTrue result ↔ (a.now ≡ b.now) }
{
    if a.columns() != b.columns() {
        return false;
    }
    if !are_same(a.weak(), b.weak()) {
        return false;
    }
    are_same(a.strict(), b.strict())
}

/// Whether two lists have the same rows in order.
fn are_same(a: &[Row], b: &[Row]) -> bool
    ensures { IsTrue result ↔ (a.now ≡ b.now) }
{
    if a.len() != b.len() {
        return false;
    }
    for place in 0..a.len() {
        if !is_same_row(&a[place], &b[place]) {
            return false;
        }
    }
    true
}

/// Whether two rows have the same entries.
fn is_same_row(a: &Row, b: &Row) -> bool
    ensures { IsTrue result ↔ (a.now ≡ b.now) }
{
    a.as_slice() == b.as_slice()
}

/// How many rows at the front of either part are those of the present system, if there is one. Nothing is promised of it: it
/// saves work.
pub(crate) fn front_of(present: &Option<System>, s: &System) -> Front {
    match present {
        Some(old) => Front {
            weak: common_front(old.weak(), s.weak()),
            strict: common_front(old.strict(), s.strict()),
        },
        None => Front { weak: 0, strict: 0 },
    }
}

/// How many rows at the front of two lists are the same. Most are copies of one, whose entries needn't be compared.
fn common_front(a: &[Row], b: &[Row]) -> usize {
    let shared = shared_front(a, b);
    let mut common = shared;
    for (own, other) in a.iter().zip(b.iter()).skip(shared) {
        if !is_same_row(own, other) {
            return common;
        }
        common = common.saturating_add(1);
    }
    common
}
