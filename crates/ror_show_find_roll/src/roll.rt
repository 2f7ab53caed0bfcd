//! The roll of a desk.

ghost use Rattle.std.specs.Prelude.{◌≡◌, ◌≤◌, ◌++◌, IfOk, OnOk, length};
ghost use Rattle.ror_show_find_roll.specs.Roll as spec;

use crate::entries::tally_of;
use crate::step::Step;
use crate::survivor::walk_through;
use ror_report::{Body, LineFault};
use ror_statement::MOST_STATEMENTS;
use ror_text::Items;
use std::alloc::{AllocError, Global};

/// Where a statement comes from.
#[derive(Clone, Copy, Debug, PartialEq, Eq)]
pub enum Source {
    /// It came with the table's file.
    File,
    /// The line at this place among the session's lines, from 0, said it.
    Line(usize),
}

/// A statement that stands.
#[derive(Clone, Copy, Debug, PartialEq, Eq)]
pub struct Entry {
    /// Its number.
    pub number: u32,
    /// Where it comes from.
    pub said: Source,
    /// Where the one comes from in whose place it was put, if it was.
    pub instead_of: Option<Source>,
}

/// A statement that stands no more.
#[derive(Clone, Copy, Debug, PartialEq, Eq)]
pub struct Gone {
    /// As it stood.
    pub entry: Entry,
    /// The place of the line that took it away.
    pub by: usize,
    /// Whether that was a repair, which dropped it; else it was withdrawn.
    pub by_repair: bool,
}

/// A revision that was taken back.
#[derive(Clone, Copy, Debug, PartialEq, Eq)]
pub struct TakenBack {
    /// The place of its line.
    pub taken: usize,
    /// The place of the line that took it back.
    pub by: usize,
}

/// A line that was refused.
#[derive(Clone, Copy, Debug, PartialEq, Eq)]
pub struct RefusedLine {
    pub place: usize,
    pub fault: LineFault,
}

/// What stands at a desk, and what became of the rest.
#[derive(Debug, Drop)]
pub struct Roll {
    /// What stands, in increasing order of number.
    pub entries: Items<Entry>,
    /// What was withdrawn or dropped and not brought back, in the order in which it went.
    pub gone: Items<Gone>,
    /// What was taken back, in the order of the undos.
    pub taken_back: Items<TakenBack>,
    /// The lines that were refused, in order.
    pub refused: Items<RefusedLine>,
    /// The places of the lines that were answered when nothing stood, in order.
    pub asked_of_nothing: Items<usize>,
}

/// The roll after the lines of a desk, at which so many statements stood at first. It takes time in the number of lines, and for
/// each line in the number of statements that stand.
///
/// # Errors
///
/// Only want of memory.
pub fn roll_of(alloc: Global, opening: usize, steps: &[Step<'_>]) -> Result<Roll, AllocError>
    requires { opening ≤ MOST_STATEMENTS }
    ensures { IfOk result (λ roll. roll ≡ spec.roll_of opening steps.now) }
{
    let walk = walk_through(alloc, opening, steps)?;
    let tally = tally_of(alloc, opening, &walk.survivors)?;
    let refused = refused(alloc, steps)?;
    Ok(Roll {
        entries: Items::from(tally.entries),
        gone: Items::from(tally.gone),
        taken_back: Items::from(walk.taken_back),
        refused: Items::from(refused),
        asked_of_nothing: Items::from(walk.asked_of_nothing),
    })
}

/// The lines that were refused.
fn refused(alloc: Global, steps: &[Step<'_>]) -> Result<Vec<RefusedLine>, AllocError>
    ensures { IfOk result (λ list. list.items ≡ spec.refused steps.now) }
{
    let mut refused = Vec::new(alloc);
    'steps: for step in steps {
        push_refused(&mut refused, step)?;
    }
    Ok(refused)
}

/// Adds a line that was refused.
fn push_refused(refused: &mut Vec<RefusedLine>, step: &Step<'_>) -> Result<(), AllocError>
    ensures { OnOk result (refused.new.items
        ≡ refused.old.items ++ spec.refused_by step.now.place step.now.body) }
{
    match step.body() {
        Body::Refused(fault) => {
            refused.push(RefusedLine {
                place: step.place(),
                fault: *fault,
            })?;
            Ok(())
        }
        _ => Ok(()),
    }
}
