//! The closing lists of a session.

ghost use Rattle.std.specs.Prelude.{◌≡◌, ◌≢◌, ◌↔◌, ◌<◌, ◌-◌, ◌^◌, IsTrue, length, IfOk, IfErr, OnOk, MatchOption};
ghost use Rattle.std.specs.List.{AllByRecursion};
ghost use Rattle.ror_statement.specs.Statements.{statements_in};
ghost use Rattle.ror_value.specs.Over.{IsLawfulIn};
ghost use Rattle.ror_history.specs.History.{next_number};
ghost use Rattle.ror_bench.specs.Bench.{revisions_at, HoldTheSame, LeavesNumbers};
ghost use Rattle.ror_bench.specs.Reports.{NamesADesk};
ghost use Rattle.ror_bench.specs.Rooms.{may_revise};
ghost use Rattle.ror_closing.specs.Closing.{IsUnsuited, AreSuited, IsFirstUnsuited, RefusesClosing, AreClosingLists, IsClosingStanding, IsDone, HasRevised, lists_at};
ghost use Rattle.ror_closing.specs.declared.closing.ClosingFault.TheVariants.{Memory};

use ror_bench::Bench;
use ror_pivot::Bits;
use ror_session::{Command, Line};
use ror_statement::{Numbered, Statement, statements_in};
use ror_text::Items;
use std::alloc::{AllocError, AllocFailed, Global};
use thiserror::Error;

/// Why there are no closing lists.
#[derive(Debug, Drop, Error)]
pub enum ClosingFault {
    /// The line with this number repairs, the first that does.
    #[error("unsuited line {0}")]
    Unsuited(u32),
    #[error("out of memory")]
    Memory,
}

impl From<AllocError> for ClosingFault {
    ghost from_gives = { λ _ fault. fault ≡ Memory };

    fn from(_error: AllocError) -> ClosingFault {
        ClosingFault::Memory
    }
}

impl<T: Drop> From<AllocFailed<T>> for ClosingFault {
    ghost from_gives = { λ _ fault. fault ≡ Memory };

    fn from(_error: AllocFailed<T>) -> ClosingFault {
        ClosingFault::Memory
    }
}

/// The list of each desk after its lines, those that ask passed over: desk by desk in order, each lawful in the bench's table. The
/// bench has so many desks, each with a number left for each line, and then holds what the lines left. Its table stays.
///
/// # Errors
///
/// `Unsuited` exactly where a line repairs, with the number of the first such line; nothing is changed then.
pub fn closing_lists(
    alloc: Global,
    bench: &mut Bench,
    desks: u32,
    lines: &[Line],
) -> Result<Vec<Items<Statement>>, ClosingFault>
    requires desks { length bench.old.state ≡ desks }
    requires named { AllByRecursion (NamesADesk (length bench.old.state)) lines.now }
    requires numbers { AllByRecursion (LeavesNumbers (length lines.now)) bench.old.state }
    ensures suited { OnOk result (AreSuited lines.now) }
    ensures closing { IfOk result (λ lists. AreClosingLists bench.old lines.now lists.items) }
    ensures count { IfOk result (λ lists. length lists.items ≡ desks) }
    ensures lawful { IfOk result
        (λ lists. AllByRecursion (IsLawfulIn bench.old.table) lists.items) }
    ensures refused { IfErr result (RefusesClosing lines.now) }
    ensures table { bench.new.table ≡ bench.old.table }
    ensures left { OnOk result (HasRevised bench.old lines.now bench.new) }
    ensures kept { IfErr result (λ e. e ≢ ClosingFault.Memory → HoldTheSame bench.new bench.old) }
{
    if let Some(number) = first_unsuited(lines) {
        return Err(ClosingFault::Unsuited(number));
    }
    revise(bench, lines)?;
    let lists = standing_lists(alloc, bench, desks)?;
    Ok(lists)
}

/// What stands at a desk after all lines, those that ask passed over, with its numbers: what may stand over the bench's table. That
/// is one list where the lines are suited, which the caller sees to: what a line that repairs leaves goes by a width. The bench has a
/// number left for each line at each desk, and its table stays. Its one error is want of memory.
pub fn closing_standing(
    alloc: Global,
    bench: &mut Bench,
    desk: u32,
    lines: &[Line],
) -> Result<Vec<Numbered>, AllocError>
    requires desk { desk < length bench.old.state }
    requires named { AllByRecursion (NamesADesk (length bench.old.state)) lines.now }
    requires numbers { AllByRecursion (LeavesNumbers (length lines.now)) bench.old.state }
    ensures closing { IfOk result (λ list. IsClosingStanding bench.old lines.now desk list.items) }
    ensures lawful { IfOk result
        (λ list. IsLawfulIn bench.old.table (statements_in list.items)) }
    ensures table { bench.new.table ≡ bench.old.table }
{
    revise(bench, lines)?;
    bench.standing(desk)
}

/// The number of the first line that repairs, if there is one.
pub fn first_unsuited(lines: &[Line]) -> Option<u32>
    ensures { MatchOption result (AreSuited lines.now) (IsFirstUnsuited lines.now) }
{
    for line in lines {
        if is_unsuited(line) {
            return Some(line.number);
        }
    }
    None
}

/// Whether the line repairs.
fn is_unsuited(line: &Line) -> bool
    ensures { IsTrue result ↔ IsUnsuited line.now }
{
    matches!(line.command, Command::Repair)
}

/// Does the lines that don't ask, which take no search.
fn revise(bench: &mut Bench, lines: &[Line]) -> Result<(), AllocError>
    requires named { AllByRecursion (NamesADesk (length bench.old.state)) lines.now }
    requires numbers { AllByRecursion (LeavesNumbers (length lines.now)) bench.old.state }
    ensures revised { OnOk result (HasRevised bench.old lines.now bench.new) }
    ensures table { bench.new.table ≡ bench.old.table }
{
    for line in lines {
        if may_revise(line) {
            do_line(bench, line)?;
        }
    }
    Ok(())
}

/// Does the line at its desk.
fn do_line(bench: &mut Bench, line: &Line) -> Result<(), AllocError>
    requires desk { line.now.desk < length bench.old.state }
    requires number { next_number (revisions_at bench.old line.now.desk) < 2 ^ 32 - 1 }
    ensures done { OnOk result (IsDone bench.old line.now bench.new) }
    ensures kept { IfErr result (λ _. HoldTheSame bench.new bench.old) }
{
    let block = bench.step(line, Bits::B31)?;
    // What is dropped on some paths alone takes long to prove.
    drop(block);
    Ok(())
}

/// Whether the line doesn't ask.
fn may_revise(line: &Line) -> bool
    ensures { result ≡ may_revise line.now.command }
{
    !matches!(line.command, Command::Ask(_))
}

/// What stands at each of the desks.
fn standing_lists(
    alloc: Global,
    bench: &Bench,
    desks: u32,
) -> Result<Vec<Items<Statement>>, AllocError>
    requires { length bench.now.state ≡ desks }
    ensures listed { IfOk result (λ lists. lists.items ≡ lists_at bench.now) }
    ensures lawful { IfOk result
        (λ lists. AllByRecursion (IsLawfulIn bench.now.table) lists.items) }
{
    let mut lists = Vec::new(alloc);
    for desk in 0..desks {
        let standing = bench.standing(desk)?;
        let list = statements_in(alloc, &standing)?;
        lists.push(Items::from(list))?;
    }
    Ok(lists)
}
