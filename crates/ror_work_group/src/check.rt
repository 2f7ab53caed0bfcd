//! The check of a group's report: the three files are fetched in order, and the report is accepted or rejected.

ghost use Rattle.std.specs.Prelude.{◌≡◌, ◌≤◌, None, length, IfOk, IfErr, IfSome};
ghost use Rattle.ror_group.specs.Head.{head_fault};
ghost use Rattle.ror_session.specs.Sound.{IsSound};
ghost use Rattle.ror_value.specs.Over.{IsLawfulIn};
ghost use Rattle.ror_closing.specs.Closing.{AreSuited};
ghost use Rattle.ror_words.specs.Named.{inputs_of};
ghost use Rattle.ror_frame.specs.States.{shelf_state, sink_state};
ghost use Rattle.ror_frame.specs.Courses.{ReadAs, IsWork};
ghost use Rattle.ror_frame.specs.Stops.{last};
ghost use Rattle.ror_work_group.specs.Group.{ProvesGroup, RefusesGroup, IsStart, StopsBefore, check_group_chore, head_reason};

use crate::judge::GroupJudge;
use ror_bench::{Accepted, MOST_REPORT_BYTES, Reason, Rejection, misread};
use ror_entries::check_entries;
use ror_frame::{Refusal, Stop, closed_desks, conclude, fetch_report, fetch_suited, fetch_table};
use ror_group::head::{HeadFault, check_whole_head};
use ror_io::{Shelf, Sink};
use ror_session::Session;
use ror_text::lines::is_utf8;
use ror_words::FileNames;
use ror_xmcda::Input;
use std::alloc::Global;

/// Fetches the three files in order, each once those before it were read, and writes the line of a group's report that is
/// accepted. It says whether anything is too wide.
///
/// # Errors
///
/// The first file whose bytes are refused is, and what is at fault in it, or the session's first unsuited line; or a fault of the
/// outside.
pub fn check_group_files<F: Shelf, O: Sink>(
    alloc: Global,
    names: &FileNames<'_>,
    report: &str,
    shelf: &mut F,
    out: &mut O,
) -> Result<bool, Stop>
    ensures { IsWork 0 (check_group_chore (inputs_of names.now) report.now).files
        (check_group_chore (inputs_of names.now) report.now).course
        (shelf_state (F.told shelf.old) (F.faults shelf.old) (F.fetch_count shelf.old))
        (shelf_state (F.told shelf.new) (F.faults shelf.new) (F.fetch_count shelf.new))
        (sink_state (O.written out.old) (O.faults out.old))
        (sink_state (O.written out.new) (O.faults out.new)) result }
{
    let input = fetch_table(alloc, names, shelf)?;
    let session = fetch_suited(alloc, names, shelf)?;
    let bytes = fetch_report(alloc, report, shelf)?;
    let accepted = answers_in(alloc, input, &session, bytes.as_slice())?;
    conclude(out, accepted)
}

/// Checks the bytes of a report, and counts its answers.
fn answers_in(
    alloc: Global,
    input: Input,
    session: &Session,
    bytes: &[u8],
) -> Result<Accepted, Stop>
    requires lawful { IsLawfulIn input.table input.opening }
    requires sound { IsSound session.now }
    requires suited { AreSuited session.now.lines }
    requires within { length bytes.now ≤ MOST_REPORT_BYTES }
    ensures { ReadAs last (ProvesGroup input session.now) (RefusesGroup input session.now) bytes.now result }
{
    let start = entries_start(session, bytes)?;
    let (bench, lists) = closed_desks(alloc, input, session)?;
    let mut judge = GroupJudge::new(alloc, bench.table(), lists.as_slice(), bytes)?;
    Ok(check_entries(alloc, &mut judge, start)?)
}

/// Where the entries begin, behind the head of a report on the session's desks.
pub(crate) fn entries_start(session: &Session, bytes: &[u8]) -> Result<usize, Stop>
    requires { length bytes.now ≤ MOST_REPORT_BYTES }
    ensures start { IfOk result (IsStart session.now bytes.now) }
    ensures within { IfOk result (λ start. start ≤ length bytes.now) }
    ensures refused { IfErr result (StopsBefore session.now bytes.now) }
{
    if !is_utf8(bytes) {
        return Err(rejected(Reason::NotUtf8));
    }
    match check_whole_head(bytes, session.desks.as_slice()) {
        Ok(start) => Ok(start),
        Err(fault) => Err(stop_at_head(bytes, fault)),
    }
}

/// The stop at a report that is rejected before its first entry.
fn rejected(reason: Reason) -> Stop
    ensures { result ≡ Stop.At (Refusal.Rejected (record { block = 0; reason = reason })) }
{
    Stop::At(Refusal::Rejected(Rejection { block: 0, reason }))
}

/// The stop at a head with this fault.
fn stop_at_head(bytes: &[u8], fault: HeadFault) -> Stop
    requires { length bytes.now ≤ MOST_REPORT_BYTES }
    ensures fault { IfSome (head_fault fault) (λ f. result ≡ Stop.At (Refusal.Rejected (record { block = 0; reason = head_reason bytes.now f }))) }
    ensures memory { head_fault fault ≡ None → result ≡ Stop.Memory }
{
    match fault {
        HeadFault::Line(fault) => Stop::from(misread(bytes, 0, fault)),
        HeadFault::WrongBlock => rejected(Reason::WrongBlock),
    }
}
