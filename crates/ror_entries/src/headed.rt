//! Reports whose entries stand behind a head.

ghost use Rattle.std.specs.Prelude.{◌≡◌, ◌≤◌, length, nat_eq, true, false, IfOk, IfErr};
ghost use Rattle.std.specs.Str.{IsUtf8};
ghost use Rattle.std.specs.List.{starts_with};
ghost use Rattle.ror_entries.specs.Headed.{IsAcceptedHeaded, IsRejectedHeaded, WritesHeaded};
ghost use Rattle.ror_bench.specs.Reports.{IfRejected, HoldsNoMemory};

use crate::check::{Judge, check_entries};
use crate::write::{EntriesStop, Maker, write_entries};
use ror_bench::{Accepted, MOST_REPORT_BYTES, Reason, Rejection, ReportError};
use ror_io::{Sink, write_all};
use ror_text::lines::is_utf8;
use std::alloc::Global;

/// Checks a judge's report, which is to begin with this head, and whose entries stand behind it. The report has at most
/// `MOST_REPORT_BYTES`. What is accepted is the head and the text of the entries that are due, each proved at its place but for what
/// is too wide.
///
/// # Errors
///
/// Counted as block 0, `NotUtf8`, and `BadLine` of line 1 for another first line; then those of `check_entries`.
pub fn check_headed<J: Judge>(
    alloc: Global,
    judge: &mut J,
    head: &[u8],
) -> Result<Accepted, ReportError>
    requires length { length (J.report judge.old) ≤ MOST_REPORT_BYTES }
    ensures accepted { IfOk result
        (IsAcceptedHeaded head.now (J.kind judge.old) (J.report judge.old)) }
    ensures rejected { IfErr result
        (IfRejected (IsRejectedHeaded head.now (J.kind judge.old) (J.report judge.old))) }
    ensures pure { IfErr result HoldsNoMemory }
{
    if !is_utf8(judge.bytes()) {
        return Err(rejected(Reason::NotUtf8));
    }
    if !judge.bytes().starts_with(head) {
        return Err(rejected(Reason::BadLine(1)));
    }
    check_entries(alloc, judge, head.len())
}

/// The error of a report that is rejected before its first entry.
fn rejected(reason: Reason) -> ReportError
    ensures { result ≡ ReportError.Rejected (record { block = 0; reason = reason }) }
{
    ReportError::Rejected(Rejection { block: 0, reason })
}

/// Writes the head, all entries that are due behind it, each before the next one is made, and the line with their number. It says
/// whether anything is too wide. After a write that failed nothing more is written.
pub fn write_headed<M: Maker, O: Sink>(
    alloc: Global,
    head: &[u8],
    maker: &mut M,
    out: &mut O,
) -> Result<bool, EntriesStop>
    ensures { WritesHeaded head.now (M.kind maker.old) (M.given maker.old) (O.faults out.old)
        (O.faults out.new) (O.written out.old) (O.written out.new) result }
{
    write_all(out, head)?;
    write_entries(alloc, maker, out)
}
