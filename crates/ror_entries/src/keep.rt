//! The check of the entries of a report that keeps them.

ghost use Rattle.std.specs.Prelude.{◌≡◌, ◌≤◌, drop, length, IfOk, IfErr};
ghost use Rattle.ror_bench.specs.Reports.{IfRejected, HoldsNoMemory};
ghost use Rattle.ror_entries.specs.Kind.{Kind, IsSameKind};
ghost use Rattle.ror_entries.specs.Reports.{AreProvedEntries, IsRejectedEntries};

use crate::check::{Judge, check_end, next_entry};
use ror_bench::{MOST_REPORT_BYTES, ReportError};
use std::alloc::{AllocError, Global};

/// Checks the entries of a judge's report, which begin at a byte, and its last line, and keeps the entries. The report has at most
/// `MOST_REPORT_BYTES`.
///
/// # Errors
///
/// As [`crate::check_entries`], and it keeps nothing then.
pub fn keep_entries<J: Judge>(
    alloc: Global,
    judge: &mut J,
    start: usize,
) -> Result<Vec<J::Entry>, ReportError>
    requires within { start ≤ length (J.report judge.old) }
    requires length { length (J.report judge.old) ≤ MOST_REPORT_BYTES }
    ensures kept { IfOk result
        (λ kept. AreProvedEntries (J.kind judge.old) (drop start (J.report judge.old)) kept.items) }
    ensures rejected { IfErr result
        (IfRejected (IsRejectedEntries (J.kind judge.old) (J.report judge.old) start)) }
    ensures pure { IfErr result HoldsNoMemory }
    ensures same { IsSameKind (J.kind judge.new) (J.kind judge.old) }
    ensures report { J.report judge.new ≡ J.report judge.old }
{
    let count = judge.count();
    let mut kept = Vec::new(alloc);
    let mut next = start;
    for place in 0..count {
        let (entry, _, after) = next_entry(alloc, judge, place, next)?;
        if let Err(error) = kept.push(entry) {
            return Err(AllocError::from(error).into());
        }
        next = after;
    }
    check_end(alloc, judge, count, next)?;
    Ok(kept)
}
