//! The check of the entries of a report, one after another.

ghost use Rattle.std.specs.Prelude.{◌≡◌, ◌≢◌, ℕ, ◌<◌, ◌≤◌, ◌+◌, ◌-◌, List, drop, length, IfOk, IfErr, OnOk};
ghost use Rattle.ror_text.specs.Cursor.{cursor_at};
ghost use Rattle.ror_text.specs.Reading.{Gives};
ghost use Rattle.ror_proof.specs.Reading.{proof_fault, IsProofFaultWithin};
ghost use Rattle.ror_report.specs.Text.{end_text};
ghost use Rattle.ror_bench.specs.Reports.{IfRejected, IsFreeOfMemory, HoldsNoMemory};
ghost use Rattle.ror_entries.specs.Kind.{Kind, IsKind, IsSameKind};
ghost use Rattle.ror_entries.specs.Reports.{IsProvedEntries, IsAcceptedEntries, IsRejectedEntries, RejectsNext, RejectsEnd};
ghost use Rattle.ror_entries.specs.Steps.{IfRefused, IsEntryAt, IsNextEntry, IsLateEntry, refused_error};

use ror_bench::{
    Accepted, MOST_REPORT_BYTES, Passed, Reason, Rejection, ReportError, early_end, misread,
    wrong_block,
};
use ror_proof::ProofFault;
use ror_report::{begins_end, read_end};
use std::alloc::Global;

/// Why an entry is not accepted.
#[derive(Debug, Drop)]
pub enum EntryFault {
    /// It is refused for this reason.
    Refused(Reason),
    Memory,
}

/// Reads the entries of a report and judges them. Places are counted from 0.
pub trait Judge {
    type Entry: Drop;

    /// The kind of its entries.
    ghost kind: { Self → Kind Self.Entry };

    /// The bytes of its report.
    ghost report: { Self → List ℕ };

    /// How many entries are due.
    fn count(&self) -> u32
        ensures count { result ≡ (kind self.now).count }
        ensures lawful { IsKind (kind self.now) };

    /// The bytes of the report.
    fn bytes(&self) -> &[u8]
        ensures { result.now ≡ report self.now };

    /// Reads the entry whose text begins at a byte, and says where it ends. Kind and report stay the same.
    fn read(&mut self, alloc: Global, from: usize) -> Result<(Self::Entry, usize), ProofFault>
        requires { from ≤ length (report self.old) }
        ensures exact { Gives (λ x. (x.0, cursor_at (report self.old) x.1)) proof_fault result
            ((kind self.old).reads (cursor_at (report self.old) from)) }
        ensures onward { IfOk result (λ x. from < x.1) }
        ensures within { IfOk result (λ x. x.1 ≤ length (report self.old)) }
        ensures placed { IfErr result (IsProofFaultWithin (length (report self.old))) }
        ensures same { IsSameKind (kind self.new) (kind self.old) }
        ensures report { report self.new ≡ report self.old };

    /// Accepts the entry at a place, or says for what reason it is refused there. Kind and report stay the same.
    fn check(
        &mut self,
        alloc: Global,
        place: u32,
        entry: &Self::Entry,
    ) -> Result<Passed, EntryFault>
        requires due { place < (kind self.old).count }
        requires printable { (kind self.old).IsPrintable entry.now }
        ensures same { IsSameKind (kind self.new) (kind self.old) }
        ensures report { report self.new ≡ report self.old }
        ensures proved { OnOk result ((kind self.old).IsProved place entry.now) }
        ensures counted { IfOk result (λ passed. passed ≡ (kind self.old).passed entry.now) }
        ensures refused { IfErr result (IfRefused ((kind self.old).Refuses place entry.now)) }
        ensures pure { IfErr result (IfRefused IsFreeOfMemory) };
}

/// Checks the entries of a judge's report, which begin at a byte, and its last line. The report has at most `MOST_REPORT_BYTES`.
/// What is accepted is the text of the entries that are due, each proved at its place but for what is too wide.
///
/// # Errors
///
/// Entry by entry, counted from 1 as a block: its form, `WrongBlock` for the last line in its place, and the reason for which it
/// is refused. Then the form of the last line, and `WrongBlock` for an entry in its place or another number.
pub fn check_entries<J: Judge>(
    alloc: Global,
    judge: &mut J,
    start: usize,
) -> Result<Accepted, ReportError>
    requires within { start ≤ length (J.report judge.old) }
    requires length { length (J.report judge.old) ≤ MOST_REPORT_BYTES }
    ensures accepted { IfOk result
        (IsAcceptedEntries (J.kind judge.old) (drop start (J.report judge.old))) }
    ensures rejected { IfErr result
        (IfRejected (IsRejectedEntries (J.kind judge.old) (J.report judge.old) start)) }
    ensures not_proved { IfErr result (λ e. e ≢ ReportError.Memory → (x : Accepted)
        → IsProvedEntries (J.kind judge.old) (drop start (J.report judge.old)) x → ⊥) }
    ensures pure { IfErr result HoldsNoMemory }
    ensures same { IsSameKind (J.kind judge.new) (J.kind judge.old) }
    ensures report { J.report judge.new ≡ J.report judge.old }
{
    let count = judge.count();
    let mut next = start;
    let mut accepted = Accepted {
        answers: 0,
        wide: 0,
    };
    for place in 0..count {
        let (passed, after) = check_next(alloc, judge, place, next)?;
        accepted.answers += passed.answers as u64;
        accepted.wide += passed.wide as u64;
        next = after;
    }
    check_end(alloc, judge, count, next)?;
    Ok(accepted)
}

/// Reads the entry that stands at a byte and judges it for a place: what of it passed, and where it ends.
fn check_next<J: Judge>(
    alloc: Global,
    judge: &mut J,
    place: u32,
    from: usize,
) -> Result<(Passed, usize), ReportError>
    requires lawful { IsKind (J.kind judge.old) }
    requires due { place < (J.kind judge.old).count }
    requires few { place ≤ from }
    requires within { from ≤ length (J.report judge.old) }
    requires length { length (J.report judge.old) ≤ MOST_REPORT_BYTES }
    ensures next { IfOk result
        (λ x. IsNextEntry (J.kind judge.old) (J.report judge.old) place from x.0 x.1) }
    ensures onward { IfOk result (λ x. from < x.1) }
    ensures within { IfOk result (λ x. x.1 ≤ length (J.report judge.old)) }
    ensures rejected { IfErr result (IfRejected (λ rejection. (rejection.block ≡ place + 1)
        × RejectsNext (J.kind judge.old) (J.report judge.old) place from rejection.reason)) }
    ensures pure { IfErr result HoldsNoMemory }
    ensures same { IsSameKind (J.kind judge.new) (J.kind judge.old) }
    ensures report { J.report judge.new ≡ J.report judge.old }
{
    match next_entry(alloc, judge, place, from) {
        Ok((_, passed, after)) => Ok((passed, after)),
        Err(error) => Err(error),
    }
}

/// Reads the entry that stands at a byte and judges it for a place: the entry, what of it passed, and where it ends.
pub(crate) fn next_entry<J: Judge>(
    alloc: Global,
    judge: &mut J,
    place: u32,
    from: usize,
) -> Result<(J::Entry, Passed, usize), ReportError>
    requires lawful { IsKind (J.kind judge.old) }
    requires due { place < (J.kind judge.old).count }
    requires few { place ≤ from }
    requires within { from ≤ length (J.report judge.old) }
    requires length { length (J.report judge.old) ≤ MOST_REPORT_BYTES }
    ensures next { IfOk result
        (λ x. IsEntryAt (J.kind judge.old) (J.report judge.old) place from x.0 x.1 x.2) }
    ensures onward { IfOk result (λ x. from < x.2) }
    ensures within { IfOk result (λ x. x.2 ≤ length (J.report judge.old)) }
    ensures rejected { IfErr result (IfRejected (λ rejection. (rejection.block ≡ place + 1)
        × RejectsNext (J.kind judge.old) (J.report judge.old) place from rejection.reason)) }
    ensures pure { IfErr result HoldsNoMemory }
    ensures same { IsSameKind (J.kind judge.new) (J.kind judge.old) }
    ensures report { J.report judge.new ≡ J.report judge.old }
{
    let block = place + 1;
    if begins_end(judge.bytes(), from) {
        return Err(early_end(judge.bytes(), from, block));
    }
    match judge.read(alloc, from) {
        Ok((found, after)) => match judge.check(alloc, place, &found) {
            Ok(passed) => Ok((found, passed, after)),
            Err(fault) => Err(refused_entry(block, fault)),
        },
        Err(fault) => Err(misread(judge.bytes(), block, fault)),
    }
}

/// Checks that the last line stands at a byte, with the number of entries, and nothing after it.
pub(crate) fn check_end<J: Judge>(
    alloc: Global,
    judge: &mut J,
    count: u32,
    from: usize,
) -> Result<(), ReportError>
    requires count { count ≡ (J.kind judge.old).count }
    requires few { count ≤ from }
    requires within { from ≤ length (J.report judge.old) }
    requires length { length (J.report judge.old) ≤ MOST_REPORT_BYTES }
    ensures last { OnOk result (drop from (J.report judge.old) ≡ end_text count) }
    ensures rejected { IfErr result (IfRejected (λ rejection. (rejection.block ≡ count + 1)
        × RejectsEnd (J.kind judge.old) (J.report judge.old) from rejection.reason)) }
    ensures pure { IfErr result HoldsNoMemory }
    ensures same { IsSameKind (J.kind judge.new) (J.kind judge.old) }
    ensures report { J.report judge.new ≡ J.report judge.old }
{
    let block = count + 1;
    if !begins_end(judge.bytes(), from) {
        return Err(late_entry(alloc, judge, from, block));
    }
    match read_end(judge.bytes(), from) {
        Ok(entries) if entries == count => Ok(()),
        Ok(_) => Err(wrong_block(block)),
        Err(fault) => Err(misread(judge.bytes(), block, fault)),
    }
}

/// Why what stands where the last line is due is refused: the faults of an entry's form come first.
fn late_entry<J: Judge>(alloc: Global, judge: &mut J, from: usize, block: u32) -> ReportError
    requires within { from ≤ length (J.report judge.old) }
    requires length { length (J.report judge.old) ≤ MOST_REPORT_BYTES }
    ensures rejected { IfRejected (λ rejection. (rejection.block ≡ block)
        × IsLateEntry (J.kind judge.old) (J.report judge.old) from rejection.reason) result }
    ensures pure { HoldsNoMemory result }
    ensures same { IsSameKind (J.kind judge.new) (J.kind judge.old) }
    ensures report { J.report judge.new ≡ J.report judge.old }
{
    match judge.read(alloc, from) {
        Ok(_) => wrong_block(block),
        Err(fault) => misread(judge.bytes(), block, fault),
    }
}

/// The error of an entry that is refused at its place.
pub fn refused_entry(block: u32, fault: EntryFault) -> ReportError
    ensures { result ≡ refused_error block fault }
{
    match fault {
        EntryFault::Refused(reason) => ReportError::Rejected(Rejection { block, reason }),
        EntryFault::Memory => ReportError::Memory,
    }
}
