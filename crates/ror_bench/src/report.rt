//! The check of a report, block by block.

ghost use Rattle.std.specs.Prelude.{◌≡◌, ◌≢◌, ℕ, ◌<◌, ◌≤◌, ◌-◌, [], min, true, false, drop, Some, length, IfOk, IfErr, OnOk};
ghost use Rattle.std.specs.List.{AllByRecursion};
ghost use Rattle.ror_text.specs.Lines.{line_of};
ghost use Rattle.ror_table.specs.Table.{IsTable};
ghost use Rattle.ror_report.specs.Text.{end_text};
ghost use Rattle.ror_report.specs.Reading.{header_at};
ghost use Rattle.ror_bench.specs.Bench.{revisions_at, HoldTheSame, LeavesNumbers};
ghost use Rattle.ror_bench.specs.Reports.{IsProvedReport, IsAcceptedReport, IsRejectedFor, IsRejectedFrom, RejectsNext, RejectsEnd, IfRejected, NamesADesk, HoldsNoMemory};
ghost use Rattle.ror_bench.specs.Kept.{IsProvedKeeping, IsAcceptedKeeping};
ghost use Rattle.ror_bench.specs.Steps.{IsEarlyEnd, IsLateBlock, IsNextBlock, misread_error, refused_block_error, rejected};

use crate::bench::{Bench, BlockFault, Passed};
use crate::kept::{Keep, KeptLine, keep_at, push_kept, standing_for};
use ror_check::{CheckFault, RepairCheckFault};
use ror_discriminate::OptimalFault;
use ror_proof::ProofFault;
use ror_ranks::ExtremeFault;
use ror_report::{Block, begins_end, read_block, read_end, read_header};
use ror_session::Line;
use ror_system::Reject;
use ror_table::Table;
use ror_text::lines::{is_utf8, line_number};
use std::alloc::{AllocError, Global};
use thiserror::Error;

/// How many bytes a report may have.
pub const MOST_REPORT_BYTES: usize = 268_435_456;

/// Why a report is refused.
#[derive(Debug, Drop)]
pub enum Reason {
    /// Longer than `MOST_REPORT_BYTES`.
    TooLong,
    NotUtf8,
    /// The report's line that is not as it is to be.
    BadLine(u32),
    /// The report's line in which a number is none.
    BadNumber(u32),
    /// Not the block of the session's next line, or none where one is due, or one too many.
    WrongBlock,
    /// An answer that is not accepted, counted from 1 in its block.
    Answer(u32, CheckFault),
    /// A repair that is not accepted.
    Repair(RepairCheckFault),
    /// The most discriminating function of a desk that is not accepted.
    Optimal(OptimalFault),
    /// The best or the worst rank of an alternative that is not accepted, counted from 1 in its block.
    Rank(u32, ExtremeFault),
    /// Multipliers of a contradictory desk that are not accepted.
    Contradiction(Reject),
    /// The bytes of a report as JSON are no JSON text.
    BadJson,
    /// They are one, and not that of a list of blocks.
    BadShape,
}

/// The first block at fault, from 1, and why; 0 where the fault is in no block.
#[derive(Debug, Drop)]
pub struct Rejection {
    pub block: u32,
    pub reason: Reason,
}

/// Why no report was accepted.
#[derive(Debug, Drop, Error)]
pub enum ReportError {
    #[error("rejected")]
    Rejected(Rejection),
    #[error("out of memory")]
    Memory,
}

impl From<AllocError> for ReportError {
    ghost use Rattle.ror_bench.specs.declared.report.ReportError.TheVariants.{Memory};

    ghost from_gives = { λ _ error. error ≡ Memory };

    fn from(_error: AllocError) -> ReportError {
        ReportError::Memory
    }
}

/// What an accepted report holds.
#[derive(Clone, Copy, Debug, PartialEq, Eq)]
pub struct Accepted {
    /// How many answers were accepted.
    pub answers: u64,
    /// How many answers and repairs are too wide, and were not looked at.
    pub wide: u64,
}

/// Checks a report against the session's lines, block by block, each over what the blocks before it left at its desk. The
/// report has at most `MOST_REPORT_BYTES`, and each desk of the bench a number for each line. What is accepted is the text
/// of a report that is proved but for its answers and repairs that are too wide. All other answers are true of all compatible
/// value functions, and all other repairs drop what the repair over these drops.
///
/// # Errors
///
/// `NotUtf8` and a bad first line, in block 0; then block by block its form, `WrongBlock`, and its first answer that is
/// not accepted, or its repair.
pub fn check_report(
    alloc: Global,
    bench: Bench,
    lines: &[Line],
    bytes: &[u8],
) -> Result<Accepted, ReportError>
    requires desks { AllByRecursion (NamesADesk (length bench.state)) lines.now }
    requires numbers { AllByRecursion (LeavesNumbers (length lines.now)) bench.state }
    requires length { length bytes.now ≤ MOST_REPORT_BYTES }
    ensures accepted { IfOk result (IsAcceptedReport bench lines.now bytes.now) }
    ensures rejected { IfErr result (IfRejected (IsRejectedFor bench lines.now bytes.now)) }
    ensures not_proved { IfErr result (λ e. e ≢ ReportError.Memory
        → (x : Accepted) → IsProvedReport bench lines.now bytes.now x → ⊥) }
    ensures pure { IfErr result HoldsNoMemory }
{
    let mut bench = bench;
    let (accepted, _none) = check_report_keeping(alloc, &mut bench, lines, bytes, &[])?;
    Ok(accepted)
}

/// Checks a report as `check_report` does, and keeps of each line what `keep` says at the line's place, from 0; nothing of those
/// past its end. It gives the lines of which something is kept, in order. The bench keeps its table; what its desks hold then is
/// not said.
///
/// # Errors
///
/// Those of `check_report`.
pub fn check_report_keeping(
    alloc: Global,
    bench: &mut Bench,
    lines: &[Line],
    bytes: &[u8],
    keep: &[Keep],
) -> Result<(Accepted, Vec<KeptLine>), ReportError>
    requires desks { AllByRecursion (NamesADesk (length bench.old.state)) lines.now }
    requires numbers { AllByRecursion (LeavesNumbers (length lines.now)) bench.old.state }
    requires length { length bytes.now ≤ MOST_REPORT_BYTES }
    ensures accepted { IfOk result (λ x. IsAcceptedKeeping bench.old lines.now bytes.now keep.now x.0 x.1.items) }
    ensures table { bench.new.table ≡ bench.old.table }
    ensures rejected { IfErr result (IfRejected (IsRejectedFor bench.old lines.now bytes.now)) }
    ensures not_proved { IfErr result (λ e. e ≢ ReportError.Memory
        → (x : Accepted) → IsProvedReport bench.old lines.now bytes.now x → ⊥) }
    ensures pure { IfErr result HoldsNoMemory }
{
    // What is read back is what was written only over a table, and each table has alternatives.
    prove!(bench.table().alternatives() > 0);
    if !is_utf8(bytes) {
        return Err(ReportError::Rejected(Rejection {
            block: 0,
            reason: Reason::NotUtf8,
        }));
    }
    let Some(start) = read_header(bytes) else {
        return Err(ReportError::Rejected(Rejection {
            block: 0,
            reason: Reason::BadLine(1),
        }));
    };
    check_blocks(alloc, bench, lines, bytes, keep, start)
}

/// Checks the blocks of a report, which begin at a place, and its last line, and keeps the chosen ones.
fn check_blocks(
    alloc: Global,
    bench: &mut Bench,
    lines: &[Line],
    bytes: &[u8],
    keep: &[Keep],
    start: usize,
) -> Result<(Accepted, Vec<KeptLine>), ReportError>
    requires desks { AllByRecursion (NamesADesk (length bench.old.state)) lines.now }
    requires numbers { AllByRecursion (LeavesNumbers (length lines.now)) bench.old.state }
    requires length { length bytes.now ≤ MOST_REPORT_BYTES }
    requires header { header_at bytes.now ≡ Some start }
    ensures accepted { IfOk result (λ x. IsProvedKeeping bench.old lines.now bytes.now keep.now x.0 x.1.items) }
    ensures table { bench.new.table ≡ bench.old.table }
    ensures rejected { IfErr result (IfRejected
        (λ rejection. IsRejectedFrom bench.old bytes.now rejection [] lines.now start)) }
    ensures pure { IfErr result HoldsNoMemory }
{
    // What is read back is what was written only over a table, and each table has alternatives.
    prove!(bench.table().alternatives() > 0);
    let mut next = start;
    let mut accepted = Accepted {
        answers: 0,
        wide: 0,
    };
    let mut kept = Vec::new(alloc);
    let mut block: u32 = 1;
    for line in lines {
        let place = block as usize - 1;
        let here = keep_at(keep, place);
        let standing = standing_for(bench, line.desk, here)?;
        let (found, passed, after) = check_next(alloc, bench, line, bytes, next, block)?;
        push_kept(&mut kept, place, here, standing, found)?;
        accepted.answers += passed.answers as u64;
        accepted.wide += passed.wide as u64;
        next = after;
        block += 1;
    }
    check_end(alloc, bench.table(), bytes, next, block)?;
    Ok((accepted, kept))
}

/// Reads the block that stands at a place and checks it for a line: the block, how many answers it has, and where it ends.
fn check_next(
    alloc: Global,
    bench: &mut Bench,
    line: &Line,
    bytes: &[u8],
    from: usize,
    block: u32,
) -> Result<(Block, Passed, usize), ReportError>
    requires table { IsTable bench.old.table }
    requires desk { NamesADesk (length bench.old.state) line.now }
    requires number { LeavesNumbers 1 (revisions_at bench.old line.now.desk) }
    requires within { from ≤ length bytes.now }
    requires length { length bytes.now ≤ MOST_REPORT_BYTES }
    ensures next { IfOk result
        (λ x. IsNextBlock bench.old bench.new line.now bytes.now from x.0 x.1 x.2) }
    ensures onward { IfOk result (λ x. from < x.2) }
    ensures within { IfOk result (λ x. x.2 ≤ length bytes.now) }
    ensures rejected { IfErr result (IfRejected (λ rejection. (rejection.block ≡ block)
        × RejectsNext bench.old.table (revisions_at bench.old line.now.desk) line.now bytes.now from
        rejection.reason)) }
    ensures pure { IfErr result HoldsNoMemory }
    ensures kept { IfErr result (λ _. HoldTheSame bench.new bench.old) }
{
    if begins_end(bytes, from) {
        return Err(early_end(bytes, from, block));
    }
    let (found, after) = match read_block(alloc, bench.table(), bytes, from) {
        Ok((found, after)) => (found, after),
        Err(fault) => return Err(misread(bytes, block, fault)),
    };
    let passed = match bench.check_line(line, &found) {
        Ok(passed) => passed,
        Err(fault) => return Err(refused_block(block, fault)),
    };
    Ok((found, passed, after))
}

/// Checks that the last line stands at a place, with the number of blocks before this one, and nothing after it.
fn check_end(
    alloc: Global,
    table: &Table,
    bytes: &[u8],
    from: usize,
    block: u32,
) -> Result<(), ReportError>
    requires within { from ≤ length bytes.now }
    requires length { length bytes.now ≤ MOST_REPORT_BYTES }
    requires block { 0 < block }
    ensures last { OnOk result (drop from bytes.now ≡ end_text (block - 1)) }
    ensures rejected { IfErr result (IfRejected (λ rejection. (rejection.block ≡ block)
        × RejectsEnd table.now bytes.now from (block - 1) rejection.reason)) }
    ensures pure { IfErr result HoldsNoMemory }
{
    if !begins_end(bytes, from) {
        return Err(late_block(alloc, table, bytes, from, block));
    }
    match read_end(bytes, from) {
        Ok(blocks) if blocks == block - 1 => Ok(()),
        Ok(_) => Err(wrong_block(block)),
        Err(fault) => Err(misread(bytes, block, fault)),
    }
}

/// Why a last line that stands where a block is due, or an entry, is refused: its own faults come first.
pub fn early_end(bytes: &[u8], from: usize, block: u32) -> ReportError
    requires within { from ≤ length bytes.now }
    requires length { length bytes.now ≤ MOST_REPORT_BYTES }
    ensures rejected { IfRejected (λ rejection. (rejection.block ≡ block)
        × IsEarlyEnd bytes.now from rejection.reason) result }
    ensures pure { HoldsNoMemory result }
{
    match read_end(bytes, from) {
        Ok(_) => wrong_block(block),
        Err(fault) => misread(bytes, block, fault),
    }
}

/// Why what stands where the last line is due is refused: the faults of a block come first.
fn late_block(alloc: Global, table: &Table, bytes: &[u8], from: usize, block: u32) -> ReportError
    requires within { from ≤ length bytes.now }
    requires length { length bytes.now ≤ MOST_REPORT_BYTES }
    ensures rejected { IfRejected (λ rejection. (rejection.block ≡ block)
        × IsLateBlock table.now bytes.now from rejection.reason) result }
    ensures pure { HoldsNoMemory result }
{
    match read_block(alloc, table, bytes, from) {
        Ok(_) => wrong_block(block),
        Err(fault) => misread(bytes, block, fault),
    }
}

/// The error of what isn't the block that is due, or the entry.
pub fn wrong_block(block: u32) -> ReportError
    ensures { result ≡ rejected block Reason.WrongBlock }
{
    ReportError::Rejected(Rejection {
        block,
        reason: Reason::WrongBlock,
    })
}

/// The error of a block that its line refuses, by the block's number, from 1.
pub fn refused_block(block: u32, fault: BlockFault) -> ReportError
    ensures { result ≡ refused_block_error block fault }
{
    let reason = match fault {
        BlockFault::WrongBlock => Reason::WrongBlock,
        BlockFault::Answer(answer, fault) => Reason::Answer(answer, fault),
        BlockFault::Repair(fault) => Reason::Repair(fault),
        BlockFault::Memory => return ReportError::Memory,
    };
    ReportError::Rejected(Rejection { block, reason })
}

/// The rejection of what is not as it is to be, by the number of its line, in this block of a report of at most
/// `MOST_REPORT_BYTES`; or that memory ran out.
pub fn misread(bytes: &[u8], block: u32, fault: ProofFault) -> ReportError
    requires { length bytes.now ≤ MOST_REPORT_BYTES }
    ensures { result ≡ misread_error bytes.now block fault }
{
    let reason = match fault {
        ProofFault::BadLine(place) => Reason::BadLine(line_at(bytes, place)),
        ProofFault::BadNumber(place) => Reason::BadNumber(line_at(bytes, place)),
        ProofFault::Memory => return ReportError::Memory,
    };
    ReportError::Rejected(Rejection { block, reason })
}

/// The number of the line of the byte at a place, or of the bytes' end.
fn line_at(bytes: &[u8], place: usize) -> u32
    requires { length bytes.now ≤ MOST_REPORT_BYTES }
    ensures { result ≡ line_of bytes.now (min place (length bytes.now)) }
{
    line_number(bytes, place.min(bytes.len()))
}
