//! The check of the blocks of a report as JSON, each over what those before it left at its desk.

ghost use Rattle.std.specs.Prelude.{◌≡◌, ◌≢◌, ◌<◌, ◌≤◌, [], length, IfOk, IfErr, OnOk};
ghost use Rattle.std.specs.List.{AllByRecursion};
ghost use Rattle.ror_text.specs.FirstFault.{IsFirst};
ghost use Rattle.ror_table.specs.Table.{DecisionTable, IsTable};
ghost use Rattle.ror_session.specs.declared.limits.TheConstants.{MOST_LINES};
ghost use Rattle.ror_bench.specs.Bench.{revisions_at, HoldTheSame, LeavesNumbers};
ghost use Rattle.ror_bench.specs.Blocks.{IsProvedBlock, passed_of, with_block};
ghost use Rattle.ror_bench.specs.Faults.{FailsBlock, IsEarlierBlockFault};
ghost use Rattle.ror_bench.specs.Reports.{NamesADesk, IfRejected, HoldsNoMemory};
ghost use Rattle.ror_bench.specs.Steps.{rejected, refused_block_error};
ghost use Rattle.ror_json.specs.Texts.{IsJsonReport};
ghost use Rattle.ror_work_json.specs.Json.{IsProvedJson, IsRejectedJson, IsRejectedAmong};
ghost use Rattle.ror_work_json.specs.Steps.{AreProvedBlocks, RefusesText, RefusesBlock};

use ror_bench::{
    Accepted, Bench, MOST_REPORT_BYTES, Passed, Reason, Rejection, ReportError, refused_block,
};
use ror_json::{TextFault, from_text};
use ror_report::Block;
use ror_session::Line;
use ror_table::Table;
use std::alloc::Global;

/// Checks the bytes of a report as JSON against the session's lines. They are at most `MOST_REPORT_BYTES`, and each desk of the
/// bench has a number for each line. What is accepted is JSON of a report that is proved but for its answers and repairs that
/// are too wide.
///
/// # Errors
///
/// `BadJson`, and then the first bad shape; then block by block `WrongBlock`, and its first answer that is not accepted, or its
/// repair.
pub(crate) fn check_text(
    alloc: Global,
    bench: Bench,
    lines: &[Line],
    bytes: &[u8],
) -> Result<Accepted, ReportError>
    requires desks { AllByRecursion (NamesADesk (length bench.state)) lines.now }
    requires numbers { AllByRecursion (LeavesNumbers (length lines.now)) bench.state }
    requires few { length lines.now ≤ MOST_LINES }
    requires length { length bytes.now ≤ MOST_REPORT_BYTES }
    ensures accepted { IfOk result (IsProvedJson bench lines.now bytes.now) }
    ensures rejected { IfErr result (IfRejected (IsRejectedJson bench lines.now bytes.now)) }
    ensures pure { IfErr result HoldsNoMemory }
{
    // A form is that of one list of blocks only over a table, and each table has alternatives.
    prove!(bench.table().alternatives() > 0);
    let blocks = blocks_in(alloc, bench.table(), bytes)?;
    let mut bench = bench;
    check_blocks(&mut bench, lines, blocks.as_slice())
}

/// The blocks of the report whose JSON these bytes are.
fn blocks_in(alloc: Global, table: &Table, bytes: &[u8]) -> Result<Vec<Block>, ReportError>
    requires table { IsTable table.now }
    requires length { length bytes.now ≤ MOST_REPORT_BYTES }
    ensures read { IfOk result (λ blocks. IsJsonReport table.now bytes.now blocks.items) }
    ensures rejected { IfErr result (IfRejected (RefusesText table.now bytes.now)) }
    ensures pure { IfErr result HoldsNoMemory }
{
    match from_text(alloc, table, bytes) {
        Ok(blocks) => Ok(blocks),
        Err(TextFault::BadJson) => Err(rejected(0, Reason::BadJson)),
        Err(TextFault::BadShape(block)) => Err(rejected(block, Reason::BadShape)),
        Err(TextFault::Memory) => Err(ReportError::Memory),
    }
}

/// Checks that there is a block for each line, in order, that is the one of its line but for what is too wide, and counts the
/// answers.
fn check_blocks(
    bench: &mut Bench,
    lines: &[Line],
    blocks: &[Block],
) -> Result<Accepted, ReportError>
    requires desks { AllByRecursion (NamesADesk (length bench.old.state)) lines.now }
    requires numbers { AllByRecursion (LeavesNumbers (length lines.now)) bench.old.state }
    requires few { length lines.now ≤ MOST_LINES }
    ensures accepted { IfOk result (AreProvedBlocks bench.old lines.now blocks.now) }
    ensures rejected { IfErr result (IfRejected
        (λ rejection. IsRejectedAmong bench.old rejection [] lines.now blocks.now)) }
    ensures pure { IfErr result HoldsNoMemory }
{
    let mut accepted = Accepted {
        answers: 0,
        wide: 0,
    };
    let mut block: u32 = 0;
    for line in lines {
        let Some(found) = blocks.get(block as usize) else {
            return Err(rejected(block + 1, Reason::WrongBlock));
        };
        let passed = check_block(bench, line, found, block + 1)?;
        accepted.answers += passed.answers as u64;
        accepted.wide += passed.wide as u64;
        block += 1;
    }
    if blocks.len() > lines.len() {
        return Err(rejected(block + 1, Reason::WrongBlock));
    }
    Ok(accepted)
}

/// Checks the block of this number for a line, and counts its answers.
fn check_block(
    bench: &mut Bench,
    line: &Line,
    found: &Block,
    block: u32,
) -> Result<Passed, ReportError>
    requires desk { NamesADesk (length bench.old.state) line.now }
    requires number { LeavesNumbers 1 (revisions_at bench.old line.now.desk) }
    ensures accepted { OnOk result (IsProvedBlock bench.old.table
        (revisions_at bench.old line.now.desk) line.now found.now) }
    ensures counted { IfOk result (λ passed. passed ≡ passed_of found.now.body) }
    ensures moved { OnOk result (HoldTheSame bench.new (with_block bench.old line.now found.now)) }
    ensures rejected { IfErr result (IfRejected (λ rejection. (rejection.block ≡ block)
        × RefusesBlock bench.old.table (revisions_at bench.old line.now.desk) line.now found.now
        rejection.reason)) }
    ensures pure { IfErr result HoldsNoMemory }
    ensures kept { IfErr result (λ _. HoldTheSame bench.new bench.old) }
{
    match bench.check_line(line, found) {
        Ok(passed) => Ok(passed),
        Err(fault) => Err(refused_block(block, fault)),
    }
}

fn rejected(block: u32, reason: Reason) -> ReportError
    ensures { result ≡ rejected block reason }
{
    ReportError::Rejected(Rejection { block, reason })
}
