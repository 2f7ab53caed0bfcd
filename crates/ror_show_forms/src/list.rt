//! The reader of a text of certificates.

ghost use Rattle.std.specs.Prelude.{◌≡◌, ◌≤◌, ◌<◌, [], ◌∷◌, ◌++◌, suc, None, length, IfErr, IfOk, OnOk};
ghost use Rattle.ror_text.specs.Reading.{Gives};
ghost use Rattle.ror_text.specs.Cursor.{cursor_at};
ghost use Rattle.ror_bench.specs.Reports.{HoldsNoMemory};
ghost use Rattle.ror_bench.specs.Steps as steps;
ghost use Rattle.ror_report.specs.Reading.{end_at};
ghost use Rattle.ror_show_forms.specs.Reading.{certificate_at};
ghost use Rattle.ror_show_forms.specs.Listing as spec;
ghost use Rattle.ror_show_forms.specs.Listing.{rejection_of};

use crate::certificate::Certificate;
use crate::head::header;
use crate::read::read_certificate;
use ror_bench::{MOST_REPORT_BYTES, Reason, Rejection, ReportError, misread};
use ror_report::{begins_end, read_end};
use ror_table::Table;
use ror_text::lines::is_utf8;
use ror_text::reading::refuse_if;
use std::alloc::{AllocError, Global};

/// Reads a text of certificates, of at most `MOST_REPORT_BYTES`: the certificates, in order.
///
/// # Errors
///
/// `NotUtf8` and a bad first line, in block 0. Then, certificate by certificate, counted from 1 as blocks: its form, and `WrongBlock`
/// where its answer doesn't stand behind that of the one before. Then the form of the last line, and `WrongBlock` for another number.
#[tactic(auto, unfolding(crate::specs::Listing::certificates_of))]
pub fn read_certificates(
    alloc: Global,
    table: &Table,
    bytes: &[u8],
) -> Result<Vec<Certificate>, ReportError>
    requires length { length bytes.now ≤ MOST_REPORT_BYTES }
    ensures exact { Gives (λ xs. xs.items) rejection_of result
        (spec.certificates_of table.now bytes.now) }
    ensures pure { IfErr result HoldsNoMemory }
    ensures few { IfOk result (λ xs. length xs.items ≤ length bytes.now) }
{
    refuse_if(!is_utf8(bytes), rejected(0, Reason::NotUtf8))?;
    refuse_if(
        !bytes.starts_with(header()),
        rejected(0, Reason::BadLine(1)),
    )?;
    listed(alloc, table, bytes, header().len())
}

/// The certificates whose text begins at a place, and the last line behind them.
fn listed(
    alloc: Global,
    table: &Table,
    bytes: &[u8],
    start: usize,
) -> Result<Vec<Certificate>, ReportError>
    requires within { start ≤ length bytes.now }
    requires length { length bytes.now ≤ MOST_REPORT_BYTES }
    ensures exact { Gives (λ xs. xs.items) rejection_of result
        (spec.listed_at table.now bytes.now (suc (length bytes.now)) 1 None (cursor_at bytes.now start)) }
    ensures pure { IfErr result HoldsNoMemory }
    ensures few { IfOk result (λ xs. length xs.items ≤ length bytes.now) }
{
    let mut certificates = Vec::new(alloc);
    let mut last: Option<(u32, u32)> = None;
    let mut next = start;
    'certificates: while !begins_end(bytes, next) {
        let block = certificates.len() as u32 + 1;
        let (found, after) = next_certificate(alloc, table, bytes, next, block, last)?;
        last = Some((found.line, found.place));
        push(&mut certificates, found)?;
        next = after;
    }
    check_last(bytes, next, certificates.len() as u32 + 1)?;
    Ok(certificates)
}

fn push(certificates: &mut Vec<Certificate>, found: Certificate) -> Result<(), AllocError>
    ensures { OnOk result (certificates.new.items ≡ certificates.old.items ++ found ∷ []) }
{
    certificates.push(found)?;
    Ok(())
}

/// The certificate of this block, whose answer stands behind the last one.
#[tactic(auto, unfolding(crate::specs::Listing::next_at))]
fn next_certificate(
    alloc: Global,
    table: &Table,
    bytes: &[u8],
    from: usize,
    block: u32,
    last: Option<(u32, u32)>,
) -> Result<(Certificate, usize), ReportError>
    requires within { from ≤ length bytes.now }
    requires length { length bytes.now ≤ MOST_REPORT_BYTES }
    ensures exact { Gives (λ x. (x.0, cursor_at bytes.now x.1)) rejection_of result
        (spec.next_at table.now bytes.now block last (cursor_at bytes.now from)) }
    ensures onward { IfOk result (λ x. from < x.1) }
    ensures within { IfOk result (λ x. x.1 ≤ length bytes.now) }
    ensures pure { IfErr result HoldsNoMemory }
{
    let (found, after) = certificate_in(alloc, table, bytes, from, block)?;
    let is_next = comes_after(last, found.line, found.place);
    refuse_if(!is_next, rejected(block, Reason::WrongBlock))?;
    Ok((found, after))
}

/// The certificate of this block.
fn certificate_in(
    alloc: Global,
    table: &Table,
    bytes: &[u8],
    from: usize,
    block: u32,
) -> Result<(Certificate, usize), ReportError>
    requires within { from ≤ length bytes.now }
    requires length { length bytes.now ≤ MOST_REPORT_BYTES }
    ensures exact { Gives (λ x. (x.0, cursor_at bytes.now x.1)) rejection_of result
        (spec.in_block bytes.now block (certificate_at table.now (cursor_at bytes.now from))) }
    ensures onward { IfOk result (λ x. from < x.1) }
    ensures within { IfOk result (λ x. x.1 ≤ length bytes.now) }
    ensures pure { IfErr result HoldsNoMemory }
{
    match read_certificate(alloc, table, bytes, from) {
        Ok(found) => Ok(found),
        Err(fault) => Err(misread(bytes, block, fault)),
    }
}

/// Whether an answer stands behind the last one.
fn comes_after(last: Option<(u32, u32)>, line: u32, place: u32) -> bool
    ensures { result ≡ spec.comes_after last line place }
{
    match last {
        Some((before, at)) => before < line || (before == line && at < place),
        None => true,
    }
}

/// Checks the last line, where this block is due.
#[tactic(auto, unfolding(crate::specs::Listing::last_at))]
fn check_last(bytes: &[u8], from: usize, block: u32) -> Result<(), ReportError>
    requires within { from ≤ length bytes.now }
    requires length { length bytes.now ≤ MOST_REPORT_BYTES }
    requires block { 0 < block }
    ensures exact { Gives (λ _. tt) rejection_of result
        (spec.last_at bytes.now block (cursor_at bytes.now from)) }
    ensures pure { IfErr result HoldsNoMemory }
{
    let count = count_in(bytes, from, block)?;
    refuse_if(count != block - 1, rejected(block, Reason::WrongBlock))
}

/// The number in the last line, where this block is due.
fn count_in(bytes: &[u8], from: usize, block: u32) -> Result<u32, ReportError>
    requires within { from ≤ length bytes.now }
    requires length { length bytes.now ≤ MOST_REPORT_BYTES }
    ensures exact { Gives (λ n. n) rejection_of result
        (spec.in_block bytes.now block (end_at (cursor_at bytes.now from))) }
    ensures pure { IfErr result HoldsNoMemory }
{
    match read_end(bytes, from) {
        Ok(count) => Ok(count),
        Err(fault) => Err(misread(bytes, block, fault)),
    }
}

fn rejected(block: u32, reason: Reason) -> ReportError
    ensures { result ≡ steps.rejected block reason }
{
    ReportError::Rejected(Rejection { block, reason })
}
