//! The course that checks certificates: the four files are fetched in order, and the certificates are accepted or rejected.

ghost use Rattle.std.specs.Prelude.{◌≡◌, ◌≤◌, Some, length, IfOk, IfErr, IfSome};
ghost use Rattle.std.specs.List.{AllByRecursion};
ghost use Rattle.ror_value.specs.Over.{IsLawfulIn};
ghost use Rattle.ror_session.specs.Sound.{IsSound};
ghost use Rattle.ror_bench.specs.Reports.{IfRejected, HoldsNoMemory};
ghost use Rattle.ror_bench.specs.Steps.{rejected};
ghost use Rattle.ror_show_ground.specs.Ready.{IsReady};
ghost use Rattle.ror_show_words.specs.Named.{check_words_of};
ghost use Rattle.ror_frame.specs.States.{shelf_state, sink_state};
ghost use Rattle.ror_frame.specs.Courses.{IsFetch, ReadAs, IsWork};
ghost use Rattle.ror_frame.specs.Stops.{last};
ghost use Rattle.ror_show_check.specs.Checking.{ProvesOver, RejectsOver, ProvesCertificates, RefusesEither, stop_at_certificates, check_why_chore};

use crate::count::conclude;
use crate::fetch::fetch_text;
use ror_bench::{Bench, KeptLine, MOST_REPORT_BYTES, Reason, Rejection, ReportError};
use ror_frame::{Refusal, Stop, fetch_report, fetch_session, fetch_table};
use ror_io::{Shelf, Sink};
use ror_session::Session;
use ror_show_forms::{check_certificates as check_each, read_certificates};
use ror_show_pages::{Meant, keeps, kept_in};
use ror_show_words::{CheckWords, Form, Page};
use ror_table::Table;
use ror_text::Items;
use ror_words::FileNames;
use ror_xmcda::Input;
use std::alloc::Global;

/// Fetches table, session, certificates and report in order, and writes how many certificates are accepted. The report is judged
/// before the certificates are.
///
/// # Errors
///
/// The first file whose bytes are refused is, and what is at fault in it; or a fault of the outside. Where the report is proved, what is
/// at fault in the certificates comes as `Uncertified`, with the number of the certificate.
pub fn check_certificates<F: Shelf, O: Sink>(
    alloc: Global,
    words: &CheckWords<'_>,
    shelf: &mut F,
    out: &mut O,
) -> Result<bool, Stop>
    ensures { IsWork 0 (check_why_chore (check_words_of words.now)).files
        (check_why_chore (check_words_of words.now)).course
        (shelf_state (F.told shelf.old) (F.faults shelf.old) (F.fetch_count shelf.old))
        (shelf_state (F.told shelf.new) (F.faults shelf.new) (F.fetch_count shelf.new))
        (sink_state (O.written out.old) (O.faults out.old))
        (sink_state (O.written out.new) (O.faults out.new)) result }
{
    let files = FileNames {
        table: words.table,
        session: words.session,
        best_first: words.best_first,
    };
    let input = fetch_table(alloc, &files, shelf)?;
    let session = fetch_session(alloc, &files, shelf)?;
    let text = fetch_text(alloc, words.certificates, shelf)?;
    let count = fetch_count(alloc, words.report, shelf, input, &session, text)?;
    conclude(count, out)
}

/// Fetches and checks the report, and counts the certificates, where they are accepted.
fn fetch_count<F: Shelf>(
    alloc: Global,
    report: &str,
    shelf: &mut F,
    input: Input,
    session: &Session,
    text: Option<Items<u8>>,
) -> Result<usize, Stop>
    requires lawful { IsLawfulIn input.table input.opening }
    requires sound { IsSound session.now }
    requires within { IfSome text (λ bytes. length bytes ≤ MOST_REPORT_BYTES) }
    ensures { IsFetch report.now last (ProvesCertificates input session.now text) (RefusesEither input session.now text)
        (shelf_state (F.told shelf.old) (F.faults shelf.old) (F.fetch_count shelf.old))
        (shelf_state (F.told shelf.new) (F.faults shelf.new) (F.fetch_count shelf.new)) result }
{
    let bytes = fetch_report(alloc, report, shelf)?;
    count_in(alloc, input, session, text, bytes.as_slice())
}

/// Checks the bytes of a report, and counts the certificates, where they are accepted.
fn count_in(
    alloc: Global,
    input: Input,
    session: &Session,
    text: Option<Items<u8>>,
    bytes: &[u8],
) -> Result<usize, Stop>
    requires lawful { IsLawfulIn input.table input.opening }
    requires sound { IsSound session.now }
    requires text { IfSome text (λ bytes. length bytes ≤ MOST_REPORT_BYTES) }
    requires within { length bytes.now ≤ MOST_REPORT_BYTES }
    ensures { ReadAs last (ProvesCertificates input session.now text) (RefusesEither input session.now text) bytes.now result }
{
    let mut bench = Bench::new(alloc, input, session.desks.len() as u32)?;
    let meant = Meant {
        page: Page::Reasons,
        form: Form::Certificates,
        line: None,
        desk: None,
    };
    let keep = keeps(alloc, &meant, session)?;
    let kept = kept_in(alloc, &mut bench, session, bytes, keep.as_slice())?;
    match count_over(alloc, bench.table(), kept.as_slice(), text) {
        Ok(count) => Ok(count),
        Err(error) => Err(stop_at(error)),
    }
}

/// The stop of certificates that are rejected.
fn stop_at(error: ReportError) -> Stop
    ensures { result ≡ stop_at_certificates error }
{
    match error {
        ReportError::Rejected(rejection) => Stop::At(Refusal::Uncertified(rejection)),
        ReportError::Memory => Stop::Memory,
    }
}

/// Checks the certificates over kept lines, and counts them.
fn count_over(
    alloc: Global,
    table: &Table,
    kept: &[KeptLine],
    text: Option<Items<u8>>,
) -> Result<usize, ReportError>
    requires ready { AllByRecursion (IsReady table.now) kept.now }
    requires text { IfSome text (λ bytes. length bytes ≤ MOST_REPORT_BYTES) }
    ensures proved { IfOk result (ProvesOver table.now kept.now text) }
    ensures rejected { IfErr result (IfRejected (RejectsOver table.now kept.now text)) }
    ensures pure { IfErr result HoldsNoMemory }
{
    let Some(bytes) = text else {
        return Err(too_long());
    };
    count_of(alloc, table, kept, bytes.as_slice())
}

fn too_long() -> ReportError
    ensures { result ≡ rejected 0 Reason.TooLong }
{
    ReportError::Rejected(Rejection {
        block: 0,
        reason: Reason::TooLong,
    })
}

/// Reads certificates, checks them over kept lines, and counts them.
fn count_of(
    alloc: Global,
    table: &Table,
    kept: &[KeptLine],
    bytes: &[u8],
) -> Result<usize, ReportError>
    requires ready { AllByRecursion (IsReady table.now) kept.now }
    requires within { length bytes.now ≤ MOST_REPORT_BYTES }
    ensures proved { IfOk result (ProvesOver table.now kept.now (Some bytes.now)) }
    ensures rejected { IfErr result (IfRejected (RejectsOver table.now kept.now (Some bytes.now))) }
    ensures pure { IfErr result HoldsNoMemory }
{
    let certificates = read_certificates(alloc, table, bytes)?;
    check_each(alloc, table, kept, certificates.as_slice())?;
    Ok(certificates.len())
}
