//! What helps where a run came to no page, by its status and the file that it fetched last.

ghost use Rattle.std.specs.Prelude.{IfOk};
ghost use Rattle.ror_show_advice.specs.Apart.{StandsApart};

use ror_bench::{Reason, Rejection};
use ror_frame::Status;
use ror_show_advice::{
    ReportFault, missing_advice, report_advice, session_advice, table_advice, usage_advice,
};
use ror_show_hints::File;
use ror_show_import::{told_of, told_of_long};
use ror_show_words::{Asked, ImportWords, PageWords, read_words, usage};
use ror_table::TableKind;
use std::alloc::{AllocError, Global};

/// The names of the files that words ask for, in the order in which they are fetched; empty ones behind the last.
#[derive(Clone, Copy)]
struct Names<'a> {
    table: &'a str,
    session: &'a str,
    third: &'a str,
    fourth: &'a str,
}

/// What helps, by the bytes of the file that was fetched last; nothing where nothing does, or where memory is wanting. It stands apart
/// from the line before it.
pub(crate) fn help_on(
    alloc: Global,
    words: &[String],
    status: &Status,
    kept: Option<&[u8]>,
    fetches: usize,
) -> Vec<u8>
    ensures { StandsApart result.items }
{
    match advice_for(alloc, words, status, kept, fetches) {
        Ok(text) => text,
        Err(_) => Vec::new(alloc),
    }
}

/// What helps, by the words.
fn advice_for(
    alloc: Global,
    words: &[String],
    status: &Status,
    kept: Option<&[u8]>,
    fetches: usize,
) -> Result<Vec<u8>, AllocError>
    ensures { IfOk result (λ text. StandsApart text.items) }
{
    match read_words(alloc, words) {
        Ok(Asked::OfSpreadsheet(words)) => import_advice(alloc, &words, status, kept),
        Ok(asked) => advice_on(alloc, &names_of(&asked), status, kept, fetches),
        Err(_) => usage_advice(alloc, usage(), words),
    }
}

/// What is told of a spreadsheet that was fetched.
fn import_advice(
    alloc: Global,
    words: &ImportWords<'_>,
    status: &Status,
    kept: Option<&[u8]>,
) -> Result<Vec<u8>, AllocError>
    ensures { IfOk result (λ text. StandsApart text.items) }
{
    match status {
        Status::ReadFault => missing_advice(alloc, words.file),
        Status::BadTable(fault) if fault.kind == TableKind::TooLong => told_of_long(alloc),
        _ => told_of_kept(alloc, words, kept),
    }
}

fn told_of_kept(
    alloc: Global,
    words: &ImportWords<'_>,
    kept: Option<&[u8]>,
) -> Result<Vec<u8>, AllocError>
    ensures { IfOk result (λ text. StandsApart text.items) }
{
    match kept {
        Some(bytes) => told_of(alloc, bytes, words),
        None => Ok(Vec::new(alloc)),
    }
}

fn names_of<'a>(asked: &Asked<'a>) -> Names<'a> {
    match asked {
        Asked::OfReport(_, words) | Asked::OfGroup(words) => names_in(words),
        Asked::OfCheck(words) => Names {
            table: words.table,
            session: words.session,
            third: words.certificates,
            fourth: words.report,
        },
        Asked::OfFiles(words) => Names {
            table: words.table,
            session: words.session.unwrap_or(""),
            third: "",
            fourth: "",
        },
        Asked::OfSpreadsheet(words) => Names {
            table: words.file,
            session: "",
            third: "",
            fourth: "",
        },
    }
}

fn names_in<'a>(words: &PageWords<'a>) -> Names<'a> {
    Names {
        table: words.table,
        session: words.session,
        third: words.report,
        fourth: "",
    }
}

/// What helps where the words name files.
fn advice_on(
    alloc: Global,
    names: &Names<'_>,
    status: &Status,
    kept: Option<&[u8]>,
    fetches: usize,
) -> Result<Vec<u8>, AllocError>
    ensures { IfOk result (λ text. StandsApart text.items) }
{
    let name = name_at(names, fetches);
    if matches!(status, Status::ReadFault) {
        return missing_advice(alloc, name);
    }
    match kept {
        Some(bytes) => file_advice(alloc, File { name, bytes }, status),
        None => Ok(Vec::new(alloc)),
    }
}

/// The name of the file that was fetched last.
fn name_at<'a>(names: &Names<'a>, fetches: usize) -> &'a str {
    match fetches {
        0 | 1 => names.table,
        2 => names.session,
        3 => names.third,
        _ => names.fourth,
    }
}

/// What helps against the file that was fetched last, where that is the one at fault. Of certificates the line of the status has the
/// place, and there is nothing likely to say.
fn file_advice(alloc: Global, file: File<'_>, status: &Status) -> Result<Vec<u8>, AllocError>
    ensures { IfOk result (λ text. StandsApart text.items) }
{
    match status {
        Status::BadTable(fault) => table_advice(alloc, file, *fault),
        Status::BadSession(fault) => session_advice(alloc, file, fault),
        Status::Rejected(rejection) => report_advice(alloc, file, fault_of(rejection)),
        _ => Ok(Vec::new(alloc)),
    }
}

/// What is at fault in a report, as the advice takes it.
fn fault_of(rejection: &Rejection) -> ReportFault {
    match rejection.reason {
        Reason::NotUtf8 => ReportFault::NotUtf8,
        Reason::TooLong => ReportFault::TooLong,
        Reason::BadLine(line) | Reason::BadNumber(line) => ReportFault::Line(line),
        _ => ReportFault::Block,
    }
}
