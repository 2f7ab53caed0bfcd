//! The lines that a run writes. To write them takes no memory.

ghost use Rattle.std.specs.Prelude.{◌≡◌, ◌++◌};
ghost use Rattle.ror_table.specs.declared.fault.TableKind.TheVariants.{Unsupported};
ghost use Rattle.ror_frame.specs.Courses.{WritesDue};
ghost use Rattle.ror_frame.specs.Inputs.{accepted_output};
ghost use Rattle.ror_frame.specs.States.{sink_state};
ghost use Rattle.ror_frame.specs.Printing.{Prints};
ghost use Rattle.ror_frame.specs.Statuses.{kind_text, reject_text, fault_text, repair_fault_text, optimal_fault_text, extreme_fault_text, reason_text, certificate_reason_text, table_line, session_line, levels_line, rejection_line, uncertified_line, status_text, accepted_text};

use crate::status::Status;
use crate::stop::Stop;
use itoa::{Buffer, Integer};
use ror_bench::{Accepted, Reason, Rejection};
use ror_check::{CheckFault, RepairCheckFault};
use ror_confidence::LevelsFault;
use ror_discriminate::OptimalFault;
use ror_io::{Sink, SinkFault, write_all, write_pieces};
use ror_ranks::ExtremeFault;
use ror_session::SessionFault;
use ror_system::Reject;
use ror_table::{Kind, TableFault, TableKind, What};
use ror_words::usage;

/// Writes the line of the status; nothing where the work was done.
#[tactic(auto, unfolding(crate::specs::Statuses::status_text))]
pub fn write_status<S: Sink>(sink: &mut S, status: &Status) -> Result<(), SinkFault>
    ensures { Prints (S.faults sink.old) (S.faults sink.new)
        (S.written sink.old) (S.written sink.new) (status_text status.now) result }
{
    match status {
        Status::Done | Status::DoneWide => Ok(()),
        Status::Usage => write_text(sink, usage().as_bytes()),
        Status::BadTable(fault) => write_table_fault(sink, fault),
        Status::BadSession(fault) => write_session_fault(sink, fault),
        Status::Rejected(rejection) => write_rejection(sink, rejection),
        Status::Uncertified(rejection) => write_uncertified(sink, rejection),
        Status::ReadFault => write_text(sink, b"read fault\n"),
        Status::WriteFault => write_text(sink, b"write fault\n"),
        Status::Memory => write_text(sink, b"memory\n"),
        Status::Unsuited(line) => { write_numbered(sink, b"unsuited session: line ", *line, b"\n") }
        Status::BadLevels(fault) => write_levels_fault(sink, fault),
    }
}

/// Writes the line of an accepted report: how many answers were accepted, and how many answers and repairs are too wide.
#[tactic(auto, unfolding(crate::specs::Statuses::accepted_text))]
pub fn write_accepted<S: Sink>(sink: &mut S, accepted: Accepted) -> Result<(), SinkFault>
    ensures { Prints (S.faults sink.old) (S.faults sink.new)
        (S.written sink.old) (S.written sink.new) (accepted_text accepted) result }
{
    let mut answers = Buffer::new();
    let mut wide = Buffer::new();
    write_pieces(
        sink,
        &[
            b"accepted ",
            answers.format(accepted.answers).as_bytes(),
            b" wide ",
            wide.format(accepted.wide).as_bytes(),
            b"\n",
        ],
    )
}

/// Writes the line of an accepted report, and says whether anything is too wide.
///
/// # Errors
///
/// Only a write that failed.
pub fn conclude<O: Sink>(out: &mut O, accepted: Accepted) -> Result<bool, Stop>
    ensures { WritesDue (accepted_output accepted (Unit {0})) (sink_state (O.written out.old) (O.faults out.old))
        (sink_state (O.written out.new) (O.faults out.new)) result }
{
    write_accepted(out, accepted)?;
    Ok(accepted.wide > 0)
}

fn write_text<S: Sink>(sink: &mut S, text: &[u8]) -> Result<(), SinkFault>
    ensures { Prints (S.faults sink.old) (S.faults sink.new)
        (S.written sink.old) (S.written sink.new) text.now result }
{
    write_all(sink, text)
}

/// Writes two texts.
fn write_pair<S: Sink>(sink: &mut S, first: &[u8], second: &[u8]) -> Result<(), SinkFault>
    ensures { Prints (S.faults sink.old) (S.faults sink.new)
        (S.written sink.old) (S.written sink.new) (first.now ++ second.now) result }
{
    write_pieces(sink, &[first, second])
}

/// Writes a number after a text.
fn write_number<S: Sink, N: Integer>(
    sink: &mut S,
    before: &[u8],
    number: N,
) -> Result<(), SinkFault>
    ensures { Prints (S.faults sink.old) (S.faults sink.new)
        (S.written sink.old) (S.written sink.new) (before.now ++ N.text number) result }
{
    write_pair(sink, before, Buffer::new().format(number).as_bytes())
}

/// Writes a number between two texts.
fn write_numbered<S: Sink, N: Integer>(
    sink: &mut S,
    before: &[u8],
    number: N,
    after: &[u8],
) -> Result<(), SinkFault>
    ensures { Prints (S.faults sink.old) (S.faults sink.new)
        (S.written sink.old) (S.written sink.new)
        (before.now ++ N.text number ++ after.now) result }
{
    let mut digits = Buffer::new();
    write_pieces(sink, &[before, digits.format(number).as_bytes(), after])
}

fn write_table_fault<S: Sink>(sink: &mut S, fault: &TableFault) -> Result<(), SinkFault>
    ensures { Prints (S.faults sink.old) (S.faults sink.new)
        (S.written sink.old) (S.written sink.new) (table_line fault.now) result }
{
    write_named(
        sink,
        b"bad table: ",
        kind_name(fault.kind).as_bytes(),
        b" line ",
        fault.line,
        b"\n",
    )
}

/// Writes a name and a number, each between two texts.
fn write_named<'a, S: Sink, N: Integer>(
    sink: &mut S,
    before: &'a [u8],
    name: &'a [u8],
    between: &'a [u8],
    number: N,
    after: &'a [u8],
) -> Result<(), SinkFault>
    ensures { Prints (S.faults sink.old) (S.faults sink.new) (S.written sink.old) (S.written sink.new)
        (before.now ++ name.now ++ between.now ++ N.text number ++ after.now) result }
{
    let mut digits = Buffer::new();
    write_pieces(
        sink,
        &[
            before,
            name,
            between,
            digits.format(number).as_bytes(),
            after,
        ],
    )
}

fn kind_name(kind: TableKind) -> &'static str
    ensures { result.now ≡ kind_text kind }
{
    match kind {
        TableKind::Form => "Form",
        TableKind::NotUtf8 => "NotUtf8",
        TableKind::BadLine => "BadLine",
        TableKind::RepeatedId => "RepeatedId",
        TableKind::UnknownId => "UnknownId",
        TableKind::MissingPerformance => "MissingPerformance",
        TableKind::RepeatedPerformance => "RepeatedPerformance",
        TableKind::BadNumber => "BadNumber",
        TableKind::TooMany(What::Alternatives) => "TooMany Alternatives",
        TableKind::TooMany(What::Criteria) => "TooMany Criteria",
        TableKind::TooMany(What::Steps) => "TooMany Steps",
        TableKind::TooMany(What::Classes) => "TooMany Classes",
        TableKind::TooMany(What::Levels) => "TooMany Levels",
        TableKind::TooMany(What::Statements) => "TooMany Statements",
        TableKind::TooMany(What::Rows) => "TooMany Rows",
        TableKind::Empty => "Empty",
        TableKind::TooLong => "TooLong",
        TableKind::Unclosed => "Unclosed",
        TableKind::Mismatched => "Mismatched",
        TableKind::Unsupported(kind) => unsupported_name(kind),
        TableKind::WideScale => "WideScale",
    }
}

fn unsupported_name(kind: Kind) -> &'static str
    ensures { result.now ≡ kind_text (Unsupported kind) }
{
    match kind {
        Kind::Doctype => "Unsupported Doctype",
        Kind::Encoding => "Unsupported Encoding",
        Kind::Entity => "Unsupported Entity",
        Kind::Qualitative => "Unsupported Qualitative",
        Kind::Direction => "Unsupported Direction",
        Kind::Value => "Unsupported Value",
        Kind::Member => "Unsupported Member",
        Kind::Id => "Unsupported Id",
        Kind::Rank => "Unsupported Rank",
    }
}

fn write_session_fault<S: Sink>(sink: &mut S, fault: &SessionFault) -> Result<(), SinkFault>
    ensures { Prints (S.faults sink.old) (S.faults sink.new)
        (S.written sink.old) (S.written sink.new) (session_line fault.now) result }
{
    match fault {
        SessionFault::NotUtf8 => write_text(sink, b"bad session: NotUtf8\n"),
        SessionFault::BadLine(line) => write_numbered(
            sink,
            b"bad session: BadLine line ",
            *line,
            b"\n",
        ),
        SessionFault::TooManyLines => write_text(sink, b"bad session: TooManyLines\n"),
        SessionFault::TooLong => write_text(sink, b"bad session: TooLong\n"),
        SessionFault::TooManyDesks(line) => write_numbered(
            sink,
            b"bad session: TooManyDesks line ",
            *line,
            b"\n",
        ),
        SessionFault::Memory => write_text(sink, b"bad session: Memory\n"),
    }
}

fn write_levels_fault<S: Sink>(sink: &mut S, fault: &LevelsFault) -> Result<(), SinkFault>
    ensures { Prints (S.faults sink.old) (S.faults sink.new)
        (S.written sink.old) (S.written sink.new) (levels_line fault.now) result }
{
    match fault {
        LevelsFault::TooLong => write_text(sink, b"bad levels: TooLong\n"),
        LevelsFault::NotUtf8 => write_text(sink, b"bad levels: NotUtf8\n"),
        LevelsFault::BadLine(line) => {
            write_numbered(sink, b"bad levels: BadLine line ", *line, b"\n")
        }
        LevelsFault::Repeated(line) => {
            write_numbered(sink, b"bad levels: Repeated line ", *line, b"\n")
        }
        LevelsFault::UnknownStatement(line) => write_numbered(
            sink,
            b"bad levels: UnknownStatement line ",
            *line,
            b"\n",
        ),
        LevelsFault::Memory => write_text(sink, b"bad levels: Memory\n"),
    }
}

fn write_rejection<S: Sink>(sink: &mut S, rejection: &Rejection) -> Result<(), SinkFault>
    ensures { Prints (S.faults sink.old) (S.faults sink.new)
        (S.written sink.old) (S.written sink.new) (rejection_line rejection.now) result }
{
    write_numbered(sink, b"rejected: block ", rejection.block, b" ")?;
    write_reason(sink, &rejection.reason)?;
    write_text(sink, b"\n")
}

fn write_uncertified<S: Sink>(sink: &mut S, rejection: &Rejection) -> Result<(), SinkFault>
    ensures { Prints (S.faults sink.old) (S.faults sink.new)
        (S.written sink.old) (S.written sink.new) (uncertified_line rejection.now) result }
{
    write_numbered(sink, b"rejected: certificate ", rejection.block, b" ")?;
    write_certificate_reason(sink, &rejection.reason)?;
    write_text(sink, b"\n")
}

fn write_certificate_reason<S: Sink>(sink: &mut S, reason: &Reason) -> Result<(), SinkFault>
    ensures { Prints (S.faults sink.old) (S.faults sink.new)
        (S.written sink.old) (S.written sink.new) (certificate_reason_text reason.now) result }
{
    match reason {
        Reason::WrongBlock => write_text(sink, b"WrongCertificate"),
        _ => write_reason(sink, reason),
    }
}

fn write_reason<S: Sink>(sink: &mut S, reason: &Reason) -> Result<(), SinkFault>
    ensures { Prints (S.faults sink.old) (S.faults sink.new)
        (S.written sink.old) (S.written sink.new) (reason_text reason.now) result }
{
    match reason {
        Reason::TooLong => write_text(sink, b"TooLong"),
        Reason::NotUtf8 => write_text(sink, b"NotUtf8"),
        Reason::BadLine(line) => write_number(sink, b"BadLine ", *line),
        Reason::BadNumber(line) => write_number(sink, b"BadNumber ", *line),
        Reason::WrongBlock => write_text(sink, b"WrongBlock"),
        Reason::Answer(answer, fault) => {
            write_numbered(sink, b"answer ", *answer, b" ")?;
            write_check_fault(sink, fault)
        }
        Reason::Repair(fault) => {
            write_text(sink, b"repair ")?;
            write_repair_fault(sink, fault)
        }
        Reason::Optimal(fault) => {
            write_text(sink, b"optimal ")?;
            write_optimal_fault(sink, fault)
        }
        Reason::Rank(rank, fault) => {
            write_numbered(sink, b"rank ", *rank, b" ")?;
            write_extreme_fault(sink, fault)
        }
        Reason::Contradiction(reject) => write_reject(sink, b"contradiction ", b"", b"", reject),
        Reason::BadJson => write_text(sink, b"BadJson"),
        Reason::BadShape => write_text(sink, b"BadShape"),
    }
}

fn write_check_fault<S: Sink>(sink: &mut S, fault: &CheckFault) -> Result<(), SinkFault>
    ensures { Prints (S.faults sink.old) (S.faults sink.new)
        (S.written sink.old) (S.written sink.new) (fault_text fault.now) result }
{
    match fault {
        CheckFault::WrongQuestion => write_text(sink, b"WrongQuestion"),
        CheckFault::WrongVerdict => write_text(sink, b"WrongVerdict"),
        CheckFault::PartCount => write_text(sink, b"PartCount"),
        CheckFault::Base(reject) => write_reject(sink, b"base ", b"", b"", reject),
        CheckFault::Part(part, reject) => {
            let mut digits = Buffer::new();
            write_reject(
                sink,
                b"part ",
                digits.format(*part).as_bytes(),
                b" ",
                reject,
            )
        }
        CheckFault::Memory => write_text(sink, b"Memory"),
    }
}

fn write_repair_fault<S: Sink>(sink: &mut S, fault: &RepairCheckFault) -> Result<(), SinkFault>
    ensures { Prints (S.faults sink.old) (S.faults sink.new)
        (S.written sink.old) (S.written sink.new) (repair_fault_text fault.now) result }
{
    match fault {
        RepairCheckFault::WrongList => write_text(sink, b"WrongList"),
        RepairCheckFault::WrongKind => write_text(sink, b"WrongKind"),
        RepairCheckFault::Dropped(number, reject) => {
            let mut digits = Buffer::new();
            write_reject(
                sink,
                b"dropped ",
                digits.format(*number).as_bytes(),
                b" ",
                reject,
            )
        }
        RepairCheckFault::Base(reject) => write_reject(sink, b"base ", b"", b"", reject),
        RepairCheckFault::Memory => write_text(sink, b"Memory"),
    }
}

fn write_optimal_fault<S: Sink>(sink: &mut S, fault: &OptimalFault) -> Result<(), SinkFault>
    ensures { Prints (S.faults sink.old) (S.faults sink.new)
        (S.written sink.old) (S.written sink.new) (optimal_fault_text fault.now) result }
{
    match fault {
        OptimalFault::NoStrictRow => write_text(sink, b"NoStrictRow"),
        OptimalFault::Solution(reject) => write_reject(sink, b"Solution ", b"", b"", reject),
        OptimalFault::Total => write_text(sink, b"Total"),
        OptimalFault::Length => write_text(sink, b"Length"),
        OptimalFault::Negative(place) => write_number(sink, b"Negative ", *place),
        OptimalFault::OnesRow => write_text(sink, b"OnesRow"),
        OptimalFault::NoStrict => write_text(sink, b"NoStrict"),
        OptimalFault::ScaleWide(column) => write_number(sink, b"ScaleWide ", *column),
        OptimalFault::ColumnWide(column) => write_number(sink, b"ColumnWide ", *column),
        OptimalFault::Column(column) => write_number(sink, b"Column ", *column),
        OptimalFault::Memory => write_text(sink, b"Memory"),
    }
}

fn write_extreme_fault<S: Sink>(sink: &mut S, fault: &ExtremeFault) -> Result<(), SinkFault>
    ensures { Prints (S.faults sink.old) (S.faults sink.new)
        (S.written sink.old) (S.written sink.new) (extreme_fault_text fault.now) result }
{
    match fault {
        ExtremeFault::Ends => write_text(sink, b"Ends"),
        ExtremeFault::Except => write_text(sink, b"Except"),
        ExtremeFault::Function(reject) => write_reject(sink, b"function ", b"", b"", reject),
        ExtremeFault::Members(place) => write_number(sink, b"Members ", *place),
        ExtremeFault::Conflict(place, reject) => {
            let mut digits = Buffer::new();
            write_reject(
                sink,
                b"conflict ",
                digits.format(*place).as_bytes(),
                b" ",
                reject,
            )
        }
        ExtremeFault::Node(place) => write_number(sink, b"Node ", *place),
        ExtremeFault::Unfinished => write_text(sink, b"Unfinished"),
        ExtremeFault::Memory => write_text(sink, b"Memory"),
    }
}

/// Writes why a certificate is refused, after three texts.
fn write_reject<'a, S: Sink>(
    sink: &mut S,
    front: &'a [u8],
    number: &'a [u8],
    back: &'a [u8],
    reject: &Reject,
) -> Result<(), SinkFault>
    ensures { Prints (S.faults sink.old) (S.faults sink.new) (S.written sink.old) (S.written sink.new)
        (front.now ++ number.now ++ back.now ++ reject_text reject.now) result }
{
    match reject {
        Reject::Length => write_pieces(sink, &[front, number, back, b"Length"]),
        Reject::Negative(k) => write_placed(sink, front, number, back, b"Negative ", *k),
        Reject::Total => write_pieces(sink, &[front, number, back, b"Total"]),
        Reject::RowWide(k) => write_placed(sink, front, number, back, b"RowWide ", *k),
        Reject::Row(k) => write_placed(sink, front, number, back, b"Row ", *k),
        Reject::NoStrict => write_pieces(sink, &[front, number, back, b"NoStrict"]),
        Reject::ColumnWide(k) => write_placed(sink, front, number, back, b"ColumnWide ", *k),
        Reject::Column(k) => write_placed(sink, front, number, back, b"Column ", *k),
    }
}

/// Writes a place after four texts.
fn write_placed<'a, S: Sink, N: Integer>(
    sink: &mut S,
    front: &'a [u8],
    number: &'a [u8],
    back: &'a [u8],
    name: &'a [u8],
    place: N,
) -> Result<(), SinkFault>
    ensures { Prints (S.faults sink.old) (S.faults sink.new) (S.written sink.old) (S.written sink.new)
        (front.now ++ number.now ++ back.now ++ (name.now ++ N.text place)) result }
{
    let mut digits = Buffer::new();
    write_pieces(
        sink,
        &[front, number, back, name, digits.format(place).as_bytes()],
    )
}
