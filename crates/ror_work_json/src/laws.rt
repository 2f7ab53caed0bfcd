//! Laws of reports as JSON, each the clause of a function that does nothing.

ghost use Rattle.ror_work_json.specs.Laws.{WrittenJsonIsProved, WrittenJsonIsNotRejected, ReportsHaveJson, ProvedJsonIsTrue, RejectedJsonIsNotProved, OneJsonRejection, OneJsonCount};

/// What a replay writes is accepted by a check of it: it is proved, with the same counts, and rejected for nothing. So is the
/// JSON of the blocks of a proved report that stands as text.
pub fn written_is_accepted()
    ensures proved { WrittenJsonIsProved }
    ensures not_rejected { WrittenJsonIsNotRejected }
    ensures of_report { ReportsHaveJson }
{}

/// Where each desk begins with lawful statements, the blocks of a proved report are true.
pub fn proved_is_true()
    ensures { ProvedJsonIsTrue }
{}

/// Bytes that are rejected are no JSON of a proved report, and are rejected for one thing. A proved report has one count.
pub fn one_outcome()
    ensures not_proved { RejectedJsonIsNotProved }
    ensures rejection { OneJsonRejection }
    ensures count { OneJsonCount }
{}
