//! Laws of reports of most discriminating functions, each the clause of a function that does nothing.

ghost use Rattle.ror_work_discriminate.specs.Laws.{WrittenAreProved, WrittenAreNotRejected, NothingIsTooWide};

/// What is written of most discriminating functions is accepted by the check of it: it is proved, with the same counts, and rejected
/// for nothing.
pub fn written_is_accepted()
    ensures proved { WrittenAreProved }
    ensures not_rejected { WrittenAreNotRejected }
{}

/// Where no closing list has a number that is too wide, on neither path of its system, nothing of a report that is written is too
/// wide: each entry has a most discriminating function, or says that the list says nothing strictly or is contradictory.
pub fn nothing_is_too_wide()
    ensures { NothingIsTooWide }
{}
