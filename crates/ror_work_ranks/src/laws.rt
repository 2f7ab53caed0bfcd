//! Laws of reports of ranks, each the clause of a function that does nothing.

ghost use Rattle.ror_work_ranks.specs.Laws.{WrittenAreProved, WrittenAreNotRejected, NothingIsTooWide};

/// What is written of ranks is accepted by the check of it: it is proved, with the same counts, and rejected for nothing.
pub fn written_is_accepted()
    ensures proved { WrittenAreProved }
    ensures not_rejected { WrittenAreNotRejected }
{}

/// Where no system of a closing list has a number that is too wide, nothing of a report that is written is too wide: each alternative
/// has its best and its worst rank, or lies between two where a tree was cut short, or the list is contradictory.
pub fn nothing_is_too_wide()
    ensures { NothingIsTooWide }
{}
