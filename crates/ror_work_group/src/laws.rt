//! Laws of a group's report, each the clause of a function that does nothing.

ghost use Rattle.ror_work_group.specs.Laws.{WrittenAreProved, WrittenAreNotRejected, NothingIsTooWide, DoneSaysNothingWide, AcceptedSaysNothingWide};

/// What is written of a group is accepted by the check of it: it is proved, with the same counts, and rejected for nothing.
pub fn written_is_accepted()
    ensures proved { WrittenAreProved }
    ensures not_rejected { WrittenAreNotRejected }
{}

/// Where no question that is asked of a judge has a number that is too wide, no answer of a group's report that is written is too
/// wide, and no word of it.
pub fn nothing_is_too_wide()
    ensures { NothingIsTooWide }
{}

/// Where no answer of a group's report is too wide, no word of it is wide: of one that is written, and of one that is accepted.
pub fn nothing_wide_is_said()
    ensures written { DoneSaysNothingWide }
    ensures accepted { AcceptedSaysNothingWide }
{}
