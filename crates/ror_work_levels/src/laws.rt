//! Laws of reports of spans and of the sessions that have one, each the clause of a function that does nothing.

ghost use Rattle.ror_work_levels.specs.Laws.{WrittenAreProved, WrittenAreNotRejected, NothingIsTooWide, EntriesHaveOneReason, BytesHaveOneRejection, OneFirstUnfit};

/// What is written of spans is accepted by the check of it: it is proved, with the same counts, and rejected for nothing.
pub fn written_is_accepted()
    ensures proved { WrittenAreProved }
    ensures not_rejected { WrittenAreNotRejected }
{}

/// Where no question on a span has a number that is too wide, at any level, nothing of a report that is written is too wide.
pub fn nothing_is_too_wide()
    ensures { NothingIsTooWide }
{}

/// An entry is refused for one reason, and bytes are rejected for one thing.
pub fn one_rejection()
    ensures entries { EntriesHaveOneReason }
    ensures bytes { BytesHaveOneRejection }
{}

/// Lines are fit to be put on levels, or one number is that of the first unfit one.
pub fn one_first_unfit()
    ensures { OneFirstUnfit }
{}
