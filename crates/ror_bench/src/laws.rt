//! Each function here states one law, for all benches, lines, blocks and reports, and does nothing.

ghost use Rattle.ror_bench.specs.Laws.{ProvedBlocksAreTrue, ProvedReportsAreTrue, RejectedIsNotProved, ReplayedIsProved, GivenAreProved, NoBlockOfAnother, NoReportOfAnother, OneCount, OneRejection, LimitsAre, GeneratedIsLawful, HiddenValueMeets};
ghost use Rattle.ror_bench.specs.Desks.{DesksStandApart, ProvedDeskByDesk, GivenDeskByDesk, DesksAgree, NarrowConcludes, NarrowRepairs, NarrowDesksAgree};

/// The answers of a proved block are true of all value functions that are compatible with what stands at its desk, and what its
/// repair drops is what a repair of that drops.
pub fn proved_blocks_are_true()
    ensures { ProvedBlocksAreTrue }
{}

/// The answers and repairs of a proved report are true, each of what stands at its line's desk when its turn comes.
pub fn proved_reports_are_true()
    ensures { ProvedReportsAreTrue }
{}

/// What is rejected for a first fault is not the text of a proved report.
pub fn rejected_is_not_proved()
    ensures { RejectedIsNotProved }
{}

/// What a replay writes at a width is a report that is proved but for its answers and repairs that are too wide, in the very same
/// blocks. Where nothing of these is too wide, each has its proofs and a check accepts the report of them.
pub fn replayed_is_proved()
    ensures report { ReplayedIsProved }
    ensures blocks { GivenAreProved }
{}

/// What a desk holds at each of its turns goes by what is said there, in whatever interleaving with other desks. Blocks are
/// proved, or may be given at a width, exactly where those of each desk are; what is said at a desk then goes by the commands
/// there, but for proofs and for what is too wide, and up to the first repair that is too wide in one session alone. None that is
/// given is where no number on a path is: all that is said there then goes by the commands, but for proofs.
pub fn desks_apart()
    ensures apart { DesksStandApart }
    ensures desk_by_desk { ProvedDeskByDesk }
    ensures given { GivenDeskByDesk }
    ensures agree { DesksAgree }
    ensures narrow { NarrowConcludes }
    ensures narrow_repairs { NarrowRepairs }
    ensures narrow_agree { NarrowDesksAgree }
{}

/// A proved report has one count of answers that have a proof, and one of what is too wide.
pub fn one_count()
    ensures { OneCount }
{}

/// Bytes that are rejected have one first fault.
pub fn one_rejection()
    ensures { OneRejection }
{}

/// No answer is ever refused since its question is another than the line's: the block is another line's then.
pub fn no_other_question()
    ensures block { NoBlockOfAnother }
    ensures report { NoReportOfAnother }
{}

/// All pairs are asked of at most 100 alternatives, and a report has at most 268,435,456 bytes.
pub fn limits()
    ensures { LimitsAre }
{}

/// What a number generates is a table, with no statements that come with it, and a session as one that is read.
pub fn generated_is_lawful()
    ensures { GeneratedIsLawful }
{}

/// The hidden value by which a generated session compares alternatives meets all that it states.
pub fn hidden_value_meets()
    ensures { HiddenValueMeets }
{}
