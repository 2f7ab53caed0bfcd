//! Each function here states laws of ranks and of what proves them, for all values, and does nothing.

ghost use Rattle.ror_ranks.specs.Laws.{AlwaysAboveCounts, BestRankOneIsTogether, LimitsAre, MoreStatementsNeverWiden, NothingIsTooWide, OneExtremeRank, OneFirstFault, ProvedConflictsAreTrue, ProvedRanksAreTrue, ProvedRanksPassEachTest, RanksAreCounts, RanksAreInOrder, TreesCount};

/// An alternative has one best rank and one worst over a list.
pub fn one_extreme_rank()
    ensures { OneExtremeRank }
{}

/// The best rank is at most the worst, and each is from 1 to the number of alternatives.
pub fn ranks_are_in_order()
    ensures { RanksAreInOrder }
{}

/// Alternatives that are worth more than one by every compatible function count in both of its ranks.
pub fn always_above_counts()
    ensures { AlwaysAboveCounts }
{}

/// With more statements the best rank never becomes better, and the worst never worse.
pub fn more_statements_never_widen()
    ensures { MoreStatementsNeverWiden }
{}

/// The best rank of an alternative is 1 exactly where one compatible function gives it at least the value of all others together.
pub fn best_rank_one_is_together()
    ensures { BestRankOneIsTogether }
{}

/// By a function the rank of an alternative follows from how many of the others count, for the best rank and for the worst.
pub fn ranks_are_counts()
    ensures { RanksAreCounts }
{}

/// Of a proved conflict some member counts by every compatible function.
pub fn proved_conflicts_are_true()
    ensures { ProvedConflictsAreTrue }
{}

/// A tree for so many alternatives shows that no fewer meet all conflicts.
pub fn trees_count()
    ensures { TreesCount }
{}

/// What is proved of extreme ranks is true of all value functions that are compatible with the list.
pub fn proved_ranks_are_true()
    ensures { ProvedRanksAreTrue }
{}

/// No test fails of extreme ranks that are proved.
pub fn proved_ranks_pass_each_test()
    ensures { ProvedRanksPassEachTest }
{}

/// Two first faults of one list of extreme ranks are equal.
pub fn one_first_fault()
    ensures { OneFirstFault }
{}

/// Where no system has a number that is too wide, each extreme rank has an interval.
pub fn nothing_is_too_wide()
    ensures { NothingIsTooWide }
{}

/// A tree has at most 1,000 nodes.
pub fn limits()
    ensures { LimitsAre }
{}
