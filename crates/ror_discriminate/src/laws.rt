//! Each function here states laws of margins and optima, for all values, and does nothing.

ghost use Rattle.ror_discriminate.specs.Laws.{AcceptedPassesEachTest, AnswersAreDue, LeastMarginIsLeast, OneFirstFault, OneGreatestMargin, ProvedOptimaAreBest, RowsAreMargins};

/// Where a list says something strictly, the least margin of a function is one of its margins, and none is below it.
pub fn least_margin_is_least()
    ensures { LeastMarginIsLeast }
{}

/// The strict rows of a list's system but that of ones come to the margins of a function, and what the columns count comes to
/// its ideal value.
pub fn rows_are_margins()
    ensures { RowsAreMargins }
{}

/// The solution of an accepted optimum is a most discriminating function, of all that are compatible with the list.
pub fn proved_optima_are_best()
    ensures { ProvedOptimaAreBest }
{}

/// Two most discriminating functions have the same least margin, normalised.
pub fn one_greatest_margin()
    ensures { OneGreatestMargin }
{}

/// No test fails of an optimum that is accepted.
pub fn accepted_passes_each_test()
    ensures { AcceptedPassesEachTest }
{}

/// Two first faults of one optimum are equal.
pub fn one_first_fault()
    ensures { OneFirstFault }
{}

/// What a list is answered, want of memory apart: that it says nothing strictly exactly where it doesn't. Else, where no number on
/// the path that decides it is too wide, a contradiction where it is contradictory; and where it is consistent and no number on the
/// climbing path is too wide either, an optimum.
pub fn answers_are_due()
    ensures { AnswersAreDue }
{}
