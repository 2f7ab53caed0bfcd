//! Laws of the definitions, each the clause of a function that does nothing.

ghost use Rattle.ror_table.specs.Laws.{LimitsAre, AmountsAreFractions, RanksHaveLevels, ScalesAreDistances, WeightsAreRatios, ReadsTheGrammar, GivesTheFirstFault, LinesFailFirst};
ghost use Rattle.ror_table.specs.Spellings.{SpellingsAre};

/// A plain table is read exactly where its bytes are in the grammar and within the limits, and as
/// the table that the grammar gives.
pub fn plain_tables_are_the_grammar()
    ensures { ReadsTheGrammar }
{}

/// A fault is given exactly where it is the first: what comes before it is read.
pub fn the_first_fault_is_given()
    ensures { GivesTheFirstFault }
{}

/// A line after the first is refused exactly with the first of the tests that it fails, each of
/// which is taken alone.
pub fn lines_fail_first()
    ensures { LinesFailFirst }
{}

/// A word writes at most one whole number, one number that is whole or a decimal, and one amount; that is the one which is read.
pub fn spellings()
    ensures { SpellingsAre }
{}

/// Amounts are the fractions that they are made from, and their order is that of fractions: two of them are the same where
/// their cross products are equal, and else one is smaller than the other.
pub fn amounts_are_fractions()
    ensures { AmountsAreFractions }
{}

/// Each rank from 0 to the steps of a criterion is that of one of its levels, and an alternative's performance is the level of its
/// rank.
pub fn ranks_have_levels()
    ensures { RanksHaveLevels }
{}

/// The common denominator of a criterion is the least one, and the distances of its levels are those from the worst one, times
/// that; by these two a linear criterion's scale is too wide or not.
pub fn scales_are_distances()
    ensures { ScalesAreDistances }
{}

/// The weights of a linear criterion's levels are the least whole numbers in the ratios of the levels' distances from the worst
/// one.
pub fn weights_are_ratios()
    ensures { WeightsAreRatios }
{}

/// A table has at most 200 alternatives, 64 criteria, 2,000 columns of all criteria together, and 100 classes; the numbers of
/// its performances are below 10^18.
pub fn limits()
    ensures { LimitsAre }
{}
