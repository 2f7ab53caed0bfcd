//! Each function here states one law, and does nothing.

ghost use Rattle.ror_show_find_proofs.specs.Counted.{CountsAreMultipliers, OwnRowsGo};
ghost use Rattle.ror_show_find_proofs.specs.FunctionLaws.{ShownAreValues, RoundedAreNearest, EachLevelStands, EachFunctionIsShown, FunctionsAreMeant};
ghost use Rattle.ror_show_find_proofs.specs.LineLaws.{FunctionsAreTrue};
ghost use Rattle.ror_show_find_proofs.specs.LinearLaws.{OthersMayBend};
ghost use Rattle.ror_show_find_proofs.specs.SideLaws.{SidesAreMeant};
ghost use Rattle.ror_show_find_proofs.specs.SumLaws.{UsedAreBelow, SpansAreUsed, RefutationsFit, SumsSuffice};

/// What is shown of a level is its marginal value and the value of all best levels, and the weights sum to that.
pub fn shown_are_values()
    ensures { ShownAreValues }
{}

/// A rounded share is the nearest number of thousandths, and is marked.
pub fn rounded_are_nearest()
    ensures { RoundedAreNearest }
{}

/// Each level stands in a line, and those of a line are worth the same.
pub fn each_level_stands()
    ensures { EachLevelStands }
{}

/// The functions that are shown are the bases, each once of neighbours, and the parts that are solutions.
pub fn each_function_is_shown()
    ensures { EachFunctionIsShown }
{}

/// By proved answers the function of a base agrees with the statements, and that of a part decides its question besides.
pub fn functions_are_meant()
    ensures { FunctionsAreMeant }
{}

/// Of multipliers that are accepted a column is used exactly where its sum is below 0, and each other column's sum is 0.
pub fn used_are_below()
    ensures { UsedAreBelow }
{}

/// A step of a criterion is used exactly where it lies within one of the spans that are named.
pub fn spans_are_used()
    ensures { SpansAreUsed }
{}

/// The multipliers that refute in a proved answer are accepted for the system of which the sums are told.
pub fn refutations_fit()
    ensures { RefutationsFit }
{}

/// The answer holds of all functions that agree with the statements and by which better is not worth less on the steps that are named,
/// whatever they give to other steps; where it is named that some criterion counts, of those by which the steps sum to more than 0.
pub fn sums_suffice()
    ensures { SumsSuffice }
{}

/// On a linear criterion of which it isn't used that it is linear, what the multipliers sum up isn't above 0 by any gains of its steps of
/// which none is below 0.
pub fn others_may_bend()
    ensures { OthersMayBend }
{}

/// The function whose two quantities are shown of a proved answer agrees with the statements, and lacks what is asked of every
/// function, or has what is asked of some one.
pub fn sides_are_meant()
    ensures { SidesAreMeant }
{}

/// The rows that a statement is said to have are those that the system has no more where the statement is left out.
pub fn own_rows_go()
    ensures { OwnRowsGo }
{}

/// Of a proved answer it is said how often a statement counts by the multipliers of its rows that are above 0.
pub fn counts_are_multipliers()
    ensures { CountsAreMultipliers }
{}

/// In a proved report each function in the answers to a line agrees with what stood there, and that of a part decides its question.
pub fn functions_are_true()
    ensures { FunctionsAreTrue }
{}
