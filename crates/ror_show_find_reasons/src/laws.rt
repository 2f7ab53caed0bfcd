//! Each function here states one law, for all values that it speaks of, and does nothing.

ghost use Rattle.ror_show_find_reasons.specs.Laws.{ArrowsAreCarried, BroughtIsCarried, EachBetterIsTold, BoundsAreSettled, DroppedAreInConflict};
ghost use Rattle.ror_show_find_reasons.specs.Meaning.{FoundAreMeant};

/// Every value function that agrees with the statements that are named with an arrow of a relation has the first alternative at least
/// as good as the second, and of none of them so much can be said without it. Where none are named, a number was too wide. So it is with
/// those that are named for it to be always better.
pub fn arrows_are_carried()
    ensures { ArrowsAreCarried }
{}

/// The same of a pair that was turned round, as it is now, or is new.
pub fn brought_is_carried()
    ensures { BroughtIsCarried }
{}

/// Each pair whose cell has the first always better has a reason why.
pub fn each_better_is_told()
    ensures { EachBetterIsTold }
{}

/// By every value function that agrees with the statements that are named with a bound the alternative isn't beyond its class, and of none of
/// them that can be said without it. Each class next to those that are left that an answer excludes has its bound.
pub fn bounds_are_settled()
    ensures { BoundsAreSettled }
{}

/// What a repair dropped is in each conflict that is found of it, or the table has no value function.
pub fn dropped_are_in_conflict()
    ensures { DroppedAreInConflict }
{}

/// Whatever is found of a judged ground means what it says, over all value functions that agree with what stood.
pub fn found_are_meant()
    ensures { FoundAreMeant }
{}
