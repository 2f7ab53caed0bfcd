//! Each function here states one law, for all reports, and does nothing.

ghost use Rattle.ror_show_find_group.specs.Laws.{JudgesAreTrue, GroupCellsAreTrue, ContradictionsAreTrue, AllIsTrue, EachPairIsCounted, DifferingAreThose, AloneIsTrue};

/// Each cell of a judge says what is true of all value functions that agree with what stands at the judge's desk.
pub fn judges_are_true()
    ensures { JudgesAreTrue }
{}

/// With what a judge said who isn't heard no value function agrees.
pub fn contradictions_are_true()
    ensures { ContradictionsAreTrue }
{}

/// Each cell of the matrix says what is true of the judges who are heard.
pub fn group_cells_are_true()
    ensures { GroupCellsAreTrue }
{}

/// What is known of all judges who are heard holds for each of them, by every function, and what is strictly so doesn't hold back for some
/// one; so there is no strict cycle, and each alternative has a level.
pub fn all_is_true()
    ensures { AllIsTrue }
{}

/// Each pair of alternatives is counted once.
pub fn each_pair_is_counted()
    ensures { EachPairIsCounted }
{}

/// The pairs that are listed are those on which judges differ.
pub fn differing_are_those()
    ensures { DifferingAreThose }
{}

/// Of a pair that is listed as one that a judge alone concludes, that judge has the first at least as good by every function, and no other
/// judge who is heard does.
pub fn alone_is_true()
    ensures { AloneIsTrue }
{}
