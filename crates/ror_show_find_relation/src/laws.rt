//! Each function here states one law, and does nothing.

ghost use Rattle.ror_show_find_relation.specs.CellLaws.{CellsAreTrue, OneCell, DominanceIsNecessary, CellsMirror, EachPairIsCounted, KnownIsTrue, WholeIsTheRelation};
ghost use Rattle.ror_show_find_relation.specs.ChangeLaws.{ListedAreThose, Difference, NothingChanges, ChangesBack};
ghost use Rattle.ror_show_find_relation.specs.DifferenceLaws.{ListsAreTheDifference, ListedIsTrue};
ghost use Rattle.ror_show_find_relation.specs.OrderLaws.{Parts, ArrowsAreThose, ArrowsClose, ArrowsAreNeeded, OneLevelling, LevelsAreLongestChains, AcyclicHaveLevels};
ghost use Rattle.ror_show_find_relation.specs.WholeLaws.{CellsAreWhole, WholeChangesAreTrue};

/// A relation is its strict and its symmetric part, and the strict part of a transitive one is a strict order.
pub fn parts()
    ensures { Parts }
{}

/// The arrows are the pairs of the strict part between which nothing stands.
pub fn arrows_are_those()
    ensures { ArrowsAreThose }
{}

/// What arrows lead to is what the strict part leads to.
pub fn arrows_close()
    ensures { ArrowsClose }
{}

/// No arrow of a transitive relation can be left out.
pub fn arrows_are_needed()
    ensures { ArrowsAreNeeded }
{}

/// A relation has one list of levels.
pub fn one_levelling()
    ensures { OneLevelling }
{}

/// A level is the length of a longest strict chain.
pub fn levels_are_longest_chains()
    ensures { LevelsAreLongestChains }
{}

/// Without strict cycles each alternative has a level.
pub fn acyclic_have_levels()
    ensures { AcyclicHaveLevels }
{}

/// The pairs of a list are those of which that became.
pub fn listed_are_those()
    ensures { ListedAreThose }
{}

/// What held before and what holds now is told by the changes, each pair by one.
pub fn difference()
    ensures { Difference }
{}

/// From a relation to itself everything stays.
pub fn nothing_changes()
    ensures { NothingChanges }
{}

/// Seen backwards, what is new no longer holds, and the rest is as it was.
pub fn changes_back()
    ensures { ChangesBack }
{}

/// By answers that are true of all compatible functions each cell says what is true of them.
pub fn cells_are_true()
    ensures { CellsAreTrue }
{}

/// No two cells that say something are true of one pair.
pub fn one_cell()
    ensures { OneCell }
{}

/// Dominance holds by every value function.
pub fn dominance_is_necessary()
    ensures { DominanceIsNecessary }
{}

/// Each cell is the mirror of the one across the diagonal.
pub fn cells_mirror()
    ensures { CellsMirror }
{}

/// What is known of the relation is true, and has no strict cycle.
pub fn known_is_true()
    ensures { KnownIsTrue }
{}

/// Where each cell says something, it is the necessary preference, and the arrows lead where its strict part leads.
pub fn whole_is_the_relation()
    ensures { WholeIsTheRelation }
{}

/// The page of a relation counts each pair of different alternatives once.
pub fn each_pair_is_counted()
    ensures { EachPairIsCounted }
{}

/// A pair stands in a list exactly where the cells of both relations differ so.
pub fn lists_are_the_difference()
    ensures { ListsAreTheDifference }
{}

/// By true answers what is listed as so before was necessarily so, and what is listed as so now is.
pub fn listed_is_true()
    ensures { ListedIsTrue }
{}

/// Where the answers to all questions on a relation are there and none of them is too wide, each cell says something.
pub fn cells_are_whole()
    ensures { CellsAreWhole }
{}

/// Where each cell says something, before and now, what is listed as no longer so isn't necessarily so now, and what is new wasn't before.
pub fn whole_changes_are_true()
    ensures { WholeChangesAreTrue }
{}
