//! Each function here states one law, for all tables, statements, answers and repairs, and does nothing.

ghost use Rattle.ror_check.specs.Laws.{ProofsAreTrue, ProvedPassesEachTest, OneRepair, RepairsAreMaximal, ProvedRepairsAreTrue, ProvedRepairPassesEachTest};

/// An answer with its proof is true of all value functions that are compatible with the statements.
pub fn proofs_are_true()
    ensures { ProofsAreTrue }
{}

/// No test of the checker fails of an answer that has its proof.
pub fn proved_passes_each_test()
    ensures { ProvedPassesEachTest }
{}

/// A list has one repair.
pub fn one_repair()
    ensures { OneRepair }
{}

/// A repair keeps as much as can be kept, and a consistent list whole.
pub fn repairs_are_maximal()
    ensures { RepairsAreMaximal }
{}

/// What proves a repair shows that it is one, over all value functions.
pub fn proved_repairs_are_true()
    ensures { ProvedRepairsAreTrue }
{}

/// No test of the checker fails of a repair that is proved.
pub fn proved_repair_passes_each_test()
    ensures { ProvedRepairPassesEachTest }
{}
