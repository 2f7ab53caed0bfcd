//! Each function here states laws of systems and their certificates, for all values, and does nothing.

ghost use Rattle.ror_system.specs.Laws.{LimitsAre, NeverBoth, NoTestFails, OneFirstReason};

/// No system that multipliers refute is solvable, whatever their sizes.
pub fn never_both()
    ensures { NeverBoth }
{}

/// A solution is accepted exactly where none of its tests fails, and so are multipliers.
pub fn no_test_fails()
    ensures { NoTestFails }
{}

/// Two first reasons against one certificate are equal.
pub fn one_first_reason()
    ensures { OneFirstReason }
{}

/// A system has at most 2,000 columns and 2,200 rows.
pub fn limits()
    ensures { LimitsAre }
{}
