//! Each function here states one law, for all tables and lists, and does nothing.

ghost use Rattle.ror_rows.specs.Laws.{RowsHold, ConditionsHold, SystemsDecide, ValueRowEntries};

/// A list of whole numbers solves the system of a lawful list of statements exactly where it is a value function that is
/// compatible with the list, and the system with extra rows exactly where it meets the extra comparisons besides.
pub fn rows_hold()
    ensures { RowsHold }
{}

/// A function has what a valid question asks of it exactly where each condition of the question holds of it: it leaves an
/// alternative a class exactly where the extra rows of the class hold.
pub fn conditions_hold()
    ensures { ConditionsHold }
{}

/// A lawful list of statements is consistent exactly where its system has a solution. Over a consistent list, a valid
/// question on every compatible function is answered Yes exactly where none of its systems has a solution, and one on some
/// compatible function exactly where its one system has; whether the list is consistent asks no system more.
pub fn systems_decide()
    ensures { SystemsDecide }
{}

/// The row of an alternative has an entry for each column. On a stepwise criterion it is 1 at each step up to the alternative's
/// rank, else 0; on a linear one it is the weight of the alternative's level.
pub fn value_row_entries()
    ensures { ValueRowEntries }
{}
