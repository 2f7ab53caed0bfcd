//! Each function here states one law, for all tables, statements and answers, and does nothing.

ghost use Rattle.ror_reason.specs.Laws.{ProvedReductsAreTrue, ProvedReductPassesEachTest, AllNumbersStateAll, MoreStatementsKeep, ReductsAreLeast, OneFunctionDecides, AgainstEachStatementOneFunction};

/// What proves a reduct of an answer that is true of the list shows that it is one: every function that meets the part has the
/// answer, and of no statement of the part so much can be said without it.
pub fn proved_reducts_are_true()
    ensures { ProvedReductsAreTrue }
{}

/// No test of the checker fails of a reduct that is proved.
pub fn proved_reduct_passes_each_test()
    ensures { ProvedReductPassesEachTest }
{}

/// The part with all numbers of a list states what the list states.
pub fn all_numbers_state_all()
    ensures { AllNumbersStateAll }
{}

/// Contradictions are kept where more is stated. Where more is stated and some function is still compatible, so are that two
/// quantities are in their order by every compatible function, that they are by none, and that by none an alternative may
/// belong to a class.
pub fn more_statements_keep()
    ensures { MoreStatementsKeep }
{}

/// A reduct is least by inclusion: no part of it but itself has the answer. So none is within another, and what needs no
/// statement has the empty one alone.
pub fn reducts_are_least()
    ensures { ReductsAreLeast }
{}

/// Where no statement carries an answer and one function shows it, that function stands in the proof of the answer: it is
/// compatible with the whole list, and has what is asked of some one, or lacks what is asked of every one.
pub fn one_function_decides()
    ensures { OneFunctionDecides }
{}

/// Beside each statement of a reduct stands a function that is compatible with all other statements of it, and against what
/// they carry together with that one. Beside a statement of a conflict it is the one of the answer's base, else the one of its
/// part.
pub fn against_each_statement_one_function()
    ensures { AgainstEachStatementOneFunction }
{}
