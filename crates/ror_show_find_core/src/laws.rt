//! Each function here states one law, for all tables, statements and answers, and does nothing.

ghost use Rattle.ror_show_find_core.specs.Laws.{CoreIsInEachReduct, StaysHasReduct, CoresAreMeant};

/// Without a statement an answer that statements carry falls exactly where each of its reducts has the statement.
pub fn core_is_in_each_reduct()
    ensures { CoreIsInEachReduct }
{}

/// Where an answer stays without a statement, a reduct of it over what is left is a reduct of it that lacks the statement.
pub fn stays_has_reduct()
    ensures { StaysHasReduct }
{}

/// What is found beside answers means what it says, over all value functions; and it is found beside each answer that is told.
pub fn cores_are_meant()
    ensures { CoresAreMeant }
{}
