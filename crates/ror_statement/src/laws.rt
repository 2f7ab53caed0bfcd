//! Each function here states one law and does nothing.

ghost use Rattle.ror_statement.specs.Laws.{LimitsAre};

/// At a desk stand at most 200 statements, whose system has at most 2,000 rows.
pub fn limits()
    ensures { LimitsAre }
{}
