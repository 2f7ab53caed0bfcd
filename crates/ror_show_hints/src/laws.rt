//! Laws of the definitions, each the clause of a function that does nothing.

ghost use Rattle.ror_show_hints.specs.Laws.{LinesAreThose};

/// A text of which each line begins with one of some words is made of such lines, each with one line feed, at its end.
pub fn lines_are_those()
    ensures { LinesAreThose }
{}
