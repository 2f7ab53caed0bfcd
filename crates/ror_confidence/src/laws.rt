//! Each function here states one law, for all tables, statements, levels and spans, and does nothing.

ghost use Rattle.ror_confidence.specs.Laws.{LevelsAreNested, LevelsAreTheGrammar, LevelsFaultsAreFirst, LimitsAre, ListsAreNested, OneSpan, ProvedSpanPassesEachTest, ProvedSpansAreTrue};

/// What more statements leave: where they are not contradictory fewer are not; a necessary preference stays, and a possible one
/// was there before.
pub fn nested()
    ensures { ListsAreNested }
{}

/// The statements of each level are among those of every later one.
pub fn levels_are_nested()
    ensures { LevelsAreNested }
{}

/// A pair has one span over the same levels.
pub fn one_span()
    ensures { OneSpan }
{}

/// A span with its proof is that of the pair over all compatible value functions, at every level.
pub fn proved_spans_are_true()
    ensures { ProvedSpansAreTrue }
{}

/// No test of the checker fails of a span that has its proof.
pub fn proved_span_passes_each_test()
    ensures { ProvedSpanPassesEachTest }
{}

/// A file of levels is read exactly where it is in the grammar, and as the levels that its lines give.
pub fn levels_are_the_grammar()
    ensures { LevelsAreTheGrammar }
{}

/// The fault that is given is the first that the file has, and each first fault is given.
pub fn the_first_levels_fault_is_given()
    ensures { LevelsFaultsAreFirst }
{}

/// There are at most 9 levels, and a file of levels has at most 1,048,576 bytes.
pub fn limits()
    ensures { LimitsAre }
{}
