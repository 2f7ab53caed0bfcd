//! Laws of the definitions, each the clause of a function that does nothing.

ghost use Rattle.ror_show_find_roll.specs.Became.{AskedOfNothingAreThose, EachStandsOrIsGone, EachSurvivesOrIsTakenBack, GoneAreThose, RefusedAreThose, TakenBackAreThose};
ghost use Rattle.ror_show_find_roll.specs.Laws.{AskedWhereNothingStands, KeepsAllTurns, ShowsWhatStands};

/// After proved blocks, the roll of a desk shows what stands there, all of it and nothing else: each statement with its number,
/// as the line that it names states it.
pub fn shows_what_stands()
    ensures { ShowsWhatStands }
{}

/// Where a check keeps something of each line, a desk's lines among those that it kept are all of them, with their blocks.
pub fn keeps_all_turns()
    ensures { KeepsAllTurns }
{}

/// What stands no more is what a surviving line took away, and the line that is named is that one.
pub fn gone_are_those()
    ensures { GoneAreThose }
{}

/// A statement that came with the table's file, or that a surviving line added, stands or stands no more, and isn't in both lists.
pub fn each_stands_or_is_gone()
    ensures { EachStandsOrIsGone }
{}

/// What is taken back is the last line that survives before an undo, and each undo takes back that one.
pub fn taken_back_are_those()
    ensures { TakenBackAreThose }
{}

/// A line that revises what stands survives, or is taken back, and not both.
pub fn each_survives_or_is_taken_back()
    ensures { EachSurvivesOrIsTakenBack }
{}

/// The refused lines are those that were refused, for what is said.
pub fn refused_are_those()
    ensures { RefusedAreThose }
{}

/// The lines that were asked of nothing are those that were answered where no statement was left.
pub fn asked_of_nothing_are_those()
    ensures { AskedOfNothingAreThose }
{}

/// They are those that were answered while nothing stood at the desk: after proved blocks no statement is left exactly where none stands.
pub fn asked_where_nothing_stands()
    ensures { AskedWhereNothingStands }
{}
