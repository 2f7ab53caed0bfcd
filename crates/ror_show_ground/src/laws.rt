//! Each function here states one law, and does nothing.

ghost use Rattle.ror_show_ground.specs.Ready.{DesksBeginNumbered, KeptLinesAreReady};
ghost use Rattle.ror_show_ground.specs.TurnLaws.{TurnsAreThose};

/// Desks that begin have revised nothing, so each statement that was added has the number that was next when it came.
pub fn desks_begin_numbered()
    ensures { DesksBeginNumbered }
{}

/// In a proved report over such desks, what stood at each line that is kept with that is lawful, its numbers rise, the line's
/// answers are proved over it, and what it dropped is what a repair of it drops.
pub fn kept_lines_are_ready()
    ensures { KeptLinesAreReady }
{}

/// The lines that are shown with one another are those of one desk that are answered, with none between them.
pub fn turns_are_those()
    ensures { TurnsAreThose }
{}
