//! Laws of the definitions, each the clause of a function that does nothing.

ghost use Rattle.ror_session.specs.Laws.{LimitsAre, ReadsTheGrammar, GivesTheFirstFault, IsSoundWhenRead};

/// A text is read exactly where it is within the limits, UTF-8 and in the grammar, and as the
/// session that its lines are.
pub fn sessions_are_the_grammar()
    ensures { ReadsTheGrammar }
{}

/// The fault that is given is the first that the text has, and each first fault is given.
pub fn the_first_fault_is_given()
    ensures { GivesTheFirstFault }
{}

/// A session that is read has distinct desks, 64 at most, each of them of some line, and each line
/// is for one of them. It has 100,000 lines at most, whose numbers rise and are 100,000 at most. No
/// name in it has a blank or a control byte.
pub fn what_is_read_is_sound()
    ensures { IsSoundWhenRead }
{}

/// A session has at most 100,000 lines and 64 desks, each of a name of at most 64 bytes.
pub fn limits()
    ensures { LimitsAre }
{}
