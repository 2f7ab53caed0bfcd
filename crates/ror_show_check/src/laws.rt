//! Each function here states one law, for all reports, and does nothing.

ghost use Rattle.ror_show_check.specs.CheckLaws.{AcceptedAreTrue, AcceptedAreNotRefused, OneEnding, WrittenAreAccepted};

/// What the check of certificates accepts is true: each certificate names a line of the session that asks and an answer to it, and over
/// what stood at the line the statements that it names carry that answer, and none of them can be spared.
pub fn accepted_are_true()
    ensures { AcceptedAreTrue }
{}

/// Of a report and certificates one number is accepted, or they are refused for one thing, and never both.
pub fn one_ending()
    ensures count { OneEnding }
    ensures not_refused { AcceptedAreNotRefused }
{}

/// Certificates that are written of any lines of a session are accepted with the same table, session and report, where they aren't too
/// long to be read.
pub fn written_are_accepted()
    ensures { WrittenAreAccepted }
{}
