//! Each function here states laws of closing lists, for all benches and lines, and does nothing.

ghost use Rattle.ror_closing.specs.Laws.{HaveClosing, OneClosing, OneStanding, ClosesReports, ClosesReplays, OneFirstUnsuited};

/// Without unsuited lines there is one closing list of each desk, by the table, the statements that the desks begin with and the
/// lines; and it is what stands there after all lines in any proved report, and in any that a replay writes.
pub fn one_closing()
    ensures some { HaveClosing }
    ensures one { OneClosing }
    ensures reports { ClosesReports }
    ensures replays { ClosesReplays }
{}

/// A desk has one closing list with its numbers, and the statements of it are the desk's closing list.
pub fn one_standing()
    ensures { OneStanding }
{}

/// Lines are suited, or one number is that of the first unsuited one.
pub fn one_first_unsuited()
    ensures { OneFirstUnsuited }
{}
