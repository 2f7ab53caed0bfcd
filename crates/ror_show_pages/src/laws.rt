//! Each function here states one law, for all reports, and does nothing.

ghost use Rattle.ror_show_pages.specs.ReadLines.{ReadsAreLines};
ghost use Rattle.ror_show_pages.specs.PageLaws.{OnePage, ReadsAreJudged, ShownIsTrue, RelationsHaveWhatStood, AskedHaveWhatStood, ClassesAreTrue, FunctionsAreTrue, StandingIsShown, MeantLinesAreKept, SaidIsWhatStood};

/// A report has one page, but that the parts of what stood that carry the arrows of a relation, what is new in one and the bounds of classes,
/// below these as texts, may be some of several, that an answer may have several reasons, and that what hangs on statements may be too wide to say or
/// not.
pub fn one_page()
    ensures { OnePage }
{}

/// Of a report that is proved over a lawful input the kept lines are lawful, sound, narrow and few enough: what finders and writers ask for.
pub fn reads_are_judged()
    ensures { ReadsAreJudged }
{}

/// They are lines of the session, in their order, each once.
pub fn reads_are_lines()
    ensures { ReadsAreLines }
{}

/// What is shown of a line is true of all value functions that are compatible with what stood there.
pub fn shown_is_true()
    ensures { ShownIsTrue }
{}

/// Each line that the page of the relation is of is kept with what stood there.
pub fn relations_have_what_stood()
    ensures { RelationsHaveWhatStood }
{}

/// Each line of the pages of relation, changes, classes and reasons that asks something is kept with what stood there.
pub fn asked_have_what_stood()
    ensures { AskedHaveWhatStood }
{}

/// At each time that the page of classes shows one list of statements stood, and each sign in its rows is true of all value
/// functions that are compatible with that.
pub fn classes_are_true()
    ensures { ClassesAreTrue }
{}

/// Each function that is shown of a line agrees with what stood there, and that of a part decides its question.
pub fn functions_are_true()
    ensures { FunctionsAreTrue }
{}

/// What the page of what stands shows of each desk is what stands there.
pub fn standing_is_shown()
    ensures { StandingIsShown }
{}

/// Of each line that asks or repairs and is meant what came of it is kept for the page of reasons, with what stood before.
pub fn meant_lines_are_kept()
    ensures { MeantLinesAreKept }
{}

/// The line that the page of reasons names beside a statement is the one that said it.
pub fn said_is_what_stood()
    ensures { SaidIsWhatStood }
{}
