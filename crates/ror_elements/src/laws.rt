//! Laws of the definitions, each the clause of a function that does nothing.

ghost use Rattle.ror_elements.specs.Laws.{LinesAreCounted, GivesTheFirstFault, NoneIsTooDeep, LimitsAre};
ghost use Rattle.ror_elements.specs.Laws.{NothingIsReplaced, DocumentsAreRead, OneRoot};
ghost use Rattle.ror_elements.specs.Laws.{KeptElementsAreListed};
ghost use Rattle.ror_elements.specs.Refusals.{FaultsAreWhatTheySay, FaultsAreGiven};

/// The line that is known of a byte is one more than the line ends before it.
pub fn lines_are_counted()
    ensures { LinesAreCounted }
{}

/// The fault that is given is the first that the text has, and each first fault is given: that it is
/// no UTF-8, else the fault at the first byte that what was read before it does not allow, else that
/// of its end.
pub fn the_first_fault_is_given()
    ensures { GivesTheFirstFault }
{}

/// The fault that is given is one that the text has by the rule in `specs/Refusals`, of its kind and at its line.
pub fn faults_are_what_they_say()
    ensures { FaultsAreWhatTheySay }
{}

/// Where a text has a fault by the rule in `specs/Refusals`, of any kind, that fault is given, so that it has no
/// other.
pub fn faults_are_given()
    ensures { FaultsAreGiven }
{}

/// No element that is read is deeper than [`MOST_DEPTH`](crate::MOST_DEPTH).
pub fn none_is_too_deep()
    ensures { NoneIsTooDeep }
{}

/// Names, ids and texts are the bytes that stand in the text, or that references stand for: nothing
/// of them is replaced for being no UTF-8.
pub fn nothing_is_replaced()
    ensures { NothingIsReplaced }
{}

/// What is read are the documents of the grammar in `specs/Grammar`, each as its root.
pub fn documents_are_read()
    ensures { DocumentsAreRead }
{}

/// A document has one root.
pub fn a_document_has_one_root()
    ensures { OneRoot }
{}

/// The child with a local name is kept of an element with a path exactly where a row of the table in
/// `specs/Listed` says so.
pub fn kept_elements()
    ensures { KeptElementsAreListed }
{}

/// An element may be at most 64 deep.
pub fn limits()
    ensures { LimitsAre }
{}
