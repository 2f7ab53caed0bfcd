//! Laws of the definitions, each the clause of a function that does nothing.

ghost use Rattle.ror_xmcda.specs.Laws.{InputsAreLawful, PlainTablesAreRead, OpeningsAreOrdered, ClassesGoByRank, ClassesAreTurned, TablesAreTheSame, OpeningsAreTurned, FaultsAreTheSame, InputsHaveTables};
ghost use Rattle.ror_xmcda.specs.Meaning.{ContentsAreMeant, InputsMeanTheirFiles, TreesSayOneInput};
ghost use Rattle.ror_xmcda.specs.Faults.{FirstFaultsAreGiven, WhatHasNoFaultIsRead, FirstFaultsOfFilesAreGiven};
ghost use Rattle.ror_xmcda.specs.Readable.{ContentsAreRead, FilesAreRead};

/// The statements of an input name what its table has, and are at most 200, of at most 2,000 rows.
pub fn inputs_are_lawful()
    ensures { InputsAreLawful }
{}

/// A file that is not XMCDA is read as a plain table, without statements, whether the best class comes first
/// or the worst.
pub fn plain_tables_are_read()
    ensures { PlainTablesAreRead }
{}

/// The comparisons of a file stand before its assignments.
pub fn openings_are_ordered()
    ensures { OpeningsAreOrdered }
{}

/// A category's class goes by its rank, wherever it stands among the others.
pub fn classes_go_by_rank()
    ensures { ClassesGoByRank }
{}

/// With the best first the classes are turned round, in each statement. Nothing else changes, and no fault does.
pub fn best_first_changes_classes()
    ensures classes { ClassesAreTurned }
    ensures table { TablesAreTheSame }
    ensures opening { OpeningsAreTurned }
    ensures faults { FaultsAreTheSame }
{}

/// The table of an input is one by the definition: its ids are distinct, and it is within the limits.
pub fn inputs_have_tables()
    ensures { InputsHaveTables }
{}

/// What is read of an XMCDA file is what its elements say: which criteria, alternatives and categories are active, the one
/// performance of each alternative on each criterion, and what each comparison and each assignment states.
pub fn inputs_mean_their_files()
    ensures content { ContentsAreMeant }
    ensures file { InputsMeanTheirFiles }
    ensures one { TreesSayOneInput }
{}

/// An XMCDA file is read exactly where it is no longer than may be and its elements say an input within the limits: then
/// that input is read of it, and any other such file is refused.
pub fn files_are_read_where_they_say_an_input()
    ensures content { ContentsAreRead }
    ensures file { FilesAreRead }
{}

/// Of a document that is not read the first fault is given: section by section, in each by the order of its elements, and
/// of an element by the order of its tests. A document that has none is read.
pub fn first_faults_are_given()
    ensures content { FirstFaultsAreGiven }
    ensures none { WhatHasNoFaultIsRead }
    ensures file { FirstFaultsOfFilesAreGiven }
{}
