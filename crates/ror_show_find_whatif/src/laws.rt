//! Each function here states one law, for all values that it speaks of, and does nothing.

ghost use Rattle.ror_show_find_whatif.specs.Laws.{ListedAreSo, NothingElseIsSo, ListedClassesAreSo, NoOtherClassIsSo, ContrariesAreContrary, ContradictedFollows, WhatIfsAreMeant};

/// A pair that is listed as lost is so by every function that agrees with what stands, and not by every one that agrees with what would; and
/// each other list says what it says.
pub fn listed_are_so()
    ensures { ListedAreSo }
{}

/// Where functions agree with both lists, and no answer is too wide, no other pair is so.
pub fn nothing_else_is_so()
    ensures { NothingElseIsSo }
{}

/// A class that is listed as opened is excluded by every function that agrees with what stands, and not by every one that agrees with what
/// would; and each other list says what it says.
pub fn listed_classes_are_so()
    ensures { ListedClassesAreSo }
{}

/// Where functions agree with both lists, and no answer is too wide, no other class is so.
pub fn no_other_class_is_so()
    ensures { NoOtherClassIsSo }
{}

/// A function has what the contrary of a statement says exactly where it hasn't what the statement says.
pub fn contraries_are_contrary()
    ensures { ContrariesAreContrary }
{}

/// A statement follows from the others where no function agrees with these and its contrary.
pub fn contradicted_follows()
    ensures { ContradictedFollows }
{}

/// All that is found of a judged ground means what it says.
pub fn whatifs_are_meant()
    ensures { WhatIfsAreMeant }
{}
