//! Each function here states laws of histories, for all values, and does nothing.

ghost use Rattle.ror_history.specs.Laws.{AddedStandsLast, NumbersRise, NextNumberRises, OneFirstFault};

/// An added statement stands last, and all that stood before it stays as it was.
pub fn added_stands_last()
    ensures { AddedStandsLast }
{}

/// The numbers of a standing list rise, and all are below the next number, whatever was withdrawn or replaced.
pub fn numbers_rise()
    ensures { NumbersRise }
{}

/// Each added statement gets the next number, which is then one more; other revisions leave it.
pub fn next_number_rises()
    ensures { NextNumberRises }
{}

/// A statement can be added, withdrawn alone or with others, or replaced exactly where no test fails, and two first faults
/// are equal.
pub fn one_first_fault()
    ensures { OneFirstFault }
{}
