//! Laws of entries and of their texts, each the clause of a function that does nothing.

ghost use Rattle.std.specs.Str.{IsUtf8};
ghost use Rattle.ror_ranks_text.specs.EntryLaws.{EntriesAreTheirTexts, EntriesHaveOneText, EntriesBeginWithDesk, EntriesAreUtf8, EntriesFailFirst, GivenBodiesHaveTexts};
ghost use Rattle.ror_ranks_text.specs.Text.{header_text};

/// An entry is read exactly where its text stands, whatever follows: what was written is read again, and what is read was so
/// written.
pub fn entries_read_back()
    ensures { EntriesAreTheirTexts }
{}

/// Two entries that have a text have two texts.
pub fn one_spelling()
    ensures { EntriesHaveOneText }
{}

/// The text of an entry begins with its first word, and it and the first line of a report are UTF-8.
pub fn texts()
    ensures begin { EntriesBeginWithDesk }
    ensures utf8 { EntriesAreUtf8 }
    ensures header { IsUtf8 header_text }
{}

/// A text is refused as an entry exactly with the fault of the first faulty word of its first faulty line.
pub fn the_first_fault_is_given()
    ensures { EntriesFailFirst }
{}

/// What is found at a width has a text.
pub fn what_is_found_has_a_text()
    ensures { GivenBodiesHaveTexts }
{}
