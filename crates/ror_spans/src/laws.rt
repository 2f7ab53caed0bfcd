//! Laws of entries and of their texts, each the clause of a function that does nothing.

ghost use Rattle.std.specs.Str.{IsUtf8};
ghost use Rattle.ror_spans.specs.EntryLaws.{EntriesAreTheirTexts, EntriesHaveOneText, EntriesBeginWithPair, EntriesAreUtf8, EntriesFailFirst};
ghost use Rattle.ror_spans.specs.Text.{header_text};

/// An entry is read exactly where its text stands and nothing follows that belongs to it: what was written is read again, and what
/// is read was so written.
pub fn entries_read_back()
    ensures { EntriesAreTheirTexts }
{}

/// Two entries that have a text have two texts.
pub fn one_spelling()
    ensures { EntriesHaveOneText }
{}

/// The text of an entry begins with its first word, and it and the first line of a report are UTF-8.
pub fn texts()
    ensures begin { EntriesBeginWithPair }
    ensures utf8 { EntriesAreUtf8 }
    ensures header { IsUtf8 header_text }
{}

/// Bytes are refused as an entry exactly with the fault of the first faulty word of the first faulty line.
pub fn the_first_fault_is_given()
    ensures { EntriesFailFirst }
{}
