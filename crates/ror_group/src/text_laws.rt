//! Laws of entries, of heads and of their texts, each the clause of a function that does nothing.

ghost use Rattle.ror_group.specs.EntryLaws.{EntriesAreTheirTexts, EntriesHaveOneText, EntriesBeginWithPair, EntriesAreUtf8, EntriesFailFirst};
ghost use Rattle.ror_group.specs.Head.{HeadsAreTheirTexts};
ghost use Rattle.ror_group.specs.HeadFaults.{HeadsFailFirst, WholeHeadsAreTheirTexts, WholeHeadsFailFirst};

/// An entry is read exactly where its text stands, whatever follows: what was written is read again, and what is read was so
/// written.
pub fn entries_read_back()
    ensures { EntriesAreTheirTexts }
{}

/// Two entries that have a text have two texts.
pub fn one_spelling()
    ensures { EntriesHaveOneText }
{}

/// The text of an entry begins with its first word, and is UTF-8.
pub fn texts()
    ensures begin { EntriesBeginWithPair }
    ensures utf8 { EntriesAreUtf8 }
{}

/// A text is refused as an entry exactly with the fault of the first faulty word of its first faulty line.
pub fn the_first_fault_is_given()
    ensures { EntriesFailFirst }
{}

/// A head is read exactly where its text stands, of desks that a session may have.
pub fn heads_read_back()
    ensures { HeadsAreTheirTexts }
{}

/// A head is read as a whole exactly where its text stands and no further desk's line behind it.
pub fn whole_heads_read_back()
    ensures { WholeHeadsAreTheirTexts }
{}

/// Bytes are refused as a head exactly with the fault of the first line that is not as it is to be, and as a whole head so too, or
/// with that of a further desk's line.
pub fn the_first_fault_of_a_head_is_given()
    ensures head { HeadsFailFirst }
    ensures whole { WholeHeadsFailFirst }
{}
