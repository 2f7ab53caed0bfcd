//! Laws of the definitions, each the clause of a function that does nothing.

ghost use Rattle.ror_report.specs.Laws.{BlocksAreTheirTexts, HeadersAreTheirText, EndsAreTheirTexts, ReportsHaveOneText, BlocksBeginWithLine, EndsBeginWithEnd, ReportsAreUtf8, BlocksFailFirst, EndsFailFirst};

/// A block is read exactly where its text stands and then something that ends a body: what was
/// written is read again, and what is read was so written.
pub fn blocks_read_back()
    ensures { BlocksAreTheirTexts }
{}

/// The first line is read exactly where a report begins with it.
pub fn header_reads_back()
    ensures { HeadersAreTheirText }
{}

/// The last line is read exactly where its text stands and nothing after it.
pub fn end_reads_back()
    ensures { EndsAreTheirTexts }
{}

/// Two lists of blocks that have a text have two reports.
pub fn one_spelling()
    ensures { ReportsHaveOneText }
{}

/// What follows a block is told apart by its first word.
pub fn begins_with_its_word()
    ensures block { BlocksBeginWithLine }
    ensures end { EndsBeginWithEnd }
{}

/// A report is UTF-8.
pub fn reports_are_utf8()
    ensures { ReportsAreUtf8 }
{}

/// A text is refused as a block, or as the last line, exactly with the fault of the first faulty
/// word of its first faulty line.
pub fn the_first_fault_is_given()
    ensures block { BlocksFailFirst }
    ensures end { EndsFailFirst }
{}
