//! Laws of the definitions, each the clause of a function that does nothing.

ghost use Rattle.ror_show_spreadsheet.specs.Laws.{TextsAreReadBack, ValuesAreCells};

/// The text that a spreadsheet leads to is read as the table that the spreadsheet is read as.
pub fn texts_are_read_back()
    ensures { TextsAreReadBack }
{}

/// Each criterion is that of a column, by its name and by what is said of it; each alternative is that of a row, and its performances
/// are the numbers of the row's cells, in their columns.
pub fn values_are_cells()
    ensures { ValuesAreCells }
{}
