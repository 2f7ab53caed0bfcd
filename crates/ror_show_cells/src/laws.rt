//! Laws of the definitions, each the clause of a function that does nothing.

ghost use Rattle.ror_show_cells.specs.Laws.{NumbersHaveOneMeaning, OneMarkIsShown, LimitsAre};

/// A cell has an amount exactly where it writes that amount with the sheet's decimal mark, has no other mark, and could not mean a number
/// with marks between thousands, unless another number of the sheet shows what the mark is.
pub fn numbers_have_one_meaning()
    ensures { NumbersHaveOneMeaning }
{}

/// A number shows the decimal mark, a comma or a point, only where it has no meaning with marks between thousands.
pub fn one_mark_is_shown()
    ensures { OneMarkIsShown }
{}

/// A spreadsheet has at most 1,000 rows.
pub fn limits()
    ensures { LimitsAre }
{}
