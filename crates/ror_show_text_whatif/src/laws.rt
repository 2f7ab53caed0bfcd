//! Each function here states one law, and does nothing.

ghost use Rattle.ror_show_text_whatif.specs.Laws.{EachHasARow};

/// No row of a table has a greater count than that with which its rows begin, so each is written.
pub fn each_has_a_row()
    ensures { EachHasARow }
{}
