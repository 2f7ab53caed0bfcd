//! Each function here states one law, and does nothing.

ghost use Rattle.ror_show_text_relation.specs.Laws.{ApartAreOpen};

/// Where each cell says something, an alternative of which nothing is known is open with each other one.
pub fn apart_are_open()
    ensures { ApartAreOpen }
{}
