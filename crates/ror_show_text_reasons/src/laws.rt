//! Each function here states one law, and does nothing.

ghost use Rattle.ror_show_text_reasons.specs.Laws.{DominanceHolds};

/// What is said to hold by dominance alone holds of every value function.
pub fn dominance_holds()
    ensures { DominanceHolds }
{}
