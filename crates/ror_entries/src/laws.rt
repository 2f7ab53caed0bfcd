//! Laws of the kinds of entries, each the clause of a function that does nothing.

ghost use Rattle.ror_entries.specs.Kind.{IsKind};
ghost use Rattle.ror_entries.specs.Laws.{EntriesHaveOneText, KeptAreProved, RejectedIsNotProved, HasOneCount, HasOneRejection, EntriesAreUtf8, GivenAreProved};

use crate::check::Judge;
use crate::write::Maker;

/// Two lists of entries that have a text have two.
pub fn one_spelling<J: Judge>()
    ensures { (judge : J) → IsKind (J.kind judge) → EntriesHaveOneText (J.kind judge) }
{}

/// What is kept is proved, and bytes are the text of one list of proved entries.
pub fn kept_are_proved<J: Judge>()
    ensures { (judge : J) → IsKind (J.kind judge) → KeptAreProved (J.kind judge) }
{}

/// What is rejected for a first fault is not the text of proved entries.
pub fn rejected_is_not_proved<J: Judge>()
    ensures { (judge : J) → IsKind (J.kind judge) → RejectedIsNotProved (J.kind judge) }
{}

/// The text of proved entries has one count of answers that have a proof, and one of those too wide.
pub fn one_count<J: Judge>()
    ensures { (judge : J) → IsKind (J.kind judge) → HasOneCount (J.kind judge) }
{}

/// Bytes are rejected for one first fault, where each entry is.
pub fn one_rejection<J: Judge>()
    ensures { (judge : J) → IsKind (J.kind judge) → HasOneRejection (J.kind judge) }
{}

/// The text of entries is UTF-8.
pub fn entries_are_utf8<J: Judge>()
    ensures { (judge : J) → IsKind (J.kind judge) → EntriesAreUtf8 (J.kind judge) }
{}

/// What is written of entries that are proved where they may be given is the text of proved entries.
pub fn given_are_proved<M: Maker>()
    ensures { (maker : M) → GivenAreProved (M.kind maker) (M.given maker) }
{}
