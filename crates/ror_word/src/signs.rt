//! Tests of a word's value.

ghost use Rattle.std.specs.Prelude.{◌≡◌, ◌↔◌, IsTrue, pos, ◌<ℤ◌};

use crate::word::Word;

/// Whether the value is 0.
pub fn is_zero<W: Word>(word: W) -> bool
    ensures { IsTrue result ↔ (W.value word ≡ pos 0) }
{
    word == W::ZERO
}

/// Whether the value is 1.
pub fn is_one<W: Word>(word: W) -> bool
    ensures { IsTrue result ↔ (W.value word ≡ pos 1) }
{
    word == W::ONE
}

/// Whether the value is below 0.
pub fn is_negative<W: Word>(word: W) -> bool
    ensures { IsTrue result ↔ (W.value word <ℤ pos 0) }
{
    word < W::ZERO
}

/// Whether the value is above 0.
pub fn is_positive<W: Word>(word: W) -> bool
    ensures { IsTrue result ↔ (pos 0 <ℤ W.value word) }
{
    word > W::ZERO
}
