//! The entry of a pair in a group's report.

use crate::quartet::{Quartet, Word4};
use ror_proof::Answer;
use ror_proof::names::Name;
use ror_text::Items;

/// What a group's report says of a pair of alternatives.
#[derive(Debug, Drop)]
pub struct Entry {
    /// The place of the first alternative.
    pub first: usize,
    /// The place of the second.
    pub second: usize,
    /// The answers of the judges in order, of each that to `Necessary` and then that to `Possible`.
    pub answers: Items<Answer>,
    /// The words of the group.
    pub quartet: Quartet,
}

/// The words that may stand in the line of a group's words.
pub(crate) const GROUP_WORDS: [Word4; 4] = [
    Word4::Yes,
    Word4::No,
    Word4::Contradiction,
    Word4::Wide,
];

impl Name for Word4 {
    ghost use Rattle.ror_group.specs.Text.{group_word};

    ghost word_of = { group_word };

    fn word(self) -> &'static [u8] {
        match self {
            Word4::Yes => b"yes",
            Word4::No => b"no",
            Word4::Contradiction => b"contradiction",
            Word4::Wide => b"wide",
        }
    }
}
