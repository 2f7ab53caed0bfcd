//! The entry of a pair in a report of spans.

use ror_confidence::{LevelAnswer, Span};
use ror_proof::names::Name;

/// What a report of spans says of an ordered pair of alternatives, which are places in the table.
#[derive(Debug, Drop)]
pub enum Entry {
    /// The span of the pair, with its proof.
    Known {
        first: usize,
        second: usize,
        span: Span,
    },
    /// An answer that is too wide, on which the span of the pair depends.
    Wide {
        first: usize,
        second: usize,
        found: LevelAnswer,
    },
}

/// Which of the two an entry is, by the word after the ids.
#[derive(Clone, Copy)]
pub(crate) enum Form {
    Known,
    Wide,
}

pub(crate) const FORMS: [Form; 2] = [Form::Known, Form::Wide];

impl Name for Form {
    ghost use Rattle.ror_spans.specs.Text.{form_word};

    ghost word_of = { form_word };

    fn word(self) -> &'static [u8] {
        match self {
            Form::Known => b"contradictory",
            Form::Wide => b"wide",
        }
    }
}
