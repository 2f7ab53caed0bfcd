//! Why levels, and spans over them, are refused.

ghost use Rattle.std.specs.Prelude.{◌≡◌};
ghost use Rattle.ror_confidence.specs.declared.fault.LevelsFault.TheVariants.{Memory};
ghost use Rattle.ror_confidence.specs.declared.fault.SpanFault.TheVariants as spans;
ghost use Rattle.ror_confidence.specs.declared.fault.SpanCheckFault.TheVariants as checks;

use crate::span::LevelAnswer;
use ror_check::CheckFault;
use std::alloc::{AllocError, AllocFailed};
use thiserror::Error;

/// Why no levels were read: too many bytes before bytes that are not UTF-8, these before the lines, and in each line what is
/// listed here, in this order. Lines are counted from 1, those that are passed over among them.
#[derive(Debug, Drop, Error)]
pub enum LevelsFault {
    /// There are more than 1,048,576 bytes.
    #[error("too long")]
    TooLong,
    /// The bytes are not UTF-8.
    #[error("not UTF-8")]
    NotUtf8,
    /// The line is not the one that has to stand there, or it puts a statement on a level that there is not. Where no line is
    /// left to begin with or to count the levels, it is the line after the last.
    #[error("bad line {0}")]
    BadLine(u32),
    /// An earlier line puts the same statement on a level.
    #[error("repeated line {0}")]
    Repeated(u32),
    /// No statement with this number stands.
    #[error("unknown statement at line {0}")]
    UnknownStatement(u32),
    #[error("out of memory")]
    Memory,
}

impl From<AllocError> for LevelsFault {
    ghost from_gives = { λ _ e. e ≡ Memory };

    fn from(_error: AllocError) -> LevelsFault {
        LevelsFault::Memory
    }
}

impl<T: Drop> From<AllocFailed<T>> for LevelsFault {
    ghost from_gives = { λ _ e. e ≡ Memory };

    fn from(_error: AllocFailed<T>) -> LevelsFault {
        LevelsFault::Memory
    }
}

/// Why no span was found.
#[derive(Debug, Drop, Error)]
pub enum SpanFault {
    /// This answer is too wide, and the span depends on it.
    #[error("too wide")]
    Wide(LevelAnswer),
    #[error("out of memory")]
    Memory,
}

impl From<AllocError> for SpanFault {
    ghost from_gives = { λ _ e. e ≡ spans.Memory };

    fn from(_error: AllocError) -> SpanFault {
        SpanFault::Memory
    }
}

/// Why a span is not accepted: the first test that fails, in this order.
#[derive(Debug, Drop, Error)]
pub enum SpanCheckFault {
    /// The levels of the span cannot be those of one over so many levels.
    #[error("the levels of the span are out of range")]
    Range,
    /// The answers are not at the levels, or not to the questions, of the span's borders.
    #[error("the answers are not those of the borders of the span")]
    Shape,
    /// The answer at this place, counted from 1, is the first that is not accepted, and this is the first test that it fails.
    /// A verdict with another conclusion than the border wants is a wrong one.
    #[error("answer {0} is not accepted: {1}")]
    Answer(u32, CheckFault),
    #[error("out of memory")]
    Memory,
}

impl From<AllocError> for SpanCheckFault {
    ghost from_gives = { λ _ e. e ≡ checks.Memory };

    fn from(_error: AllocError) -> SpanCheckFault {
        SpanCheckFault::Memory
    }
}
