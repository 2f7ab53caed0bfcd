//! Why a reduct is not accepted.

ghost use Rattle.std.specs.Prelude.{◌≡◌};
ghost use Rattle.ror_reason.specs.declared.fault.ReductFault.TheVariants.{Memory};

use ror_check::CheckFault;
use std::alloc::{AllocError, AllocFailed};
use thiserror::Error;

/// Why a reduct is not accepted: the first test that fails, in this order. Answers beside numbers are counted from 1.
#[derive(Debug, Drop, Error)]
pub enum ReductFault {
    /// No statement carries that the question is answered so: one function decides it, or it is that each one leaves an
    /// alternative a class.
    #[error("no statement carries this answer to the question")]
    NotCarried,
    /// The numbers are not those of statements of the list, each once, in increasing order.
    #[error("the numbers are not those of statements of the list in increasing order")]
    WrongNumbers,
    /// There is not one answer beside each number.
    #[error("there is not one answer beside each number")]
    Count,
    /// The answer over the part concludes something else, or nothing.
    #[error("the answer over the part concludes something else")]
    AnotherAnswer,
    /// The answer over the part is not accepted.
    #[error("the answer over the part is not accepted: {0}")]
    Answer(CheckFault),
    /// The answer at this place is the first that is not accepted: it concludes the same as the one over the part.
    #[error("answer {0} over all but one concludes the same")]
    SameAnswer(u32),
    /// The answer at this place is the first that is not accepted, and this is the first test that it fails over all but the
    /// number there.
    #[error("answer {0} over all but one is not accepted: {1}")]
    Other(u32, CheckFault),
    #[error("out of memory")]
    Memory,
}

impl From<AllocError> for ReductFault {
    ghost from_gives = { λ _ e. e ≡ Memory };

    fn from(_error: AllocError) -> ReductFault {
        ReductFault::Memory
    }
}

impl<T: Drop> From<AllocFailed<T>> for ReductFault {
    ghost from_gives = { λ _ e. e ≡ Memory };

    fn from(_error: AllocFailed<T>) -> ReductFault {
        ReductFault::Memory
    }
}
