//! Why the words of a group are not accepted.

ghost use Rattle.std.specs.Prelude.{◌≡◌};
ghost use Rattle.ror_group.specs.declared.fault.GroupFault.TheVariants.{Memory};

use ror_check::CheckFault;
use std::alloc::AllocError;
use thiserror::Error;

/// Why the answers and the words of a pair are not accepted: the first test that fails, in this order.
#[derive(Debug, Drop, Error)]
pub enum GroupFault {
    /// There are not two answers for each judge.
    #[error("there are not two answers for each judge")]
    Count,
    /// The answer at this place, counted from 1, is the first that is not accepted, and this is the first test that it
    /// fails. An answer that is too wide is accepted unless it is to another question.
    #[error("answer {0} is not accepted: {1}")]
    Answer(u32, CheckFault),
    /// The words are not those that follow from the answers.
    #[error("the words do not follow from the answers")]
    WrongQuartet,
    #[error("out of memory")]
    Memory,
}

impl From<AllocError> for GroupFault {
    ghost from_gives = { λ _ e. e ≡ Memory };

    fn from(_error: AllocError) -> GroupFault {
        GroupFault::Memory
    }
}
