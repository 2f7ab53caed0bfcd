//! Why an answer is not accepted.

ghost use Rattle.std.specs.Prelude.{◌≡◌};
ghost use Rattle.ror_check.specs.declared.fault.CheckFault.TheVariants.{Memory};

use ror_system::Reject;
use std::alloc::{AllocError, AllocFailed};
use thiserror::Error;

/// Why an answer is not accepted: the first test that fails, in this order.
#[derive(Debug, Drop, Error)]
pub enum CheckFault {
    /// The answer is to another question.
    #[error("the answer is to another question")]
    WrongQuestion,
    /// The verdict is none that a proof can give the question, or the base or a part is a certificate of another kind than
    /// it wants.
    #[error("the verdict has no proof, or a certificate of another kind than it wants")]
    WrongVerdict,
    /// The parts do not have the numbers that the verdict wants: those of all systems of the question in order, that of one
    /// of them, or none.
    #[error("the parts are not those that the verdict wants")]
    PartCount,
    /// The base is not accepted.
    #[error("the base is not accepted: {0:?}")]
    Base(Reject),
    /// A part is not accepted; parts are counted from 1.
    #[error("part {0} is not accepted: {1:?}")]
    Part(u32, Reject),
    #[error("out of memory")]
    Memory,
}

impl From<AllocError> for CheckFault {
    ghost from_gives = { λ _ e. e ≡ Memory };

    fn from(_error: AllocError) -> CheckFault {
        CheckFault::Memory
    }
}

/// Why answers over the same statements are not all accepted.
#[derive(Debug, Drop, Error)]
pub enum AnswersFault {
    /// The answer at this place, counted from 1, is the first that is not accepted, and this is the first test that it
    /// fails.
    #[error("answer {0} is not accepted: {1}")]
    Answer(u32, CheckFault),
    #[error("out of memory")]
    Memory,
}

impl From<AllocError> for AnswersFault {
    ghost use Rattle.ror_check.specs.declared.fault.AnswersFault.TheVariants as answers;

    ghost from_gives = { λ _ e. e ≡ answers.Memory };

    fn from(_error: AllocError) -> AnswersFault {
        AnswersFault::Memory
    }
}

/// Why a repair is not accepted: the first test that fails, in this order.
#[derive(Debug, Drop, Error)]
pub enum RepairCheckFault {
    /// The dropped statements are not standing ones, each once, in increasing order of number.
    #[error("the dropped statements are not standing ones in increasing order")]
    WrongList,
    /// The base is multipliers, though a statement is kept.
    #[error("the base is multipliers, though a statement is kept")]
    WrongKind,
    /// The multipliers of the dropped statement with this number are the first that are not accepted.
    #[error("the multipliers of statement {0} are not accepted: {1:?}")]
    Dropped(u32, Reject),
    /// The base is not accepted.
    #[error("the base is not accepted: {0:?}")]
    Base(Reject),
    #[error("out of memory")]
    Memory,
}

impl From<AllocError> for RepairCheckFault {
    ghost use Rattle.ror_check.specs.declared.fault.RepairCheckFault.TheVariants as repairs;

    ghost from_gives = { λ _ e. e ≡ repairs.Memory };

    fn from(_error: AllocError) -> RepairCheckFault {
        RepairCheckFault::Memory
    }
}

impl<T: Drop> From<AllocFailed<T>> for RepairCheckFault {
    ghost use Rattle.ror_check.specs.declared.fault.RepairCheckFault.TheVariants as repairs;

    ghost from_gives = { λ _ e. e ≡ repairs.Memory };

    fn from(_error: AllocFailed<T>) -> RepairCheckFault {
        RepairCheckFault::Memory
    }
}
