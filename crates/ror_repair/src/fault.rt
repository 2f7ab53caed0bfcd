//! Why there is no repair.

ghost use Rattle.std.specs.Prelude.{◌≡◌};
ghost use Rattle.ror_repair.specs.declared.fault.RepairFault.TheVariants.{Memory};

use ror_proof::WideText;
use std::alloc::{AllocError, AllocFailed};
use thiserror::Error;

/// Why there is no repair.
#[derive(Debug, Drop, Error)]
pub enum RepairFault {
    /// On the path of the system of the statements kept before the one with this number, and of itself, this is the first
    /// number that passes the width.
    #[error("a number of the system of statement {0} is too wide")]
    Wide(u32, WideText),
    #[error("out of memory")]
    Memory,
}

impl From<AllocError> for RepairFault {
    ghost from_gives = { λ _ e. e ≡ Memory };

    fn from(_error: AllocError) -> RepairFault {
        RepairFault::Memory
    }
}

impl<T: Drop> From<AllocFailed<T>> for RepairFault {
    ghost from_gives = { λ _ e. e ≡ Memory };

    fn from(_error: AllocFailed<T>) -> RepairFault {
        RepairFault::Memory
    }
}
