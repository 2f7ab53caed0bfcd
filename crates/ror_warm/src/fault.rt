//! Why a tableau is of no use any more.

ghost use Rattle.std.specs.Prelude.{◌≡◌};
ghost use Rattle.ror_warm.specs.declared.fault.TableauFault.TheVariants.{Memory};

use std::alloc::{AllocError, AllocFailed};

/// A number may be too wide, or memory ran out.
#[derive(Clone, Copy, Debug, PartialEq, Eq)]
pub(crate) enum TableauFault {
    /// A number may be too wide, or a row isn't there.
    Lost,
    /// Memory ran out.
    Memory,
}

impl From<AllocError> for TableauFault {
    ghost from_gives = { λ _ e. e ≡ Memory };

    fn from(_e: AllocError) -> TableauFault {
        TableauFault::Memory
    }
}

impl<T: Drop> From<AllocFailed<T>> for TableauFault {
    ghost from_gives = { λ _ e. e ≡ Memory };

    fn from(_e: AllocFailed<T>) -> TableauFault {
        TableauFault::Memory
    }
}

/// Nothing in the place of what was lost.
///
/// # Errors
///
/// Only want of memory.
pub(crate) fn without_lost<T: Drop>(
    given: Result<T, TableauFault>,
) -> Result<Option<T>, AllocError> {
    match given {
        Ok(value) => Ok(Some(value)),
        Err(TableauFault::Lost) => Ok(None),
        Err(TableauFault::Memory) => Err(AllocError),
    }
}
