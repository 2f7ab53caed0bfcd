//! Why a value or a text is read as no report.

use std::alloc::{AllocError, AllocFailed};
use thiserror::Error;

/// Why no blocks were read of a value.
#[derive(Debug, Drop, Error)]
pub enum JsonFault {
    /// The value is the form of no list of blocks: 0 where it isn't the object around blocks, else the number of the first
    /// one, from 1, that is no block's form.
    #[error("bad shape in block {0}")]
    BadShape(usize),
    #[error("out of memory")]
    Memory,
}

impl From<AllocError> for JsonFault {
    ghost use Rattle.std.specs.Prelude.{◌≡◌};
    ghost use Rattle.ror_json.specs.declared.fault.JsonFault.TheVariants.{Memory};

    ghost from_gives = { λ _ e. e ≡ Memory };

    fn from(_error: AllocError) -> JsonFault {
        JsonFault::Memory
    }
}

impl<T: Drop> From<AllocFailed<T>> for JsonFault {
    ghost use Rattle.std.specs.Prelude.{◌≡◌};
    ghost use Rattle.ror_json.specs.declared.fault.JsonFault.TheVariants.{Memory};

    ghost from_gives = { λ _ e. e ≡ Memory };

    fn from(_error: AllocFailed<T>) -> JsonFault {
        JsonFault::Memory
    }
}

/// Why no blocks were read of bytes.
#[derive(Debug, Drop, Error)]
pub enum TextFault {
    /// The bytes are no JSON in UTF-8.
    #[error("no JSON")]
    BadJson,
    /// They are JSON of a value that is the form of no list of blocks: 0 where it isn't the object around blocks, else the
    /// number of the first one, from 1, that is no block's form.
    #[error("bad shape in block {0}")]
    BadShape(u32),
    #[error("out of memory")]
    Memory,
}

/// Why one piece of a report was not read of a value.
#[derive(Drop)]
pub(crate) enum Misfit {
    /// The value is not the form of such a piece.
    Shape,
    Memory,
}

impl From<AllocError> for Misfit {
    ghost use Rattle.std.specs.Prelude.{◌≡◌};
    ghost use Rattle.ror_json.specs.declared.fault.Misfit.TheVariants.{Memory};

    ghost from_gives = { λ _ e. e ≡ Memory };

    fn from(_error: AllocError) -> Misfit {
        Misfit::Memory
    }
}

impl<T: Drop> From<AllocFailed<T>> for Misfit {
    ghost use Rattle.std.specs.Prelude.{◌≡◌};
    ghost use Rattle.ror_json.specs.declared.fault.Misfit.TheVariants.{Memory};

    ghost from_gives = { λ _ e. e ≡ Memory };

    fn from(_error: AllocFailed<T>) -> Misfit {
        Misfit::Memory
    }
}
