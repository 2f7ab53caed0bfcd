//! Why a part of a path is not made.

ghost use Rattle.std.specs.Prelude.{◌≡◌};
ghost use Rattle.ror_pivot.specs.declared.fault.NumberFault.TheVariants.{Memory};
ghost use Rattle.ror_pivot.specs.declared.fault.ClimbStop.TheVariants as stops;
ghost use Rattle.ror_pivot.specs.ClimbCalls.{climb_stop};

use crate::note::Place;
use crate::optimum::ClimbPlace;
use std::alloc::{AllocError, AllocFailed};

/// A number is too wide, or memory ran out.
#[derive(Clone, Copy, Debug, PartialEq, Eq)]
pub enum NumberFault {
    /// The number at this place, and none before it, is too wide.
    Wide(Place),
    /// Memory ran out.
    Memory,
}

impl From<AllocError> for NumberFault {
    ghost from_gives = { λ _ e. e ≡ Memory };

    fn from(_e: AllocError) -> NumberFault {
        NumberFault::Memory
    }
}

impl<T: Drop> From<AllocFailed<T>> for NumberFault {
    ghost from_gives = { λ _ e. e ≡ Memory };

    fn from(_e: AllocFailed<T>) -> NumberFault {
        NumberFault::Memory
    }
}

/// A number of a climbing path is too wide, or memory ran out.
#[derive(Clone, Copy, Debug, PartialEq, Eq)]
pub enum ClimbStop {
    /// The number at this place, and none before it, is too wide.
    Wide(ClimbPlace),
    /// Memory ran out.
    Memory,
}

impl From<NumberFault> for ClimbStop {
    ghost from_gives = { λ fault stop. stop ≡ climb_stop fault };

    fn from(fault: NumberFault) -> ClimbStop {
        match fault {
            NumberFault::Wide(place) => ClimbStop::Wide(ClimbPlace::of(place)),
            NumberFault::Memory => ClimbStop::Memory,
        }
    }
}

impl From<AllocError> for ClimbStop {
    ghost from_gives = { λ _ stop. stop ≡ stops.Memory };

    fn from(_e: AllocError) -> ClimbStop {
        ClimbStop::Memory
    }
}

impl<T: Drop> From<AllocFailed<T>> for ClimbStop {
    ghost from_gives = { λ _ stop. stop ≡ stops.Memory };

    fn from(_e: AllocFailed<T>) -> ClimbStop {
        ClimbStop::Memory
    }
}
