//! What stops a command: the line is refused, or memory runs out.

ghost use Rattle.std.specs.Prelude.{◌≡◌};
ghost use Rattle.ror_bench.specs.Steps as steps;
ghost use Rattle.ror_bench.specs.declared.stop.LineStop.TheVariants as stops;

use ror_history::HistoryFault;
use ror_report::LineFault;
use std::alloc::{AllocError, AllocFailed};

/// Why a command is not done at its desk.
#[derive(Debug, Drop)]
pub(crate) enum LineStop {
    /// The line is refused.
    Refused(LineFault),
    Memory,
}

impl From<LineFault> for LineStop {
    ghost from_gives = { λ fault stop. stop ≡ stops.Refused fault };

    fn from(fault: LineFault) -> LineStop {
        LineStop::Refused(fault)
    }
}

impl From<HistoryFault> for LineStop {
    ghost from_gives = { λ fault stop. stop ≡ steps.stop_of_history fault };

    fn from(fault: HistoryFault) -> LineStop {
        match fault {
            HistoryFault::NoSuchStatement => LineStop::Refused(LineFault::NoSuchStatement),
            HistoryFault::NothingToUndo => LineStop::Refused(LineFault::NothingToUndo),
            HistoryFault::TooManyStatements => LineStop::Refused(LineFault::TooManyStatements),
            HistoryFault::TooManyRows => LineStop::Refused(LineFault::TooManyRows),
            HistoryFault::Memory => LineStop::Memory,
        }
    }
}

impl From<AllocError> for LineStop {
    ghost from_gives = { λ _ stop. stop ≡ stops.Memory };

    fn from(_error: AllocError) -> LineStop {
        LineStop::Memory
    }
}

impl<T: Drop> From<AllocFailed<T>> for LineStop {
    ghost from_gives = { λ _ stop. stop ≡ stops.Memory };

    fn from(_error: AllocFailed<T>) -> LineStop {
        LineStop::Memory
    }
}
