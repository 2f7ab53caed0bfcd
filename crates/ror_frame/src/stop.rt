//! Where the work of a command stops.

ghost use Rattle.std.specs.Prelude.{◌≡◌};

use crate::status::Status;
use ror_bench::{Rejection, ReportError};
use ror_confidence::LevelsFault;
use ror_io::{ShelfFault, SinkFault};
use ror_session::SessionFault;
use ror_table::{TableError, TableFault};
use std::alloc::AllocError;

/// Why the bytes of a file are refused.
#[derive(Debug, Drop)]
pub enum Refusal {
    /// The table's bytes are no table.
    BadTable(TableFault),
    /// The session's bytes are no session.
    BadSession(SessionFault),
    /// The report's bytes are no report that is proved for the session but for answers and repairs that are too wide.
    Rejected(Rejection),
    /// The report is proved so, and the bytes of the certificates are none that are proved over it; a certificate counts as a block.
    Uncertified(Rejection),
    /// The session is one, and has a line that the command doesn't take: the first one's number.
    Unsuited(u32),
    /// The bytes are no levels of the statements of a session that is suited.
    BadLevels(LevelsFault),
}

/// Why the work came to no report, or to none that is accepted.
#[derive(Debug, Drop)]
pub enum Stop {
    /// The bytes of a file are refused.
    At(Refusal),
    /// A file is not there, or could not be read.
    ReadFault,
    /// Standard output could not be written.
    WriteFault,
    /// There was not enough memory.
    Memory,
}

impl From<AllocError> for Stop {
    ghost use Rattle.ror_frame.specs.declared.stop.Stop.TheVariants.{Memory};

    ghost from_gives = { λ _ stop. stop ≡ Memory };

    fn from(_error: AllocError) -> Stop {
        Stop::Memory
    }
}

impl From<ShelfFault> for Stop {
    ghost use Rattle.ror_frame.specs.Stops.{stop_at_shelf};

    ghost from_gives = { λ fault stop. stop ≡ stop_at_shelf fault };

    fn from(fault: ShelfFault) -> Stop {
        match fault {
            ShelfFault::Failed => Stop::ReadFault,
            ShelfFault::Memory => Stop::Memory,
        }
    }
}

impl From<SinkFault> for Stop {
    ghost use Rattle.ror_frame.specs.declared.stop.Stop.TheVariants.{WriteFault};

    ghost from_gives = { λ _ stop. stop ≡ WriteFault };

    fn from(_fault: SinkFault) -> Stop {
        Stop::WriteFault
    }
}

impl From<TableError> for Stop {
    ghost use Rattle.ror_frame.specs.Stops.{stop_at_table};

    ghost from_gives = { λ error stop. stop ≡ stop_at_table error };

    fn from(error: TableError) -> Stop {
        match error {
            TableError::Bad(fault) => Stop::At(Refusal::BadTable(fault)),
            TableError::Memory => Stop::Memory,
        }
    }
}

impl From<SessionFault> for Stop {
    ghost use Rattle.ror_frame.specs.Stops.{stop_at_session};

    ghost from_gives = { λ fault stop. stop ≡ stop_at_session fault };

    fn from(fault: SessionFault) -> Stop {
        match fault {
            SessionFault::Memory => Stop::Memory,
            fault => Stop::At(Refusal::BadSession(fault)),
        }
    }
}

impl From<LevelsFault> for Stop {
    ghost use Rattle.ror_frame.specs.Stops.{stop_at_levels};

    ghost from_gives = { λ fault stop. stop ≡ stop_at_levels fault };

    fn from(fault: LevelsFault) -> Stop {
        match fault {
            LevelsFault::Memory => Stop::Memory,
            fault => Stop::At(Refusal::BadLevels(fault)),
        }
    }
}

impl From<ReportError> for Stop {
    ghost use Rattle.ror_frame.specs.Stops.{stop_at_report};

    ghost from_gives = { λ error stop. stop ≡ stop_at_report error };

    fn from(error: ReportError) -> Stop {
        match error {
            ReportError::Rejected(rejection) => Stop::At(Refusal::Rejected(rejection)),
            ReportError::Memory => Stop::Memory,
        }
    }
}

impl From<Refusal> for Status {
    ghost use Rattle.ror_frame.specs.Stops.{refused_status};

    ghost from_gives = { λ refusal status. status ≡ refused_status refusal };

    fn from(refusal: Refusal) -> Status {
        match refusal {
            Refusal::BadTable(fault) => Status::BadTable(fault),
            Refusal::BadSession(fault) => Status::BadSession(fault),
            Refusal::Rejected(rejection) => Status::Rejected(rejection),
            Refusal::Uncertified(rejection) => Status::Uncertified(rejection),
            Refusal::Unsuited(line) => Status::Unsuited(line),
            Refusal::BadLevels(fault) => Status::BadLevels(fault),
        }
    }
}

impl From<Stop> for Status {
    ghost use Rattle.ror_frame.specs.Stops.{status_at};

    ghost from_gives = { λ stop status. status ≡ status_at stop };

    fn from(stop: Stop) -> Status {
        match stop {
            Stop::At(refusal) => Status::from(refusal),
            Stop::ReadFault => Status::ReadFault,
            Stop::WriteFault => Status::WriteFault,
            Stop::Memory => Status::Memory,
        }
    }
}
