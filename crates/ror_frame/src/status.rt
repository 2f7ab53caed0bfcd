//! How a run ends.

ghost use Rattle.std.specs.Prelude.{◌≡◌};

use crate::stop::Stop;
use ror_bench::Rejection;
use ror_confidence::LevelsFault;
use ror_session::SessionFault;
use ror_table::TableFault;

/// How a run ended.
#[derive(Debug, Drop)]
pub enum Status {
    /// The work was done to the last line, and nothing is too wide.
    Done,
    /// The words are not those of a command.
    Usage,
    /// The table's bytes are no table: the first fault.
    BadTable(TableFault),
    /// The session's bytes are no session: the first fault.
    BadSession(SessionFault),
    /// The report's bytes are no report that is proved for the session but for answers and repairs that are too wide: why.
    Rejected(Rejection),
    /// The report is proved so, and the bytes of the certificates are none that are proved over it: why.
    Uncertified(Rejection),
    /// A file is not there, or could not be read.
    ReadFault,
    /// Standard output could not be written.
    WriteFault,
    /// There was not enough memory.
    Memory,
    /// The work was done to the last line, and at least one answer or repair is too wide.
    DoneWide,
    /// The session has a line that the command doesn't take: the first one's number.
    Unsuited(u32),
    /// The session is suited, and the bytes of the levels file are no levels of its statements: the first fault.
    BadLevels(LevelsFault),
}

impl Status {
    ghost use Rattle.ror_frame.specs.Statuses.{code_of};
    ghost use Rattle.ror_frame.specs.Stops.{status_after};

    /// The status after the work of a command: by whether anything is too wide, or where it stopped.
    pub fn after(outcome: Result<bool, Stop>) -> Status
        ensures { result ≡ status_after outcome }
    {
        match outcome {
            Ok(false) => Status::Done,
            Ok(true) => Status::DoneWide,
            Err(stop) => Status::from(stop),
        }
    }

    /// The process's exit status.
    pub fn code(&self) -> u8
        ensures { result ≡ code_of self.now }
    {
        match self {
            Status::Done => 0,
            Status::Usage => 2,
            Status::BadTable(_) => 3,
            Status::BadSession(_) => 4,
            Status::Rejected(_) | Status::Uncertified(_) => 5,
            Status::ReadFault => 6,
            Status::WriteFault => 7,
            Status::Memory => 8,
            Status::DoneWide => 9,
            Status::Unsuited(_) => 10,
            Status::BadLevels(_) => 11,
        }
    }
}
