//! What all commands have in common: how a run ends and the line that says so, where work stops, and the files of a
//! session.
//!
//! A run ends with a [`Status`], which has an exit status and a line for standard error, [`write_status`]. The work of a
//! command stops at a [`Stop`]: at a file whose bytes are refused, or at a fault of the outside. [`fetch_table`] and
//! [`fetch_session`] are how most commands begin, and [`opened_desks`] is how they go on, or [`closed_desks`] on closing lists.
//!
//! What a run is holds over any words, for every program whose commands are courses. Words ask for a task or for nothing, and a
//! task has a chore. When each status comes then, and what is written, is one record (`IsRunBy`, in `specs/Runs`), and what comes
//! of the work on the chore tells that it holds (`worked_run`, in `proofs/AnyRun`).
//!
//! ```text
//! fetch_table     of a table whose second line is no line of one   Err(At(BadTable(BadLine, line 2)))
//! fetch_session   where there is no such file                      Err(ReadFault)
//! write_status    of the first                                     bad table: BadLine line 2
//! ```
#![tactic(auto)]

mod closed;
mod files;
mod opened;
mod status;
mod stop;
mod texts;

pub use closed::closed_desks;
pub use files::{fetch_report, fetch_session, fetch_suited, fetch_table, fetch_whole};
pub use opened::opened_desks;
pub use status::Status;
pub use stop::{Refusal, Stop};
pub use texts::{conclude, write_accepted, write_status};
