//! The commands on reports as JSON: the report of a session is written, or checked.
//!
//! [`replay_json_files`] fetches a table and a session, and writes the report of the session as JSON on one line, once all
//! blocks are there. [`check_json_files`] fetches such a report besides, and writes how many answers of it were accepted. Both
//! say whether anything is too wide, or the [`ror_frame::Stop`] at which the work ended.
//!
//! Over alternatives a, b and c that are evaluated 3, 2 and 1 by a criterion that is to be high, and 10, 8 and 12 by one
//! that is to be low, with the line `ask necessary a c`:
//!
//! ```text
//! replay_json_files   Ok(false), and on standard output, on one line
//!                     {"blocks":[{"answers":[{"base":{"solution":["1","0","0","0"]},"parts":[{"at":1,"multipliers":
//!                     {"strict":["0","1"],"weak":[]}}],"question":"necessary a c","verdict":"yes"}],"line":1}],"report":1}
//! check_json_files    Ok(false), of that report: `accepted 1 wide 0`
//! ```
#![tactic(auto)]

mod blocks;
mod check;
pub mod laws;
mod replay;

pub use check::check_json_files;
pub use replay::replay_json_files;
