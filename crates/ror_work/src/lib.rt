//! The commands on the files of a session: its report is written, or checked.
//!
//! [`replay_files`] fetches a table and a session and writes the report. [`check_files`] fetches a report besides, and
//! writes how many answers of it were accepted. Both say whether anything is too wide, or the [`ror_frame::Stop`] at
//! which the work ended.
//!
//! Over alternatives a, b and c that are evaluated 3, 2 and 1 by a criterion that is to be high, and 10, 8 and 12 by one
//! that is to be low, with the line `ask necessary a c`:
//!
//! ```text
//! replay_files   Ok(false), and on standard output   ror-report 1
//!                                                    line 1
//!                                                    answer necessary a c yes
//!                                                    base solution 1 0 0 0
//!                                                    part 1 multipliers | 0 1
//!                                                    end 1
//! check_files    Ok(false), of that report           accepted 1 wide 0
//! ```
#![tactic(auto)]

mod check;
mod replay;

pub use check::check_files;
pub use replay::replay_files;
