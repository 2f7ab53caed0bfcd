//! A run of the program, over any files and streams.
//!
//! [`run`] does what the words of a command line ask for, over a shelf, standard output and standard error, and gives
//! the [`Status`] that it ended with.
//!
//! ```text
//! run   of check t s r, where r is a report with one proved answer   Done, and on standard output
//!       accepted 1 wide 0
//! run   of check t s                                                 Usage, and the commands on standard error
//! ```
#![tactic(auto)]

mod running;

pub use ror_frame::Status;
pub use running::run;
