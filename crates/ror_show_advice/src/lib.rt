//! Advice where a file isn't read, or words ask for nothing: what helps, in plain words.
//!
//! Each call gives, behind an empty line, the file, the line's text with the place marked, what was expected there, and what is likely. Which place
//! that is, and what is likely, is looked for a second time and without promise: the line that a program says of the fault is what
//! holds.
//!
//! ```text
//! session.txt, line 3:
//!     Prefer a b
//!     ^^^^^^
//! expected  one of: prefer atleast same stronger asstrong equal class withdraw replace repair undo ask
//! likely    capital letters: write `prefer`
//! ```
#![tactic(auto)]

mod apart;
mod commands;
mod elements;
mod gaps;
mod head;
mod missing;
mod number;
mod report;
mod said;
mod session;
mod table;
mod table_lines;
mod usage;

pub use missing::missing_advice;
pub use report::{ReportFault, report_advice};
pub use session::session_advice;
pub use table::table_advice;
pub use usage::usage_advice;
