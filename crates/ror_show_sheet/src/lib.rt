//! The page that an analyst signs before asking: what was read of a table and of a session.
//!
//! What [`write_sheet`] says of criteria, alternatives, classes and statements is what the definition `sheet_text` gives of the input.
//! Behind it stand notes, whose lines begin as no line of the sheet does (`IsBeside`): names of the file, what was passed over, and which
//! lines of the session will be refused. What they say helps, and is promised by nothing.
//!
//! ```text
//! criteria 1, each with its levels from worst to best; columns 2 (one for each step, or one for a linear criterion)
//!   price  min, steps 2
//!      12 10 8.5
//! alternatives 3
//!      a b c
//! classes none
//! statements that the file brings, at every desk: 0
//! ```
#![tactic(auto)]

mod behind;
mod beside;
mod desks;
mod label;
mod layout;
mod names;
mod notes;
mod refusals;
mod session;
mod sheet;
mod statements;

pub use beside::{Named, legend};
pub use sheet::write_sheet;
