//! What crates of tests use: a table, whether statements and questions may be given to the calls that are tested, and an answer in a
//! list.
#![tactic(auto)]

mod lawful;
mod table;

pub use lawful::{are_asked, are_valid, is_asked, is_lawful, may_stand};
pub use table::{alone, three_alternatives};
