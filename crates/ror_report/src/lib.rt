//! Reports: a block for each line of a session, and the one text of each.
//!
//! A [`Block`] has a line's number and a [`Body`], what came of that line. [`print_block`] gives its text, and
//! [`read_block`] reads it back. A report is [`header`], the blocks in order, and the line of [`print_end`]. Of the blocks
//! `Block { line: 2, body: Added(1) }` and `Block { line: 3, body: Refused(NothingToUndo) }` it is
//!
//! ```text
//! ror-report 1
//! line 2
//! added 1
//! line 3
//! refused NothingToUndo
//! end 2
//! ```
//!
//! Reports that go desk by desk name each in a line of its own ([`desk`]).
#![tactic(auto)]

mod block;
pub mod desk;
pub mod laws;
mod names;
mod print;
mod read;

pub use block::{Block, Body, LineFault};
pub use print::{header, print_block, print_end, write_answers, write_number_line};
pub use read::{begins_end, numbered_line, read_block, read_end, read_header};
