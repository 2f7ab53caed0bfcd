//! The rolls of desks as plain text: which line of a session said what stands there, and what became of the rest.
//!
//! [`write_rolls`] adds the roll of each desk that was found to a text. Of the lines `prefer a b`, `prefer b c`, `replace 1 atleast a b`, `withdraw 2` of the desk `x` it is
//!
//! ```text
//! @x  after line 4
//!   stands
//!      1  atleast a b                                 line 3 (in the place of line 1: prefer a b)
//!   stands no more
//!      2  prefer b c                                  line 2, withdrawn by line 4
//!   taken back: none
//!   refused: none
//!   asked when nothing stood: none
//! ```
#![tactic(auto)]

mod origins;
mod page;
mod refusals;
mod rolls;
mod row;
mod rows;
mod words;

pub use rolls::write_rolls;
