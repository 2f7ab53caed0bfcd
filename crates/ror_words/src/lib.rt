//! The words of a command line: the table of words, and what they ask for.
//!
//! [`words_in_table`] says whether words are in the table, and gives the row of the command with its [`Arguments`]; it takes
//! no memory.
//!
//! ```text
//! replay t s --bits=15          the row of replay, with the names t and s, at 15 bits
//! check -- t s -r               the row of check, with the names t, s and -r
//! generate 7 8, check t s       none: these words are not in the table
//! ```
#![tactic(auto)]

mod table;
mod words;

pub use table::{CommandWord, Row, usage};
pub use words::{Arguments, FileNames, words_in_table};
