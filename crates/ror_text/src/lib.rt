//! Lists and texts, lines and words, numbers and ids, and what a reader answers: the words on which the readers and
//! writers of texts stand.
//!
//! [`Text`] and [`Items`] hold a text and a list in types that clauses compare: clauses see the bytes and the elements. A
//! reader takes lines off its bytes by [`lines::first_line`] and cuts them by [`lines::split_words`]; [`numbers`] and
//! [`ids`] read a word.
//!
//! ```text
//! first_line(b"prefer a  b\r\nundo")   Some((b"prefer a  b", b"undo"))
//! split_words(alloc, b"prefer a  b")   Ok([b"prefer", b"a", b"b"])
//! read_count(b"007")                   Some(7)
//! read_number(b"007")                  None: a number of a report has one text
//! ```
#![tactic(auto)]

pub mod ids;
mod items;
pub mod laws;
pub mod lines;
pub mod numbers;
pub mod reading;
pub mod spaced;
mod text;

pub use items::Items;
pub use text::Text;
