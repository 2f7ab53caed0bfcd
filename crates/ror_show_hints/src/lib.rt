//! What advice and the sheet are made of: a second look at a file, and pages of lines with labels.
//!
//! [`glance_at`] looks at the text of a table in XMCDA, at what its reader passes over: the names beside ids, what isn't active, the types of
//! comparisons, and the elements that say nothing. It never fails, whatever the bytes are, and takes each byte once. What a file says comes from
//! its reader alone, and of a file that isn't read a glance says little; of one that is, it sees the same ids. A [`Page`] only grows. What a
//! file looks like ([`look_of`]), which byte of a line is meant to be another ([`odd_in`]) and which word is near ([`nearest`]) are guesses,
//! on which nothing stands but words for people.
//!
//! ```text
//! glance_at(alloc, b"<XMCDA><criteria><criterion id='q' name='Price'/></criteria><weights/></XMCDA>")
//!     named    criterion q, Price, line 1, active
//!     passed   weights, line 1, once
//! page.likely(&[b"write ", b"3.5"])        likely    write 3.5
//! look_of(b"prefer a b")                   Session
//! nearest(alloc, b"prefr", &COMMANDS)      Ok(Some(b"prefer"))
//! ```
#![tactic(auto)]

mod first_bytes;
pub mod laws;
mod line;
mod names;
mod odd_bytes;
mod page;
mod said;
mod seen;
mod tag;
mod walk;
mod words;

pub use first_bytes::{
    Look, advise_on_encoding, advise_on_look, first_line_of, look_of, without_mark,
};
pub use line::line_at;
pub use names::{COMMANDS, TABLE_WORDS, is_command, is_table_word};
pub use odd_bytes::{Odd, advise_on_odd, odd_in};
pub use page::{File, MOST_SHOWN, Page, Span, shown};
pub use said::{labelled, numbered};
pub use seen::{Glance, Kind, Listing, MOST_SEEN, Mention, Passed, glance_at};
pub use words::{
    begins_with_digit, first_word, has, in_other_case, is_digits, is_one_of, nearest, span_behind,
    span_of, span_of_word,
};
