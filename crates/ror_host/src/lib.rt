//! The host's side of a program: its files, its streams and the words of its command line.
//!
//! [`FileShelf`] has the host's files as a shelf, [`StreamSink`] a stream as a sink, and [`given_words`] gives the words behind the
//! program's name. What they hold is told to no proof.
//!
//! ```text
//! FileShelf       of a name without a file      Err(Failed), and one fault is counted
//! StreamSink      of a pipe that nobody reads   Err(Failed), and one fault is counted
//! ```
#![tactic(auto)]

mod files;
mod streams;
mod words;

pub use files::FileShelf;
pub use streams::StreamSink;
pub use words::{WordsFault, given_words};
