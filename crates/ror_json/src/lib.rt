//! Reports as JSON: one value for each list of blocks, and back.
//!
//! [`to_value`] gives the form of a list of blocks, and [`from_value`] reads it back; [`to_text`] and [`from_text`] do so
//! with its text. A report is an object with `blocks`, its
//! blocks in order, and `report`, which is 1. A block has `line`, the number of the session's line, and one of `added`,
//! `withdrawn`, `replaced`, `undone`, `repaired`, `repair-wide`, `answers` and `refused`. All words, names and questions are
//! those of the report's text, and so are the numbers of certificates, which stand as texts; other numbers stand as numbers,
//! from 0 to 4,294,967,295. No other key stands anywhere. Of one answer to the question whether `a` is necessarily worth at
//! least as much as `c`, with the verdict yes, a solution for its base and multipliers for its one part, the compact text is
//!
//! ```text
//! {"blocks":[{"answers":[{"base":{"solution":["1","1","1","1"]},"parts":[{"at":1,"multipliers":{"strict":["0","1"],
//! "weak":[]}}],"question":"necessary a c","verdict":"yes"}],"line":1}],"report":1}
//! ```
//!
//! on one line, and of no block `{"blocks":[],"report":1}`.
#![tactic(auto)]

mod answer;
mod block;
mod certificate;
mod fault;
mod formed;
mod keys;
pub mod laws;
mod members;
mod question;
mod repair;
mod report;
mod single;
mod text;
mod wide;

pub use fault::{JsonFault, TextFault};
pub use report::{from_value, to_value};
pub use text::{from_text, to_text};
