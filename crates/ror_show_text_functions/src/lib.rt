//! The value functions that stand in answers, level by level, as plain text.
//!
//! The functions that were found in the answers to lines of a report are written below each line's number, its desk and the numbers of what
//! stood ([`write_functions`]). [`write_rises`] adds in one line where the base of an answer rises. Each call adds to the text that it is
//! given.
//!
//! Of a function whose steps on `price` are 1, 0 and 2, and on `power` 1, the text has
//!
//! ```text
//!      all best levels                 1.000  4
//!      price weight                    0.750  3
//!        19100                         0.000  0
//!        15900 .. 15200                0.250  1
//!        12400                         0.750  3
//!      power weight                    0.250  1
//!        50                            0.000  0
//!        66                            0.250  1
//! ```
#![tactic(auto)]

mod block;
mod page;
mod ranges;
mod rises;
mod shares;
mod text;
mod words;

pub use block::criterion_id;
pub use page::write_functions;
pub use rises::write_rises;
pub use shares::write_places;
pub use text::is_contradiction;
pub use words::asked_at;
