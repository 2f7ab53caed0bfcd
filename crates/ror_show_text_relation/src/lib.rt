//! The relations that were asked, as plain text, and below each which statements carry each of its arrows.
//!
//! [`write_relations`] adds what is found at each line to the text that it is given, [`print_relation`] a page of a relation alone. Other
//! pages have the same lists of levels and pairs ([`write_levels`], [`write_pairs`]), and name what carries something in the same words
//! ([`write_carried`], [`write_carrying`]).
//!
//! Each arrow stands with the numbers of statements that carry it: every value function that agrees with these has the first alternative at
//! least as good as the second, and of none of them that can be said without it. Of five cars, where statement 1 says `prefer c10 c14` and
//! statement 4 `stronger c01 c09 c10 c14`, and `c09` is on no criterion worse than `c10`, the text is
//!
//! ```text
//!
//!   statements that carry each arrow (of these alone none can be spared; others may carry it too)
//!      c01 -> c09   1 4   always better by the same
//!      c09 -> c10   none is needed
//!      c10 -> c14   1   always better by the same
//! ```
#![tactic(auto)]

mod apart;
pub mod laws;
mod lists;
mod matrix;
mod page;
mod text;
mod words;

pub use lists::{write_levels, write_pairs};
pub use page::{write_carried, write_relations};
pub use text::{pairs_among, print_relation};
pub use words::write_carrying;
