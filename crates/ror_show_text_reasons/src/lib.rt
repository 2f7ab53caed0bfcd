//! Why the answers to a session's lines are what they are, and why its repairs dropped what they did, as plain text of what is found.
//!
//! Where line 6 asks while statements 1 to 4 stand, of which line 1 said the first and line 5 the fourth, the text is
//!
//! ```text
//! line 6  necessary c01 c09 yes
//!   c01 is at least as good as c09, whatever value function agrees with these statements:
//!      1  prefer c10 c14                              line 1, counts once
//!      4  stronger c01 c09 c10 c14                    line 5, counts once
//!   summed up they say so, and no other statement is used
//!   of these alone none can be spared:
//!      without 1: by some value function c09 is better than c01 (2 to 1 of 3)
//!      without 4: by some value function c09 is better than c01 (3 to 2 of 3)
//!   this is one part of the statements that carries the answer, and there may be others
//!   if one of these statements is withdrawn from all that stand:
//!      1: the answer goes
//!      4: the answer goes
//! ```
#![tactic(auto)]

mod carried;
mod drops;
pub mod laws;
mod lines;
mod met;
mod parts;
mod reasons;
mod rest;
mod scene;
mod sides;
mod sum;
mod sum_words;
mod told;
mod withdrawn;

pub use lines::write_lines;
