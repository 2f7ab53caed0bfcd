//! What changed at each desk from one answered question to the next one there, as plain text: in relations, which statements brought it, and
//! in classes.
//!
//! [`write_changes`] adds all that is found to the text that it is given. Each relation stands with the last one before it at its desk: the
//! pairs that were turned round, are no longer so, stayed, or are new in what is known of the relation, and its levels before and now.
//!
//! Below that stand the pairs that were turned round or are new, as they are now, each with the numbers of statements that carry it over what
//! stood at the later line: every value function that agrees with these has the first alternative at least as good as the second, and of none
//! of them that can be said without it. Where `mill` was over `bridge`, and statement 4 says `prefer bridge mill` now, the text is
//!
//! ```text
//!
//!   statements that carry what is turned round or new now
//!   (of these alone none can be spared; others may carry it too)
//!      bridge -> mill   4   always better by the same
//! ```
//!
//! Each time at which classes were asked for stands with the last one before it at its desk: how many alternatives are settled before and now,
//! and which ones are between fewer classes now, between more, between others, or as before.
#![tactic(auto)]

mod class_lists;
mod class_sides;
mod classes;
mod nothing;
mod page;
mod relation_lists;
mod relation_sides;
mod relations;

pub use page::write_changes;
