#![tactic(auto)]
//! What a report says of the extreme ranks at a desk, and its text.
//!
//! An [`Entry`] has the name of a desk, and the extreme ranks of all alternatives or why there are none; [`print_entry`] gives its text
//! and [`read_entry`] reads it back. A report begins with the line of [`header`]. Of the desk without a name, where of two alternatives
//! `a` is the better one on the only criterion, the entry is
//!
//! ```text
//! desk
//! ranks 4
//! best a from 1 to 1 conflicts 0 nodes 1
//! except
//! solution 1
//! leaf
//! worst a from 1 to 1 conflicts 1 nodes 1
//! except b
//! solution 1
//! conflict b
//! multipliers | 1 1
//! leaf 0
//! best b from 2 to 2 conflicts 1 nodes 1
//! except a
//! solution 1
//! conflict a
//! multipliers 1 | 1
//! leaf 0
//! worst b from 2 to 2 conflicts 0 nodes 1
//! except
//! solution 1
//! leaf
//! ```

mod entry;
mod head;
mod intervals;
mod names;
mod print;
mod read;
pub mod text_laws;
mod words;

pub use entry::{Entry, EntryBody};
pub use head::header;
pub use print::{print_entry, write_entry};
pub use read::read_entry;
