//! Reports of entries: what they have in common, whatever an entry is.
//!
//! Behind its head such a report has entries, one after another, and the line `end N` with their number. A [`Judge`] has the
//! bytes of a report, reads an entry and accepts it at its place, or names its fault; [`check_entries`] does so with each entry, and
//! [`keep_entries`] keeps them. A [`Maker`] makes the entry of a place and its text; [`write_entries`] writes each before the next
//! one is made. Where there is an entry for each ordered pair of alternatives, [`pair_at`] is the pair of a place.
//!
//! Let an entry be a line `item N`, where N is its place counted from 1. A report of two is, behind its head,
//!
//! ```text
//! item 1
//! item 2
//! end 2
//! ```
#![tactic(auto)]

mod check;
mod headed;
mod keep;
pub mod laws;
mod pairs;
mod write;

pub use check::{EntryFault, Judge, check_entries, refused_entry};
pub use headed::{check_headed, write_headed};
pub use keep::keep_entries;
pub use pairs::pair_at;
pub use write::{EntriesStop, Maker, write_entries};
