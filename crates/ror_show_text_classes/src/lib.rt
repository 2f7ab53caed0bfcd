//! The page of classes as plain text of what is found: a section for each time, and below it which statements settle each bound.
//!
//! A section has a row for each line and a column for each class, how many alternatives are settled, the open ones with the classes between
//! which they are, and those that a statement assigns. Of alder, which a statement assigns to class 2, it has
//!
//! ```text
//!            1   2
//!   alder    .  *#
//!
//!   statements that settle each bound (of these alone none can be spared; others may settle it too)
//!      alder  not below 2: 2
//! ```
#![tactic(auto)]

mod assigned;
mod bounds;
mod foot;
mod page;
mod table;
mod time;
mod words;

pub use foot::{write_interval, write_list};
pub use page::{write_classes, write_gap};
pub use time::{write_stood, write_to};
