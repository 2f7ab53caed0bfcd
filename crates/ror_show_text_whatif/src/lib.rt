//! What hangs on each statement, as plain text and as comma-separated values.
//!
//! [`write_relation_whatifs`] adds for each line that asks for the relation two tables to the text that it is given: how many pairs of
//! alternatives change if one statement is withdrawn, and if its contrary is said in its place, the most first. Below them stand these pairs.
//! [`write_class_whatifs`] adds for each time at which classes were asked for in how many alternatives' classes something changes, and below
//! them which classes. [`write_line_values`] and [`write_time_values`] write counts alone, for each statement and way a line. Of five cars the
//! first table begins
//!
//! ```text
//!      N      lost    weaker       won  stronger   unknown
//!      1         5         0         0         0         0  prefer c10 c14
//! ```
#![tactic(auto)]

mod csv;
pub mod laws;
mod legend;
mod lists;
mod page;
mod rows;
mod table;
mod time_lists;
mod time_page;
mod times;
mod told;
mod ways;

pub use csv::{whatifs_head, write_line_values, write_time_values};
pub use page::write_relation_whatifs;
pub use time_page::write_class_whatifs;
