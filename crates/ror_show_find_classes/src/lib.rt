//! The possible, necessary and assigned classes of alternatives at each time that they were asked for, as values, and what changed in them.
//!
//! Of the lines of a session that a check keeps, those count that ask for the classes of an alternative and are answered. A time is a run of
//! them at one desk between which nothing changed what stands there ([`all_times`], [`class_times`]). Each answered line gives a [`Sign`] for
//! each class and the classes between which the alternative is ([`lowest`], [`highest`]). What has to be kept of a desk's lines is what
//! [`keep_for`] says: its lines that ask nothing are among them, since they may change what stands.
//!
//! Each time is compared with the last one before it at its desk ([`turns_among`]): an alternative is between fewer classes now, between
//! more, between others, or as before ([`change_of`], [`find_class_changes`]). Of `fir 2-4->3-4` it narrowed: of the four classes the first alone was excluded, and now
//! the second is too.
#![tactic(auto)]

mod change;
mod changes;
mod findings;
mod intervals;
mod keep;
pub mod laws;
mod order;
mod sign;
mod times;
mod turns;
mod value;

pub use change::{Change, change_of, is_same, row_of};
pub use changes::{ClassChangeFound, RowChange, find_class_changes};
pub use findings::{ClassLine, TimeFound, class_line, class_lines, find_time};
pub use intervals::{highest, is_contradictory, is_settled, is_whole, last_line, lowest};
pub use keep::keep_for;
pub use order::in_order;
pub use sign::{Sign, alternative_of, is_assigned, sign_of_class};
pub use times::{all_times, answers_at, rows};
pub use turns::turns_among;
pub use value::{ClassRow, ClassTime, class_times};
