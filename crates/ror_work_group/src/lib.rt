//! The commands on what the desks of a session say together: the report of the group is written, or checked.
//!
//! [`group_files`] fetches a table and a session and writes, of each ordered pair of alternatives, each desk's answers on both
//! relations over its closing list, each with its proof, and the four words that they come to. [`check_group_files`] fetches a
//! report besides, and writes how many answers of it were accepted. Both say whether anything is too wide, or the
//! [`ror_frame::Stop`] at which the work ended; a session that repairs is unsuited. [`keep_group`] checks the bytes of a report as
//! that does, and keeps its entries.
//!
//! Over alternatives a, b and c that are evaluated 3, 2 and 1 by a criterion that is to be high, and 10, 8 and 12 by one
//! that is to be low, with the lines `@x prefer a b` and `@y prefer b a`:
//!
//! ```text
//! group_files         Ok(false), and on standard output `ror-group 1`, `desks 2`, `desk x`, `desk y`, then for each pair
//!                     its line, such as `pair a b`, its answers, and its words, here `group no yes no yes`
//! check_group_files   Ok(false), of that report: `accepted 24 wide 0`
//! ```
#![tactic(auto)]

mod check;
mod judge;
mod keep;
pub mod laws;
mod maker;
mod write;

pub use check::check_group_files;
pub use keep::keep_group;
pub use write::group_files;
