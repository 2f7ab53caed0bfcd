//! What a group's report shows, as values: what each judge says, what all of them say, and where they differ.
//!
//! [`find_group`] finds it of the entries that a check kept ([`GroupGround`]). A [`JudgeFound`] has the cells of one judge, as a relation's
//! page has them. A [`GroupCell`] says of two alternatives how they stand for all judges who are heard: those of whom it isn't known that no
//! value function agrees with what they said. Where the entries are proved, each cell is true of these judges (`laws::group_cells_are_true`).
//! Where one judge says `prefer c14 c05` and another one `prefer c05 c14`, and both `prefer c05 c09`, it is
//!
//! ```text
//! the cell of c05 and c09      AlwaysBetter
//! the cell of c05 and c14      Differ
//! alone, of the first judge    c14 -> c05
//! ```
#![tactic(auto)]

mod cell;
mod counts;
mod ground;
mod judge;
pub mod laws;
mod page;
mod pairs;
mod votes;

pub use cell::{GroupCell, group_cell_in};
pub use counts::{Stand, pairs_standing};
pub use ground::GroupGround;
pub use judge::JudgeFound;
pub use page::{GroupFound, find_group};
pub use votes::heard_count;
