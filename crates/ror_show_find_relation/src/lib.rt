//! What a relation's page shows, as values: cells, levels, arrows, and what changed from one relation to another.
//!
//! A [`RelationPage`] has a [`Cell`] for each two alternatives, by what the answers say of both ordered pairs, the levels and the arrows of
//! what is known, and how many pairs are decided. Where the answers are true of all compatible functions, each cell is
//! (`laws::cells_are_true`). A [`Relation`] says of each ordered pair of so many alternatives whether the first is over the second, as a
//! preorder does. Its [`arrows`] are the edges of the Hasse diagram: the pairs of the strict part between which nothing stands. Its
//! [`levels`] number each alternative by a longest strict chain that ends with it: nothing is above those of level 1, and what is above those
//! of a level is in levels before. Over 0, 1, 2 and 3, where 0 is over 1, 1 over 2, and 0 over 2,
//!
//! ```text
//! arrows    0 -> 1, 1 -> 2          0 -> 2 follows from these
//! levels    1, 2, 3, 1
//! ```
//!
//! Of each ordered pair of different alternatives [`change_of`] says whether it stayed, was turned round, no longer holds, or is new from one
//! relation to another, [`differences_between`] has the pairs of each change, and [`brought`] those that are turned round or new, as they are now.
#![tactic(auto)]

mod cell;
mod change;
mod counting;
mod differences;
mod dominance;
mod hasse;
pub mod laws;
mod level;
mod list;
mod page;
mod pair;
mod places;
mod relation;

pub use cell::{Cell, cell_of};
pub use change::{Change, change_of};
pub use counting::decided_pairs;
pub use differences::{Differences, brought, differences_between};
pub use dominance::dominates;
pub use hasse::arrows;
pub use level::levels;
pub use list::changed_pairs;
pub use page::{Counts, RelationPage, known_relation, page_of_cells, relation_page};
pub use pair::{PairSaid, necessary_by, place_of_pair, possible_by};
pub use places::{
    cell_in, contradictory_pairs, is_contradictory, over_count, under_count, unknown_pairs,
};
pub use relation::Relation;
