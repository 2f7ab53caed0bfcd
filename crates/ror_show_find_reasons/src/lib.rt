//! Why answers hold, arrows and pairs are carried, bounds are settled and statements were dropped: values, found once for every form.
//!
//! [`find_relations`] has what each answered line says of the relation, with statements that carry its arrows, and with those that carry that
//! the first is always better; [`find_changes`] what changed from one relation of a desk to the next, with the same of what is new;
//! [`find_classes`] the classes at each time, with statements that settle their bounds; [`find_lines`] why answers are what they are, and with
//! what each statement conflicts that a repair dropped. Each is lent a ground, what was read and judged, and gives a list of values of one
//! sort.
#![tactic(auto)]

mod bounds;
mod carrying;
mod changes;
mod classes;
mod drops;
pub mod laws;
mod lines;
mod numbers;
mod pairs;
mod relations;
mod settling;
mod telling;

pub use bounds::{Bound, Bounds, ClassesFound, Side};
pub use changes::find_changes;
pub use classes::find_classes;
pub use lines::{DropFound, LineFound, Meant, Told, find_lines};
pub use numbers::numbers_of;
pub use pairs::{CarriedPair, ChangeFound, RelationFound};
pub use relations::find_relations;
pub use telling::{MOST_SHOWN, is_carried};
