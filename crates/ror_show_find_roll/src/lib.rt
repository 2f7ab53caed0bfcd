//! The roll of a desk, as a value: which line of a session said what stands there, and what became of the rest.
//!
//! [`roll_of`] goes through the lines of a desk, each a [`Step`], and gives the [`Roll`]. Of the lines `prefer a b`, `prefer b c`,
//! `replace 1 atleast a b`, `withdraw 2` the first statement stands as line 3 said it in the place of line 1, and the second is gone by line 4.
//! [`find_rolls`] has the roll of each desk of a report that is meant, and [`said_before`], of each statement that stood at a kept line, the
//! number of the line that said it.
#![tactic(auto)]

mod desks;
mod entries;
mod findings;
pub mod laws;
mod roll;
mod said;
mod step;
mod steps;
mod survivor;

pub use desks::is_desk;
pub use findings::{RollFound, find_rolls};
pub use roll::{Entry, Gone, RefusedLine, Roll, Source, TakenBack, roll_of};
pub use said::said_before;
pub use step::Step;
pub use steps::steps_of;
