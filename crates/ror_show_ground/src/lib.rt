//! What every page of a report stands on: the lines that a check of the report kept.
//!
//! Of the kept lines each is ready: its answers are true of what stood there (`laws::kept_lines_are_ready`). [`answers_of`] lends the
//! answers of a line, [`said_by`] says what a verdict concludes, a [`Heading`] has what stands above a page, and [`turns_among`] gives
//! each line that asks for the relation with the last one before it at its desk. Where the lines 4 and 7 of the desk `tenant` ask, the turn
//! is from the place of 4 to that of 7.
#![tactic(auto)]

mod desk;
mod ground;
mod heading;
pub mod laws;
mod lines;
mod said;
mod stood;
mod turns;

pub use desk::desk_name;
pub use ground::Ground;
pub use heading::Heading;
pub use lines::{
    answered_places, answers_of, dropped_of, heading_of, is_answered, is_repaired, is_wide,
    proved_among, stood_numbers,
};
pub use said::{Said, said_by};
pub use stood::{Stood, stood_at};
pub use turns::turns_among;
