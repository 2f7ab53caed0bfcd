//! Sessions: the lines in which judges state, at their desks, and analysts ask, and the reader of their text. Names stay
//! as they are written; nothing is looked up.
//!
//! [`read_session`] gives the [`Session`] of a text, or its first fault. From this text
//!
//! ```text
//! # two judges
//! @x prefer a b
//! ask relation
//! ```
//!
//! it gives the desks `x` and the one with the empty name, and two lines: line 2 for the desk at place 0, with the command
//! `State(Prefer(a, b))`, and line 3 for the desk at place 1, with `Ask(Relation)`. With `ask relations` it gives
//! `BadLine(3)`.
#![tactic(auto)]

mod command;
pub mod laws;
mod limits;
mod reading;
mod session;

pub use limits::{MOST_DESK_NAME_BYTES, MOST_DESKS, MOST_LINES};
pub use reading::read_session;
pub use session::{Asked, Command, Line, Named, NamedPair, Session, SessionFault};
