//! What stands at each desk when a session is over: the lists on which commands of several judges work.
//!
//! [`closing_lists`] does the lines of a session that state, withdraw, replace or undo, passes over those that ask, and gives
//! the list of each desk. A line that repairs is unsuited, since what a repair drops goes by a search. Lines of two desks, and
//! what stands then:
//!
//! ```text
//! @x prefer a b
//! @y prefer b a
//! @x ask necessary a b     passed over
//! @x prefer b c
//! @x withdraw 9            refused, and changes nothing
//! @y undo
//!                          at x: Prefer(a, b), Prefer(b, c); at y: nothing
//! ```
#![tactic(auto)]

mod closing;
pub mod laws;

pub use closing::{ClosingFault, closing_lists, closing_standing, first_unsuited};
