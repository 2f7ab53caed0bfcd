//! What stands at a desk: the statements that it began with, and the revisions that survive.
//!
//! A [`History`] takes revisions, each by a call of its own ([`History::add`], `withdraw`, `withdraw_all`, `replace`), and
//! [`History::undo`] takes the last surviving one back. [`History::standing`] gives what stands, with its numbers.
//!
//! ```text
//! History::new(alloc, &[Prefer(0, 1)])   1 stands
//! add(AtLeast(1, 2))                     Ok(2), and 1 and 2 stand
//! withdraw(1)                            Ok(()), and 2 stands
//! withdraw(1)                            Err(NoSuchStatement)
//! undo()                                 Ok(()), and 1 and 2 stand
//! undo()                                 Ok(()), and 1 stands; the next number is 2 again
//! undo()                                 Err(NothingToUndo)
//! ```
//!
//! [`History::reserve`] makes room for more revisions. With room, `add`, `withdraw` and `replace` take no memory.
#![tactic(auto)]

mod history;
mod inverse;
pub mod laws;
mod listed;

pub use history::{History, HistoryFault};
