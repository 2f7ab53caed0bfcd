//! The outside of a program: files by name, and streams of bytes, each with a fake in memory.
//!
//! A [`Shelf`] has files, which it counts the fetches of, and a [`Sink`] takes bytes; both count their faults. Want of
//! memory aside, [`SteadyShelf`] and [`SteadySink`] fail only where there is no such file and where nothing fits, and
//! [`MemoryShelf`] and [`MemorySink`] at calls that one chooses besides.
//!
//! ```text
//! shelf.put("a", b"two"), shelf.fail_at(3)
//! shelf.fetch(alloc, "a", 3)   Ok(Whole(b"two"))
//! shelf.fetch(alloc, "a", 2)   Ok(Longer)
//! shelf.fetch(alloc, "a", 3)   Err(Failed), and one fault is counted
//! shelf.fetch(alloc, "b", 3)   Err(Failed), and none is counted: there is no such file
//! ```
#![tactic(auto)]

mod calls;
mod files;
pub mod memory_shelf;
pub mod memory_sink;
pub mod shelf;
pub mod sink;
pub mod steady_shelf;
pub mod steady_sink;

pub use memory_shelf::MemoryShelf;
pub use memory_sink::MemorySink;
pub use shelf::{Fetched, Shelf, ShelfFault};
pub use sink::{Sink, SinkFault, write_all, write_pieces};
pub use steady_shelf::SteadyShelf;
pub use steady_sink::SteadySink;
