#![tactic(auto)]
//! Tables, with the statements that come with them, from XMCDA files and from plain texts.
//!
//! [`read_input`] reads either form, and gives an [`Input`]: the table, and these statements. An XMCDA file's elements
//! come from `ror_elements`; what they mean is read here in passes, each over the whole file: categories, alternatives,
//! criteria, performances, the table of what is kept, comparisons, assignments, and the limits of all statements. The
//! first fault of the first faulty pass is given, in order of the document.
//!
//! A performance is the exact fraction that its value writes: `integer` a whole number, `real` a whole number or a
//! decimal, `rational` a whole number over another, which may be negative. No criterion of an XMCDA file is linear.
//!
//! The definitions stand in `specs/`, a file for each pass; `Content` puts the passes together, and `Input` says which
//! form a file has. Beside the passes, `Meaning` tells of a whole file what it says, `Readable` which files are read, and
//! `Faults` which fault is the first.
//!
//! ```
//! let input = read_input(alloc, bytes, false)?;
//! assert_eq!(input.table.alternatives(), 3);
//! ```

mod affectations;
mod alternatives;
mod categories;
mod comparisons;
mod content;
mod criteria;
mod ends;
mod fault;
mod growing;
mod input;
pub mod laws;
mod listing;
mod nodes;
mod numbers;
mod opening;
mod performances;
mod roster;
mod stated;
mod whole;

pub use input::read_input;
pub use ror_value::Input;
