#![tactic(auto)]
//! Decision tables: alternatives evaluated on criteria, each with a direction.
//!
//! [`read_plain`] reads the plain text of a table, or names its first fault as a [`TableFault`]. A
//! [`Draft`] is a table that is being made, criteria first, and [`Draft::finish`] gives the table.
//! A [`Table`] gives what stands in it (directions, performances, ids and their places) and what is
//! worked out of it: the steps of a criterion, the rank of an alternative on one, the weights of a
//! linear criterion's levels, and the columns of each criterion. A performance is an [`Amount`], a
//! fraction in lowest terms.
//!
//! The definitions that the clauses cite stand in `specs/`: what a table, its ranks and its columns
//! are in `Table`, `Amounts` and `Blocks`, which text writes which table in `Grammar` and `Spellings`, and the faults of a text and of a
//! line in `Faults` and `LineFaults`.
//!
//! ```
//! let mut draft = Draft::new(alloc);
//! draft.criterion("q", Direction::Max)?;
//! draft.criterion("p", Direction::Min)?;
//! draft.alternative("a", &[Amount::new(3, 1)?, Amount::new(10, 1)?])?;
//! draft.alternative("b", &[Amount::new(5, 2)?, Amount::new(8, 1)?])?;
//! let table = draft.finish()?;
//! assert_eq!(table.find_alternative("b"), Some(1));
//! // On `p` smaller is better: one performance, 10, is worse than 8.
//! assert_eq!(table.rank(1, 1), 1);
//! // The one step of `p` is the second of all columns.
//! assert_eq!(table.column(1, 1), 1);
//! ```

mod amount;
mod direction;
mod draft;
mod fault;
mod index;
pub mod laws;
mod levels;
mod limits;
mod plain;
mod spelling;
mod table;
mod weights;

pub use amount::Amount;
pub use direction::{Direction, Scale};
pub use draft::Draft;
pub use fault::{DraftFault, Kind, TableError, TableFault, TableKind, What};
pub use limits::{AMOUNT_LIMIT, MOST_ALTERNATIVES, MOST_CLASSES, MOST_CRITERIA, MOST_STEPS};
pub use plain::{Version, read_plain, whole_table};
pub use spelling::{read_amount, read_real, read_whole};
pub use table::Table;
