//! A spreadsheet as a decision table.
//!
//! [`import`] reads the bytes of a spreadsheet as a table, with the text of a plain table that has the same values; or it names the first
//! fault by row and column. The first row has the names of the criteria, and the first column those of the alternatives; a second row may have
//! directions. [`write_notes`] tells how the sheet was read, and [`write_fault`] where a fault is and what stands there.
//!
//! ```text
//! name;price;power        ror-table 3
//! ;min;max linear         criterion price min
//! Fiat 500;9900;50,5      criterion power max linear
//! c05;12400;66            alternative Fiat_500 9900 50.5
//!                         alternative c05 12400 66
//! ```
//!
//! The definitions that the clauses cite stand in `specs/`: what a sheet is read as in `Import`, the ids of names in `Names`, and in `Laws` that
//! the table's values are those of the cells, and that the text is read as the same table.
#![tactic(auto)]

mod columns;
mod drafts;
mod importing;
pub mod laws;
mod lines;
mod names;
mod notes;
mod options;

pub use importing::{Imported, import, import_rows};
pub use notes::{write_fault, write_notes};
pub use options::Options;
