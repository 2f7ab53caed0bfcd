//! The rows, cells and numbers of a spreadsheet's comma-separated values.
//!
//! [`read_spreadsheet`] cuts bytes into rows, by the kit's `csv`; what separates the cells is told from the first row ([`Separator`]). How the
//! numbers of a sheet are written is told from all of them ([`numerals_of`]), and [`amount_in`] gives the amount of a cell, unless it could be
//! meant in two ways. [`scale_in`] reads a direction. A [`SheetFault`] says by row and column what is wrong.
//!
//! ```text
//! name;price;power        cells between semicolons
//! Fiat 500;9900;50,5      decimals with a comma: 50,5 is 101/2
//! c05;12.400;66           row 3, column 2: a mark between thousands
//! ```
//!
//! The definitions that the clauses cite stand in `specs/`: what a row and a cell are in `Rows`, which bytes are a spreadsheet in `Sheet`, which
//! cells are numbers in `Numbers`, and in `Laws` that a number has one meaning.
#![tactic(auto)]

mod fault;
mod kinds;
pub mod laws;
mod looks;
mod numbers;
mod row;
mod rows;
mod scales;
mod separator;
mod spreadsheet;

pub use fault::{OptionName, SheetError, SheetFault, SheetKind, bad, table_fault};
pub use kinds::kind_of;
pub use numbers::{CellTest, Numerals, amount_in, any_cell, numerals_of, word_of};
pub use row::Row;
pub use scales::scale_in;
pub use separator::Separator;
pub use spreadsheet::{MOST_ROWS, Spreadsheet, read_spreadsheet};
