//! The course that makes a plain table of a spreadsheet.
//!
//! [`import_sheet`] fetches the file and writes the text of a plain table on standard output, which is read back as the table that the
//! spreadsheet is read as. [`told_of`] is what stands on standard error: how the sheet was read, which ids stand for names, and what was
//! read, as the page of a table shows it; or where its first fault is, and what stands there.
//!
//! ```text
//! name;price;power        standard output   ror-table 3
//! ;min;max                                  criterion price min
//! Fiat 500;9900;50,5                        ..
//!                         standard error    cells between semicolons, decimals with a comma
//!                                           name     Fiat_500  Fiat 500
//!                                           ..
//! ```
#![tactic(auto)]

mod import;
mod told;

pub use import::import_sheet;
pub use told::{told_of, told_of_long};
