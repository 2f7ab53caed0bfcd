//! A run of `ror_show`, over any files and streams, and the courses of its pages.
//!
//! [`run`] writes the page that the words of a command line ask for, over a shelf, standard output and standard error, and gives the
//! [`Status`] that it ended with. Of a page of a report table, session and report are fetched, the report is checked, and what its chosen lines
//! came to is found and written. Nothing is shown of a report that a check rejects. All these pages have one course, over what a page keeps and
//! what may be written of that. The check of certificates fetches a text of certificates besides, and writes how many of them are accepted.
//! An import fetches a spreadsheet and writes a plain table. The page of what was read begins with the sheet of the table. Where a file isn't
//! read, or the words ask for nothing, there stands on standard error behind the line that says so what may help: words, of which nothing is
//! promised but that they stand apart from that line. There an import says how the sheet was read.
//!
//! ```text
//! run   of read t s, where s has a line `Prefer a b`                   BadSession, and on standard error `capital letters: write prefer`
//! run   of relation t s r, where r is an accepted report of s over t   Done, and the page on standard output
//! run   of group t s g, where g is an accepted report of the group     Done, and what the judges say together
//! run   of why t s r --line 6                                          Done, and the reasons of the answers to line 6
//! run   of check-why t s r c                                           Done, and `accepted 2`, of two such certificates in the file c
//! run   of import f, where f is a spreadsheet                          Done, and its table; on standard error, how it was read
//! run   of relation t s                                                Usage, and the pages on standard error
//! ```
#![tactic(auto)]

mod group;
mod helping;
mod keeping;
mod report;
mod running;
mod sheet;
mod show;
mod writing;

pub use keeping::KeepingShelf;
pub use ror_frame::Status;
pub use running::run;
