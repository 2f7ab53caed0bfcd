//! The words of a command line: which page they ask for, and of what.
//!
//! [`read_words`] gives what words ask for ([`Asked`]), as `clap` reads them: a [`Page`] of a report or the page of a group's report with
//! [`PageWords`], the page of what was read with its [`SheetWords`], the check of certificates with its [`CheckWords`], or the table of a
//! spreadsheet with its [`ImportWords`]. A table says of each page its word, its forms, of which lines it is, and whether it may be of
//! two alternatives.
//!
//! ```text
//! relation t s r --as=csv           the page of the relation, of the files t, s and r, as csv
//! relation --line 3 t s -- -r       the same of line 3 and the file -r, as text
//! read t                            what was read of t
//! import f --min a,b                the table of the spreadsheet f, where smaller values of a and b are better
//! relation t s, relation t s r q    Err(Unknown): these words ask for nothing
//! changes t s r --line 3            the same: what changed is of no one line
//! relation t s r --pair a b         the same: that page isn't of two alternatives
//! group t s r --desk anna           the same: that page is of all desks
//! ```
#![tactic(auto)]

mod command;
mod table;
mod words;

pub use table::{Page, usage};
pub use words::{
    Asked, CheckWords, Form, ImportWords, PageWords, PairWords, SheetWords, WordsFault, read_words,
};
