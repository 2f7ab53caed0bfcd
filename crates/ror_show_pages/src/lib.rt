//! The pages of a report: what a check keeps of each line of a session for a page, and the text that is written of that.
//!
//! [`keeps`] says what is kept of each line for the page that is [`Meant`], [`kept_in`] checks the bytes of a report and gives the lines of which
//! something is kept, and [`page_text`] is the page of these. Behind a text stand the names that the table's file has beside ids ([`names_for`],
//! [`shown_with`]). What a page shows of a report that is proved is true (`laws::shown_is_true`), and it is the only page of that report, but for the
//! choice of reasons (`laws::one_page`). No file is fetched here.
//!
//! ```text
//! keeps of the relation, for `ask relation`, `prefer a b`, `ask relation`   Standing, Nothing, Standing
//! page_text of the relation, as a text, of no kept line                     no relation is answered in these lines of the session
//! page_text of the relation, as csv, of no kept line                        the names of its values alone
//! ```
#![tactic(auto)]

mod bodies;
mod choosing;
pub mod laws;
mod meant;
mod names;
mod page;
mod reasons;
mod report;

pub use meant::{Meant, keeps};
pub use names::{names_for, shown_with};
pub use page::page_text;
pub use report::kept_in;
