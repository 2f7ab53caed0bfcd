//! The course that checks certificates of reasons: how many of them are accepted is written.
//!
//! [`check_certificates`] fetches table, session, certificates and report in order. The report is judged first; each certificate is then
//! checked over the lines of it that ask. What is accepted is true (`laws::accepted_are_true`), and certificates that are written of a report
//! are accepted with it (`laws::written_are_accepted`). Of one report over table and session, with two certificates in the file:
//!
//! ```text
//! the report is accepted, and both certificates are proved   `accepted 2`
//! the second names a line that asks nothing                  rejected, with the number 2
//! the report is rejected                                     rejected as a check of the report is, whatever the certificates say
//! ```
#![tactic(auto)]

mod check;
mod count;
mod fetch;
pub mod laws;

pub use check::check_certificates;
