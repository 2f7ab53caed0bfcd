//! The page of a group: what its judges say together, as a text, as comma-separated values and as a graph.
//!
//! Each writer is a function of what is found ([`write_group`], [`write_group_csv`], [`write_group_dot`]). Where anna says `prefer c14 c05`,
//! bert says `prefer c05 c14`, and both have both above c09, the values of two pairs are
//!
//! ```text
//! from,to,group,anna,bert
//! c05,c09,N,N,N
//! c05,c14,x,-,N
//! ```
#![tactic(auto)]

mod apart;
mod csv;
mod dot;
mod judges;
mod matrix;
mod page;

pub use csv::write_group_csv;
pub use dot::write_group_dot;
pub use page::write_group;
