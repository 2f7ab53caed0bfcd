//! Lists whose nodes can be taken out and put back where they stood, in any number and without taking memory: a node that
//! is taken out keeps its two neighbours.
//!
//! A [`Chain`] numbers its nodes from 0, in the order in which they were pushed. [`Chain::unlink`] takes one out, and
//! [`Chain::relink`] puts it back between its neighbours, which stand side by side again where the last one that went out
//! comes back first:
//!
//! ```text
//! push(x), push(y), push(z)   0, 1 and 2     linked: 0 1 2
//! unlink(1)                                  linked: 0 2     1 keeps 0 and 2
//! unlink(2)                                  linked: 0       2 keeps 0, and none after it
//! relink(2)                                  linked: 0 2
//! relink(1)                                  linked: 0 1 2
//! ```
//!
//! [`Chain::reserve`] makes room for more nodes, so that as many pushes afterwards take no memory ([`Chain::push_reserved`]).
#![tactic(auto)]

mod chain;
pub mod laws;
mod links;

pub use chain::Chain;
