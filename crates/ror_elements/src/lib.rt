#![tactic(auto)]
//! A reader of the subset of XML that XMCDA files are written in.
//!
//! [`read_elements`] gives the root of a text as an [`Element`], or the first fault as an
//! [`ElementFault`]. Of the elements inside the root it gives those that stand in the one table of
//! `src/kept_elements.rt`; all others are read by the same rules and dropped. What the elements mean is not
//! asked here.
//!
//! A text is read byte by byte, in one pass and without recursion. What is known after each byte is
//! a value, and the fault is that of the first byte that nothing before it allows. The
//! definitions stand in `specs/`: which texts are documents, and what each stands for, by a grammar
//! in `Grammar`; what a byte does in text and outside of tags in `Reader`, in tags in `Tags`, and
//! the reading of a whole text in `Elements`; the characters that references stand for in
//! `References`, and the encoding that is declared in `Declarations`. The laws in `Laws` say that
//! what is read are the documents, each as its root, and that the fault is the first. What stands in
//! a text that has a fault is said in `Refusals`, for each kind of fault; and which elements are kept,
//! row by row, in `Listed`.
//!
//! ```
//! let root = read_elements(alloc, b"<XMCDA><criteria><criterion id='q'/></criteria></XMCDA>")?;
//! assert_eq!(root.children()[0].children()[0].id(), Some("q"));
//! ```

mod bytes;
mod declaration;
mod element;
mod kept_elements;
pub mod laws;
mod limits;
mod marks;
mod mode;
mod names;
mod open;
mod reader;
mod reading;
mod reference;
mod short;
mod tag;

pub use element::{Element, ElementError, ElementFault, ElementKind};
pub use limits::MOST_DEPTH;
pub use marks::is_white;
pub use names::Names;
pub use reading::{read_elements, without_mark};
