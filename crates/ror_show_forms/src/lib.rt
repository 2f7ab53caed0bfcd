//! Pages in forms for other programs: comma-separated values, graphs, and certificates of reasons, which are written, read and checked.
//!
//! Each form is a function of what is found. Where the session's line 5, at the desk `tenant`, finds a better than b by every compatible value
//! function, the values are `5,tenant,a,b,N`, and the graph, named `line 5`, has the one arrow `"a" -> "b"`.
//!
//! A [`Certificate`] is a reduct of an answer, and says at which line of the session that answer stands and at which place among the line's
//! answers. [`read_certificates`] reads a text of certificates, and [`check_certificates`] accepts them where each is proved over what stood at its
//! line. Where line 3 asks `necessary a b` and statement 2 says `prefer a b`, the certificate of its first answer begins
//!
//! ```text
//! reduct 3 1 2
//! answer necessary a b yes
//! ```
//!
//! The first answer is over the part of the statements that carries it, here statement 2 alone; behind it stands for each number of the part, in
//! order, the answer over the others.
#![tactic(auto)]

mod answered;
mod certificate;
mod change_csv;
mod check;
mod class_csv;
mod dot;
mod front;
mod function_csv;
mod head;
pub mod laws;
mod list;
mod print;
mod read;
mod relation_csv;

pub use certificate::Certificate;
pub use change_csv::{changes_head, write_changes_csv};
pub use check::check_certificates;
pub use class_csv::{classes_head, write_classes_csv};
pub use dot::{write_graph_body, write_relations_dot};
pub use function_csv::{functions_head, write_functions_csv};
pub use head::header;
pub use list::read_certificates;
pub use print::write_certificates;
pub use read::read_certificate;
pub use relation_csv::{relation_head, write_relations_csv};
