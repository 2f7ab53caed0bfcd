//! What a judge states and what an analyst asks, as forms over the places of alternatives and criteria: no table is needed
//! to say them. What they mean over value functions stands in `ror_value`.
//!
//! Whoever works with a [`Statement`] asks it what it compares, [`Statement::comparison`], or to which classes it assigns
//! an alternative, [`Statement::assignment`], and a [`Question`] which functions it is about, [`kind_of`], and what it
//! asks of each, [`Question::property`]. No crate above tells the statements and questions apart in another way.
//!
//! ```text
//! Prefer(0, 1).comparison()      Some(Comparison { relation: Above, form: Value(0, 1) })
//! Class(0, 2, 3).assignment()    Some(Assignment { alternative: 0, lowest: 2, highest: 3 })
//! kind_of(&Necessary(0, 1))      Every
//! Necessary(0, 1).property()     AtLeast(Value(0, 1))
//! ```
#![tactic(auto)]

mod comparison;
pub mod laws;
mod names;
mod question;
mod row_number;
mod statement;

pub use comparison::{Comparison, Form, Pair, Relation, Scope};
pub use names::{valid, valid_question};
pub use question::{Conclusion, Property, Question, QuestionKind, kind_of};
pub use row_number::{MOST_ROWS, MOST_STATEMENTS, row_count};
pub use statement::{Assignment, Numbered, Statement, statements_in};
