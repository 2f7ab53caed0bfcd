//! To which classes an alternative may belong (UTADIS-GMS): the questions on each class, and their answers with proofs.
//!
//! An alternative may belong to the classes that the assigned ones leave it: not below the lowest class of one that is
//! worth at most as much, and not above the highest class of one that is worth at least as much. A class is possible where
//! some compatible function leaves it to the alternative, and necessary where every one does. [`class_questions`] gives
//! both questions on each class of the table, and [`decide_classes`] their answers.
//!
//! Let alternative 0 be evaluated 3 and 10, 1 with 2 and 8 and 2 with 1 and 12, where more of the first and less of the
//! second criterion is better, and let there be three classes. Over `Class(0, 3, 3)` and `Class(1, 1, 2)`:
//!
//! ```text
//! PossibleClass(2, 1), NecessaryClass(2, 1)   Yes, Yes: no compatible function makes 2 worth as much as 0
//! PossibleClass(2, 2), NecessaryClass(2, 2)   Yes, Yes: 1, which is worth at least as much as 2, may be in the class 2
//! PossibleClass(2, 3), NecessaryClass(2, 3)   No, No: 1 is worth at least as much, and in no class above 2
//! ```
#![tactic(auto)]

mod deciding;
mod questions;

pub use deciding::{decide_class, decide_class_warm, decide_classes, decide_classes_warm};
pub use questions::class_questions;
