//! What hangs on each statement: what a line's questions come to if it is withdrawn, and if its contrary had been said, as values.
//!
//! [`find_relation_whatifs`] has a [`WhatIf`] for each kept line that asks for the relation, [`find_class_whatifs`] one for each line of each time at
//! which classes were asked for. A [`WhatIf`] has a [`Case`] for each statement that stood. For a case the line's questions are decided anew over
//! what would stand, each answer with its proof; the proofs are checked before anything is read off them. What is set beside the line's own
//! answers is an [`Outcome`]: whether some function agrees, and which pairs or classes change. A pair or a class of which something is too wide to
//! say is listed apart, and in no other list.
//!
//! Of five cars, where statement 1 says `prefer c10 c14` and statement 4 `stronger c01 c09 c10 c14`, the pairs are
//!
//! ```text
//! 1 withdrawn                       lost c01 -> c09, c01 -> c10, c01 -> c14, c09 -> c14, c10 -> c14
//! 1 turned to `atleast c14 c10`     the same, and won c14 -> c10
//! ```
#![tactic(auto)]

mod agreement;
mod answered;
mod cases;
mod changed;
mod classes;
pub mod laws;
mod outcome;
mod pairs;
mod relations;
mod shift;
mod times;
mod whatif;

pub use agreement::Agreement;
pub use cases::{Case, Contrary};
pub use changed::contrary_of;
pub use classes::{ClassEffect, ClassShift};
pub use outcome::{Asks, Effect, Outcome};
pub use pairs::PairEffect;
pub use relations::find_relation_whatifs;
pub use shift::Shift;
pub use times::{TimeWhatIf, find_class_whatifs};
pub use whatif::WhatIf;
