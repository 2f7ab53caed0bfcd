//! The questions on the classes of an alternative.

ghost use Rattle.std.specs.Prelude.{◌≡◌, IfOk};
ghost use Rattle.ror_classes.specs.Classes as spec;

use ror_statement::Question;
use std::alloc::{AllocError, Global};

/// The questions on the classes of an alternative, where there are so many: for each class from 1 whether it is possible, and
/// whether it is necessary.
///
/// # Errors
///
/// Only want of memory.
pub fn class_questions(
    alloc: Global,
    alternative: usize,
    classes: u32,
) -> Result<Vec<Question>, AllocError>
    ensures { IfOk result (λ questions. questions.items
        ≡ spec.class_questions alternative classes) }
{
    let mut questions = Vec::new(alloc);
    for below in 0..classes {
        questions.push(Question::PossibleClass(alternative, below + 1))?;
        questions.push(Question::NecessaryClass(alternative, below + 1))?;
    }
    Ok(questions)
}
