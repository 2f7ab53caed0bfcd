//! Copies of answers at levels and of borders.

ghost use Rattle.std.specs.Prelude.{◌≡◌, IfOk};

use crate::border::Border;
use crate::span::LevelAnswer;
use ror_text::Items;
use std::alloc::{AllocError, Global};

impl LevelAnswer {
    /// The same answer at its level.
    pub(crate) fn copied(&self, alloc: Global) -> Result<LevelAnswer, AllocError>
        ensures { IfOk result (λ copy. copy ≡ self.now) }
    {
        Ok(LevelAnswer {
            level: self.level,
            answer: self.answer.copied(alloc)?,
        })
    }
}

impl Border {
    /// The same border.
    pub(crate) fn copied(&self, alloc: Global) -> Result<Border, AllocError>
        ensures { IfOk result (λ copy. copy ≡ self.now) }
    {
        Ok(Border {
            level: self.level,
            below: Items::from(copied_each(alloc, self.below.as_slice())?),
            from: Items::from(copied_each(alloc, self.from.as_slice())?),
        })
    }
}

fn copied_each(alloc: Global, answers: &[LevelAnswer]) -> Result<Vec<LevelAnswer>, AllocError>
    ensures { IfOk result (λ copies. copies.items ≡ answers.now) }
{
    let mut copies = Vec::new(alloc);
    'answers: for x in answers {
        copies.push(x.copied(alloc)?)?;
    }
    Ok(copies)
}
