//! Copies of answers.

ghost use Rattle.std.specs.Prelude.{◌≡◌, IfOk};

use crate::answer::{Answer, Certificate, Part, Proof, Verdict, WideText};
use ror_text::Items;
use std::alloc::{AllocError, Global};

impl Answer {
    /// The same answer again.
    ///
    /// # Errors
    ///
    /// Out of memory.
    pub fn copied(&self, alloc: Global) -> Result<Answer, AllocError>
        ensures { IfOk result (λ copy. copy ≡ self.now) }
    {
        Ok(Answer {
            question: self.question,
            verdict: self.verdict.copied(alloc)?,
        })
    }
}

impl Verdict {
    /// The same verdict again.
    fn copied(&self, alloc: Global) -> Result<Verdict, AllocError>
        ensures { IfOk result (λ copy. copy ≡ self.now) }
    {
        match self {
            Verdict::Yes(proof) => Ok(Verdict::Yes(proof.copied(alloc)?)),
            Verdict::No(proof) => Ok(Verdict::No(proof.copied(alloc)?)),
            Verdict::Contradiction(proof) => Ok(Verdict::Contradiction(proof.copied(alloc)?)),
            Verdict::Wide { system, note } => Ok(Verdict::Wide {
                system: *system,
                note: note.copied(alloc)?,
            }),
        }
    }
}

impl Proof {
    /// The same proof again.
    fn copied(&self, alloc: Global) -> Result<Proof, AllocError>
        ensures { IfOk result (λ copy. copy ≡ self.now) }
    {
        let base = self.base.copied(alloc)?;
        let parts = copied_parts(alloc, self.parts.as_slice())?;
        Ok(Proof {
            base,
            parts: Items::from(parts),
        })
    }
}

fn copied_parts(alloc: Global, parts: &[Part]) -> Result<Vec<Part>, AllocError>
    ensures { IfOk result (λ copies. copies.items ≡ parts.now) }
{
    let mut copies = Vec::new(alloc);
    'parts: for part in parts {
        copies.push(Part {
            at: part.at,
            body: part.body.copied(alloc)?,
        })?;
    }
    Ok(copies)
}

impl Certificate {
    /// The same certificate again.
    ///
    /// # Errors
    ///
    /// Out of memory.
    pub fn copied(&self, alloc: Global) -> Result<Certificate, AllocError>
        ensures { IfOk result (λ copy. copy ≡ self.now) }
    {
        match self {
            Certificate::Solution(solution) => Ok(Certificate::Solution(solution.copied(alloc)?)),
            Certificate::Multipliers(multipliers) => {
                Ok(Certificate::Multipliers(multipliers.copied(alloc)?))
            }
        }
    }
}

impl WideText {
    /// The same note again.
    ///
    /// # Errors
    ///
    /// Out of memory.
    pub fn copied(&self, alloc: Global) -> Result<WideText, AllocError>
        ensures { IfOk result (λ copy. copy ≡ self.now) }
    {
        Ok(WideText {
            path: Items::from(Vec::from_slice(alloc, self.path.as_slice())?),
            place: self.place,
        })
    }
}
