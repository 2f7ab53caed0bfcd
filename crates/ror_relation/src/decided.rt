//! A list whose base is decided once, and answers over it.

ghost use Rattle.std.specs.Prelude.{◌≡◌, ◌≤◌, IfOk};
ghost use Rattle.std.specs.List.{AllByRecursion, AllZip};
ghost use Rattle.ror_pivot.specs.Answers.{most_of};
ghost use Rattle.ror_value.specs.Over.{IsLawfulIn, IsAskedIn};
ghost use Rattle.ror_check.specs.Proof.{question_systems_of};
ghost use Rattle.ror_given.specs.Answers.{IsGiven};
ghost use Rattle.ror_relation.specs.Decisions.{IsSearch, verdict_of};
ghost use Rattle.ror_relation.specs.DecidedLists.{IsDecidedList, statements_of};

use crate::decision::{Decision, decide_system_warm};
use crate::search::{Search, first_solvable};
use ror_pivot::Bits;
use ror_proof::{Answer, Certificate, Part, Proof, Verdict};
use ror_rows::{question_systems, system_of};
use ror_statement::{Question, QuestionKind, Statement, kind_of};
use ror_system::{Solution, System};
use ror_table::Table;
use ror_text::Items;
use ror_warm::Engine;
use std::alloc::{AllocError, Global};

/// A list with its base, the system of its statements alone, and what the base comes to at a width. Questions over the list
/// are then answered one by one, by any engine, and the base is neither made nor decided again.
#[derive(Drop)]
pub struct DecidedList {
    list: Items<Statement>,
    system: System,
    base: Decision,
}

impl DecidedList {
    /// The list with its base, decided at this width by the engine, which may have decided other systems before. The list is
    /// lawful for the table. Its one error is want of memory.
    pub fn new(
        alloc: Global,
        engine: &mut Engine,
        table: &Table,
        list: Items<Statement>,
        bits: Bits,
    ) -> Result<DecidedList, AllocError>
        requires lawful { IsLawfulIn table.now list }
        ensures decided { IfOk result (IsDecidedList (most_of bits) table.now) }
        ensures statements { IfOk result (λ decided. statements_of decided ≡ list) }
        ensures counted { engine.old.pivots ≤ engine.new.pivots }
    {
        let system = system_of(alloc, table, list.as_slice())?;
        let base = decide_system_warm(alloc, engine, &system, bits)?;
        Ok(DecidedList { list, system, base })
    }

    /// Answers the question over the list as `decide` does, at the width at which its base was decided. The question is valid
    /// for the table. Its one error is want of memory.
    pub fn answer(
        &self,
        alloc: Global,
        engine: &mut Engine,
        table: &Table,
        question: &Question,
        bits: Bits,
    ) -> Result<Answer, AllocError>
        requires decided { IsDecidedList (most_of bits) table.now self.now }
        requires asked { IsAskedIn table.now question.now }
        ensures given { IfOk result
            (IsGiven (most_of bits) table.now (statements_of self.now) question.now) }
        ensures counted { engine.old.pivots ≤ engine.new.pivots }
    {
        let verdict = match &self.base {
            Decision::Solvable(solution) => {
                let search = self.search(alloc, engine, table, question, bits)?;
                concluded(alloc, kind_of(question), solution, search)?
            }
            Decision::NotSolvable(multipliers) => Verdict::Contradiction(Proof {
                base: Certificate::Multipliers(multipliers.copied(alloc)?),
                parts: Items::from(Vec::new(alloc)),
            }),
            Decision::TooWide(note) => Verdict::Wide {
                system: 0,
                note: note.copied(alloc)?,
            },
        };
        Ok(Answer {
            question: *question,
            verdict,
        })
    }

    /// Answers each of these questions over the list, in order, as `answer` does.
    pub fn answer_each(
        &self,
        alloc: Global,
        engine: &mut Engine,
        table: &Table,
        questions: &[Question],
        bits: Bits,
    ) -> Result<Vec<Answer>, AllocError>
        requires decided { IsDecidedList (most_of bits) table.now self.now }
        requires asked { AllByRecursion (IsAskedIn table.now) questions.now }
        ensures given { IfOk result (λ answers. AllZip
            (IsGiven (most_of bits) table.now (statements_of self.now)) questions.now answers.items) }
        ensures counted { engine.old.pivots ≤ engine.new.pivots }
    {
        let mut answers = Vec::with_capacity(alloc, questions.len())?;
        for question in questions {
            let answer = self.answer(alloc, engine, table, question, bits)?;
            answers.push(answer)?;
        }
        Ok(answers)
    }

    /// What the search among the systems of the question comes to, in order.
    fn search(
        &self,
        alloc: Global,
        engine: &mut Engine,
        table: &Table,
        question: &Question,
        bits: Bits,
    ) -> Result<Search, AllocError>
        requires decided { IsDecidedList (most_of bits) table.now self.now }
        requires asked { IsAskedIn table.now question.now }
        ensures found { IfOk result (IsSearch (most_of bits)
            (question_systems_of table.now (statements_of self.now) question.now)) }
        ensures counted { engine.old.pivots ≤ engine.new.pivots }
    {
        let systems = question_systems(alloc, table, self.list.as_slice(), question)?;
        first_solvable(alloc, engine, table, &self.system, systems.as_slice(), bits)
    }
}

/// The verdict on a question of this kind, where the base has this solution and the search among the question's systems comes
/// to this.
fn concluded(
    alloc: Global,
    kind: QuestionKind,
    base: &Solution,
    search: Search,
) -> Result<Verdict, AllocError>
    ensures { IfOk result (λ v. v ≡ verdict_of kind (Certificate.Solution base.now) search) }
{
    let base = Certificate::Solution(base.copied(alloc)?);
    match search {
        Search::Solvable(part) => {
            let mut parts = Vec::new(alloc);
            parts.push(part)?;
            let proof = proof(base, parts);
            match kind {
                QuestionKind::Every => Ok(Verdict::No(proof)),
                _ => Ok(Verdict::Yes(proof)),
            }
        }
        Search::NoneSolvable(parts) => {
            let proof = proof(base, parts);
            match kind {
                QuestionKind::Any => Ok(Verdict::No(proof)),
                _ => Ok(Verdict::Yes(proof)),
            }
        }
        Search::TooWide { system, note } => Ok(Verdict::Wide { system, note }),
    }
}

/// The proof of this base and these parts.
fn proof(base: Certificate, parts: Vec<Part>) -> Proof
    ensures base { result.base ≡ base }
    ensures parts { result.parts ≡ parts.items }
{
    Proof {
        base,
        parts: Items::from(parts),
    }
}
