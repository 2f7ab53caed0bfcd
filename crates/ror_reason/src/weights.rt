//! Which statements have weight in a proof.

ghost use Rattle.std.specs.Prelude.{IfOk};
ghost use Rattle.std.specs.List.Sorted.{IsStrictlyIncreasing};
ghost use Rattle.ror_statement.specs.Statements.{numbers_in};
ghost use Rattle.ror_check.specs.Repair.{AreNumbersIn};

use ror_proof::{Answer, Certificate, Proof, Verdict};
use ror_statement::{Assignment, Numbered, Property, Question, QuestionKind, Relation, kind_of};
use ror_system::Numbers;
use std::alloc::{AllocError, Global};

/// The numbers of the statements that have weight in the multipliers of the answer's proof: where a row has weight, each
/// statement that gives it.
pub(crate) fn weighed(
    alloc: Global,
    list: &[Numbered],
    answer: &Answer,
) -> Result<Vec<u32>, AllocError>
    requires { IsStrictlyIncreasing (numbers_in list.now) }
    ensures { IfOk result (λ numbers. AreNumbersIn list.now numbers.items) }
{
    let mut marks = vec![in alloc; false; list.len()]?;
    match &answer.verdict {
        Verdict::Yes(proof) | Verdict::No(proof) | Verdict::Contradiction(proof) => {
            let owners = Owners::of(alloc, list, &answer.question)?;
            owners.mark_proof(&mut marks, proof);
        }
        Verdict::Wide { .. } => {}
    }
    marked(alloc, list, marks.as_slice())
}

/// The numbers of the statements whose places are marked.
fn marked(alloc: Global, list: &[Numbered], marks: &[bool]) -> Result<Vec<u32>, AllocError>
    requires { IsStrictlyIncreasing (numbers_in list.now) }
    ensures { IfOk result (λ numbers. AreNumbersIn list.now numbers.items) }
{
    let mut numbers = Vec::new(alloc);
    for (place, numbered) in list.iter().enumerate() {
        if is_marked(marks, place) {
            numbers.push(numbered.number)?;
        }
    }
    Ok(numbers)
}

fn is_marked(marks: &[bool], place: usize) -> bool {
    place < marks.len() && marks[place]
}

/// The places of the two statements that give a row, which are one where a statement gives it by itself.
type Owner = Option<(usize, usize)>;

/// Which statements give the rows of a system, the weak ones and the strict ones, in order.
#[derive(Drop)]
struct Owners {
    weak: Vec<Owner>,
    strict: Vec<Owner>,
}

impl Owners {
    /// Those of the system of the list with the rows that its class statements add for the question.
    fn of(alloc: Global, list: &[Numbered], question: &Question) -> Result<Owners, AllocError> {
        let mut owners = Owners {
            weak: Vec::new(alloc),
            strict: Vec::new(alloc),
        };
        owners.strict.push(None)?;
        owners.push_statements(list)?;
        owners.push_pairs(list)?;
        owners.push_conditions(list, question)?;
        Ok(owners)
    }

    fn push_statements(&mut self, list: &[Numbered]) -> Result<(), AllocError> {
        for (place, numbered) in list.iter().enumerate() {
            let Some(comparison) = numbered.statement.comparison() else {
                continue;
            };
            let owner = Some((place, place));
            match comparison.relation {
                Relation::Above => self.strict.push(owner)?,
                Relation::AtLeast => self.weak.push(owner)?,
                Relation::Equal => {
                    self.weak.push(owner)?;
                    self.weak.push(owner)?;
                }
            }
        }
        Ok(())
    }

    fn push_pairs(&mut self, list: &[Numbered]) -> Result<(), AllocError> {
        for (place, numbered) in list.iter().enumerate() {
            if let Some(above) = numbered.statement.assignment() {
                self.push_outranked(list, place, above)?;
            }
        }
        Ok(())
    }

    fn push_outranked(
        &mut self,
        list: &[Numbered],
        first: usize,
        above: Assignment,
    ) -> Result<(), AllocError> {
        for (place, numbered) in list.iter().enumerate() {
            match numbered.statement.assignment() {
                Some(below) if above.outranks(below) => self.strict.push(Some((first, place)))?,
                _ => {}
            }
        }
        Ok(())
    }

    /// The one system of a question on some function has a strict row of each class statement that is against the class.
    fn push_conditions(
        &mut self,
        list: &[Numbered],
        question: &Question,
    ) -> Result<(), AllocError> {
        let (QuestionKind::Any, Property::InClass(_, class)) = (
            kind_of(question),
            question.property(),
        ) else {
            return Ok(());
        };
        for (place, numbered) in list.iter().enumerate() {
            match numbered.statement.assignment() {
                Some(x) if class < x.lowest || x.highest < class => {
                    self.strict.push(Some((place, place)))?;
                }
                _ => {}
            }
        }
        Ok(())
    }

    /// Marks the statements that have weight in the proof.
    fn mark_proof(&self, marks: &mut Vec<bool>, proof: &Proof) {
        self.mark_certificate(marks, &proof.base);
        for part in proof.parts.as_slice() {
            self.mark_certificate(marks, &part.body);
        }
    }

    fn mark_certificate(&self, marks: &mut Vec<bool>, certificate: &Certificate) {
        if let Certificate::Multipliers(multipliers) = certificate {
            mark(marks, self.weak.as_slice(), &multipliers.weak);
            mark(marks, self.strict.as_slice(), &multipliers.strict);
        }
    }
}

/// Marks the statements that give rows of weight.
fn mark(marks: &mut Vec<bool>, owners: &[Owner], multipliers: &Numbers) {
    for (row, owner) in owners.iter().enumerate() {
        if row < multipliers.len() && multipliers.entry(row) > 0 {
            mark_owner(marks, *owner);
        }
    }
}

fn mark_owner(marks: &mut Vec<bool>, owner: Owner) {
    if let Some((first, second)) = owner {
        mark_place(marks, first);
        mark_place(marks, second);
    }
}

fn mark_place(marks: &mut Vec<bool>, place: usize) {
    if place < marks.len() {
        marks[place] = true;
    }
}
