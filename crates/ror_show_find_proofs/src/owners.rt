//! Which statements give the rows of a system.

ghost use Rattle.std.specs.Prelude.{◌≡◌, ◌++◌, [], ◌∷◌, IfOk, OnOk};
ghost use Rattle.std.specs.List.{flat_map};
ghost use Rattle.ror_show_find_proofs.specs.Weights as spec;

use ror_statement::{Assignment, Numbered, Property, Question, QuestionKind, Relation, kind_of};
use ror_text::Items;
use std::alloc::{AllocError, Global};

/// The numbers of the two statements that give a row: the same twice where one gives it by itself, and 0 where none does.
pub(crate) type Owner = (u32, u32);

/// Which statements give the weak rows of a system and the strict ones, in order.
#[derive(Debug, Drop)]
pub struct Owners {
    pub(crate) weak: Items<Owner>,
    pub(crate) strict: Items<Owner>,
}

/// Those of the system of a part of a list, with the rows that its class statements add for the question.
pub fn owners_of(
    alloc: Global,
    part: &[Numbered],
    question: &Question,
) -> Result<Owners, AllocError>
    ensures { IfOk result (λ owners. owners ≡ spec.owners_of part.now question.now) }
{
    let mut weak = Vec::new(alloc);
    push_all_weak(&mut weak, part)?;
    let strict = strict_owners(alloc, part, question)?;
    Ok(Owners {
        weak: Items::from(weak),
        strict: Items::from(strict),
    })
}

fn strict_owners(
    alloc: Global,
    part: &[Numbered],
    question: &Question,
) -> Result<Vec<Owner>, AllocError>
    ensures { IfOk result (λ owners. owners.items ≡ spec.strict_owners part.now question.now) }
{
    let mut owners = Vec::new(alloc);
    owners.push((0, 0))?;
    push_all_strict(&mut owners, part)?;
    push_all_pairs(&mut owners, part)?;
    push_conditions(&mut owners, part, question)?;
    Ok(owners)
}

fn push_all_weak(owners: &mut Vec<Owner>, part: &[Numbered]) -> Result<(), AllocError>
    ensures { OnOk result (owners.new.items ≡ owners.old.items ++ flat_map spec.weak_of part.now) }
{
    'part: for x in part {
        push_weak(owners, x)?;
    }
    Ok(())
}

fn push_weak(owners: &mut Vec<Owner>, x: &Numbered) -> Result<(), AllocError>
    ensures { OnOk result (owners.new.items ≡ owners.old.items ++ spec.weak_of x.now) }
{
    let Some(comparison) = x.statement.comparison() else {
        return Ok(());
    };
    match comparison.relation {
        Relation::Above => Ok(()),
        Relation::AtLeast => push_alone(owners, x.number),
        Relation::Equal => {
            owners.push((x.number, x.number))?;
            push_alone(owners, x.number)
        }
    }
}

fn push_alone(owners: &mut Vec<Owner>, number: u32) -> Result<(), AllocError>
    ensures { OnOk result (owners.new.items ≡ owners.old.items ++ spec.alone number) }
{
    owners.push((number, number))?;
    Ok(())
}

fn push_all_strict(owners: &mut Vec<Owner>, part: &[Numbered]) -> Result<(), AllocError>
    ensures { OnOk result (owners.new.items ≡ owners.old.items ++ flat_map spec.strict_of part.now) }
{
    'part: for x in part {
        push_strict(owners, x)?;
    }
    Ok(())
}

fn push_strict(owners: &mut Vec<Owner>, x: &Numbered) -> Result<(), AllocError>
    ensures { OnOk result (owners.new.items ≡ owners.old.items ++ spec.strict_of x.now) }
{
    let Some(comparison) = x.statement.comparison() else {
        return Ok(());
    };
    match comparison.relation {
        Relation::Above => push_alone(owners, x.number),
        Relation::AtLeast | Relation::Equal => Ok(()),
    }
}

/// Adds the rows that two class statements give together.
fn push_all_pairs(owners: &mut Vec<Owner>, part: &[Numbered]) -> Result<(), AllocError>
    ensures { OnOk result (owners.new.items
        ≡ owners.old.items ++ flat_map (spec.pairs_of part.now) part.now) }
{
    'part: for x in part {
        push_pairs(owners, part, x)?;
    }
    Ok(())
}

fn push_pairs(
    owners: &mut Vec<Owner>,
    part: &[Numbered],
    first: &Numbered,
) -> Result<(), AllocError>
    ensures { OnOk result (owners.new.items
        ≡ owners.old.items ++ spec.pairs_of part.now first.now) }
{
    'part: for second in part {
        push_pair(owners, first, second)?;
    }
    Ok(())
}

fn push_pair(owners: &mut Vec<Owner>, first: &Numbered, second: &Numbered) -> Result<(), AllocError>
    ensures { OnOk result (owners.new.items
        ≡ owners.old.items ++ spec.pair_of first.now second.now) }
{
    match (first.statement.assignment(), second.statement.assignment()) {
        (Some(above), Some(below)) if above.outranks(below) => {
            owners.push((first.number, second.number))?;
            Ok(())
        }
        _ => Ok(()),
    }
}

/// Adds the rows of class statements that are against the class of a question on some function.
fn push_conditions(
    owners: &mut Vec<Owner>,
    part: &[Numbered],
    question: &Question,
) -> Result<(), AllocError>
    ensures { OnOk result (owners.new.items
        ≡ owners.old.items ++ spec.conditions_of part.now question.now) }
{
    match (kind_of(question), question.property()) {
        (QuestionKind::Any, Property::InClass(_, class)) => push_against(owners, part, class),
        _ => Ok(()),
    }
}

fn push_against(owners: &mut Vec<Owner>, part: &[Numbered], class: u32) -> Result<(), AllocError>
    ensures { OnOk result (owners.new.items
        ≡ owners.old.items ++ flat_map (spec.condition_of class) part.now) }
{
    'part: for x in part {
        push_condition(owners, class, x)?;
    }
    Ok(())
}

fn push_condition(owners: &mut Vec<Owner>, class: u32, x: &Numbered) -> Result<(), AllocError>
    ensures { OnOk result (owners.new.items
        ≡ owners.old.items ++ spec.condition_of class x.now) }
{
    match x.statement.assignment() {
        Some(assignment) if is_against(class, assignment) => push_alone(owners, x.number),
        _ => Ok(()),
    }
}

fn is_against(class: u32, assignment: Assignment) -> bool
    ensures { result ≡ spec.is_against class assignment }
{
    class < assignment.lowest || assignment.highest < class
}
