//! The systems of questions.

ghost use Rattle.std.specs.Prelude.{◌≡◌, ◌++◌, [], ◌∷◌, map, option_to_list, IfOk, OnOk};
ghost use Rattle.std.specs.List.{flat_map};
ghost use Rattle.ror_statement.specs.Statements.{assignment_of};
ghost use Rattle.ror_value.specs.Over.{IsLawfulIn, IsAskedIn};
ghost use Rattle.ror_value.specs.Meaning.{assignments_of};
ghost use Rattle.ror_rows.specs.Rows.{systems_of_question, comparison_of_extra, extras_of, conditions_of, class_conditions, negation_of};

use crate::extra::{Extra, Extras};
use ror_statement::{Form, Property, Question, QuestionKind, Statement, kind_of};
use ror_table::Table;
use smallvec::SmallVec;
use std::alloc::{AllocError, Global};

/// The extra rows of each system of the question. It asks a lawful list and a valid question.
pub fn question_systems(
    alloc: Global,
    table: &Table,
    list: &[Statement],
    q: &Question,
) -> Result<Vec<Extras>, AllocError>
    requires lawful { IsLawfulIn table.now list.now }
    requires named { IsAskedIn table.now q.now }
    ensures { IfOk result (λ systems. map extras_of systems.items
        ≡ systems_of_question list.now q.now) }
{
    let conditions = conditions(alloc, list, q.property())?;
    match kind_of(q) {
        QuestionKind::Plain => Ok(Vec::new(alloc)),
        QuestionKind::Any => one_system(alloc, conditions),
        QuestionKind::Every => failing_systems(alloc, conditions.as_slice()),
    }
}

/// The system of the functions that have all conditions.
fn one_system(alloc: Global, conditions: Extras) -> Result<Vec<Extras>, AllocError>
    ensures { IfOk result (λ systems. map extras_of systems.items
        ≡ map (map comparison_of_extra) (conditions.items ∷ [])) }
{
    let mut systems = Vec::new(alloc);
    systems.push(conditions)?;
    Ok(systems)
}

/// For each condition the system of the functions at which it fails.
fn failing_systems(alloc: Global, conditions: &[Extra]) -> Result<Vec<Extras>, AllocError>
    ensures { IfOk result (λ systems. map extras_of systems.items
        ≡ map (map comparison_of_extra) (map (λ e. negation_of e ∷ []) conditions.now)) }
{
    let mut systems = Vec::new(alloc);
    for condition in conditions {
        systems.push(one(alloc, condition.negation())?)?;
    }
    Ok(systems)
}

/// The rows that hold of a compatible function exactly where it has the property.
fn conditions(alloc: Global, list: &[Statement], property: Property) -> Result<Extras, AllocError>
    ensures { IfOk result (λ extras. extras.items ≡ conditions_of list.now property) }
{
    match property {
        Property::Compatible => Ok(SmallVec::new(alloc)),
        Property::AtLeast(form) => one(alloc, Extra::at_least(form)),
        Property::InClass(alternative, class) => in_class(alloc, list, alternative, class),
    }
}

/// One extra row.
fn one(alloc: Global, extra: Extra) -> Result<Extras, AllocError>
    ensures { IfOk result (λ extras. extras.items ≡ extra ∷ []) }
{
    let mut extras = SmallVec::new(alloc);
    extras.push(extra)?;
    Ok(extras)
}

/// The rows of an alternative that may belong to a class.
#[tactic(auto, using(crate::proofs::ClassConditions::conditions_more))]
fn in_class(
    alloc: Global,
    list: &[Statement],
    alternative: usize,
    class: u32,
) -> Result<Extras, AllocError>
    ensures { IfOk result (λ extras. extras.items
        ≡ flat_map (class_conditions alternative class) (assignments_of list.now)) }
{
    let mut extras = SmallVec::new(alloc);
    for statement in list {
        push_condition(&mut extras, alternative, class, *statement)?;
    }
    Ok(extras)
}

/// Pushes what the statement asks of the alternative, if it assigns one to classes.
fn push_condition(
    extras: &mut Extras,
    alternative: usize,
    class: u32,
    statement: Statement,
) -> Result<(), AllocError>
    ensures { OnOk result (extras.new.items ≡ extras.old.items
        ++ flat_map (class_conditions alternative class) (option_to_list (assignment_of statement))) }
{
    let Some(assignment) = statement.assignment() else {
        return Ok(());
    };
    let other = assignment.alternative;
    if class < assignment.lowest {
        extras.push(Extra::above(Form::Value(other, alternative)))?;
    } else if assignment.highest < class {
        extras.push(Extra::above(Form::Value(alternative, other)))?;
    }
    Ok(())
}
