//! What a refuted system compares.

ghost use Rattle.std.specs.Prelude.{◌≡◌, ◌++◌, map, option_to_list, IfOk, OnOk};
ghost use Rattle.std.specs.List.{flat_map};
ghost use Rattle.ror_statement.specs.Statements.{comparison_of, outranking, class_comparisons};
ghost use Rattle.ror_value.specs.Over.{IsLawfulIn, IsAskedIn};
ghost use Rattle.ror_rows.specs.Rows.{comparison_of_extra, relation_of_flag, turned as form_turned};
ghost use Rattle.ror_show_find_proofs.specs.Sums.{asked_besides, first_asked};
ghost use Rattle.ror_show_find_proofs.specs.Linear as spec;

use ror_proof::Verdict;
use ror_rows::{Extra, question_systems};
use ror_statement::{Comparison, Form, Question, Relation, Statement};
use ror_table::Table;
use ror_text::Items;
use std::alloc::{AllocError, Global};

/// What the statements compare, and what the question's first system adds where they don't contradict each other.
pub(crate) fn compared(
    alloc: Global,
    table: &Table,
    list: &[Statement],
    question: &Question,
    verdict: &Verdict,
) -> Result<Vec<Comparison>, AllocError>
    requires lawful { IsLawfulIn table.now list.now }
    requires asked { IsAskedIn table.now question.now }
    ensures { IfOk result (λ made. made.items ≡ spec.compared list.now question.now verdict.now) }
{
    let mut made = Vec::new(alloc);
    push_stated(&mut made, list)?;
    push_classes(&mut made, list)?;
    push_besides(alloc, &mut made, table, list, question, verdict)?;
    Ok(made)
}

fn push_stated(made: &mut Vec<Comparison>, list: &[Statement]) -> Result<(), AllocError>
    ensures { OnOk result (made.new.items
        ≡ made.old.items ++ flat_map (λ s. option_to_list (comparison_of s)) list.now) }
{
    for statement in list {
        push_own(made, *statement)?;
    }
    Ok(())
}

fn push_own(made: &mut Vec<Comparison>, statement: Statement) -> Result<(), AllocError>
    ensures { OnOk result (made.new.items ≡ made.old.items ++ option_to_list (comparison_of statement)) }
{
    if let Some(comparison) = statement.comparison() {
        made.push(comparison)?;
    }
    Ok(())
}

/// What each two class statements say together.
fn push_classes(made: &mut Vec<Comparison>, list: &[Statement]) -> Result<(), AllocError>
    ensures { OnOk result (made.new.items ≡ made.old.items ++ class_comparisons list.now) }
{
    for first in list {
        push_outranked(made, *first, list)?;
    }
    Ok(())
}

fn push_outranked(
    made: &mut Vec<Comparison>,
    first: Statement,
    list: &[Statement],
) -> Result<(), AllocError>
    ensures { OnOk result (made.new.items ≡ made.old.items ++ flat_map (outranking first) list.now) }
{
    for second in list {
        push_pair(made, first, *second)?;
    }
    Ok(())
}

fn push_pair(
    made: &mut Vec<Comparison>,
    first: Statement,
    second: Statement,
) -> Result<(), AllocError>
    ensures { OnOk result (made.new.items ≡ made.old.items ++ outranking first second) }
{
    match (first.assignment(), second.assignment()) {
        (Some(above), Some(below)) if above.outranks(below) => {
            made.push(Comparison {
                relation: Relation::Above,
                form: Form::Value(above.alternative, below.alternative),
            })?;
            Ok(())
        }
        _ => Ok(()),
    }
}

fn push_besides(
    alloc: Global,
    made: &mut Vec<Comparison>,
    table: &Table,
    list: &[Statement],
    question: &Question,
    verdict: &Verdict,
) -> Result<(), AllocError>
    requires lawful { IsLawfulIn table.now list.now }
    requires asked { IsAskedIn table.now question.now }
    ensures { OnOk result (made.new.items ≡ made.old.items ++ asked_besides list.now question.now verdict.now) }
{
    match verdict {
        Verdict::Contradiction(_) => Ok(()),
        _ => push_first(alloc, made, table, list, question),
    }
}

fn push_first(
    alloc: Global,
    made: &mut Vec<Comparison>,
    table: &Table,
    list: &[Statement],
    question: &Question,
) -> Result<(), AllocError>
    requires lawful { IsLawfulIn table.now list.now }
    requires asked { IsAskedIn table.now question.now }
    ensures { OnOk result (made.new.items ≡ made.old.items ++ first_asked list.now question.now) }
{
    let systems = question_systems(alloc, table, list, question)?;
    match systems.as_slice() {
        [first, ..] => push_extras(made, first.as_slice()),
        [] => Ok(()),
    }
}

fn push_extras(made: &mut Vec<Comparison>, extras: &[Extra]) -> Result<(), AllocError>
    ensures { OnOk result (made.new.items ≡ made.old.items ++ map comparison_of_extra extras.now) }
{
    for extra in extras {
        made.push(Comparison {
            relation: relation_of(extra.strict),
            form: extra.form,
        })?;
    }
    Ok(())
}

fn relation_of(strict: bool) -> Relation
    ensures { result ≡ relation_of_flag strict }
{
    if strict {
        Relation::Above
    } else {
        Relation::AtLeast
    }
}

/// The forms of the rows of comparisons, but for the first strict one, which says that a function's numbers aren't all 0.
#[derive(Debug, Drop)]
pub(crate) struct Forms {
    pub(crate) weak: Items<Form>,
    pub(crate) strict: Items<Form>,
}

pub(crate) fn forms_of(alloc: Global, comparisons: &[Comparison]) -> Result<Forms, AllocError>
    ensures { IfOk result (λ forms. forms ≡ spec.forms_of comparisons.now) }
{
    let weak = weak_forms(alloc, comparisons)?;
    let strict = strict_forms(alloc, comparisons)?;
    Ok(Forms {
        weak: Items::from(weak),
        strict: Items::from(strict),
    })
}

fn weak_forms(alloc: Global, comparisons: &[Comparison]) -> Result<Vec<Form>, AllocError>
    ensures { IfOk result (λ made. made.items ≡ flat_map (λ c. spec.weak_forms_for c.relation c.form) comparisons.now) }
{
    let mut made = Vec::new(alloc);
    for comparison in comparisons {
        push_weak(&mut made, *comparison)?;
    }
    Ok(made)
}

fn push_weak(made: &mut Vec<Form>, comparison: Comparison) -> Result<(), AllocError>
    ensures { OnOk result (made.new.items
        ≡ made.old.items ++ spec.weak_forms_for comparison.relation comparison.form) }
{
    match comparison.relation {
        Relation::Above => Ok(()),
        Relation::AtLeast => {
            made.push(comparison.form)?;
            Ok(())
        }
        Relation::Equal => {
            made.push(comparison.form)?;
            made.push(turned(comparison.form))?;
            Ok(())
        }
    }
}

/// The form with its quantities exchanged.
fn turned(form: Form) -> Form
    ensures { result ≡ form_turned form }
{
    match form {
        Form::Value(a, b) => Form::Value(b, a),
        Form::Strength(p, q, scope) => Form::Strength(q, p, scope),
    }
}

fn strict_forms(alloc: Global, comparisons: &[Comparison]) -> Result<Vec<Form>, AllocError>
    ensures { IfOk result (λ made. made.items ≡ flat_map (λ c. spec.strict_forms_for c.relation c.form) comparisons.now) }
{
    let mut made = Vec::new(alloc);
    for comparison in comparisons {
        push_strict(&mut made, *comparison)?;
    }
    Ok(made)
}

fn push_strict(made: &mut Vec<Form>, comparison: Comparison) -> Result<(), AllocError>
    ensures { OnOk result (made.new.items
        ≡ made.old.items ++ spec.strict_forms_for comparison.relation comparison.form) }
{
    match comparison.relation {
        Relation::Above => {
            made.push(comparison.form)?;
            Ok(())
        }
        Relation::AtLeast | Relation::Equal => Ok(()),
    }
}
