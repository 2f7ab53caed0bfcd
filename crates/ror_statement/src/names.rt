//! Which names are valid.

ghost use Rattle.std.specs.Prelude.{◌↔◌, IsTrue};
ghost use Rattle.ror_statement.specs.Names.{NamesWithin, PairWithin, ScopeWithin, IsAssignmentWithin, IsValid, IsValidQuestion};

use crate::comparison::{Form, Pair, Scope};
use crate::question::{Property, Question};
use crate::statement::{Assignment, Statement};

/// Whether all that the statement names is in a table of so many alternatives, criteria and classes, and a class
/// statement's interval is not empty.
pub fn valid(statement: &Statement, alternatives: usize, criteria: usize, classes: u32) -> bool
    ensures { IsTrue result ↔ IsValid alternatives criteria classes statement.now }
{
    if let Some(assignment) = statement.assignment() {
        return is_assignment_within(assignment, alternatives, classes);
    }
    match statement.comparison() {
        Some(comparison) => is_form_within(comparison.form, alternatives, criteria),
        None => true,
    }
}

/// Whether all that the question names is in a table of so many alternatives, criteria and classes.
pub fn valid_question(
    question: &Question,
    alternatives: usize,
    criteria: usize,
    classes: u32,
) -> bool
    ensures { IsTrue result ↔ IsValidQuestion alternatives criteria classes question.now }
{
    match question.property() {
        Property::Compatible => true,
        Property::AtLeast(form) => is_form_within(form, alternatives, criteria),
        Property::InClass(alternative, class) => {
            alternative < alternatives && 1 <= class && class <= classes
        }
    }
}

fn is_assignment_within(assignment: Assignment, alternatives: usize, classes: u32) -> bool
    ensures { IsTrue result ↔ IsAssignmentWithin alternatives classes assignment }
{
    assignment.alternative < alternatives
        && 1 <= assignment.lowest
        && assignment.lowest <= assignment.highest
        && assignment.highest <= classes
}

fn is_form_within(form: Form, alternatives: usize, criteria: usize) -> bool
    ensures { IsTrue result ↔ NamesWithin alternatives criteria form }
{
    match form {
        Form::Value(first, second) => first < alternatives && second < alternatives,
        Form::Strength(p, q, scope) => {
            is_pair_within(p, alternatives)
                && is_pair_within(q, alternatives)
                && is_scope_within(scope, criteria)
        }
    }
}

fn is_pair_within(pair: Pair, alternatives: usize) -> bool
    ensures { IsTrue result ↔ PairWithin alternatives pair }
{
    pair.first < alternatives && pair.second < alternatives
}

fn is_scope_within(scope: Scope, criteria: usize) -> bool
    ensures { IsTrue result ↔ ScopeWithin criteria scope }
{
    match scope {
        Scope::Whole => true,
        Scope::One(criterion) => criterion < criteria,
    }
}
