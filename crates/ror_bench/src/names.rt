//! The statements and questions of names, over a table.

ghost use Rattle.std.specs.Prelude.{◌≡◌, ◌≤◌, ◌∷◌, [], length, IfOk, IfErr};
ghost use Rattle.std.specs.List.{AllByRecursion};
ghost use Rattle.ror_text.specs.Reading.{Gives};
ghost use Rattle.ror_value.specs.Over.{IsValidIn, IsAskedIn};
ghost use Rattle.ror_bench.specs.Lines.{IsFirstOfNames};
ghost use Rattle.ror_bench.specs.Names as names;
ghost use Rattle.ror_bench.specs.Steps.{stopping_fault};

use crate::stop::LineStop;
use ror_classes::class_questions;
use ror_relation::relation_questions;
use ror_report::LineFault;
use ror_session::{Asked, Named, NamedPair};
use ror_statement::{Pair, Question, Scope, Statement};
use ror_table::Table;
use ror_text::Text;
use ror_text::reading::{need, refuse_if};
use std::alloc::{AllocError, Global};

/// How many alternatives a table may have for all its pairs to be asked of.
pub const MOST_RELATED: usize = 100;

/// Two pairs of alternatives, and where their strengths are compared.
#[derive(Clone, Copy)]
pub(crate) struct Strengths {
    first: Pair,
    second: Pair,
    scope: Scope,
}

/// The statement of these names. It takes no memory.
///
/// # Errors
///
/// `UnknownAlternative` where the table lacks an alternative that is named, else `UnknownCriterion` where it lacks the
/// criterion, else `UnknownClass` where a class is none from 1 to the number of classes, else `BadInterval` where the lowest
/// class is above the highest.
pub fn statement_of(table: &Table, named: &Named) -> Result<Statement, LineFault>
    ensures exact { result ≡ names.statement_of table.now named.now }
    ensures valid { IfOk result (IsValidIn table.now) }
    ensures first { IfErr result (IsFirstOfNames table.now named.now) }
{
    stated(table, named)
}

/// The statement of these names, each form by itself.
fn stated(table: &Table, named: &Named) -> Result<Statement, LineFault>
    ensures { result ≡ names.statement_of table.now named.now }
{
    match named {
        Named::Prefer(a, b) => {
            let pair = pair_of(table, a, b)?;
            Ok(Statement::Prefer(pair.first, pair.second))
        }
        Named::AtLeast(a, b) => {
            let pair = pair_of(table, a, b)?;
            Ok(Statement::AtLeast(pair.first, pair.second))
        }
        Named::Same(a, b) => {
            let pair = pair_of(table, a, b)?;
            Ok(Statement::Same(pair.first, pair.second))
        }
        Named::Stronger(p, q, on) => {
            let x = strengths_of(table, p, q, on)?;
            Ok(Statement::Stronger(x.first, x.second, x.scope))
        }
        Named::AsStrong(p, q, on) => {
            let x = strengths_of(table, p, q, on)?;
            Ok(Statement::AsStrong(x.first, x.second, x.scope))
        }
        Named::EqualStrength(p, q, on) => {
            let x = strengths_of(table, p, q, on)?;
            Ok(Statement::EqualStrength(x.first, x.second, x.scope))
        }
        Named::Class(name, lowest, highest) => assignment_of(table, name, *lowest, *highest),
    }
}

/// The questions that these names ask, in order.
///
/// # Errors
///
/// As those of `statement_of`, `UnknownClass` also where each class is asked of and the table has none, and `TooManyPairs`
/// where all pairs are asked of and the table has more than `MOST_RELATED` alternatives; or want of memory.
pub(crate) fn questions_of(
    alloc: Global,
    table: &Table,
    asked: &Asked,
) -> Result<Vec<Question>, LineStop>
    ensures exact { Gives (λ v. v.items) stopping_fault result
        (names.questions_of table.now asked.now) }
    ensures valid { IfOk result (λ v. AllByRecursion (IsAskedIn table.now) v.items) }
    ensures few { IfOk result (λ v. length v.items ≤ 20000) }
{
    prove!(table.alternatives() > 0);
    asked_questions(alloc, table, asked)
}

/// The questions that these names ask, each form by itself.
fn asked_questions(alloc: Global, table: &Table, asked: &Asked) -> Result<Vec<Question>, LineStop>
    ensures { Gives (λ v. v.items) stopping_fault result (names.questions_of table.now asked.now) }
{
    match asked {
        Asked::Consistent => one_question(alloc, Question::Consistent),
        Asked::Necessary(a, b) => {
            let pair = pair_of(table, a, b)?;
            one_question(alloc, Question::Necessary(pair.first, pair.second))
        }
        Asked::Possible(a, b) => {
            let pair = pair_of(table, a, b)?;
            one_question(alloc, Question::Possible(pair.first, pair.second))
        }
        Asked::NecessaryStrength(p, q, on) => {
            let x = strengths_of(table, p, q, on)?;
            one_question(
                alloc,
                Question::NecessaryStrength(x.first, x.second, x.scope),
            )
        }
        Asked::PossibleStrength(p, q, on) => {
            let x = strengths_of(table, p, q, on)?;
            one_question(
                alloc,
                Question::PossibleStrength(x.first, x.second, x.scope),
            )
        }
        Asked::PossibleClass(name, class) => {
            let alternative = member_of(table, name, *class)?;
            one_question(alloc, Question::PossibleClass(alternative, *class))
        }
        Asked::NecessaryClass(name, class) => {
            let alternative = member_of(table, name, *class)?;
            one_question(alloc, Question::NecessaryClass(alternative, *class))
        }
        Asked::Classes(name) => {
            let alternative = sorted_of(table, name)?;
            Ok(class_questions(alloc, alternative, table.classes())?)
        }
        Asked::Relation => all_pairs(alloc, table),
    }
}

/// The one question of a line.
fn one_question(alloc: Global, question: Question) -> Result<Vec<Question>, LineStop>
    ensures exact { Gives (λ v. v.items) stopping_fault result (Ok (question ∷ [])) }
{
    let mut questions = Vec::new(alloc);
    questions.push(question)?;
    Ok(questions)
}

/// Those on all pairs, unless there are too many.
fn all_pairs(alloc: Global, table: &Table) -> Result<Vec<Question>, LineStop>
    ensures exact { Gives (λ v. v.items) stopping_fault result
        (names.questions_of table.now Asked.Relation) }
{
    let count = table.alternatives();
    refuse_if(
        count > MOST_RELATED,
        LineStop::Refused(LineFault::TooManyPairs),
    )?;
    Ok(relation_questions(alloc, count)?)
}

/// Two pairs by their names, and the criterion where one is named.
#[tactic(auto, unfolding(crate::specs::Names::strengths_of))]
fn strengths_of(
    table: &Table,
    p: &NamedPair,
    q: &NamedPair,
    on: &Option<Text>,
) -> Result<Strengths, LineFault>
    ensures exact { result ≡ names.strengths_of table.now p.now q.now on.now }
{
    let first = pair_of(table, &p.first, &p.second)?;
    let second = pair_of(table, &q.first, &q.second)?;
    let scope = scope_of(table, on)?;
    Ok(Strengths {
        first,
        second,
        scope,
    })
}

/// The two alternatives of these names.
#[tactic(auto, unfolding(crate::specs::Names::pair_of))]
fn pair_of(table: &Table, a: &Text, b: &Text) -> Result<Pair, LineFault>
    ensures exact { result ≡ names.pair_of table.now a.now b.now }
{
    let first = alternative_of(table, a)?;
    let second = alternative_of(table, b)?;
    Ok(Pair { first, second })
}

/// The alternative of this name.
fn alternative_of(table: &Table, name: &Text) -> Result<usize, LineFault>
    ensures exact { result ≡ names.alternative_of table.now name.now }
{
    need(
        table.find_alternative(name.as_str()),
        LineFault::UnknownAlternative,
    )
}

/// All criteria, or the one of this name.
fn scope_of(table: &Table, on: &Option<Text>) -> Result<Scope, LineFault>
    ensures exact { result ≡ names.scope_of table.now on.now }
{
    match on {
        None => Ok(Scope::Whole),
        Some(name) => {
            let criterion = need(
                table.find_criterion(name.as_str()),
                LineFault::UnknownCriterion,
            )?;
            Ok(Scope::One(criterion))
        }
    }
}

/// The assignment of the alternative of this name to classes.
#[tactic(auto, unfolding(crate::specs::Names::assignment_of))]
fn assignment_of(
    table: &Table,
    name: &Text,
    lowest: u32,
    highest: u32,
) -> Result<Statement, LineFault>
    ensures exact { result ≡ names.assignment_of table.now name.now lowest highest }
{
    let alternative = alternative_of(table, name)?;
    refuse_if(is_no_class(table, lowest), LineFault::UnknownClass)?;
    refuse_if(is_no_class(table, highest), LineFault::UnknownClass)?;
    refuse_if(highest < lowest, LineFault::BadInterval)?;
    Ok(Statement::Class(alternative, lowest, highest))
}

/// The alternative of this name, where the table has the class.
#[tactic(auto, unfolding(crate::specs::Names::member_of))]
fn member_of(table: &Table, name: &Text, class: u32) -> Result<usize, LineFault>
    ensures exact { result ≡ names.member_of table.now name.now class }
{
    let alternative = alternative_of(table, name)?;
    refuse_if(is_no_class(table, class), LineFault::UnknownClass)?;
    Ok(alternative)
}

/// The alternative of this name, where the table has classes.
#[tactic(auto, unfolding(crate::specs::Names::sorted_of))]
fn sorted_of(table: &Table, name: &Text) -> Result<usize, LineFault>
    ensures exact { result ≡ names.sorted_of table.now name.now }
{
    let alternative = alternative_of(table, name)?;
    refuse_if(table.classes() == 0, LineFault::UnknownClass)?;
    Ok(alternative)
}

/// Whether the table lacks the class.
fn is_no_class(table: &Table, class: u32) -> bool
    ensures { result ≡ names.is_no_class table.now class }
{
    class == 0 || table.classes() < class
}
