//! The words of a question, read.

ghost use Rattle.std.specs.Prelude.{◌≡◌, IfErr};
ghost use Rattle.ror_text.specs.Reading.{Gives};
ghost use Rattle.ror_table.specs.Table.{alternative_named, criterion_named};
ghost use Rattle.ror_proof.specs.Questions as spec;
ghost use Rattle.ror_proof.specs.Reading.{proof_fault, IsProofFaultWithin};

use crate::names::{QUESTION_NAMES, QuestionName};
use crate::read::ProofFault;
use crate::words::{after_word, name_at, small_number_at};
use ror_statement::{Form, Pair, Question, Scope};
use ror_table::Table;
use ror_text::ids::id_text;
use ror_text::reading::need;
use ror_text::spaced::Words;

/// The question that comes first, in a line whose last word is to be the verdict.
#[tactic(auto, unfolding(crate::specs::Questions::question_at))]
pub fn question_at<'a>(
    table: &Table,
    place: usize,
    words: Words<'a>,
) -> Result<(Question, Words<'a>), ProofFault>
    ensures exact { Gives (λ x. (x.0, x.1)) proof_fault result
        (spec.question_at table.now place words.entry) }
    ensures placed { IfErr result (IsProofFaultWithin place) }
{
    let (name, words) = name_at(&QUESTION_NAMES, place, words)?;
    asked_at(table, place, name, words)
}

/// The question of this name, whose word is before these words.
fn asked_at<'a>(
    table: &Table,
    place: usize,
    name: QuestionName,
    words: Words<'a>,
) -> Result<(Question, Words<'a>), ProofFault>
    ensures exact { Gives (λ x. (x.0, x.1)) proof_fault result
        (spec.asked_at table.now place name words.entry) }
    ensures placed { IfErr result (IsProofFaultWithin place) }
{
    match name {
        QuestionName::Consistent => Ok((Question::Consistent, words)),
        QuestionName::Necessary => {
            let (form, words) = form_at(table, place, words)?;
            Ok((necessary(form), words))
        }
        QuestionName::Possible => {
            let (form, words) = form_at(table, place, words)?;
            Ok((possible(form), words))
        }
        QuestionName::PossibleClass => {
            let (alternative, class, words) = class_at(table, place, words)?;
            Ok((Question::PossibleClass(alternative, class), words))
        }
        QuestionName::NecessaryClass => {
            let (alternative, class, words) = class_at(table, place, words)?;
            Ok((Question::NecessaryClass(alternative, class), words))
        }
    }
}

/// Whether the comparison holds for every function.
fn necessary(form: Form) -> Question
    ensures { result ≡ spec.necessary form }
{
    match form {
        Form::Value(a, b) => Question::Necessary(a, b),
        Form::Strength(p, q, scope) => Question::NecessaryStrength(p, q, scope),
    }
}

/// Whether the comparison holds for some function.
fn possible(form: Form) -> Question
    ensures { result ≡ spec.possible form }
{
    match form {
        Form::Value(a, b) => Question::Possible(a, b),
        Form::Strength(p, q, scope) => Question::PossibleStrength(p, q, scope),
    }
}

/// Two alternatives; two pairs of them, where more than the verdict is left.
#[tactic(auto, unfolding(crate::specs::Questions::form_at))]
fn form_at<'a>(
    table: &Table,
    place: usize,
    words: Words<'a>,
) -> Result<(Form, Words<'a>), ProofFault>
    ensures exact { Gives (λ x. (x.0, x.1)) proof_fault result
        (spec.form_at table.now place words.entry) }
    ensures placed { IfErr result (IsProofFaultWithin place) }
{
    let (first, words) = pair_at(table, place, words)?;
    if words.is_at_most_one() {
        return Ok((Form::Value(first.first, first.second), words));
    }
    strength_at(table, place, first, words)
}

/// The second pair, and the scope.
#[tactic(auto, unfolding(crate::specs::Questions::strength_at))]
fn strength_at<'a>(
    table: &Table,
    place: usize,
    first: Pair,
    words: Words<'a>,
) -> Result<(Form, Words<'a>), ProofFault>
    ensures exact { Gives (λ x. (x.0, x.1)) proof_fault result
        (spec.strength_at table.now place first words.entry) }
    ensures placed { IfErr result (IsProofFaultWithin place) }
{
    let (second, words) = pair_at(table, place, words)?;
    let (scope, words) = scope_at(table, place, words)?;
    Ok((Form::Strength(first, second, scope), words))
}

/// The two alternatives that come first.
#[tactic(auto, unfolding(crate::specs::Questions::pair_at))]
fn pair_at<'a>(
    table: &Table,
    place: usize,
    words: Words<'a>,
) -> Result<(Pair, Words<'a>), ProofFault>
    ensures exact { Gives (λ x. (x.0, x.1)) proof_fault result
        (spec.pair_at table.now place words.entry) }
    ensures placed { IfErr result (IsProofFaultWithin place) }
{
    let (first, words) = alternative_at(table, place, words)?;
    let (second, words) = alternative_at(table, place, words)?;
    Ok((Pair { first, second }, words))
}

/// A criterion after `on`, where more than the verdict is left.
#[tactic(auto, unfolding(crate::specs::Questions::scope_at))]
fn scope_at<'a>(
    table: &Table,
    place: usize,
    words: Words<'a>,
) -> Result<(Scope, Words<'a>), ProofFault>
    ensures exact { Gives (λ x. (x.0, x.1)) proof_fault result
        (spec.scope_at table.now place words.entry) }
    ensures placed { IfErr result (IsProofFaultWithin place) }
{
    if words.is_at_most_one() {
        return Ok((Scope::Whole, words));
    }
    let words = after_word(place, b"on", words)?;
    let (criterion, words) = criterion_at(table, place, words)?;
    Ok((Scope::One(criterion), words))
}

/// An alternative and a class.
#[tactic(auto, unfolding(crate::specs::Questions::class_at))]
fn class_at<'a>(
    table: &Table,
    place: usize,
    words: Words<'a>,
) -> Result<(usize, u32, Words<'a>), ProofFault>
    ensures exact { Gives (λ x. ((x.0, x.1), x.2)) proof_fault result
        (spec.class_at table.now place words.entry) }
    ensures placed { IfErr result (IsProofFaultWithin place) }
{
    let (alternative, words) = alternative_at(table, place, words)?;
    let (class, words) = small_number_at(place, words)?;
    Ok((alternative, class, words))
}

/// The alternative whose id comes first.
#[tactic(auto, unfolding(crate::specs::Questions::alternative_at))]
pub fn alternative_at<'a>(
    table: &Table,
    place: usize,
    words: Words<'a>,
) -> Result<(usize, Words<'a>), ProofFault>
    ensures exact { Gives (λ x. (x.0, x.1)) proof_fault result
        (spec.alternative_at table.now place words.entry) }
    ensures placed { IfErr result (IsProofFaultWithin place) }
{
    match words.next() {
        Some((id, rest)) => {
            let alternative = need(find_alternative(table, id), ProofFault::BadLine(place))?;
            Ok((alternative, rest))
        }
        None => Err(ProofFault::BadLine(place)),
    }
}

/// The criterion whose id comes first.
#[tactic(auto, unfolding(crate::specs::Questions::criterion_at))]
fn criterion_at<'a>(
    table: &Table,
    place: usize,
    words: Words<'a>,
) -> Result<(usize, Words<'a>), ProofFault>
    ensures exact { Gives (λ x. (x.0, x.1)) proof_fault result
        (spec.criterion_at table.now place words.entry) }
    ensures placed { IfErr result (IsProofFaultWithin place) }
{
    match words.next() {
        Some((id, rest)) => {
            let criterion = need(find_criterion(table, id), ProofFault::BadLine(place))?;
            Ok((criterion, rest))
        }
        None => Err(ProofFault::BadLine(place)),
    }
}

/// The place of an alternative's id, if the table has it.
fn find_alternative(table: &Table, id: &[u8]) -> Option<usize>
    ensures { result ≡ alternative_named table.now id.now }
{
    // A table has alternatives, and the id of each is an id.
    prove!(table.alternatives() > 0);
    let id = id_text(id)?;
    table.find_alternative(id)
}

/// The place of a criterion's id, if the table has it.
fn find_criterion(table: &Table, id: &[u8]) -> Option<usize>
    ensures { result ≡ criterion_named table.now id.now }
{
    // A table has criteria, and the id of each is an id.
    prove!(table.criteria() > 0);
    let id = id_text(id)?;
    table.find_criterion(id)
}
