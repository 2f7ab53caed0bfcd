//! The printers of an answer's text and of a repair's.
#![tactic(auto, using(crate::proofs::PrintLemmas::in_front))]

ghost use Rattle.std.specs.Prelude.{◌≡◌, ◌<◌, ◌^◌, [], ◌∷◌, ◌++◌, length, map, codes, IfOk, OnOk};
ghost use Rattle.std.specs.List.{flat_map};
ghost use Rattle.ror_text.specs.SpacedLines.{line_text};
ghost use Rattle.ror_statement.specs.Names.{PairWithin, ScopeWithin, NamesWithin, IsPropertyWithin, IsValidQuestion};
ghost use Rattle.ror_table.specs.Table.{criterion_id_of};
ghost use Rattle.ror_proof.specs.Names.{verdict_name};
ghost use Rattle.ror_proof.specs.Printing.{spaced, StandsInFront};
ghost use Rattle.ror_proof.specs.Text.{pair_words, scope_words, form_words, property_words, question_words, certificate_words, base_text, part_text, proof_text, place_words, pivot_word, wide_text, verdict_text, head_text, answer_text, repaired_text, dropped_text, kept_text, IsNarrowKept, IsNarrowVerdict};

use crate::answer::{Answer, Certificate, Part, Pivot, PlaceText, Proof, Verdict, WideText};
use crate::kept::{Dropped, Kept};
use crate::names::{Name, PlaceName, QuestionName, VerdictName};
use crate::write::{
    end_line, write_alternative, write_digits, write_multipliers, write_number, write_numbers,
    write_word,
};
use ror_statement::{Form, Pair, Property, Question, Scope};
use ror_table::Table;
use std::alloc::{AllocError, Global};

/// The text of an answer. It asks what `write_answer` asks.
pub fn print_answer(alloc: Global, table: &Table, answer: &Answer) -> Result<Vec<u8>, AllocError>
    requires valid { IsValidQuestion (length table.now.alternatives) (length table.now.criteria)
        table.now.classes answer.now.question }
    requires narrow { IsNarrowVerdict answer.now.verdict }
    ensures { IfOk result (λ text. text.items ≡ answer_text table.now answer.now) }
{
    let mut text = Vec::new(alloc);
    write_answer(&mut text, table, answer)?;
    Ok(text)
}

/// Writes the text of an answer behind what is there, which stays in front also where memory runs out. It asks that the
/// question is valid for the table, and that every number of a certificate is of absolute value at most 2^127 - 1, so that
/// the text is read again.
#[tactic(auto, using(crate::proofs::PrintLemmas::in_front), unfolding(crate::specs::Text::answer_text))]
pub fn write_answer(text: &mut Vec<u8>, table: &Table, answer: &Answer) -> Result<(), AllocError>
    requires valid { IsValidQuestion (length table.now.alternatives) (length table.now.criteria)
        table.now.classes answer.now.question }
    requires narrow { IsNarrowVerdict answer.now.verdict }
    ensures ok { OnOk result (text.new.items ≡ text.old.items ++ answer_text table.now answer.now) }
    ensures front { StandsInFront text.old.items text.new.items }
{
    write_head(text, table, answer)?;
    write_verdict(text, &answer.verdict)
}

/// The text of a repair. It asks what `write_kept` asks.
pub fn print_kept(alloc: Global, kept: &Kept) -> Result<Vec<u8>, AllocError>
    requires few { length kept.now.dropped < 2 ^ 32 }
    requires narrow { IsNarrowKept kept.now }
    ensures { IfOk result (λ text. text.items ≡ kept_text kept.now) }
{
    let mut text = Vec::new(alloc);
    write_kept(&mut text, kept)?;
    Ok(text)
}

/// Writes the text of a repair behind what is there, which stays in front also where memory runs out. It asks that at
/// most 2^32 - 1 statements are dropped, and that every number of the base and of the multipliers is of absolute value at
/// most 2^127 - 1, so that the text is read again.
#[tactic(auto, using(crate::proofs::PrintLemmas::in_front), unfolding(crate::specs::Text::kept_text))]
pub fn write_kept(text: &mut Vec<u8>, kept: &Kept) -> Result<(), AllocError>
    requires few { length kept.now.dropped < 2 ^ 32 }
    requires narrow { IsNarrowKept kept.now }
    ensures ok { OnOk result (text.new.items ≡ text.old.items ++ kept_text kept.now) }
    ensures front { StandsInFront text.old.items text.new.items }
{
    write_repaired_line(text, kept.dropped.len())?;
    write_dropped_lines(text, kept.dropped.as_slice())?;
    write_base(text, &kept.base)
}

/// The line of the number of dropped statements.
fn write_repaired_line(text: &mut Vec<u8>, count: usize) -> Result<(), AllocError>
    ensures ok { OnOk result (text.new.items ≡ text.old.items ++ repaired_text count) }
    ensures front { StandsInFront text.old.items text.new.items }
{
    text.extend_from_slice(b"repaired")?;
    write_number(text, count)?;
    end_line(text)
}

fn write_dropped_lines(text: &mut Vec<u8>, dropped: &[Dropped]) -> Result<(), AllocError>
    ensures ok { OnOk result (text.new.items ≡ text.old.items ++ flat_map dropped_text dropped.now) }
    ensures front { StandsInFront text.old.items text.new.items }
{
    'dropped: for statement in dropped {
        write_dropped_line(text, statement)?;
    }
    Ok(())
}

fn write_dropped_line(text: &mut Vec<u8>, dropped: &Dropped) -> Result<(), AllocError>
    ensures ok { OnOk result (text.new.items ≡ text.old.items ++ dropped_text dropped.now) }
    ensures front { StandsInFront text.old.items text.new.items }
{
    text.extend_from_slice(b"dropped")?;
    write_number(text, dropped.number)?;
    write_multipliers(text, &dropped.proof)?;
    end_line(text)
}

/// The line of the question and the verdict.
fn write_head(text: &mut Vec<u8>, table: &Table, answer: &Answer) -> Result<(), AllocError>
    requires { IsValidQuestion (length table.now.alternatives) (length table.now.criteria)
        table.now.classes answer.now.question }
    ensures ok { OnOk result (text.new.items ≡ text.old.items
        ++ head_text table.now answer.now.question (verdict_name answer.now.verdict)) }
    ensures front { StandsInFront text.old.items text.new.items }
{
    text.extend_from_slice(b"answer")?;
    write_question(text, table, answer.question)?;
    write_word(text, VerdictName::of(&answer.verdict).word())?;
    end_line(text)
}

/// The words of a question.
fn write_question(text: &mut Vec<u8>, table: &Table, question: Question) -> Result<(), AllocError>
    requires { IsValidQuestion (length table.now.alternatives) (length table.now.criteria)
        table.now.classes question }
    ensures ok { OnOk result (text.new.items
        ≡ text.old.items ++ spaced (question_words table.now question)) }
    ensures front { StandsInFront text.old.items text.new.items }
{
    write_word(text, QuestionName::of(question).word())?;
    write_property(text, table, question.property())
}

/// The words of what a question asks of a value function.
fn write_property(text: &mut Vec<u8>, table: &Table, property: Property) -> Result<(), AllocError>
    requires { IsPropertyWithin (length table.now.alternatives) (length table.now.criteria)
        table.now.classes property }
    ensures ok { OnOk result (text.new.items
        ≡ text.old.items ++ spaced (property_words table.now property)) }
    ensures front { StandsInFront text.old.items text.new.items }
{
    match property {
        Property::Compatible => Ok(()),
        Property::AtLeast(form) => write_form(text, table, form),
        Property::InClass(alternative, class) => {
            write_alternative(text, table, alternative)?;
            write_number(text, class)
        }
    }
}

fn write_form(text: &mut Vec<u8>, table: &Table, form: Form) -> Result<(), AllocError>
    requires { NamesWithin (length table.now.alternatives) (length table.now.criteria) form }
    ensures ok { OnOk result (text.new.items ≡ text.old.items ++ spaced (form_words table.now form)) }
    ensures front { StandsInFront text.old.items text.new.items }
{
    match form {
        Form::Value(first, second) => write_pair(text, table, Pair { first, second }),
        Form::Strength(first, second, scope) => {
            write_pair(text, table, first)?;
            write_pair(text, table, second)?;
            write_scope(text, table, scope)
        }
    }
}

fn write_pair(text: &mut Vec<u8>, table: &Table, pair: Pair) -> Result<(), AllocError>
    requires { PairWithin (length table.now.alternatives) pair }
    ensures ok { OnOk result (text.new.items ≡ text.old.items ++ spaced (pair_words table.now pair)) }
    ensures front { StandsInFront text.old.items text.new.items }
{
    write_alternative(text, table, pair.first)?;
    write_alternative(text, table, pair.second)
}

fn write_scope(text: &mut Vec<u8>, table: &Table, scope: Scope) -> Result<(), AllocError>
    requires { ScopeWithin (length table.now.criteria) scope }
    ensures ok { OnOk result (text.new.items
        ≡ text.old.items ++ spaced (scope_words table.now scope)) }
    ensures front { StandsInFront text.old.items text.new.items }
{
    match scope {
        Scope::Whole => Ok(()),
        Scope::One(criterion) => {
            write_word(text, b"on")?;
            write_criterion(text, table, criterion)
        }
    }
}

fn write_criterion(text: &mut Vec<u8>, table: &Table, criterion: usize) -> Result<(), AllocError>
    requires { criterion < length table.now.criteria }
    ensures ok { OnOk result (text.new.items
        ≡ text.old.items ++ 32 ∷ criterion_id_of table.now criterion) }
    ensures front { StandsInFront text.old.items text.new.items }
{
    write_word(text, table.criterion_id(criterion).as_bytes())
}

/// What follows the line of the question.
fn write_verdict(text: &mut Vec<u8>, verdict: &Verdict) -> Result<(), AllocError>
    ensures ok { OnOk result (text.new.items ≡ text.old.items ++ verdict_text verdict.now) }
    ensures front { StandsInFront text.old.items text.new.items }
{
    match verdict {
        Verdict::Yes(proof) | Verdict::No(proof) | Verdict::Contradiction(proof) => {
            write_proof(text, proof)
        }
        Verdict::Wide { system, note } => write_wide(text, *system, note),
    }
}

/// The line of the base, and a line for each part.
fn write_proof(text: &mut Vec<u8>, proof: &Proof) -> Result<(), AllocError>
    ensures ok { OnOk result (text.new.items ≡ text.old.items ++ proof_text proof.now) }
    ensures front { StandsInFront text.old.items text.new.items }
{
    write_base(text, &proof.base)?;
    write_parts(text, proof.parts.as_slice())
}

fn write_base(text: &mut Vec<u8>, base: &Certificate) -> Result<(), AllocError>
    ensures ok { OnOk result (text.new.items ≡ text.old.items ++ base_text base.now) }
    ensures front { StandsInFront text.old.items text.new.items }
{
    text.extend_from_slice(b"base")?;
    write_certificate(text, base)?;
    end_line(text)
}

fn write_parts(text: &mut Vec<u8>, parts: &[Part]) -> Result<(), AllocError>
    ensures ok { OnOk result (text.new.items ≡ text.old.items ++ flat_map part_text parts.now) }
    ensures front { StandsInFront text.old.items text.new.items }
{
    'parts: for part in parts {
        write_part(text, part)?;
    }
    Ok(())
}

fn write_part(text: &mut Vec<u8>, part: &Part) -> Result<(), AllocError>
    ensures ok { OnOk result (text.new.items ≡ text.old.items ++ part_text part.now) }
    ensures front { StandsInFront text.old.items text.new.items }
{
    text.extend_from_slice(b"part")?;
    write_number(text, part.at)?;
    write_certificate(text, &part.body)?;
    end_line(text)
}

fn write_certificate(text: &mut Vec<u8>, certificate: &Certificate) -> Result<(), AllocError>
    ensures ok { OnOk result (text.new.items
        ≡ text.old.items ++ spaced (certificate_words certificate.now)) }
    ensures front { StandsInFront text.old.items text.new.items }
{
    match certificate {
        Certificate::Solution(solution) => {
            write_word(text, b"solution")?;
            write_numbers(text, &solution.steps)
        }
        Certificate::Multipliers(multipliers) => write_multipliers(text, multipliers),
    }
}

/// Writes the line of a number too wide on the way to the certificate of this system behind what is
/// there, which stays in front also where memory runs out.
pub fn write_wide(text: &mut Vec<u8>, system: u32, note: &WideText) -> Result<(), AllocError>
    ensures ok { OnOk result (text.new.items ≡ text.old.items ++ wide_text system note.now) }
    ensures front { StandsInFront text.old.items text.new.items }
{
    text.extend_from_slice(b"wide")?;
    write_number(text, system)?;
    write_place(text, note.place)?;
    write_word(text, b"path")?;
    write_pivots(text, note.path.as_slice())?;
    end_line(text)
}

fn write_place(text: &mut Vec<u8>, place: PlaceText) -> Result<(), AllocError>
    ensures ok { OnOk result (text.new.items ≡ text.old.items ++ spaced (place_words place)) }
    ensures front { StandsInFront text.old.items text.new.items }
{
    write_word(text, PlaceName::of(place).word())?;
    match place {
        PlaceText::Start(row, column) | PlaceText::Step(row, column) => {
            write_number(text, row)?;
            write_number(text, column)
        }
        PlaceText::Denominator(row) | PlaceText::RowSum(row) => write_number(text, row),
        PlaceText::ColumnSum(column) => write_number(text, column),
    }
}

fn write_pivots(text: &mut Vec<u8>, pivots: &[Pivot]) -> Result<(), AllocError>
    ensures ok { OnOk result (text.new.items
        ≡ text.old.items ++ spaced (map pivot_word pivots.now)) }
    ensures front { StandsInFront text.old.items text.new.items }
{
    'pivots: for pivot in pivots {
        write_pivot(text, *pivot)?;
    }
    Ok(())
}

fn write_pivot(text: &mut Vec<u8>, pivot: Pivot) -> Result<(), AllocError>
    ensures ok { OnOk result (text.new.items ≡ text.old.items ++ 32 ∷ pivot_word pivot) }
    ensures front { StandsInFront text.old.items text.new.items }
{
    write_number(text, pivot.column)?;
    text.push(b':')?;
    write_digits(text, pivot.row)
}
