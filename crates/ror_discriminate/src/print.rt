//! The printer of an entry's text.
#![tactic(auto, using(ror_proof::proofs::PrintLemmas::in_front))]

ghost use Rattle.std.specs.Prelude.{◌≡◌, [], ◌∷◌, ◌++◌, codes, decimal, IfOk, OnOk};
ghost use Rattle.ror_text.specs.SpacedLines.{line_text};
ghost use Rattle.ror_proof.specs.Printing.{spaced, StandsInFront};
ghost use Rattle.ror_proof.specs.Text.{solution_words, multipliers_words};
ghost use Rattle.ror_discriminate.specs.Text.{base_wide_text, best_text, body_text, climb_place_words, climb_wide_text, entry_text, margin_text, place_words, IsPrintableEntry};

use crate::entry::{Entry, EntryBody};
use crate::write::write_path;
use ror_pivot::{ClimbNote, ClimbPlace, Optimum, Place, WideNote};
use ror_proof::write::{
    end_line, write_multipliers, write_number, write_numbers, write_weak_and_strict, write_word,
};
use ror_report::desk::write_desk;
use ror_system::{Multipliers, Solution};
use ror_table::Table;
use std::alloc::{AllocError, Global};

/// The text of an entry, of which no word is of the table. It asks what `write_entry` asks.
pub fn print_entry(alloc: Global, _table: &Table, x: &Entry) -> Result<Vec<u8>, AllocError>
    requires printable { IsPrintableEntry x.now }
    ensures text { IfOk result (λ text. text.items ≡ entry_text x.now) }
{
    let mut text = Vec::new(alloc);
    write_entry(&mut text, x)?;
    Ok(text)
}

/// Writes the text of an entry behind what is there, which stays in front also where memory runs out. It asks that a session may
/// have a desk of the entry's name, that every number of a margin, of a solution and of multipliers is of absolute value at most
/// 2^127 - 1, and that every number of a note is below 2^32, so that the text is read again.
#[tactic(auto, using(ror_proof::proofs::PrintLemmas::in_front), unfolding(crate::specs::Text::entry_text))]
pub fn write_entry(text: &mut Vec<u8>, x: &Entry) -> Result<(), AllocError>
    requires printable { IsPrintableEntry x.now }
    ensures ok { OnOk result (text.new.items ≡ text.old.items ++ entry_text x.now) }
    ensures front { StandsInFront text.old.items text.new.items }
{
    write_desk(text, x.desk.as_str().as_bytes())?;
    write_body(text, &x.body)
}

/// What is said of a desk.
fn write_body(text: &mut Vec<u8>, body: &EntryBody) -> Result<(), AllocError>
    ensures ok { OnOk result (text.new.items ≡ text.old.items ++ body_text body.now) }
    ensures front { StandsInFront text.old.items text.new.items }
{
    match body {
        EntryBody::Best {
            margin,
            total,
            optimum,
        } => write_best(text, *margin, *total, optimum),
        EntryBody::NoStrictRow => write_none(text),
        EntryBody::Contradiction(multipliers) => write_contradiction(text, multipliers),
        EntryBody::BaseWide(note) => write_base_wide(text, note),
        EntryBody::ClimbWide(note) => write_climb_wide(text, note),
    }
}

/// The lines of a margin, of a solution and of multipliers.
fn write_best(
    text: &mut Vec<u8>,
    margin: i128,
    total: i128,
    optimum: &Optimum,
) -> Result<(), AllocError>
    ensures ok { OnOk result (text.new.items ≡ text.old.items ++ best_text margin total optimum.now) }
    ensures front { StandsInFront text.old.items text.new.items }
{
    write_margin(text, margin, total)?;
    write_solution(text, &optimum.solution)?;
    write_multipliers_line(text, &optimum.multipliers)
}

fn write_margin(text: &mut Vec<u8>, margin: i128, total: i128) -> Result<(), AllocError>
    ensures ok { OnOk result (text.new.items ≡ text.old.items ++ margin_text margin total) }
    ensures front { StandsInFront text.old.items text.new.items }
{
    text.extend_from_slice(b"margin")?;
    write_number(text, margin)?;
    write_number(text, total)?;
    end_line(text)
}

/// The line of a solution.
pub fn write_solution(text: &mut Vec<u8>, solution: &Solution) -> Result<(), AllocError>
    ensures ok { OnOk result (text.new.items
        ≡ text.old.items ++ line_text (solution_words solution.now.steps)) }
    ensures front { StandsInFront text.old.items text.new.items }
{
    text.extend_from_slice(b"solution")?;
    write_numbers(text, &solution.steps)?;
    end_line(text)
}

/// The line of multipliers.
pub fn write_multipliers_line(
    text: &mut Vec<u8>,
    multipliers: &Multipliers,
) -> Result<(), AllocError>
    ensures ok { OnOk result (text.new.items ≡ text.old.items
        ++ line_text (multipliers_words multipliers.now.weak multipliers.now.strict)) }
    ensures front { StandsInFront text.old.items text.new.items }
{
    text.extend_from_slice(b"multipliers")?;
    write_weak_and_strict(text, multipliers)?;
    end_line(text)
}

#[tactic(auto, using(ror_proof::proofs::PrintLemmas::in_front), unfolding(ror_text::specs::SpacedLines::line_text))]
fn write_none(text: &mut Vec<u8>) -> Result<(), AllocError>
    ensures ok { OnOk result (text.new.items ≡ text.old.items ++ line_text (codes "none" ∷ [])) }
    ensures front { StandsInFront text.old.items text.new.items }
{
    text.extend_from_slice(b"none\n")
}

/// The line of multipliers that refute a list.
pub fn write_contradiction(text: &mut Vec<u8>, multipliers: &Multipliers) -> Result<(), AllocError>
    ensures ok { OnOk result (text.new.items ≡ text.old.items ++ line_text (codes "contradiction"
        ∷ multipliers_words multipliers.now.weak multipliers.now.strict)) }
    ensures front { StandsInFront text.old.items text.new.items }
{
    text.extend_from_slice(b"contradiction")?;
    write_multipliers(text, multipliers)?;
    end_line(text)
}

/// The line of a number too wide on the path of a list's system.
pub fn write_base_wide(text: &mut Vec<u8>, note: &WideNote) -> Result<(), AllocError>
    ensures ok { OnOk result (text.new.items ≡ text.old.items ++ base_wide_text note.now) }
    ensures front { StandsInFront text.old.items text.new.items }
{
    text.extend_from_slice(b"wide")?;
    write_word(text, b"base")?;
    write_place(text, note.place)?;
    write_path(text, note.path.as_slice())?;
    end_line(text)
}

fn write_climb_wide(text: &mut Vec<u8>, note: &ClimbNote) -> Result<(), AllocError>
    ensures ok { OnOk result (text.new.items ≡ text.old.items ++ climb_wide_text note.now) }
    ensures front { StandsInFront text.old.items text.new.items }
{
    text.extend_from_slice(b"wide")?;
    write_word(text, b"climb")?;
    write_climb_place(text, note.place)?;
    write_path(text, note.path.as_slice())?;
    end_line(text)
}

/// The word and the numbers of a place on a system's path.
pub fn write_place(text: &mut Vec<u8>, place: Place) -> Result<(), AllocError>
    ensures ok { OnOk result (text.new.items ≡ text.old.items ++ spaced (place_words place)) }
    ensures front { StandsInFront text.old.items text.new.items }
{
    match place {
        Place::Start(row, column) => write_two(text, b"start", row, column),
        Place::Step(row, column) => write_two(text, b"step", row, column),
        Place::Denominator(row) => write_one(text, b"denominator", row),
        Place::RowSum(row) => write_one(text, b"rowsum", row),
        Place::ColumnSum(column) => write_one(text, b"columnsum", column),
    }
}

/// The word and the numbers of a place on a climbing path.
fn write_climb_place(text: &mut Vec<u8>, place: ClimbPlace) -> Result<(), AllocError>
    ensures ok { OnOk result (text.new.items ≡ text.old.items ++ spaced (climb_place_words place)) }
    ensures front { StandsInFront text.old.items text.new.items }
{
    match place {
        ClimbPlace::Start(row, column) => write_two(text, b"start", row, column),
        ClimbPlace::Step(row, column) => write_two(text, b"step", row, column),
        ClimbPlace::Denominator(row) => write_one(text, b"denominator", row),
        ClimbPlace::RowSum(row) => write_one(text, b"rowsum", row),
        ClimbPlace::Total => write_word(text, b"total"),
        ClimbPlace::Scale(column) => write_one(text, b"scale", column),
        ClimbPlace::ColumnSum(column) => write_one(text, b"columnsum", column),
    }
}

/// A word and two numbers.
fn write_two(text: &mut Vec<u8>, word: &[u8], first: usize, second: usize) -> Result<(), AllocError>
    ensures ok { OnOk result (text.new.items
        ≡ text.old.items ++ spaced (word.now ∷ decimal first ∷ decimal second ∷ [])) }
    ensures front { StandsInFront text.old.items text.new.items }
{
    write_word(text, word)?;
    write_number(text, first)?;
    write_number(text, second)
}

/// A word and a number.
fn write_one(text: &mut Vec<u8>, word: &[u8], number: usize) -> Result<(), AllocError>
    ensures ok { OnOk result (text.new.items
        ≡ text.old.items ++ spaced (word.now ∷ decimal number ∷ [])) }
    ensures front { StandsInFront text.old.items text.new.items }
{
    write_word(text, word)?;
    write_number(text, number)
}
