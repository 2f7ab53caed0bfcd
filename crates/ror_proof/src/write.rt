//! The words of a line, written behind what is there, which stays in front also where memory runs out.
#![tactic(auto, using(crate::proofs::PrintLemmas::in_front))]

ghost use Rattle.std.specs.Prelude.{◌≡◌, ◌<◌, [], ◌∷◌, ◌++◌, codes, length, map, OnOk};
ghost use Rattle.std.specs.Fmt.{signed_decimal};
ghost use Rattle.ror_table.specs.Table.{id_of};
ghost use Rattle.ror_proof.specs.Printing.{spaced, StandsInFront};
ghost use Rattle.ror_proof.specs.Text.{multipliers_words};

use itoa::{Buffer, Integer};
use ror_system::{Multipliers, Numbers};
use ror_table::Table;
use std::alloc::AllocError;

/// The id of an alternative, as the next word of a line.
pub fn write_alternative(
    text: &mut Vec<u8>,
    table: &Table,
    alternative: usize,
) -> Result<(), AllocError>
    requires { alternative < length table.now.alternatives }
    ensures ok { OnOk result (text.new.items
        ≡ text.old.items ++ 32 ∷ id_of table.now alternative) }
    ensures front { StandsInFront text.old.items text.new.items }
{
    write_word(text, table.alternative_id(alternative).as_bytes())
}

/// The word of multipliers, and their numbers.
pub fn write_multipliers(text: &mut Vec<u8>, multipliers: &Multipliers) -> Result<(), AllocError>
    ensures ok { OnOk result (text.new.items ≡ text.old.items
        ++ spaced (multipliers_words multipliers.now.weak multipliers.now.strict)) }
    ensures front { StandsInFront text.old.items text.new.items }
{
    write_word(text, b"multipliers")?;
    write_weak_and_strict(text, multipliers)
}

/// The multipliers of the weak rows, a bar, and those of the strict rows.
pub fn write_weak_and_strict(
    text: &mut Vec<u8>,
    multipliers: &Multipliers,
) -> Result<(), AllocError>
    ensures ok { OnOk result (text.new.items ≡ text.old.items
        ++ spaced (map signed_decimal multipliers.now.weak
        ++ codes "|" ∷ map signed_decimal multipliers.now.strict)) }
    ensures front { StandsInFront text.old.items text.new.items }
{
    write_numbers(text, &multipliers.weak)?;
    write_word(text, b"|")?;
    write_numbers(text, &multipliers.strict)
}

/// The numbers, as the next words of a line.
pub fn write_numbers(text: &mut Vec<u8>, numbers: &Numbers) -> Result<(), AllocError>
    ensures ok { OnOk result (text.new.items
        ≡ text.old.items ++ spaced (map signed_decimal numbers.now)) }
    ensures front { StandsInFront text.old.items text.new.items }
{
    for k in 0..numbers.len() {
        write_often_zero(text, numbers.entry(k))?;
    }
    Ok(())
}

/// A number that is mostly 0, as the next word of a line.
fn write_often_zero(text: &mut Vec<u8>, number: i128) -> Result<(), AllocError>
    ensures ok { OnOk result (text.new.items ≡ text.old.items ++ 32 ∷ signed_decimal number) }
    ensures front { StandsInFront text.old.items text.new.items }
{
    if number == 0 {
        return text.extend_from_slice(b" 0");
    }
    write_number(text, number)
}

/// A number, as the next word of a line.
pub fn write_number<N: Integer>(text: &mut Vec<u8>, number: N) -> Result<(), AllocError>
    ensures ok { OnOk result (text.new.items ≡ text.old.items ++ 32 ∷ N.text number) }
    ensures front { StandsInFront text.old.items text.new.items }
{
    text.push(b' ')?;
    write_digits(text, number)
}

/// The digits of a number.
pub fn write_digits<N: Integer>(text: &mut Vec<u8>, number: N) -> Result<(), AllocError>
    ensures ok { OnOk result (text.new.items ≡ text.old.items ++ N.text number) }
    ensures front { StandsInFront text.old.items text.new.items }
{
    text.extend_from_slice(Buffer::new().format(number).as_bytes())
}

/// The next word of a line.
pub fn write_word(text: &mut Vec<u8>, word: &[u8]) -> Result<(), AllocError>
    ensures ok { OnOk result (text.new.items ≡ text.old.items ++ 32 ∷ word.now) }
    ensures front { StandsInFront text.old.items text.new.items }
{
    text.push(b' ')?;
    text.extend_from_slice(word)
}

/// The line feed that ends a line.
pub fn end_line(text: &mut Vec<u8>) -> Result<(), AllocError>
    ensures ok { OnOk result (text.new.items ≡ text.old.items ++ 10 ∷ []) }
    ensures front { StandsInFront text.old.items text.new.items }
{
    text.push(b'\n')?;
    Ok(())
}
