//! The words of a path, written behind what is there, which stays in front also where memory runs out.
#![tactic(auto, using(ror_proof::proofs::PrintLemmas::in_front))]

ghost use Rattle.std.specs.Prelude.{◌≡◌, ◌∷◌, ◌++◌, map, OnOk};
ghost use Rattle.ror_proof.specs.Printing.{spaced, StandsInFront};
ghost use Rattle.ror_discriminate.specs.Text.{path_words, step_word};

use ror_proof::write::{write_digits, write_number, write_word};
use std::alloc::AllocError;

/// `path` and the pivots, each by its column and its row.
pub fn write_path(text: &mut Vec<u8>, path: &[(usize, usize)]) -> Result<(), AllocError>
    ensures ok { OnOk result (text.new.items ≡ text.old.items ++ spaced (path_words path.now)) }
    ensures front { StandsInFront text.old.items text.new.items }
{
    write_word(text, b"path")?;
    write_steps(text, path)
}

fn write_steps(text: &mut Vec<u8>, path: &[(usize, usize)]) -> Result<(), AllocError>
    ensures ok { OnOk result (text.new.items ≡ text.old.items ++ spaced (map step_word path.now)) }
    ensures front { StandsInFront text.old.items text.new.items }
{
    'path: for step in path {
        write_step(text, *step)?;
    }
    Ok(())
}

fn write_step(text: &mut Vec<u8>, step: (usize, usize)) -> Result<(), AllocError>
    ensures ok { OnOk result (text.new.items ≡ text.old.items ++ 32 ∷ step_word step) }
    ensures front { StandsInFront text.old.items text.new.items }
{
    write_number(text, step.0)?;
    text.push(b':')?;
    write_digits(text, step.1)
}
