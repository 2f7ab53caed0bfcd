//! The line of a desk in a report, which names it.

ghost use Rattle.std.specs.Prelude.{◌≡◌, ◌≤◌, ◌<◌, ◌++◌, true, false, codes, length, IfErr, IfOk, OnOk, MatchOption};
ghost use Rattle.ror_text.specs.Reading.{Gives};
ghost use Rattle.ror_text.specs.Cursor.{cursor_at};
ghost use Rattle.ror_proof.specs.Printing.{StandsInFront};
ghost use Rattle.ror_proof.specs.Reading.{proof_fault, IsProofFaultWithin};
ghost use Rattle.ror_report.specs.Desk as spec;
ghost use Rattle.ror_report.specs.Desk.{desk_text, is_desk_name};

use ror_proof::ProofFault;
use ror_proof::words::{after_word, no_more};
use ror_session::MOST_DESK_NAME_BYTES;
use ror_text::lines::{has_control, is_utf8};
use ror_text::reading::{need, refuse_if};
use ror_text::spaced::{Words, line_at};
use std::alloc::AllocError;

/// Whether a session may have a desk of this name: of at most 64 bytes, which are UTF-8 without blanks and control
/// characters.
pub fn may_name(name: &[u8]) -> bool
    ensures { result ≡ is_desk_name name.now }
{
    name.len() <= MOST_DESK_NAME_BYTES && !has_control(&[name]) && is_utf8(name)
}

/// The name in the line of a desk, and where the next line begins.
///
/// # Errors
///
/// A bad line at the place.
#[tactic(auto, using(ror_proof::proofs::Places::placed_on), unfolding(crate::specs::Desk::name_words, ror_proof::specs::Reading::ended))]
pub fn desk_line(bytes: &[u8], from: usize) -> Result<(&str, usize), ProofFault>
    requires { from ≤ length bytes.now }
    ensures exact { Gives (λ x. (x.0.now, cursor_at bytes.now x.1)) proof_fault result
        (spec.desk_line (cursor_at bytes.now from)) }
    ensures onward { IfOk result (λ x. from < x.1) }
    ensures within { IfOk result (λ x. x.1 ≤ length bytes.now) }
    ensures placed { IfErr result (IsProofFaultWithin (length bytes.now)) }
{
    let (line, next) = line_at(bytes, from);
    let words = after_word(from, b"desk", Words::of(line))?;
    let name = name_in(from, words)?;
    let next = need(next, ProofFault::BadLine(from))?;
    Ok((name, next))
}

/// The name after the word `desk`.
#[tactic(auto, unfolding(crate::specs::Desk::name_in))]
fn name_in<'a>(place: usize, words: Words<'a>) -> Result<&'a str, ProofFault>
    ensures exact { Gives (λ name. name.now) proof_fault result (spec.name_in place words.entry) }
    ensures placed { IfErr result (IsProofFaultWithin place) }
{
    match words.next() {
        None => Ok(""),
        Some((name, more)) => {
            refuse_if(name.is_empty(), ProofFault::BadLine(place))?;
            let name = need(name_text(name), ProofFault::BadLine(place))?;
            no_more(place, more)?;
            Ok(name)
        }
    }
}

/// The text of a word that may be a desk's name.
fn name_text(word: &[u8]) -> Option<&str>
    ensures { MatchOption result (is_desk_name word.now ≡ false)
        (λ text. (is_desk_name word.now ≡ true) × (text.now ≡ word.now)) }
{
    if !may_name(word) {
        return None;
    }
    match std::str::from_utf8(word) {
        Ok(text) => Some(text),
        Err(_) => None,
    }
}

/// Writes the line of a desk behind what is there, which stays in front also where memory runs out.
#[tactic(auto, using(ror_proof::proofs::PrintLemmas::in_front), unfolding(ror_text::specs::SpacedLines::line_text))]
pub fn write_desk(text: &mut Vec<u8>, name: &[u8]) -> Result<(), AllocError>
    ensures ok { OnOk result (text.new.items ≡ text.old.items ++ desk_text name.now) }
    ensures front { StandsInFront text.old.items text.new.items }
{
    text.extend_from_slice(b"desk")?;
    if !name.is_empty() {
        text.push(b' ')?;
        text.extend_from_slice(name)?;
    }
    text.push(b'\n')?;
    Ok(())
}
