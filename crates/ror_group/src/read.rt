//! The readers of an entry's lines that are not of its answers.

ghost use Rattle.std.specs.Prelude.{◌≡◌, ◌≤◌, ◌<◌, drop, length, IfErr, IfOk};
ghost use Rattle.ror_text.specs.Reading.{Gives};
ghost use Rattle.ror_text.specs.Cursor.{cursor_at};
ghost use Rattle.ror_proof.specs.Reading.{proof_fault, IsProofFaultWithin};
ghost use Rattle.ror_group.specs.Reading as reading;

use crate::entry::GROUP_WORDS;
use crate::quartet::Quartet;
use ror_proof::ProofFault;
use ror_proof::questions::alternative_at;
use ror_proof::words::{after_word, name_at, no_more};
use ror_table::Table;
use ror_text::reading::need;
use ror_text::spaced::{Words, line_at};

/// The line that names the pair, and where the next line begins.
#[tactic(auto, using(ror_proof::proofs::Places::placed_on), unfolding(crate::specs::Reading::pair_words, ror_proof::specs::Reading::ended))]
pub(crate) fn pair_line(
    table: &Table,
    bytes: &[u8],
    from: usize,
) -> Result<(usize, usize, usize), ProofFault>
    requires { from ≤ length bytes.now }
    ensures exact { Gives (λ x. ((x.0, x.1), cursor_at bytes.now x.2)) proof_fault result
        (reading.pair_line table.now (cursor_at bytes.now from)) }
    ensures onward { IfOk result (λ x. from < x.2) }
    ensures within { IfOk result (λ x. x.2 ≤ length bytes.now) }
    ensures placed { IfErr result (IsProofFaultWithin (length bytes.now)) }
{
    let (line, next) = line_at(bytes, from);
    let words = after_word(from, b"pair", Words::of(line))?;
    let (first, words) = alternative_at(table, from, words)?;
    let (second, words) = alternative_at(table, from, words)?;
    no_more(from, words)?;
    let next = need(next, ProofFault::BadLine(from))?;
    Ok((first, second, next))
}

/// The line of the four words, and where the next line begins.
#[tactic(auto, using(ror_proof::proofs::Places::placed_on), unfolding(ror_proof::specs::Reading::ended))]
pub(crate) fn quartet_line(bytes: &[u8], from: usize) -> Result<(Quartet, usize), ProofFault>
    requires { from ≤ length bytes.now }
    ensures exact { Gives (λ x. (x.0, cursor_at bytes.now x.1)) proof_fault result
        (reading.quartet_line (cursor_at bytes.now from)) }
    ensures onward { IfOk result (λ x. from < x.1) }
    ensures within { IfOk result (λ x. x.1 ≤ length bytes.now) }
    ensures placed { IfErr result (IsProofFaultWithin (length bytes.now)) }
{
    let (line, next) = line_at(bytes, from);
    let quartet = quartet_words(from, Words::of(line))?;
    let next = need(next, ProofFault::BadLine(from))?;
    Ok((quartet, next))
}

/// The four words after `group`.
#[tactic(auto, unfolding(crate::specs::Reading::quartet_words))]
fn quartet_words(place: usize, words: Words<'_>) -> Result<Quartet, ProofFault>
    ensures exact { Gives (λ q. q) proof_fault result (reading.quartet_words place words.entry) }
    ensures placed { IfErr result (IsProofFaultWithin place) }
{
    let words = after_word(place, b"group", words)?;
    let (necessary_for_every, words) = name_at(&GROUP_WORDS, place, words)?;
    let (necessary_for_some, words) = name_at(&GROUP_WORDS, place, words)?;
    let (possible_for_every, words) = name_at(&GROUP_WORDS, place, words)?;
    let (possible_for_some, words) = name_at(&GROUP_WORDS, place, words)?;
    no_more(place, words)?;
    Ok(Quartet {
        necessary_for_every,
        necessary_for_some,
        possible_for_every,
        possible_for_some,
    })
}

/// Whether the answers of an entry end at a place.
pub(crate) fn ends_answers(bytes: &[u8], from: usize) -> bool
    requires { from ≤ length bytes.now }
    ensures { result ≡ reading.ends_answers (drop from bytes.now) }
{
    let rest = &bytes[from..];
    rest.is_empty() || rest.starts_with(b"group ")
}
