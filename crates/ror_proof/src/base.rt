//! The base of an answer, which the next answer mostly repeats byte for byte.

ghost use Rattle.std.specs.Prelude.{◌≡◌, ◌≤◌, ◌<◌, length, option_copied, IfErr, IfOk, IfSome};
ghost use Rattle.ror_text.specs.Reading.{Gives};
ghost use Rattle.ror_text.specs.Cursor.{cursor_at};
ghost use Rattle.ror_proof.specs.Reading as reading;
ghost use Rattle.ror_proof.specs.Reading.{base_of, proof_fault, IsBaseLine, IsProofFaultWithin};

use crate::answer::{Answer, Certificate, Verdict};
use crate::read::{ProofFault, certificate_at};
use crate::words::after_word;
use ror_text::reading::need;
use ror_text::spaced::{Words, line_at};
use std::alloc::{AllocError, Global};

/// Where the line of a base stands: its first byte, and the first one of the next line.
#[derive(Clone, Copy, Debug)]
pub struct BaseLine {
    pub from: usize,
    pub next: usize,
}

impl Verdict {
    /// The certificate of the base system, where there is a proof.
    fn base(&self) -> Option<&Certificate>
        ensures { option_copied result ≡ base_of self.now }
    {
        match self {
            Verdict::Yes(proof) => Some(&proof.base),
            Verdict::No(proof) => Some(&proof.base),
            Verdict::Contradiction(proof) => Some(&proof.base),
            Verdict::Wide { .. } => None,
        }
    }
}

/// The base whose line begins at a place, and where the next line begins. It is copied from the last
/// answer where its line stands here once more, and read otherwise.
pub(crate) fn base_at(
    alloc: Global,
    last: Option<&Answer>,
    line: BaseLine,
    bytes: &[u8],
    from: usize,
) -> Result<(Certificate, usize), ProofFault>
    requires place { from ≤ length bytes.now }
    requires last { IfSome last (λ answer.
        IfSome (base_of answer.now.verdict) (IsBaseLine bytes.now line)) }
    ensures exact { Gives (λ x. (x.0, cursor_at bytes.now x.1)) proof_fault result
        (reading.base_line (cursor_at bytes.now from)) }
    ensures onward { IfOk result (λ x. from < x.1) }
    ensures within { IfOk result (λ x. x.1 ≤ length bytes.now) }
    ensures placed { IfErr result (IsProofFaultWithin (length bytes.now)) }
{
    match repeated_base(last, line, bytes, from) {
        Some((base, next)) => Ok((base.copied(alloc)?, next)),
        None => base_line(alloc, bytes, from),
    }
}

/// The base of the last answer, where its line stands at a place once more, and where the next line
/// begins.
fn repeated_base<'a>(
    last: Option<&'a Answer>,
    line: BaseLine,
    bytes: &[u8],
    from: usize,
) -> Option<(&'a Certificate, usize)>
    requires place { from ≤ length bytes.now }
    requires last { IfSome last (λ answer.
        IfSome (base_of answer.now.verdict) (IsBaseLine bytes.now line)) }
    ensures exact { IfSome result (λ x.
        reading.base_line (cursor_at bytes.now from) ≡ Ok (x.0.now, cursor_at bytes.now x.1)) }
    ensures onward { IfSome result (λ x. from < x.1) }
    ensures within { IfSome result (λ x. x.1 ≤ length bytes.now) }
{
    let base = last?.verdict.base()?;
    let known = &bytes[line.from..line.next];
    if bytes[from..].starts_with(known) {
        Some((base, from + known.len()))
    } else {
        None
    }
}

/// The line of the base's certificate, and where the next line begins.
#[tactic(auto, using(crate::proofs::Places::placed_on), unfolding(crate::specs::Reading::base_words, crate::specs::Reading::ended))]
pub(crate) fn base_line(
    alloc: Global,
    bytes: &[u8],
    from: usize,
) -> Result<(Certificate, usize), ProofFault>
    requires { from ≤ length bytes.now }
    ensures exact { Gives (λ x. (x.0, cursor_at bytes.now x.1)) proof_fault result
        (reading.base_line (cursor_at bytes.now from)) }
    ensures onward { IfOk result (λ x. from < x.1) }
    ensures within { IfOk result (λ x. x.1 ≤ length bytes.now) }
    ensures placed { IfErr result (IsProofFaultWithin (length bytes.now)) }
{
    let (line, next) = line_at(bytes, from);
    let words = after_word(from, b"base", Words::of(line))?;
    let certificate = certificate_at(alloc, from, words)?;
    let next = need(next, ProofFault::BadLine(from))?;
    Ok((certificate, next))
}
