//! The first line of a report of most discriminating functions.

ghost use Rattle.std.specs.Prelude.{◌≡◌, ◌≤◌, length, IfErr, IfOk};
ghost use Rattle.ror_text.specs.Reading.{Gives};
ghost use Rattle.ror_text.specs.Cursor.{cursor_at};
ghost use Rattle.ror_proof.specs.Reading.{proof_fault, IsProofFaultWithin};
ghost use Rattle.ror_discriminate.specs.Head.{header_at, header_text};

use ror_proof::ProofFault;
use ror_text::reading::refuse_if;

/// The first line of a report.
#[tactic(auto, unfolding(crate::specs::Head::header_text, ror_text::specs::SpacedLines::line_text))]
pub fn header() -> &'static [u8]
    ensures { result.now ≡ header_text }
{
    b"ror-discriminate 1\n"
}

/// The place after the first line, with which the bytes are to begin.
///
/// # Errors
///
/// A bad line at the first byte, where they begin with another.
#[tactic(auto, unfolding(crate::specs::Head::header_at))]
pub fn check_header(bytes: &[u8]) -> Result<usize, ProofFault>
    ensures exact { Gives (cursor_at bytes.now) proof_fault result (header_at bytes.now) }
    ensures within { IfOk result (λ place. place ≤ length bytes.now) }
    ensures placed { IfErr result (IsProofFaultWithin (length bytes.now)) }
{
    refuse_if(!bytes.starts_with(header()), ProofFault::BadLine(0))?;
    Ok(header().len())
}
