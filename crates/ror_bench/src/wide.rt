//! Whether anything of a block is too wide.

ghost use Rattle.std.specs.Prelude.{◌≡◌};
ghost use Rattle.std.specs.List.{list_any};
ghost use Rattle.ror_check.specs.Proof.{is_wide};
ghost use Rattle.ror_bench.specs.Blocks.{has_wide};

use ror_proof::{Answer, Verdict};
use ror_report::{Block, Body};

/// Whether an answer of the block is too wide, or its repair.
pub fn has_wide(block: &Block) -> bool
    ensures { result ≡ has_wide block.now }
{
    match &block.body {
        Body::Answers(answers) => has_wide_answer(answers.as_slice()),
        Body::RepairWide(_, _) => true,
        _ => false,
    }
}

/// Whether one of the answers is too wide.
fn has_wide_answer(answers: &[Answer]) -> bool
    ensures { result ≡ list_any (λ x. is_wide x.verdict) answers.now }
{
    answers
        .iter()
        .any(|answer| matches!(answer.verdict, Verdict::Wide { .. }))
}
