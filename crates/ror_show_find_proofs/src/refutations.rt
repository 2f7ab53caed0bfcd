//! The certificate that refutes, and the system that it refutes.

ghost use Rattle.std.specs.Prelude.{◌≡◌, [], option_copied, IfOk};
ghost use Rattle.ror_value.specs.Over.{IsLawfulIn, IsAskedIn};
ghost use Rattle.ror_rows.specs.Rows.{system_for};
ghost use Rattle.ror_show_find_proofs.specs.Sums as spec;
ghost use Rattle.ror_show_find_proofs.specs.Sums.{is_clash};

use ror_proof::{Certificate, Proof, Verdict};
use ror_rows::{question_systems, system_of, with_extras};
use ror_statement::{Question, Statement};
use ror_system::System;
use ror_table::Table;
use std::alloc::{AllocError, Global};

/// The certificate that refutes: that of the base where there is a contradiction, and else that of the question's one system.
pub fn refutation(verdict: &Verdict) -> Option<&Certificate>
    ensures { option_copied result ≡ spec.refutation verdict.now }
{
    match verdict {
        Verdict::Contradiction(proof) => Some(&proof.base),
        Verdict::Yes(proof) | Verdict::No(proof) => first_part(proof),
        Verdict::Wide { .. } => None,
    }
}

fn first_part(proof: &Proof) -> Option<&Certificate>
    ensures { option_copied result ≡ spec.first_part proof.now }
{
    let part = proof.parts.as_slice().get(0)?;
    Some(&part.body)
}

pub fn is_clash(verdict: &Verdict) -> bool
    ensures { result ≡ is_clash verdict.now }
{
    matches!(verdict, Verdict::Contradiction(_))
}

/// The system that it refutes: that of the statements, and where they don't contradict each other with the rows that the question's
/// first system adds.
pub fn refuted(
    alloc: Global,
    table: &Table,
    list: &[Statement],
    question: &Question,
    verdict: &Verdict,
) -> Result<System, AllocError>
    requires lawful { IsLawfulIn table.now list.now }
    requires asked { IsAskedIn table.now question.now }
    ensures { IfOk result (λ s. s ≡ spec.refuted table.now list.now question.now verdict.now) }
{
    let base = system_of(alloc, table, list)?;
    match verdict {
        Verdict::Contradiction(_) => Ok(base),
        _ => with_first(alloc, table, list, question, base),
    }
}

fn with_first(
    alloc: Global,
    table: &Table,
    list: &[Statement],
    question: &Question,
    base: System,
) -> Result<System, AllocError>
    requires lawful { IsLawfulIn table.now list.now }
    requires asked { IsAskedIn table.now question.now }
    requires base { base ≡ system_for table.now list.now [] }
    ensures { IfOk result (λ s. s ≡ system_for table.now list.now (spec.first_asked list.now question.now)) }
{
    let systems = question_systems(alloc, table, list, question)?;
    match systems.as_slice() {
        [first, ..] => with_extras(alloc, table, &base, first.as_slice()),
        [] => Ok(base),
    }
}
