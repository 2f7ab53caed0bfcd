//! The base of answers over the same statements.

ghost use Rattle.std.specs.Prelude.{◌≡◌, ◌↔◌, OnOk, IfOk, IfErr, IsTrue};
ghost use Rattle.ror_check.specs.Faults.{IsRejectedFor};
ghost use Rattle.ror_check.specs.Steps.{IsAcceptedFor, IsBaseOf};

use ror_proof::Certificate;
use ror_system::{Reject, System, accept_multipliers, accept_solution};
use std::alloc::{AllocError, Global};

/// So many certificates are known at most.
const MOST_KNOWN: usize = 100;

/// The system of the statements, and certificates that it accepts, as far as they are known.
#[derive(Drop)]
pub(crate) struct Base {
    pub(crate) system: System,
    known: Vec<Certificate>,
    /// Where the last one is, from the second round on; before that 0.
    next: usize,
}

impl Base {
    /// The base of which no certificate is known.
    pub(crate) fn new(alloc: Global, system: System) -> Base
        ensures { IsBaseOf system result }
    {
        Base {
            system,
            known: Vec::new(alloc),
            next: 0,
        }
    }

    /// Whether the system accepts the certificate, which is then known, where there is room and memory for it. What is known
    /// is not tested again.
    ///
    /// # Errors
    ///
    /// The first test that fails.
    pub(crate) fn accept(&mut self, alloc: Global, certificate: &Certificate) -> Result<(), Reject>
        requires { IsBaseOf self.old.system self.old }
        ensures base { IsBaseOf self.old.system self.new }
        ensures accepted { OnOk result (IsAcceptedFor self.old.system certificate.now) }
        ensures rejected { IfErr result (IsRejectedFor self.old.system certificate.now) }
    {
        if self.knows(certificate) {
            return Ok(());
        }
        accept(&self.system, certificate)?;
        if let Ok(copy) = certificate.copied(alloc) {
            self.learn(copy);
        }
        Ok(())
    }

    /// Whether the certificate is known.
    fn knows(&self, certificate: &Certificate) -> bool
        requires { IsBaseOf self.now.system self.now }
        ensures { IsTrue result → IsAcceptedFor self.now.system certificate.now }
    {
        for known in self.known.iter() {
            if is_same(known, certificate) {
                return true;
            }
        }
        false
    }

    /// Takes note of a certificate that the system accepts; where there is no room one that was known goes.
    fn learn(&mut self, certificate: Certificate)
        requires base { IsBaseOf self.old.system self.old }
        requires accepted { IsAcceptedFor self.old.system certificate }
        ensures { IsBaseOf self.old.system self.new }
    {
        if self.known.len() < MOST_KNOWN {
            let _pushed = self.known.push(certificate);
            return;
        }
        self.next = self.next.wrapping_add(1) % MOST_KNOWN;
        self.known[self.next] = certificate;
    }
}

/// Whether the certificates are the same.
fn is_same(one: &Certificate, other: &Certificate) -> bool
    ensures { IsTrue result ↔ (one.now ≡ other.now) }
{
    match (one, other) {
        (Certificate::Solution(x), Certificate::Solution(y)) => x.steps.is_same(&y.steps),
        (Certificate::Multipliers(x), Certificate::Multipliers(y)) => {
            x.weak.is_same(&y.weak) && x.strict.is_same(&y.strict)
        }
        _ => false,
    }
}

/// Whether the certificate is accepted for the system, whichever of the two kinds it is.
pub(crate) fn accept(system: &System, certificate: &Certificate) -> Result<(), Reject>
    ensures accepted { OnOk result (IsAcceptedFor system.now certificate.now) }
    ensures rejected { IfErr result (IsRejectedFor system.now certificate.now) }
{
    match certificate {
        Certificate::Solution(solution) => accept_solution(system, solution),
        Certificate::Multipliers(multipliers) => accept_multipliers(system, multipliers),
    }
}
