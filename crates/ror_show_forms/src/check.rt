//! The check of certificates over kept lines.

ghost use Rattle.std.specs.Prelude.{◌≡◌, ◌<◌, ◌^◌, ◌-◌, Some, length, IfErr, OnOk};
ghost use Rattle.std.specs.List.{AllByRecursion};
ghost use Rattle.std.specs.List.Sorted.{IsStrictlyIncreasing};
ghost use Rattle.ror_statement.specs.Statements.{numbers_in, statements_in};
ghost use Rattle.ror_value.specs.Over.{IsLawfulIn, IsAskedIn};
ghost use Rattle.ror_bench.specs.Reports.{IfRejected, IsFreeOfMemory, HoldsNoMemory};
ghost use Rattle.ror_entries.specs.Steps.{IfRefused};
ghost use Rattle.ror_show_ground.specs.Ready.{IsReady};
ghost use Rattle.ror_show_forms.specs.Answered as spec;
ghost use Rattle.ror_show_forms.specs.Answered.{IsProvedOf, IsProvedCertificate, RefusesOf, Refuses, IsFirstUnproved};

use crate::answered::{answer_at, conclusion_of};
use crate::certificate::Certificate;
use ror_bench::{KeptLine, Reason, ReportError};
use ror_check::CheckFault;
use ror_entries::{EntryFault, refused_entry};
use ror_proof::Answer;
use ror_reason::{Reduct, ReductFault, check_reduct};
use ror_statement::{Conclusion, Numbered};
use ror_table::Table;
use std::alloc::Global;

/// Checks certificates over lines that a check of the report kept. Each is accepted where an answer that concludes something stands
/// at the kept line of its number and at its place, and its reduct is proved of that answer over what stood at the line.
///
/// # Errors
///
/// The first certificate that isn't accepted, counted from 1 as a block, and why: `WrongBlock` where no such answer stands there,
/// where no statement carries it, and where the numbers are none of what stood; else its first answer that isn't accepted, from 1.
pub fn check_certificates(
    alloc: Global,
    table: &Table,
    kept: &[KeptLine],
    certificates: &[Certificate],
) -> Result<(), ReportError>
    requires ready { AllByRecursion (IsReady table.now) kept.now }
    requires few { length certificates.now < 2 ^ 32 - 1 }
    ensures proved { OnOk result
        (AllByRecursion (IsProvedCertificate table.now kept.now) certificates.now) }
    ensures rejected { IfErr result
        (IfRejected (IsFirstUnproved table.now kept.now certificates.now)) }
    ensures pure { IfErr result HoldsNoMemory }
{
    'certificates: for k in 0..certificates.len() {
        let certificate = &certificates[k];
        check_block(alloc, table, kept, certificate, k as u32 + 1)?;
    }
    Ok(())
}

/// Checks the certificate of this block.
fn check_block(
    alloc: Global,
    table: &Table,
    kept: &[KeptLine],
    certificate: &Certificate,
    block: u32,
) -> Result<(), ReportError>
    requires ready { AllByRecursion (IsReady table.now) kept.now }
    ensures proved { OnOk result (IsProvedCertificate table.now kept.now certificate.now) }
    ensures rejected { IfErr result (IfRejected (λ rejection. (rejection.block ≡ block)
        × Refuses table.now kept.now certificate.now rejection.reason)) }
    ensures pure { IfErr result HoldsNoMemory }
{
    match check_certificate(alloc, table, kept, certificate) {
        Ok(()) => Ok(()),
        Err(fault) => Err(refused_entry(block, fault)),
    }
}

fn check_certificate(
    alloc: Global,
    table: &Table,
    kept: &[KeptLine],
    certificate: &Certificate,
) -> Result<(), EntryFault>
    requires ready { AllByRecursion (IsReady table.now) kept.now }
    ensures proved { OnOk result (IsProvedCertificate table.now kept.now certificate.now) }
    ensures refused { IfErr result (IfRefused (Refuses table.now kept.now certificate.now)) }
    ensures pure { IfErr result (IfRefused IsFreeOfMemory) }
{
    match answer_at(kept, certificate.line, certificate.place) {
        Some((list, answer)) => check_over(alloc, table, list, answer, &certificate.reduct),
        None => Err(EntryFault::Refused(Reason::WrongBlock)),
    }
}

/// Checks the reduct of an answer over a list.
fn check_over(
    alloc: Global,
    table: &Table,
    list: &[Numbered],
    answer: &Answer,
    reduct: &Reduct,
) -> Result<(), EntryFault>
    requires lawful { IsLawfulIn table.now (statements_in list.now) }
    requires rising { IsStrictlyIncreasing (numbers_in list.now) }
    requires asked { IsAskedIn table.now answer.now.question }
    ensures proved { OnOk result (IsProvedOf table.now list.now answer.now reduct.now) }
    ensures refused { IfErr result (IfRefused (RefusesOf table.now list.now answer.now reduct.now)) }
    ensures pure { IfErr result (IfRefused IsFreeOfMemory) }
{
    match conclusion_of(&answer.verdict) {
        Some(conclusion) => check_concluding(alloc, table, list, answer, conclusion, reduct),
        None => Err(EntryFault::Refused(Reason::WrongBlock)),
    }
}

/// Checks the reduct of an answer that concludes this.
fn check_concluding(
    alloc: Global,
    table: &Table,
    list: &[Numbered],
    answer: &Answer,
    conclusion: Conclusion,
    reduct: &Reduct,
) -> Result<(), EntryFault>
    requires lawful { IsLawfulIn table.now (statements_in list.now) }
    requires rising { IsStrictlyIncreasing (numbers_in list.now) }
    requires asked { IsAskedIn table.now answer.now.question }
    requires concludes { spec.conclusion_of answer.now.verdict ≡ Some conclusion }
    ensures proved { OnOk result (IsProvedOf table.now list.now answer.now reduct.now) }
    ensures refused { IfErr result (IfRefused (RefusesOf table.now list.now answer.now reduct.now)) }
    ensures pure { IfErr result (IfRefused IsFreeOfMemory) }
{
    match check_reduct(alloc, table, list, &answer.question, conclusion, reduct) {
        Ok(()) => Ok(()),
        Err(fault) => Err(entry_fault(fault)),
    }
}

/// The fault of a certificate whose reduct has this one.
fn entry_fault(fault: ReductFault) -> EntryFault
    ensures { result ≡ spec.entry_fault fault }
{
    match fault {
        ReductFault::NotCarried | ReductFault::WrongNumbers | ReductFault::Count => {
            EntryFault::Refused(Reason::WrongBlock)
        }
        ReductFault::AnotherAnswer => wrong_answer(1, CheckFault::WrongVerdict),
        ReductFault::Answer(fault) => wrong_answer(1, fault),
        ReductFault::SameAnswer(k) => wrong_answer(k.saturating_add(1), CheckFault::WrongVerdict),
        ReductFault::Other(k, fault) => wrong_answer(k.saturating_add(1), fault),
        ReductFault::Memory => EntryFault::Memory,
    }
}

fn wrong_answer(answer: u32, fault: CheckFault) -> EntryFault
    ensures { result ≡ spec.wrong_answer answer fault }
{
    EntryFault::Refused(Reason::Answer(answer, fault))
}
