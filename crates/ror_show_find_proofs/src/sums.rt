//! What the statements of an answer sum up to, as a value.

ghost use Rattle.std.specs.Prelude.{◌≡◌, length, option_copied, IfOk, IfSome};
ghost use Rattle.std.specs.List.{AllByRecursion};
ghost use Rattle.ror_value.specs.Over.{IsLawfulIn, IsAskedIn};
ghost use Rattle.ror_rows.specs.Laws.{AreNamed};
ghost use Rattle.ror_show_find_proofs.specs.Findings as spec;
ghost use Rattle.ror_show_find_proofs.specs.Spans.{spans_of, IsSpanIn};
ghost use Rattle.ror_show_find_proofs.specs.Sums.{used_columns};

use crate::columns::{is_over, is_positive_used, used_columns};
use crate::compared::compared;
use crate::linear::linear_used;
use crate::refutations::{is_clash, refutation, refuted};
use crate::spans::{Span, spans_of};
use ror_proof::{Certificate, Verdict};
use ror_statement::{Comparison, Question, Statement};
use ror_system::{Multipliers, System};
use ror_table::Table;
use ror_text::Items;
use std::alloc::{AllocError, Global};

/// What the statements of an answer sum up to.
#[derive(Debug, Drop)]
pub struct Sum {
    /// That something is worth more than itself; else that the answer holds.
    pub clashes: bool,
    /// Whether it is used that some criterion counts.
    pub positive: bool,
    /// The linear criteria of which it is used that they are linear.
    pub linear: Items<usize>,
    /// The steps at which it is used that better is never worth less.
    pub spans: Items<Span>,
}

/// What these statements sum up to where they carry an answer, by the multipliers that refute its opposite; nothing where the verdict
/// has no such multipliers, or not one for each row.
///
/// The statements are lawful, and the question is valid for the table.
///
/// # Errors
///
/// Only want of memory.
#[tactic(auto, unfolding(crate::specs::Findings::sum_found))]
pub fn find_sum(
    alloc: Global,
    table: &Table,
    list: &[Statement],
    question: &Question,
    verdict: &Verdict,
) -> Result<Option<Sum>, AllocError>
    requires lawful { IsLawfulIn table.now list.now }
    requires asked { IsAskedIn table.now question.now }
    ensures value { IfOk result (λ found. found ≡ spec.sum_found table.now list.now question.now verdict.now) }
    ensures there { IfOk result (λ found. IfSome found (spec.IsSumIn table.now)) }
{
    let system = refuted(alloc, table, list, question, verdict)?;
    let comparisons = compared(alloc, table, list, question, verdict)?;
    sum_for(
        alloc,
        table,
        comparisons.as_slice(),
        &system,
        is_clash(verdict),
        refutation(verdict),
    )
}

fn sum_for(
    alloc: Global,
    table: &Table,
    comparisons: &[Comparison],
    system: &System,
    clashes: bool,
    certificate: Option<&Certificate>,
) -> Result<Option<Sum>, AllocError>
    requires { AreNamed table.now comparisons.now }
    ensures value { IfOk result (λ found. found
        ≡ spec.sum_for table.now comparisons.now system.now clashes (option_copied certificate.entry)) }
    ensures there { IfOk result (λ found. IfSome found (spec.IsSumIn table.now)) }
{
    match certificate {
        Some(Certificate::Multipliers(multipliers)) => {
            sum_over(alloc, table, comparisons, system, clashes, multipliers)
        }
        _ => Ok(None),
    }
}

fn sum_over(
    alloc: Global,
    table: &Table,
    comparisons: &[Comparison],
    system: &System,
    clashes: bool,
    multipliers: &Multipliers,
) -> Result<Option<Sum>, AllocError>
    requires { AreNamed table.now comparisons.now }
    ensures value { IfOk result (λ found. found
        ≡ spec.sum_over table.now comparisons.now system.now clashes multipliers.now) }
    ensures there { IfOk result (λ found. IfSome found (spec.IsSumIn table.now)) }
{
    if !is_over(system, multipliers) {
        return Ok(None);
    }
    let linear = linear_used(alloc, table, comparisons, multipliers)?;
    let spans = used_spans(alloc, table, system, multipliers)?;
    Ok(Some(Sum {
        clashes,
        positive: is_positive_used(multipliers),
        linear,
        spans,
    }))
}

/// The steps whose columns are used.
fn used_spans(
    alloc: Global,
    table: &Table,
    system: &System,
    multipliers: &Multipliers,
) -> Result<Items<Span>, AllocError>
    requires weak_lengths { length multipliers.now.weak ≡ length system.now.weak }
    requires strict_lengths { length multipliers.now.strict ≡ length system.now.strict }
    ensures value { IfOk result (λ spans. spans ≡ spans_of table.now (used_columns system.now multipliers.now)) }
    ensures there { IfOk result (AllByRecursion (IsSpanIn table.now)) }
{
    let used = used_columns(alloc, system, multipliers)?;
    let spans = spans_of(alloc, table, used.as_slice())?;
    Ok(Items::from(spans))
}
