//! The line of what statements sum up to.

ghost use Rattle.std.specs.Prelude.{◌≡◌, ◌++◌, IfSome, OnOk};
ghost use Rattle.ror_value.specs.Over.{IsLawfulIn, IsAskedIn};
ghost use Rattle.ror_show_find_proofs.specs.Findings.{IsSumIn};
ghost use Rattle.ror_show_text_reasons.specs.SumText as spec;

use crate::sum_words::sum_words;
use ror_proof::Verdict;
use ror_show_find_proofs::{Sum, find_sum};
use ror_show_kit::rows::write_line;
use ror_statement::{Question, Statement};
use ror_table::Table;
use std::alloc::{AllocError, Global};

/// Adds the line of what these statements sum up to where they carry an answer, and of what is used besides; nothing where no sum is
/// found.
#[tactic(auto, unfolding(crate::specs::SumText::sum_text))]
pub(crate) fn write_sum(
    alloc: Global,
    text: &mut Vec<u8>,
    table: &Table,
    list: &[Statement],
    question: &Question,
    verdict: &Verdict,
) -> Result<(), AllocError>
    requires lawful { IsLawfulIn table.now list.now }
    requires asked { IsAskedIn table.now question.now }
    ensures { OnOk result (text.new.items ≡ text.old.items
        ++ spec.sum_text table.now list.now question.now verdict.now) }
{
    let found = find_sum(alloc, table, list, question, verdict)?;
    write_found(alloc, text, table, &found)
}

fn write_found(
    alloc: Global,
    text: &mut Vec<u8>,
    table: &Table,
    found: &Option<Sum>,
) -> Result<(), AllocError>
    requires { IfSome found.now (IsSumIn table.now) }
    ensures { OnOk result (text.new.items ≡ text.old.items ++ spec.found_text table.now found.now) }
{
    match found {
        Some(sum) => write_words(alloc, text, table, sum),
        None => Ok(()),
    }
}

fn write_words(
    alloc: Global,
    text: &mut Vec<u8>,
    table: &Table,
    sum: &Sum,
) -> Result<(), AllocError>
    requires { IsSumIn table.now sum.now }
    ensures { OnOk result (text.new.items ≡ text.old.items ++ spec.sum_line table.now sum.now) }
{
    let words = sum_words(alloc, table, sum)?;
    write_line(text, 1, words.as_slice())
}
