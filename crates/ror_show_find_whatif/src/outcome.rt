//! What a line's questions come to over another list.

ghost use Rattle.std.specs.Prelude.{◌≡◌, ◌<◌, ◌-◌, ◌^◌, length, IfOk};
ghost use Rattle.ror_value.specs.Over.{IsLawfulIn};
ghost use Rattle.ror_show_ground.specs.Stood.{stood_of, IsStood};
ghost use Rattle.ror_show_find_relation.specs.Cells.{cell_rows};
ghost use Rattle.ror_show_find_whatif.specs.Outcomes as spec;

use crate::agreement::{Agreement, agreement_by};
use crate::answered::answers_over;
use crate::classes::{ClassEffect, class_effect};
use crate::pairs::{PairEffect, pair_effect};
use ror_proof::Answer;
use ror_show_find_relation::{Cell, relation_page};
use ror_show_ground::Stood;
use ror_statement::Statement;
use ror_table::Table;
use ror_text::Items;
use ror_warm::Engine;
use std::alloc::{AllocError, Global};

/// What a line asks.
#[derive(Clone, Copy, Debug, PartialEq, Eq)]
pub enum Asks {
    /// For the relation among the alternatives.
    Relation,
    /// For the classes of an alternative.
    Classes,
}

/// What another list changes.
#[derive(Debug, Drop)]
pub enum Effect {
    /// Pairs of a relation.
    OfPairs(PairEffect),
    /// Classes of an alternative.
    OfClasses(ClassEffect),
}

/// What a line's questions come to over another list.
#[derive(Debug, Drop)]
pub struct Outcome {
    /// Whether some function agrees with that list.
    pub agreement: Agreement,
    /// What changes against the line's own answers; where no function agrees, now or then, nothing is compared.
    pub effect: Effect,
}

/// What they come to over this list, which would stand in place of what stood.
///
/// # Errors
///
/// Only want of memory, here and below.
pub(crate) fn find_outcome(
    alloc: Global,
    engine: &mut Engine,
    stood: &Stood<'_>,
    asks: Asks,
    list: &[Statement],
) -> Result<Outcome, AllocError>
    requires lawful { IsLawfulIn stood.now.table.now list.now }
    requires stood { IsStood (stood_of stood.now) }
    requires few { length stood.now.answers.now < 2 ^ 32 - 1 }
    ensures { IfOk result (spec.IsOutcome stood.now.table.now asks stood.now.answers.now list.now) }
{
    let answers = answers_over(alloc, engine, stood, list)?;
    let answers = answers.as_slice();
    let effect = find_effect(alloc, asks, stood.table, stood.answers, answers)?;
    Ok(Outcome {
        agreement: agreement_by(answers),
        effect,
    })
}

/// What changes from the first answers to the second.
fn find_effect(
    alloc: Global,
    asks: Asks,
    table: &Table,
    before: &[Answer],
    after: &[Answer],
) -> Result<Effect, AllocError>
    ensures { IfOk result (spec.IsEffect asks table.now before.now after.now) }
{
    match asks {
        Asks::Relation => pairs_changed(alloc, table, before, after),
        Asks::Classes => classes_changed(alloc, table, before, after),
    }
}

fn pairs_changed(
    alloc: Global,
    table: &Table,
    before: &[Answer],
    after: &[Answer],
) -> Result<Effect, AllocError>
    ensures { IfOk result (spec.IsEffect Asks.Relation table.now before.now after.now) }
{
    let now = rows_of(alloc, table, before)?;
    let later = rows_of(alloc, table, after)?;
    let pairs = pair_effect(alloc, now.as_slice(), later.as_slice())?;
    Ok(Effect::OfPairs(pairs))
}

/// The cells of the relation that answers give.
fn rows_of(
    alloc: Global,
    table: &Table,
    answers: &[Answer],
) -> Result<Items<Items<Cell>>, AllocError>
    ensures { IfOk result (λ rows. rows ≡ cell_rows (length table.now.alternatives) answers.now) }
{
    let page = relation_page(alloc, table, answers)?;
    Ok(page.rows)
}

fn classes_changed(
    alloc: Global,
    table: &Table,
    before: &[Answer],
    after: &[Answer],
) -> Result<Effect, AllocError>
    ensures { IfOk result (spec.IsEffect Asks.Classes table.now before.now after.now) }
{
    let classes = class_effect(alloc, table.classes(), before, after)?;
    Ok(Effect::OfClasses(classes))
}
