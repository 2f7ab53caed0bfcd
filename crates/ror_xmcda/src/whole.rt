//! The table of what is kept.

ghost use Rattle.std.specs.Prelude.{◌≡◌, ◌+◌, ◌≤◌, ◌<◌, [], ◌∷◌, ◌++◌, false, length, map, All, OnOk, IfOk};
ghost use Rattle.std.specs.List.{enumerate_from};
ghost use Rattle.std.specs.String.{string_bytes};
ghost use Rattle.ror_text.specs.Ids.{IsId};
ghost use Rattle.ror_text.specs.Reading.{Gives, read_all};
ghost use Rattle.ror_table.specs.declared.limits.TheConstants.{MOST_ALTERNATIVES, MOST_CLASSES};
ghost use Rattle.ror_table.specs.Amounts.{IsAmount};
ghost use Rattle.ror_table.specs.Draft.{has_id};
ghost use Rattle.ror_table.specs.Plain.{table_fault};
ghost use Rattle.ror_table.specs.Table.{IsTable, alternative_ids};
ghost use Rattle.ror_xmcda.specs.Criteria.{AreCriteria};
ghost use Rattle.ror_xmcda.specs.Roster.{AreIds};
ghost use Rattle.ror_xmcda.specs.Whole as spec;

use crate::criteria::Criteria;
use crate::fault::fault;
use crate::performances::Given;
use crate::roster::Ids;
use ror_table::{Amount, Draft, Scale, Table, TableError, TableKind, whole_table};
use ror_text::reading::{need, refuse_if};
use std::alloc::{AllocError, Global};

/// A draft of the criteria.
#[tactic(auto, unfolding(crate::specs::Whole::criteria_table))]
fn criteria_table(alloc: Global, criteria: &Criteria) -> Result<Draft, AllocError>
    requires { AreCriteria criteria.now }
    ensures { IfOk result (λ draft. draft ≡ spec.criteria_table criteria.now) }
{
    let directions = criteria.directions.as_slice();
    let ids = criteria.ids.kept.as_slice();
    let mut draft = Draft::new(alloc);
    for (k, id) in ids.iter().enumerate() {
        let scale = Scale {
            direction: directions[k],
            linear: false,
        };
        draft.put_criterion(id.as_str(), scale)?;
    }
    Ok(draft)
}

/// Adds the performance on a criterion.
#[tactic(auto, unfolding(crate::specs::Whole::next_performance))]
fn next_performance(
    given: &Given,
    a: usize,
    row: &mut Vec<Amount>,
    i: usize,
) -> Result<(), TableError>
    ensures exact { Gives (λ _. row.new.items) table_fault result
        (spec.next_performance given.now a row.old.items i) }
    ensures number { OnOk result (length row.new.items ≡ length row.old.items + 1) }
    ensures amounts { OnOk result
        (All IsAmount row.old.items → All IsAmount row.new.items) }
{
    let performance = need(given.at((a, i)), fault(TableKind::MissingPerformance, 0))?;
    row.push(performance)?;
    Ok(())
}

/// The performances of an alternative on so many criteria.
#[tactic(auto, unfolding(crate::specs::Whole::row_of))]
fn row_of(
    alloc: Global,
    given: &Given,
    criteria: usize,
    a: usize,
) -> Result<Vec<Amount>, TableError>
    ensures exact { Gives (λ row. row.items) table_fault result (spec.row_of given.now criteria a) }
    ensures number { IfOk result (λ row. length row.items ≡ criteria) }
    ensures amounts { IfOk result (λ row. All IsAmount row.items) }
{
    let mut row = Vec::new(alloc);
    for i in 0..criteria {
        next_performance(given, a, &mut row, i)?;
    }
    Ok(row)
}

/// Adds an alternative with its performances on all criteria, of which there are so many.
#[tactic(auto, unfolding(crate::specs::Whole::with_alternative))]
fn with_alternative(
    alloc: Global,
    given: &Given,
    criteria: usize,
    draft: &mut Draft,
    a: usize,
    id: &str,
) -> Result<(), TableError>
    requires width { criteria ≡ length draft.old.criteria }
    requires valid { IsId id.now }
    requires absent { has_id (alternative_ids draft.old) id.now ≡ false }
    requires room { length draft.old.alternatives < MOST_ALTERNATIVES }
    ensures exact { Gives (λ _. draft.new) table_fault result
        (spec.with_alternative given.now draft.old (a, id.now)) }
    ensures width { OnOk result (length draft.new.criteria ≡ criteria) }
    ensures ids { OnOk result (alternative_ids draft.new ≡ alternative_ids draft.old ++ id.now ∷ []) }
{
    let row = row_of(alloc, given, criteria, a)?;
    draft.put_alternative(id, &row)?;
    Ok(())
}

/// Adds all alternatives.
fn with_alternatives(
    alloc: Global,
    given: &Given,
    criteria: usize,
    draft: &mut Draft,
    ids: &[String],
) -> Result<(), TableError>
    requires width { criteria ≡ length draft.old.criteria }
    requires ids { AreIds MOST_ALTERNATIVES (alternative_ids draft.old ++ map string_bytes ids.now) }
    ensures { Gives (λ _. draft.new) table_fault result
        (read_all (spec.with_alternative given.now) draft.old (enumerate_from 0 (map string_bytes ids.now))) }
{
    for (a, id) in ids.iter().enumerate() {
        with_alternative(alloc, given, criteria, draft, a, id.as_str())?;
    }
    Ok(())
}

/// The table of what is kept.
#[tactic(auto, unfolding(crate::specs::Whole::table_of))]
pub(crate) fn table_of(
    alloc: Global,
    given: &Given,
    criteria: &Criteria,
    alternatives: &Ids,
    classes: u32,
) -> Result<Table, TableError>
    requires criteria { AreCriteria criteria.now }
    requires alternatives { AreIds MOST_ALTERNATIVES alternatives.now }
    requires classes { classes ≤ MOST_CLASSES }
    ensures exact { Gives (λ t. t) table_fault result
        (spec.table_of given.now criteria.now alternatives.now classes) }
    ensures table { IfOk result IsTable }
{
    let count = criteria.ids.kept.len();
    refuse_if(
        count == 0 || alternatives.len() == 0,
        fault(TableKind::Empty, 0),
    )?;
    let mut draft = criteria_table(alloc, criteria)?;
    draft.classes(classes);
    with_alternatives(alloc, given, count, &mut draft, alternatives.as_slice())?;
    whole_table(draft)
}
