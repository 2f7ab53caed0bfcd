//! The content of an XMCDA file, pass by pass.

ghost use Rattle.std.specs.Prelude.{◌≡◌, ◌≤◌, length, IfOk};
ghost use Rattle.ror_text.specs.Reading.{Gives};
ghost use Rattle.ror_table.specs.declared.limits.TheConstants.{MOST_ALTERNATIVES, MOST_CLASSES};
ghost use Rattle.ror_table.specs.Plain.{table_fault};
ghost use Rattle.ror_table.specs.Table.{IsTable};
ghost use Rattle.ror_elements.specs.Tree.{tree_of};
ghost use Rattle.ror_xmcda.specs.Categories.{AreRanked};
ghost use Rattle.ror_xmcda.specs.Content as spec;
ghost use Rattle.ror_xmcda.specs.Criteria.{AreCriteria};
ghost use Rattle.ror_xmcda.specs.Roster.{AreIds};

use crate::affectations::affectations_of;
use crate::alternatives::alternatives_of;
use crate::categories::{Categories, categories_of};
use crate::comparisons::comparisons_of;
use crate::criteria::{Criteria, criteria_of};
use crate::growing::Growing;
use crate::opening::opening_of;
use crate::performances::performances_of;
use crate::roster::Roster;
use crate::whole::table_of;
use ror_elements::Element;
use ror_statement::Statement;
use ror_table::{Table, TableError};
use ror_text::Items;
use ror_value::Input;
use std::alloc::Global;

/// What a file lists.
#[derive(Drop)]
pub(crate) struct Listed {
    pub(crate) categories: Categories,
    pub(crate) alternatives: Roster,
    pub(crate) criteria: Criteria,
}

/// What a file lists.
#[tactic(auto, unfolding(crate::specs::Content::listed_of))]
fn listed_of(alloc: Global, root: &Element) -> Result<Listed, TableError>
    ensures { Gives (λ listed. listed) table_fault result (spec.listed_of (tree_of root.now)) }
{
    let categories = categories_of(alloc, root)?;
    let alternatives = alternatives_of(alloc, root)?;
    let criteria = criteria_of(alloc, root)?;
    Ok(Listed {
        categories,
        alternatives,
        criteria,
    })
}

/// The table of what is kept.
#[tactic(auto, unfolding(crate::specs::Content::table_in))]
fn table_in(alloc: Global, listed: &Listed, root: &Element) -> Result<Table, TableError>
    requires criteria { AreCriteria listed.now.criteria }
    requires alternatives { AreIds MOST_ALTERNATIVES listed.now.alternatives.kept }
    requires classes { length listed.now.categories.ranks ≤ MOST_CLASSES }
    ensures exact { Gives (λ table. table) table_fault result (spec.table_in listed.now (tree_of root.now)) }
    ensures table { IfOk result IsTable }
{
    let given = performances_of(alloc, &listed.alternatives, &listed.criteria.ids, root)?;
    let classes = listed.categories.ranks.len() as u32;
    table_of(
        alloc,
        &given,
        &listed.criteria,
        &listed.alternatives.kept,
        classes,
    )
}

/// The comparisons in order, then the assignments in order.
#[tactic(auto, unfolding(crate::specs::Content::opening_in))]
fn opening_in(
    alloc: Global,
    best_first: bool,
    listed: &Listed,
    root: &Element,
) -> Result<Items<Statement>, TableError>
    requires { AreRanked listed.now.categories }
    ensures { Gives (λ opening. opening) table_fault result
        (spec.opening_in best_first listed.now (tree_of root.now)) }
{
    let alternatives = &listed.alternatives;
    let mut stated = Growing::new(alloc);
    comparisons_of(alloc, alternatives, &mut stated, root)?;
    affectations_of(
        alloc,
        best_first,
        alternatives,
        &listed.categories,
        &mut stated,
        root,
    )?;
    opening_of(alloc, stated.as_slice())
}

/// The table and the statements of what a file lists.
fn content_in(
    alloc: Global,
    best_first: bool,
    listed: &Listed,
    root: &Element,
) -> Result<Input, TableError>
    requires criteria { AreCriteria listed.now.criteria }
    requires alternatives { AreIds MOST_ALTERNATIVES listed.now.alternatives.kept }
    requires ranked { AreRanked listed.now.categories }
    ensures exact { Gives (λ input. input) table_fault result
        (spec.content_in best_first listed.now (tree_of root.now)) }
    ensures table { IfOk result (λ input. IsTable input.table) }
{
    let table = table_in(alloc, listed, root)?;
    match opening_in(alloc, best_first, listed, root) {
        Ok(opening) => Ok(Input { table, opening }),
        Err(error) => {
            // A table that is dropped on some paths alone takes minutes to prove.
            drop(table);
            Err(error)
        }
    }
}

/// The table and the statements of a file's elements.
#[tactic(auto, unfolding(crate::specs::Content::content))]
pub(crate) fn content(alloc: Global, best_first: bool, root: &Element) -> Result<Input, TableError>
    ensures exact { Gives (λ input. input) table_fault result (spec.content best_first (tree_of root.now)) }
    ensures table { IfOk result (λ input. IsTable input.table) }
{
    let listed = listed_of(alloc, root)?;
    content_in(alloc, best_first, &listed, root)
}
