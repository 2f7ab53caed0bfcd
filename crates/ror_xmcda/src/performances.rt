//! The performances that are given.

ghost use Rattle.std.specs.Prelude.{◌≡◌, [], ◌∷◌, ◌++◌, None, codes, OnOk, IfSome};
ghost use Rattle.ror_text.specs.Reading.{Gives, read_all};
ghost use Rattle.ror_table.specs.Amounts.{IsAmount};
ghost use Rattle.ror_table.specs.Plain.{table_fault};
ghost use Rattle.ror_elements.specs.Tree.{tree_of};
ghost use Rattle.ror_xmcda.specs.Nodes as nodes;
ghost use Rattle.ror_xmcda.specs.Performances as spec;

use crate::fault::fault;
use crate::listing::standing_in;
use crate::nodes::{at_path, first_named, inside, line_of, named};
use crate::numbers::number_of;
use crate::roster::Roster;
use indexmap::IndexMap;
use ror_elements::Element;
use ror_table::{Amount, TableError, TableKind};
use ror_text::reading::{need, refuse_if};
use std::alloc::{AllocError, Global};
use std::marker::Model;

/// The performances that are given, each at the places of its alternative and its criterion.
#[derive(Drop)]
pub(crate) struct Given {
    entries: IndexMap<(usize, usize), Amount>,
}

impl Model for Given {
    ghost use Rattle.ror_xmcda.specs.Performances.{Given, AreAmounts};

    ghost Value = { Given };

    ghost view = { λ fields. fields.entries.entries };

    ghost invariant = { λ fields. AreAmounts fields.entries.entries };
}

impl Given {
    pub(crate) fn new(alloc: Global) -> Given
        ensures { result ≡ [] }
    {
        Given {
            entries: IndexMap::new(alloc),
        }
    }

    /// The performance at a place, if it is given.
    #[tactic(auto, unfolding(crate::specs::Performances::given_at))]
    pub(crate) fn at(&self, place: (usize, usize)) -> Option<Amount>
        ensures value { result ≡ spec.given_at self.now place }
        ensures amount { IfSome result IsAmount }
    {
        self.entries.get(&place).copied()
    }

    /// Adds a performance at a place where none is given yet.
    fn add(&mut self, place: (usize, usize), performance: Amount) -> Result<(), AllocError>
        requires absent { spec.given_at self.old place ≡ None }
        requires amount { IsAmount performance }
        ensures { OnOk result (self.new ≡ self.old ++ (place, performance) ∷ []) }
    {
        self.entries.insert(place, performance)?;
        Ok(())
    }
}

/// What is first in the value of a performance.
#[tactic(auto, unfolding(crate::specs::Performances::value_of))]
fn value_of(element: &Element) -> Result<&Element, TableError>
    ensures { Gives (λ e. tree_of e.now) table_fault result (spec.value_of (tree_of element.now)) }
{
    let missing = fault(TableKind::MissingPerformance, line_of(element));
    match first_named(element, "value") {
        None => Err(missing),
        Some(value) => need(inside(value).first(), missing),
    }
}

/// Reads a performance of what is kept.
#[tactic(auto, unfolding(crate::specs::Performances::kept_performance))]
fn kept_performance(
    given: &mut Given,
    place: (usize, usize),
    element: &Element,
) -> Result<(), TableError>
    ensures { Gives (λ _. given.new) table_fault result
        (spec.kept_performance given.old place (tree_of element.now)) }
{
    let value = value_of(element)?;
    let performance = number_of(value)?;
    refuse_if(
        given.at(place).is_some(),
        fault(TableKind::RepeatedPerformance, line_of(element)),
    )?;
    given.add(place, performance)?;
    Ok(())
}

/// Reads a performance of an alternative, of which nothing is kept where it is left out.
#[tactic(auto, unfolding(crate::specs::Performances::performance))]
fn performance(
    criteria: &Roster,
    alternative: Option<usize>,
    given: &mut Given,
    element: &Element,
) -> Result<(), TableError>
    ensures { Gives (λ _. given.new) table_fault result
        (spec.performance criteria.now alternative given.old (tree_of element.now)) }
{
    let criterion = standing_in(criteria, element, "criterionID")?;
    match (alternative, criterion) {
        (Some(a), Some(i)) => kept_performance(given, (a, i), element),
        _ => Ok(()),
    }
}

/// Reads the performances inside an element, which are of one alternative.
fn performances_in(
    alloc: Global,
    criteria: &Roster,
    alternative: Option<usize>,
    given: &mut Given,
    element: &Element,
) -> Result<(), TableError>
    ensures { Gives (λ _. given.new) table_fault result
        (read_all (spec.performance criteria.now alternative) given.old
        (nodes.named (codes "performance") (tree_of element.now))) }
{
    let elements = named(alloc, element, "performance")?;
    for child in &elements {
        performance(criteria, alternative, given, child)?;
    }
    Ok(())
}

/// Reads the performances of an alternative.
#[tactic(auto, unfolding(crate::specs::Performances::performances))]
fn performances(
    alloc: Global,
    alternatives: &Roster,
    criteria: &Roster,
    given: &mut Given,
    element: &Element,
) -> Result<(), TableError>
    ensures { Gives (λ _. given.new) table_fault result
        (spec.performances alternatives.now criteria.now given.old (tree_of element.now)) }
{
    let alternative = standing_in(alternatives, element, "alternativeID")?;
    performances_in(alloc, criteria, alternative, given, element)
}

/// Reads all performances.
#[tactic(auto, unfolding(crate::specs::Performances::performances_of))]
pub(crate) fn performances_of(
    alloc: Global,
    alternatives: &Roster,
    criteria: &Roster,
    root: &Element,
) -> Result<Given, TableError>
    ensures { Gives (λ given. given) table_fault result
        (spec.performances_of alternatives.now criteria.now (tree_of root.now)) }
{
    let elements = at_path(
        alloc,
        root,
        &["performanceTable", "alternativePerformances"],
    )?;
    let mut given = Given::new(alloc);
    for element in &elements {
        performances(alloc, alternatives, criteria, &mut given, element)?;
    }
    Ok(given)
}
