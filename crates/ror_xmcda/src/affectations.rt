//! The assignments of alternatives to categories.

ghost use Rattle.std.specs.Prelude.{◌≡◌, None, Some, is_some};
ghost use Rattle.std.specs.Option.{option_map};
ghost use Rattle.ror_text.specs.Reading.{Gives, read_all};
ghost use Rattle.ror_table.specs.Plain.{table_fault};
ghost use Rattle.ror_elements.specs.Tree.{tree_of};
ghost use Rattle.ror_xmcda.specs.Affectations as spec;
ghost use Rattle.ror_xmcda.specs.Categories.{AreRanked};
ghost use Rattle.ror_xmcda.specs.Ends.{both};
ghost use Rattle.ror_xmcda.specs.Nodes as nodes;

use crate::categories::{Categories, class_of};
use crate::comparisons::first_standing;
use crate::ends::{Ends, ends_of};
use crate::fault::{fault, unsupported};
use crate::growing::Growing;
use crate::listing::standing_at;
use crate::nodes::{at_path, first_named, inside, is_named, line_of};
use crate::roster::Roster;
use crate::stated::Stated;
use ror_elements::Element;
use ror_statement::Statement;
use ror_table::{Kind, TableError, TableKind};
use ror_text::reading::{need, refuse_if};
use std::alloc::Global;

/// The classes from one to another.
#[derive(Clone, Copy, Debug)]
pub(crate) struct Classes {
    pub(crate) lowest: u32,
    pub(crate) highest: u32,
}

/// What was read of an assignment: each is there once its element was read, and is nothing where it is left out.
#[derive(Clone, Copy, Debug)]
pub(crate) struct Assigned {
    pub(crate) alternative: Option<Option<usize>>,
    pub(crate) classes: Option<Option<Classes>>,
}

/// The class of the category that an element names, if it is kept.
#[tactic(auto, unfolding(crate::specs::Affectations::class_at))]
fn class_at(
    best_first: bool,
    categories: &Categories,
    element: &Element,
) -> Result<Option<u32>, TableError>
    requires { AreRanked categories.now }
    ensures { Gives (λ class. class) table_fault result
        (spec.class_at best_first categories.now (tree_of element.now)) }
{
    match standing_at(&categories.ids, element)? {
        None => Ok(None),
        Some(place) => Ok(Some(class_of(best_first, categories.ranks.as_slice(), place))),
    }
}

/// The class of a bound.
#[tactic(auto, unfolding(crate::specs::Affectations::bound))]
fn bound(
    best_first: bool,
    categories: &Categories,
    element: &Element,
) -> Result<Option<u32>, TableError>
    requires { AreRanked categories.now }
    ensures { Gives (λ class. class) table_fault result
        (spec.bound best_first categories.now (tree_of element.now)) }
{
    match first_named(element, "categoryID") {
        Some(id) => class_at(best_first, categories, id),
        None => class_at(best_first, categories, element),
    }
}

/// From the lesser to the greater of two classes.
fn between(one: Option<u32>, other: Option<u32>) -> Option<Classes>
    ensures { result ≡ spec.between one other }
{
    match (one, other) {
        (Some(a), Some(b)) => Some(Classes {
            lowest: a.min(b),
            highest: a.max(b),
        }),
        _ => None,
    }
}

/// Reads both bounds of an interval, in order of the document.
fn bounds(
    best_first: bool,
    categories: &Categories,
    ends: Ends<'_>,
) -> Result<(Option<u32>, Option<u32>), TableError>
    requires { AreRanked categories.now }
    ensures { Gives (λ classes. classes) table_fault result
        (both ends.entry.turned (spec.bound best_first categories.now (tree_of ends.entry.first.now))
        (spec.bound best_first categories.now (tree_of ends.entry.second.now))) }
{
    if ends.turned {
        let second = bound(best_first, categories, ends.second)?;
        Ok((bound(best_first, categories, ends.first)?, second))
    } else {
        let first = bound(best_first, categories, ends.first)?;
        Ok((first, bound(best_first, categories, ends.second)?))
    }
}

/// Reads an interval of categories.
#[tactic(auto, unfolding(crate::specs::Affectations::interval))]
fn interval(
    best_first: bool,
    categories: &Categories,
    element: &Element,
) -> Result<Option<Classes>, TableError>
    requires { AreRanked categories.now }
    ensures { Gives (λ classes. classes) table_fault result
        (spec.interval best_first categories.now (tree_of element.now)) }
{
    let ends = need(
        ends_of(element, "lowerBound", "upperBound"),
        fault(TableKind::UnknownId, line_of(element)),
    )?;
    let (lower, upper) = bounds(best_first, categories, ends)?;
    Ok(between(lower, upper))
}

/// Reads a single category.
#[tactic(auto, unfolding(crate::specs::Affectations::single))]
fn single(
    best_first: bool,
    categories: &Categories,
    element: &Element,
) -> Result<Option<Classes>, TableError>
    requires { AreRanked categories.now }
    ensures { Gives (λ classes. classes) table_fault result
        (spec.single best_first categories.now (tree_of element.now)) }
{
    let class = class_at(best_first, categories, element)?;
    Ok(between(class, class))
}

/// Whether an element names a set of alternatives or of categories.
fn is_set(element: &Element) -> bool
    ensures { result ≡ spec.is_set (tree_of element.now) }
{
    is_named(element, "alternativesSetID") || is_named(element, "categoriesSet")
}

/// Reads an element inside an assignment.
#[tactic(auto, unfolding(crate::specs::Affectations::part))]
fn part(
    best_first: bool,
    alternatives: &Roster,
    categories: &Categories,
    assigned: Assigned,
    element: &Element,
) -> Result<Assigned, TableError>
    requires { AreRanked categories.now }
    ensures { Gives (λ assigned. assigned) table_fault result
        (spec.part best_first alternatives.now categories.now assigned (tree_of element.now)) }
{
    if is_set(element) {
        return Err(unsupported(Kind::Member, line_of(element)));
    }
    if is_named(element, "alternativeID") {
        let alternative = first_standing(alternatives, assigned.alternative, element)?;
        return Ok(Assigned {
            alternative,
            classes: assigned.classes,
        });
    }
    if assigned.classes.is_some() {
        return Ok(assigned);
    }
    let classes = if is_named(element, "categoryID") {
        single(best_first, categories, element)?
    } else if is_named(element, "categoriesInterval") {
        interval(best_first, categories, element)?
    } else {
        return Ok(assigned);
    };
    Ok(Assigned {
        alternative: assigned.alternative,
        classes: Some(classes),
    })
}

/// Whether an element of a name is directly inside another.
fn has(element: &Element, name: &str) -> bool
    ensures { result ≡ spec.has name.now (tree_of element.now) }
{
    first_named(element, name).is_some()
}

/// Whether an assignment has an alternative, or a set in its place, and so a category.
#[tactic(auto, unfolding(crate::specs::Affectations::is_complete))]
fn is_complete(element: &Element) -> bool
    ensures { result ≡ spec.is_complete (tree_of element.now) }
{
    if !has(element, "alternativeID") && !has(element, "alternativesSetID") {
        return false;
    }
    has(element, "categoryID")
        || has(element, "categoriesInterval")
        || has(element, "categoriesSet")
}

/// Reads what is inside an assignment.
fn assigned_in(
    best_first: bool,
    alternatives: &Roster,
    categories: &Categories,
    element: &Element,
) -> Result<Assigned, TableError>
    requires { AreRanked categories.now }
    ensures { Gives (λ assigned. assigned) table_fault result
        (read_all (spec.part best_first alternatives.now categories.now) spec.nothing_assigned
        (nodes.inside (tree_of element.now))) }
{
    let mut assigned = Assigned {
        alternative: None,
        classes: None,
    };
    for child in inside(element) {
        assigned = part(best_first, alternatives, categories, assigned, child)?;
    }
    Ok(assigned)
}

/// Reads an assignment.
#[tactic(auto, unfolding(crate::specs::Affectations::affectation))]
fn affectation(
    best_first: bool,
    alternatives: &Roster,
    categories: &Categories,
    stated: &mut Growing<Stated>,
    element: &Element,
) -> Result<(), TableError>
    requires { AreRanked categories.now }
    ensures { Gives (λ _. stated.new) table_fault result
        (spec.affectation best_first alternatives.now categories.now stated.old (tree_of element.now)) }
{
    let line = line_of(element);
    refuse_if(!is_complete(element), fault(TableKind::UnknownId, line))?;
    let assigned = assigned_in(best_first, alternatives, categories, element)?;
    if let (Some(Some(a)), Some(Some(classes))) = (assigned.alternative, assigned.classes) {
        stated.push(Stated {
            line,
            statement: Statement::Class(a, classes.lowest, classes.highest),
        })?;
    }
    Ok(())
}

/// Reads all assignments, behind what is stated already.
#[tactic(auto, unfolding(crate::specs::Affectations::affectations_of))]
pub(crate) fn affectations_of(
    alloc: Global,
    best_first: bool,
    alternatives: &Roster,
    categories: &Categories,
    stated: &mut Growing<Stated>,
    root: &Element,
) -> Result<(), TableError>
    requires { AreRanked categories.now }
    ensures { Gives (λ _. stated.new) table_fault result
        (spec.affectations_of best_first alternatives.now categories.now stated.old (tree_of root.now)) }
{
    for element in &at_path(
        alloc,
        root,
        &["alternativesAffectations", "alternativeAffectation"],
    )? {
        affectation(best_first, alternatives, categories, stated, element)?;
    }
    Ok(())
}
