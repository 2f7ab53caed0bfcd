//! The criteria, and the direction of each.

ghost use Rattle.std.specs.Prelude.{◌≡◌};
ghost use Rattle.ror_text.specs.Reading.{Gives};
ghost use Rattle.ror_table.specs.Plain as plain;
ghost use Rattle.ror_table.specs.Plain.{table_fault};
ghost use Rattle.ror_elements.specs.Tree.{tree_of};
ghost use Rattle.ror_xmcda.specs.Criteria as spec;

use crate::fault::{fault, unsupported};
use crate::growing::Growing;
use crate::listing::{is_active, new_id};
use crate::nodes::{at_path, first_at, line_of, text_of};
use crate::roster::Roster;
use ror_elements::Element;
use ror_table::{Direction, Kind, MOST_CRITERIA, TableError, TableKind, What};
use ror_text::reading::{need, refuse_if};
use std::alloc::Global;

/// The criteria, with the direction of each that is kept.
#[derive(Drop)]
pub(crate) struct Criteria {
    pub(crate) ids: Roster,
    pub(crate) directions: Growing<Direction>,
}

/// Refuses a criterion with a qualitative scale.
#[tactic(auto, unfolding(crate::specs::Criteria::no_qualitative))]
fn no_qualitative(alloc: Global, element: &Element) -> Result<(), TableError>
    ensures { Gives (λ _. tt) table_fault result (spec.no_qualitative (tree_of element.now)) }
{
    match first_at(alloc, element, &["scale", "qualitative"])? {
        None => Ok(()),
        Some(scale) => Err(unsupported(Kind::Qualitative, line_of(scale))),
    }
}

/// The direction that a text names.
fn direction_of(text: &str) -> Option<Direction>
    ensures { result ≡ plain.direction_of text.now }
{
    match text {
        "max" => Some(Direction::Max),
        "min" => Some(Direction::Min),
        _ => None,
    }
}

/// The direction of a criterion.
#[tactic(auto, unfolding(crate::specs::Criteria::criterion_direction))]
fn criterion_direction(alloc: Global, element: &Element) -> Result<Direction, TableError>
    ensures { Gives (λ direction. direction) table_fault result
        (spec.criterion_direction (tree_of element.now)) }
{
    match first_at(
        alloc,
        element,
        &["scale", "quantitative", "preferenceDirection"],
    )? {
        None => Ok(Direction::Max),
        Some(direction) => need(
            direction_of(text_of(direction)),
            unsupported(Kind::Direction, line_of(direction)),
        ),
    }
}

/// Reads a criterion.
#[tactic(auto, unfolding(crate::specs::Criteria::criterion))]
fn criterion(alloc: Global, criteria: &mut Criteria, element: &Element) -> Result<(), TableError>
    ensures { Gives (λ _. criteria.new) table_fault result
        (spec.criterion criteria.old (tree_of element.now)) }
{
    let id = new_id(&criteria.ids, element)?;
    if !is_active(element)? {
        criteria.ids.left_out.push_text(alloc, id)?;
        return Ok(());
    }
    refuse_if(
        criteria.ids.kept.len() >= MOST_CRITERIA,
        fault(TableKind::TooMany(What::Criteria), line_of(element)),
    )?;
    no_qualitative(alloc, element)?;
    let direction = criterion_direction(alloc, element)?;
    criteria.ids.kept.add(alloc, id)?;
    criteria.directions.push(direction)?;
    Ok(())
}

/// Reads all criteria.
#[tactic(auto, unfolding(crate::specs::Criteria::criteria_of))]
pub(crate) fn criteria_of(alloc: Global, root: &Element) -> Result<Criteria, TableError>
    ensures { Gives (λ criteria. criteria) table_fault result (spec.criteria_of (tree_of root.now)) }
{
    let elements = at_path(alloc, root, &["criteria", "criterion"])?;
    let mut criteria = Criteria {
        ids: Roster::new(alloc),
        directions: Growing::new(alloc),
    };
    for element in &elements {
        criterion(alloc, &mut criteria, element)?;
    }
    Ok(criteria)
}
