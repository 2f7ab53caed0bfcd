//! The alternatives.

ghost use Rattle.std.specs.Prelude.{◌≡◌};
ghost use Rattle.ror_text.specs.Reading.{Gives};
ghost use Rattle.ror_table.specs.Plain.{table_fault};
ghost use Rattle.ror_elements.specs.Tree.{tree_of};
ghost use Rattle.ror_xmcda.specs.Alternatives as spec;

use crate::fault::fault;
use crate::listing::{is_active, new_id};
use crate::nodes::{at_path, line_of};
use crate::roster::Roster;
use ror_elements::Element;
use ror_table::{MOST_ALTERNATIVES, TableError, TableKind, What};
use ror_text::reading::refuse_if;
use std::alloc::Global;

/// Reads an alternative.
#[tactic(auto, unfolding(crate::specs::Alternatives::alternative))]
fn alternative(alloc: Global, roster: &mut Roster, element: &Element) -> Result<(), TableError>
    ensures { Gives (λ _. roster.new) table_fault result (spec.alternative roster.old (tree_of element.now)) }
{
    let id = new_id(roster, element)?;
    if !is_active(element)? {
        roster.left_out.push_text(alloc, id)?;
        return Ok(());
    }
    refuse_if(
        roster.kept.len() >= MOST_ALTERNATIVES,
        fault(TableKind::TooMany(What::Alternatives), line_of(element)),
    )?;
    roster.kept.add(alloc, id)?;
    Ok(())
}

/// Reads all alternatives.
#[tactic(auto, unfolding(crate::specs::Alternatives::alternatives_of))]
pub(crate) fn alternatives_of(alloc: Global, root: &Element) -> Result<Roster, TableError>
    ensures { Gives (λ roster. roster) table_fault result (spec.alternatives_of (tree_of root.now)) }
{
    let elements = at_path(alloc, root, &["alternatives", "alternative"])?;
    let mut roster = Roster::new(alloc);
    for element in &elements {
        alternative(alloc, &mut roster, element)?;
    }
    Ok(roster)
}
