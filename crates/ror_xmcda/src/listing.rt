//! What is read alike of a category, an alternative and a criterion.

ghost use Rattle.std.specs.Prelude.{◌≡◌, true, false, MatchOption, IfOk, option_map};
ghost use Rattle.ror_text.specs.Reading.{Gives};
ghost use Rattle.ror_table.specs.Plain.{table_fault};
ghost use Rattle.ror_elements.specs.Tree.{tree_of};
ghost use Rattle.ror_xmcda.specs.Listing as spec;
ghost use Rattle.ror_xmcda.specs.Nodes as nodes;
ghost use Rattle.ror_xmcda.specs.Roster.{is_listed};

use crate::fault::{fault, unsupported};
use crate::nodes::{first_named, line_of, text_of};
use crate::roster::Roster;
use ror_elements::Element;
use ror_table::{Kind, TableError, TableKind};
use ror_text::ids::id_text;
use ror_text::reading::{need, refuse_if};

/// The id of an element, if it has one that may be one.
fn valid_id(element: &Element) -> Option<&str>
    ensures { option_map (λ id. id.now) result ≡ spec.valid (nodes.id_of (tree_of element.now)) }
{
    match element.id() {
        None => None,
        Some(id) => id_text(id.as_bytes()),
    }
}

/// The id of an element, which is not listed yet.
#[tactic(auto, unfolding(crate::specs::Listing::new_id))]
pub(crate) fn new_id<'a>(roster: &Roster, element: &'a Element) -> Result<&'a str, TableError>
    ensures exact { Gives (λ id. id.now) table_fault result (spec.new_id roster.now (tree_of element.now)) }
    ensures new { IfOk result (λ id. is_listed roster.now id.now ≡ false) }
{
    let line = line_of(element);
    let id = need(valid_id(element), unsupported(Kind::Id, line))?;
    refuse_if(roster.lists(id), fault(TableKind::RepeatedId, line))?;
    Ok(id)
}

/// What a text says on being kept.
#[tactic(auto, unfolding(crate::specs::Listing::truth_of))]
fn truth_of(text: &str) -> Option<bool>
    ensures { result ≡ spec.truth_of text.now }
{
    if text == "true" || text == "1" {
        Some(true)
    } else if text == "false" || text == "0" {
        Some(false)
    } else {
        None
    }
}

/// Whether an element is kept.
#[tactic(auto, unfolding(crate::specs::Listing::is_active))]
pub(crate) fn is_active(element: &Element) -> Result<bool, TableError>
    ensures { Gives (λ active. active) table_fault result (spec.is_active (tree_of element.now)) }
{
    match first_named(element, "active") {
        None => Ok(true),
        Some(active) => need(
            truth_of(text_of(active)),
            fault(TableKind::BadLine, line_of(active)),
        ),
    }
}

/// What the text of an element names.
#[tactic(auto, unfolding(crate::specs::Listing::standing_at))]
pub(crate) fn standing_at(roster: &Roster, element: &Element) -> Result<Option<usize>, TableError>
    ensures { Gives (λ standing. standing) table_fault result
        (spec.standing_at roster.now (tree_of element.now)) }
{
    need(
        roster.standing(text_of(element)),
        fault(TableKind::UnknownId, line_of(element)),
    )
}

/// What the text of the first element of a name inside another names.
pub(crate) fn standing_in(
    roster: &Roster,
    owner: &Element,
    name: &str,
) -> Result<Option<usize>, TableError>
    ensures { Gives (λ standing. standing) table_fault result
        (spec.standing_in roster.now (tree_of owner.now) (nodes.first_named name.now (tree_of owner.now))) }
{
    match first_named(owner, name) {
        None => Err(fault(TableKind::UnknownId, line_of(owner))),
        Some(element) => standing_at(roster, element),
    }
}
