//! The comparisons of alternatives.

ghost use Rattle.std.specs.Prelude.{◌≡◌, None, OnOk, ◌++◌};
ghost use Rattle.ror_text.specs.Reading.{Gives, read_all};
ghost use Rattle.ror_table.specs.Plain.{table_fault};
ghost use Rattle.ror_elements.specs.Tree.{tree_of};
ghost use Rattle.ror_xmcda.specs.Comparisons as spec;
ghost use Rattle.ror_xmcda.specs.Ends.{both};
ghost use Rattle.ror_xmcda.specs.Nodes as nodes;

use crate::ends::{Ends, ends_of};
use crate::fault::{fault, unsupported};
use crate::growing::Growing;
use crate::listing::standing_at;
use crate::nodes::{at_path, inside, is_named, line_of};
use crate::roster::Roster;
use crate::stated::Stated;
use ror_elements::Element;
use ror_statement::Statement;
use ror_table::{Kind, TableError, TableKind};
use ror_text::reading::need;
use std::alloc::Global;

/// What the first of several elements names.
pub(crate) fn first_standing(
    roster: &Roster,
    found: Option<Option<usize>>,
    element: &Element,
) -> Result<Option<Option<usize>>, TableError>
    ensures { Gives (λ standing. standing) table_fault result
        (spec.first_standing roster.now found (tree_of element.now)) }
{
    match found {
        Some(before) => Ok(Some(before)),
        None => Ok(Some(standing_at(roster, element)?)),
    }
}

/// Reads an element inside a side of a pair.
#[tactic(auto, unfolding(crate::specs::Comparisons::member))]
fn member(
    alternatives: &Roster,
    found: Option<Option<usize>>,
    element: &Element,
) -> Result<Option<Option<usize>>, TableError>
    ensures { Gives (λ standing. standing) table_fault result
        (spec.member alternatives.now found (tree_of element.now)) }
{
    if is_named(element, "alternativeID") {
        first_standing(alternatives, found, element)
    } else {
        Err(unsupported(Kind::Member, line_of(element)))
    }
}

/// Reads a side of a pair.
#[tactic(auto, unfolding(crate::specs::Comparisons::side))]
fn side(alternatives: &Roster, element: &Element) -> Result<Option<usize>, TableError>
    ensures { Gives (λ standing. standing) table_fault result
        (spec.side alternatives.now (tree_of element.now)) }
{
    let mut found = None;
    for child in inside(element) {
        found = member(alternatives, found, child)?;
    }
    need(found, fault(TableKind::UnknownId, line_of(element)))
}

/// Reads both sides of a pair, in order of the document.
fn sides(
    alternatives: &Roster,
    ends: Ends<'_>,
) -> Result<(Option<usize>, Option<usize>), TableError>
    ensures { Gives (λ places. places) table_fault result
        (both ends.entry.turned (spec.side alternatives.now (tree_of ends.entry.first.now))
        (spec.side alternatives.now (tree_of ends.entry.second.now))) }
{
    if ends.turned {
        let second = side(alternatives, ends.second)?;
        Ok((side(alternatives, ends.first)?, second))
    } else {
        let first = side(alternatives, ends.first)?;
        Ok((first, side(alternatives, ends.second)?))
    }
}

/// Reads a pair.
#[tactic(auto, unfolding(crate::specs::Comparisons::pair))]
fn pair(
    alternatives: &Roster,
    stated: &mut Growing<Stated>,
    element: &Element,
) -> Result<(), TableError>
    ensures { Gives (λ _. stated.new) table_fault result
        (spec.pair alternatives.now stated.old (tree_of element.now)) }
{
    let line = line_of(element);
    let ends = need(
        ends_of(element, "initial", "terminal"),
        fault(TableKind::UnknownId, line),
    )?;
    if let (Some(a), Some(b)) = sides(alternatives, ends)? {
        stated.push(Stated {
            line,
            statement: Statement::Prefer(a, b),
        })?;
    }
    Ok(())
}

/// Reads all comparisons, behind what is stated already.
#[tactic(auto, unfolding(crate::specs::Comparisons::comparisons_of))]
pub(crate) fn comparisons_of(
    alloc: Global,
    alternatives: &Roster,
    stated: &mut Growing<Stated>,
    root: &Element,
) -> Result<(), TableError>
    ensures { Gives (λ _. stated.new) table_fault result
        (spec.comparisons_of alternatives.now stated.old (tree_of root.now)) }
{
    for element in &at_path(alloc, root, &["alternativesComparisons", "pairs", "pair"])? {
        pair(alternatives, stated, element)?;
    }
    Ok(())
}
