//! The categories, and the class of each.

ghost use Rattle.std.specs.Prelude.{◌≡◌, ◌<◌, ◌≤◌, ◌+◌, length};
ghost use Rattle.std.specs.List.{list_any};
ghost use Rattle.std.specs.Ordering.{int_eq};
ghost use Rattle.ror_text.specs.Reading.{Gives};
ghost use Rattle.ror_table.specs.declared.limits.TheConstants.{MOST_CLASSES};
ghost use Rattle.ror_table.specs.Plain.{table_fault};
ghost use Rattle.ror_elements.specs.Tree.{tree_of};
ghost use Rattle.ror_xmcda.specs.Categories as spec;

use crate::fault::{fault, unsupported};
use crate::growing::Growing;
use crate::listing::{is_active, new_id};
use crate::nodes::{at_path, first_at, line_of, text_of};
use crate::roster::Roster;
use ror_elements::Element;
use ror_table::{Kind, MOST_CLASSES, TableError, TableKind, What};
use ror_text::numbers::read_performance;
use ror_text::reading::{need, refuse_if};
use std::alloc::Global;

/// The categories, with the rank of each that is kept.
#[derive(Drop)]
pub(crate) struct Categories {
    pub(crate) ids: Roster,
    pub(crate) ranks: Growing<i64>,
}

/// Whether some rank is this one.
fn has_rank(ranks: &[i64], rank: i64) -> bool
    ensures { result ≡ list_any (int_eq rank) ranks.now }
{
    ranks.iter().any(|other| rank == *other)
}

/// The rank of a category, which no kept one before has.
#[tactic(auto, unfolding(crate::specs::Categories::rank_of))]
fn rank_of(alloc: Global, ranks: &[i64], element: &Element) -> Result<i64, TableError>
    ensures { Gives (λ rank. rank) table_fault result (spec.rank_of ranks.now (tree_of element.now)) }
{
    let integer = need(
        first_at(alloc, element, &["rank", "integer"])?,
        unsupported(Kind::Rank, line_of(element)),
    )?;
    let line = line_of(integer);
    let rank = need(
        read_performance(text_of(integer).as_bytes()),
        fault(TableKind::BadNumber, line),
    )?;
    refuse_if(has_rank(ranks, rank), fault(TableKind::BadNumber, line))?;
    Ok(rank)
}

/// Reads a category.
#[tactic(auto, unfolding(crate::specs::Categories::category))]
fn category(alloc: Global, categories: &mut Categories, element: &Element) -> Result<(), TableError>
    ensures { Gives (λ _. categories.new) table_fault result
        (spec.category categories.old (tree_of element.now)) }
{
    let id = new_id(&categories.ids, element)?;
    if !is_active(element)? {
        categories.ids.left_out.push_text(alloc, id)?;
        return Ok(());
    }
    let rank = rank_of(alloc, categories.ranks.as_slice(), element)?;
    refuse_if(
        categories.ranks.len() >= MOST_CLASSES as usize,
        fault(TableKind::TooMany(What::Classes), line_of(element)),
    )?;
    categories.ids.kept.add(alloc, id)?;
    categories.ranks.push(rank)?;
    Ok(())
}

/// Reads all categories.
#[tactic(auto, unfolding(crate::specs::Categories::categories_of))]
pub(crate) fn categories_of(alloc: Global, root: &Element) -> Result<Categories, TableError>
    ensures { Gives (λ categories. categories) table_fault result (spec.categories_of (tree_of root.now)) }
{
    let elements = at_path(alloc, root, &["categories", "category"])?;
    let mut categories = Categories {
        ids: Roster::new(alloc),
        ranks: Growing::new(alloc),
    };
    for element in &elements {
        category(alloc, &mut categories, element)?;
    }
    Ok(categories)
}

/// Whether a rank comes before another.
fn comes_before(best_first: bool, rank: i64, other: i64) -> bool
    ensures { result ≡ spec.comes_before best_first rank other }
{
    if best_first {
        other < rank
    } else {
        rank < other
    }
}

/// The class of the category that is kept at a place, from 1, the worst.
#[tactic(auto, unfolding(crate::specs::Categories::class_of))]
pub(crate) fn class_of(best_first: bool, ranks: &[i64], k: usize) -> u32
    requires few { length ranks.now ≤ MOST_CLASSES }
    requires kept { k < length ranks.now }
    ensures { result ≡ spec.class_of best_first ranks.now k }
{
    let rank = ranks[k];
    1 + ranks
        .iter()
        .filter(|other| comes_before(best_first, **other, rank))
        .count() as u32
}
