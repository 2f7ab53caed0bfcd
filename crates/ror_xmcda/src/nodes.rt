//! What stands in an element.

ghost use Rattle.std.specs.Prelude.{◌≡◌, map, IfOk, option_map};
ghost use Rattle.std.specs.List.{flat_map};
ghost use Rattle.ror_elements.specs.Tree.{tree_of};
ghost use Rattle.ror_xmcda.specs.Nodes as spec;

use ror_elements::Element;
use std::alloc::{AllocError, Global};

/// Whether an element has this local name.
pub(crate) fn is_named(element: &Element, name: &str) -> bool
    ensures { result ≡ spec.is_named name.now (tree_of element.now) }
{
    element.name() == name
}

/// The text of an element.
pub(crate) fn text_of(element: &Element) -> &str
    ensures { result.now ≡ spec.text_of (tree_of element.now) }
{
    element.text()
}

/// The line of an element.
pub(crate) fn line_of(element: &Element) -> u32
    ensures { result ≡ spec.line_of (tree_of element.now) }
{
    element.line()
}

/// The elements directly inside an element.
pub(crate) fn inside(element: &Element) -> &[Element]
    ensures { map tree_of result.now ≡ spec.inside (tree_of element.now) }
{
    element.children()
}

/// The first element of a name directly inside an element.
#[tactic(auto, unfolding(crate::specs::Nodes::first_named))]
pub(crate) fn first_named<'a>(element: &'a Element, name: &str) -> Option<&'a Element>
    ensures { option_map (λ e. tree_of e.now) result ≡ spec.first_named name.now (tree_of element.now) }
{
    element
        .children()
        .iter()
        .find(|child| is_named(child, name))
}

/// The elements of a name directly inside an element.
pub(crate) fn named<'a>(
    alloc: Global,
    element: &'a Element,
    name: &str,
) -> Result<Vec<&'a Element>, AllocError>
    ensures { IfOk result (λ found. map (λ e. tree_of e.now) found.items
        ≡ spec.named name.now (tree_of element.now)) }
{
    element
        .children()
        .iter()
        .filter(|child| is_named(child, name))
        .collect(alloc)
}

/// The elements of a name directly inside some elements.
fn all_named<'a>(
    alloc: Global,
    elements: &[&'a Element],
    name: &str,
) -> Result<Vec<&'a Element>, AllocError>
    ensures { IfOk result (λ found. map (λ e. tree_of e.now) found.items
        ≡ flat_map (spec.named name.now) (map (λ e. tree_of e.now) elements.now)) }
{
    let mut found = Vec::new(alloc);
    for element in elements {
        let more = named(alloc, element, name)?;
        found.extend_from_slice(&more)?;
    }
    Ok(found)
}

/// The elements to which a path of names leads, in order of the document.
pub(crate) fn at_path<'a>(
    alloc: Global,
    element: &'a Element,
    path: &[&str],
) -> Result<Vec<&'a Element>, AllocError>
    ensures { IfOk result (λ found. map (λ e. tree_of e.now) found.items
        ≡ spec.at_path (map (λ name. name.now) path.now) (tree_of element.now)) }
{
    let mut found = Vec::from_slice(alloc, &[element])?;
    for name in path {
        found = all_named(alloc, &found, name)?;
    }
    Ok(found)
}

/// The first element to which a path leads.
pub(crate) fn first_at<'a>(
    alloc: Global,
    element: &'a Element,
    path: &[&str],
) -> Result<Option<&'a Element>, AllocError>
    ensures { IfOk result (λ found. option_map (λ e. tree_of e.now) found
        ≡ spec.first_of (spec.at_path (map (λ name. name.now) path.now) (tree_of element.now))) }
{
    let found = at_path(alloc, element, path)?;
    Ok(found.first().copied())
}
