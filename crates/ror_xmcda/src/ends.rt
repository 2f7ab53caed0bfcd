//! The two ends of a pair or an interval.

ghost use Rattle.std.specs.Prelude.{◌≡◌, find, option_map};
ghost use Rattle.ror_elements.specs.Tree.{tree_of};
ghost use Rattle.ror_xmcda.specs.Ends as spec;
ghost use Rattle.ror_xmcda.specs.Nodes.{inside};

use crate::nodes::{first_named, is_named};
use ror_elements::Element;

/// The first element of each of two names, and whether the second stands before the first.
#[derive(Clone, Copy)]
pub(crate) struct Ends<'a> {
    pub(crate) first: &'a Element,
    pub(crate) second: &'a Element,
    pub(crate) turned: bool,
}

/// Whether an element has one of two names.
fn is_either(element: &Element, name: &str, other: &str) -> bool
    ensures { result ≡ spec.is_either name.now other.now (tree_of element.now) }
{
    is_named(element, name) || is_named(element, other)
}

/// The first element inside another that has one of two names.
fn first_of_either<'a>(element: &'a Element, name: &str, other: &str) -> Option<&'a Element>
    ensures { option_map (λ e. tree_of e.now) result
        ≡ find (spec.is_either name.now other.now) (inside (tree_of element.now)) }
{
    element
        .children()
        .iter()
        .find(|child| is_either(child, name, other))
}

/// Whether what comes first of two names is of the other one.
#[tactic(auto, unfolding(crate::specs::Ends::is_turned))]
fn is_turned(element: &Element, name: &str, other: &str) -> bool
    ensures { result ≡ spec.is_turned name.now other.now (tree_of element.now) }
{
    match first_of_either(element, name, other) {
        None => false,
        Some(child) => is_named(child, other),
    }
}

/// The two ends of an element, if it has both.
#[tactic(auto, unfolding(crate::specs::Ends::ends_of))]
pub(crate) fn ends_of<'a>(element: &'a Element, name: &str, other: &str) -> Option<Ends<'a>>
    ensures { option_map
        (λ ends. record { first = tree_of ends.first.now; second = tree_of ends.second.now; turned = ends.turned })
        result
        ≡ spec.ends_of name.now other.now (tree_of element.now) }
{
    let first = first_named(element, name)?;
    let second = first_named(element, other)?;
    Some(Ends {
        first,
        second,
        turned: is_turned(element, name, other),
    })
}
