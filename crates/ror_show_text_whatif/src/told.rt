//! What is told of a changed statement: counts, or words in their place.

ghost use Rattle.std.specs.Prelude.{◌≡◌};
ghost use Rattle.ror_show_text_whatif.specs.Told as spec;

use crate::ways::Way;
use ror_show_find_whatif::{Agreement, Effect};

/// How many pairs or classes stand in each list, or how many alternatives have classes in it.
#[derive(Clone, Copy, Debug)]
pub(crate) struct Counts {
    /// Lost pairs, or opened classes.
    pub(crate) first: usize,
    /// Weaker ones, or closed ones.
    pub(crate) second: usize,
    /// Won ones, or loosened ones.
    pub(crate) third: usize,
    /// Stronger ones, or bound ones.
    pub(crate) fourth: usize,
    pub(crate) unknown: usize,
}

/// What is said in place of counts.
#[derive(Clone, Copy, Debug, PartialEq, Eq)]
pub(crate) enum Remark {
    /// The statement has no contrary.
    NoContrary,
    /// No function agrees now, and some one does then.
    Ends,
    /// No function agrees now, and none does then.
    Stays,
    /// No function agrees now, and whether one does then isn't concluded.
    NotKnown,
    /// No function agrees then.
    NoFunction,
    /// No function agrees with the contrary and the others.
    Excluded,
}

#[derive(Clone, Copy, Debug)]
pub(crate) enum Told {
    Counts(Counts),
    Remark(Remark),
}

/// How many change.
pub(crate) fn counts_of(effect: &Effect) -> Counts
    ensures { result ≡ spec.counts_of effect.now }
{
    match effect {
        Effect::OfPairs(pairs) => Counts {
            first: pairs.lost.len(),
            second: pairs.weaker.len(),
            third: pairs.won.len(),
            fourth: pairs.stronger.len(),
            unknown: pairs.unknown.len(),
        },
        Effect::OfClasses(classes) => Counts {
            first: classes.opened.len(),
            second: classes.closed.len(),
            third: classes.loosened.len(),
            fourth: classes.bound.len(),
            unknown: classes.unknown.len(),
        },
    }
}

/// What is said in place of counts, where no function agrees now or then.
pub(crate) fn remark_for(way: Way, now: Agreement, later: Agreement) -> Option<Remark>
    ensures { result ≡ spec.remark_for way now later }
{
    match now {
        Agreement::Contradicts => Some(remark_by(later)),
        _ => remark_then(way, later),
    }
}

/// Where no function agrees now.
fn remark_by(later: Agreement) -> Remark
    ensures { result ≡ spec.remark_by later }
{
    match later {
        Agreement::Agrees => Remark::Ends,
        Agreement::Contradicts => Remark::Stays,
        Agreement::Unknown => Remark::NotKnown,
    }
}

/// Where that isn't so.
fn remark_then(way: Way, later: Agreement) -> Option<Remark>
    ensures { result ≡ spec.remark_then way later }
{
    match later {
        Agreement::Contradicts => Some(none_agrees(way)),
        _ => None,
    }
}

fn none_agrees(way: Way) -> Remark
    ensures { result ≡ spec.none_agrees way }
{
    match way {
        Way::Withdrawn => Remark::NoFunction,
        Way::Contrary => Remark::Excluded,
    }
}

pub(crate) fn told_by(remark: Option<Remark>, counts: Counts) -> Told
    ensures { result ≡ spec.told_by remark counts }
{
    match remark {
        Some(remark) => Told::Remark(remark),
        None => Told::Counts(counts),
    }
}

/// The count by which rows are ordered: 0 where words stand in its place.
pub(crate) fn first_of(told: Told) -> usize
    ensures { result ≡ spec.first_of told }
{
    match told {
        Told::Counts(counts) => counts.first,
        Told::Remark(_) => 0,
    }
}
