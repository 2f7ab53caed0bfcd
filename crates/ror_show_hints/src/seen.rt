//! What is seen at a glance.

ghost use Rattle.std.specs.Prelude.{◌≤◌, length, IfOk};
ghost use Rattle.ror_show_hints.specs.declared.seen.TheConstants.{MOST_SEEN};

use crate::walk::Walk;
use std::alloc::{AllocError, Global};

/// How many of a sort are seen at most.
pub const MOST_SEEN: usize = 2000;

/// What an element lists.
#[derive(Clone, Copy, Debug, PartialEq, Eq)]
pub enum Kind {
    Alternative,
    Criterion,
    Category,
}

/// An alternative, a criterion or a category, as it is listed.
#[derive(Clone, Copy, Debug)]
pub struct Listing<'a> {
    pub kind: Kind,
    /// The attribute `id`, without white space around it.
    pub id: &'a [u8],
    /// The attribute `name`, or nothing.
    pub name: &'a [u8],
    /// The text of its rank, or nothing.
    pub rank: &'a [u8],
    /// The line on which it begins, from 1.
    pub line: u32,
    pub active: bool,
}

/// An id in a comparison or in an assignment, or the type of comparisons.
#[derive(Clone, Copy, Debug)]
pub struct Mention<'a> {
    pub text: &'a [u8],
    /// The line on which its element begins, from 1.
    pub line: u32,
}

/// An element that is passed over with all in it, by its name.
#[derive(Clone, Copy, Debug)]
pub struct Passed<'a> {
    pub name: &'a [u8],
    /// The line of the first one, from 1.
    pub line: u32,
    /// How many there are.
    pub times: usize,
    /// Whether it is a section, directly in the root.
    pub section: bool,
}

/// What is seen of a file.
#[derive(Drop)]
pub struct Glance<'a> {
    /// What stands behind `XMCDA-` in the root's tag, up to a quotation mark or a blank; nothing where that is missing.
    pub version: &'a [u8],
    /// What is listed, in order.
    pub listed: Vec<Listing<'a>>,
    /// The ids in comparisons and assignments, in order.
    pub mentions: Vec<Mention<'a>>,
    /// The types of comparisons, in order.
    pub types: Vec<Mention<'a>>,
    /// What is passed over, each name once.
    pub passed: Vec<Passed<'a>>,
}

/// What is seen of a file, of each sort at most 2,000. Of a file that is not in XMCDA it is nothing.
///
/// # Errors
///
/// Only want of memory.
pub fn glance_at(alloc: Global, bytes: &[u8]) -> Result<Glance<'_>, AllocError>
    ensures listed { IfOk result (λ g. length g.listed.items ≤ MOST_SEEN) }
    ensures mentions { IfOk result (λ g. length g.mentions.items ≤ MOST_SEEN) }
    ensures types { IfOk result (λ g. length g.types.items ≤ MOST_SEEN) }
    ensures passed { IfOk result (λ g. length g.passed.items ≤ MOST_SEEN) }
{
    let mut walk = Walk::new(alloc);
    let mut is_begun = false;
    for part in bytes.split(|byte| *byte == b'<') {
        if is_begun {
            walk.take(part)?;
        } else if is_front(part) {
            walk.count(part);
            is_begun = true;
        } else {
            return Ok(bounded(walk.seen));
        }
    }
    Ok(bounded(walk.seen))
}

/// Whether a text may stand before the first tag: white space, behind a byte order mark or none.
fn is_front(part: &[u8]) -> bool {
    let text = match part {
        [0xEF, 0xBB, 0xBF, rest @ ..] => rest,
        _ => part,
    };
    text.iter().all(|byte| byte.is_ascii_whitespace())
}

/// The same with the lists cut to their bound.
fn bounded(seen: Glance<'_>) -> Glance<'_>
    ensures listed { length result.listed.items ≤ MOST_SEEN }
    ensures mentions { length result.mentions.items ≤ MOST_SEEN }
    ensures types { length result.types.items ≤ MOST_SEEN }
    ensures passed { length result.passed.items ≤ MOST_SEEN }
{
    let Glance {
        version,
        mut listed,
        mut mentions,
        mut types,
        mut passed,
    } = seen;
    listed.truncate(MOST_SEEN);
    mentions.truncate(MOST_SEEN);
    types.truncate(MOST_SEEN);
    passed.truncate(MOST_SEEN);
    Glance {
        version,
        listed,
        mentions,
        types,
        passed,
    }
}
