//! A walk through the tags of a text.

use crate::seen::{Glance, Kind, Listing, MOST_SEEN, Mention, Passed};
use crate::tag::{Tag, attribute, tag_of};
use memchr::memmem;
use std::alloc::{AllocError, Global};

/// How many names of what is passed over are kept apart.
const MOST_PASSED: usize = 60;

/// How many elements are open at most; deeper ones are passed over.
const MOST_OPEN: usize = 64;

/// The elements of which something is read.
const READ: &[u8] =
    b" XMCDA alternatives alternative active criteria criterion scale quantitative qualitative \
    preferenceDirection performanceTable alternativePerformances alternativeID performance criterionID value integer \
    real rational numerator denominator categories category rank alternativesComparisons pairs pair initial terminal \
    alternativesAffectations alternativeAffectation categoriesInterval lowerBound upperBound categoryID ";

/// A walk, and what was seen on it.
#[derive(Drop)]
pub(crate) struct Walk<'a> {
    pub(crate) seen: Glance<'a>,
    /// The names of the open elements, from the root on.
    open: Vec<&'a [u8]>,
    /// How many elements are open that are passed over.
    passing: usize,
    line: u32,
    /// Whether the last listing has said whether it is active: what is said first counts.
    said_active: bool,
    /// What ends the comment or the section of characters in which the walk is; nothing outside of one.
    until: &'static [u8],
}

impl<'a> Walk<'a> {
    pub(crate) fn new(alloc: Global) -> Walk<'a> {
        Walk {
            seen: Glance {
                version: &[],
                listed: Vec::new(alloc),
                mentions: Vec::new(alloc),
                types: Vec::new(alloc),
                passed: Vec::new(alloc),
            },
            open: Vec::new(alloc),
            passing: 0,
            line: 1,
            said_active: false,
            until: b"",
        }
    }

    /// Counts the lines of a text.
    pub(crate) fn count(&mut self, part: &[u8]) {
        let lines = part.iter().filter(|byte| **byte == b'\n').count();
        self.line = self
            .line
            .saturating_add(u32::try_from(lines).unwrap_or(u32::MAX));
    }

    /// Takes what stands behind a `<` up to the next one.
    pub(crate) fn take(&mut self, part: &'a [u8]) -> Result<(), AllocError> {
        let line = self.line;
        self.count(part);
        if self.is_outside(part) {
            return Ok(());
        }
        let tag = tag_of(part);
        if tag.ends {
            self.end();
            return Ok(());
        }
        self.begin(&tag, line)?;
        if tag.is_empty {
            self.end();
        }
        Ok(())
    }

    /// Whether a part is in a comment, or is no tag of an element.
    fn is_outside(&mut self, part: &[u8]) -> bool {
        if !self.until.is_empty() {
            if has(part, self.until) {
                self.until = b"";
            }
            return true;
        }
        if part.starts_with(b"!--") {
            self.until = if has(part, b"-->") { b"" } else { b"-->" };
            return true;
        }
        if part.starts_with(b"![CDATA[") {
            self.until = if has(part, b"]]>") { b"" } else { b"]]>" };
            return true;
        }
        match part.first() {
            Some(byte) => *byte == b'?' || *byte == b'!' || byte.is_ascii_whitespace(),
            None => true,
        }
    }

    fn end(&mut self) {
        if self.passing > 0 {
            self.passing = self.passing.saturating_sub(1);
        } else {
            let _ = self.open.pop();
        }
    }

    fn begin(&mut self, tag: &Tag<'a>, line: u32) -> Result<(), AllocError> {
        if self.passing > 0 {
            self.passing = self.passing.saturating_add(1);
            return Ok(());
        }
        if self.open.is_empty() {
            self.seen.version = version_in(tag.inside);
        }
        if !is_read(tag.name) || self.open.len() >= MOST_OPEN {
            self.passing = 1;
            return self.pass(tag, line);
        }
        self.see(tag, line)?;
        self.open.push(tag.name)?;
        Ok(())
    }

    /// Keeps what an element that is read says besides.
    fn see(&mut self, tag: &Tag<'a>, line: u32) -> Result<(), AllocError> {
        if let Some(kind) = kind_of(tag.name) {
            if self.seen.listed.len() < MOST_SEEN && self.open.len() == 2 {
                self.said_active = false;
                self.seen.listed.push(Listing {
                    kind,
                    id: attribute(tag.inside, b"id"),
                    name: attribute(tag.inside, b"name"),
                    rank: b"",
                    line,
                    active: true,
                })?;
            }
        }
        if tag.name == b"active".as_slice() && self.open.len() == 3 && !self.said_active {
            self.said_active = true;
            if let Some(last) = self.seen.listed.last_mut() {
                last.active = !is_inactive(tag.text);
            }
        }
        if tag.name == b"integer".as_slice() && self.is_in_rank() {
            if let Some(last) = self.seen.listed.last_mut() {
                last.rank = tag.text;
            }
        }
        if is_mention(tag.name) && self.is_in_statements() && self.seen.mentions.len() < MOST_SEEN {
            self.seen.mentions.push(Mention {
                text: tag.text,
                line,
            })?;
        }
        Ok(())
    }

    /// Whether the innermost open element is a rank.
    fn is_in_rank(&self) -> bool {
        match self.open.last() {
            Some(name) => *name == b"rank".as_slice() && self.open.len() == 4,
            None => false,
        }
    }

    /// Whether the walk is in a section of comparisons or of assignments.
    fn is_in_statements(&self) -> bool {
        match self.open.get(1) {
            Some(section) => {
                *section == b"alternativesComparisons".as_slice()
                    || *section == b"alternativesAffectations".as_slice()
            }
            None => false,
        }
    }

    /// Counts an element that is passed over.
    fn pass(&mut self, tag: &Tag<'a>, line: u32) -> Result<(), AllocError> {
        if tag.name == b"comparisonType".as_slice() && self.seen.types.len() < MOST_SEEN {
            self.seen.types.push(Mention {
                text: tag.text,
                line,
            })?;
            return Ok(());
        }
        let section = self.open.len() == 1;
        let place = self
            .seen
            .passed
            .iter()
            .position(|other| other.name == tag.name && other.section == section);
        if let Some(place) = place {
            if let Some(other) = self.seen.passed.get_mut(place) {
                other.times = other.times.saturating_add(1);
            }
            return Ok(());
        }
        if self.seen.passed.len() < MOST_PASSED {
            self.seen.passed.push(Passed {
                name: tag.name,
                line,
                times: 1,
                section,
            })?;
        }
        Ok(())
    }
}

fn kind_of(name: &[u8]) -> Option<Kind> {
    if name == b"alternative".as_slice() {
        Some(Kind::Alternative)
    } else if name == b"criterion".as_slice() {
        Some(Kind::Criterion)
    } else if name == b"category".as_slice() {
        Some(Kind::Category)
    } else {
        None
    }
}

fn is_mention(name: &[u8]) -> bool {
    name == b"alternativeID".as_slice() || name == b"categoryID".as_slice()
}

fn is_inactive(text: &[u8]) -> bool {
    text == b"false".as_slice() || text == b"0".as_slice()
}

/// Whether something is read of elements of this name.
fn is_read(name: &[u8]) -> bool {
    !name.is_empty() && READ.split(|byte| *byte == b' ').any(|other| other == name)
}

/// What stands behind `XMCDA-` in a tag.
fn version_in(inside: &[u8]) -> &[u8] {
    let Some(place) = memmem::find(inside, b"XMCDA-") else {
        return &[];
    };
    let Some([b'X', b'M', b'C', b'D', b'A', b'-', rest @ ..]) = inside.get(place..) else {
        return &[];
    };
    let end = rest
        .iter()
        .position(|byte| is_version_end(*byte))
        .unwrap_or(rest.len());
    rest.get(..end).unwrap_or(&[])
}

fn is_version_end(byte: u8) -> bool {
    byte == b'"' || byte == b'\'' || byte.is_ascii_whitespace()
}

fn has(text: &[u8], part: &[u8]) -> bool {
    memmem::find(text, part).is_some()
}
