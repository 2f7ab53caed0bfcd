//! Which alternative of a file in XMCDA has no value on which criterion.

use ror_elements::{Element, read_elements};
use ror_text::lines::MOST_TEXT_BYTES;
use std::alloc::{AllocError, Global};

/// An alternative without a value on a criterion.
#[derive(Drop)]
pub(crate) struct Gap {
    pub(crate) alternative: Vec<u8>,
    pub(crate) criterion: Vec<u8>,
}

/// The first active alternative without a value on an active criterion, if there is one.
pub(crate) fn gap_in(alloc: Global, bytes: &[u8]) -> Result<Option<Gap>, AllocError> {
    if bytes.len() > MOST_TEXT_BYTES {
        return Ok(None);
    }
    let Ok(root) = read_elements(alloc, bytes) else {
        return Ok(None);
    };
    let criteria = ids_in(alloc, &root, "criteria", "criterion")?;
    let alternatives = ids_in(alloc, &root, "alternatives", "alternative")?;
    for alternative in alternatives.as_slice() {
        for criterion in criteria.as_slice() {
            if !has_value(&root, alternative, criterion) {
                return Ok(Some(Gap {
                    alternative: Vec::from_slice(alloc, alternative.as_bytes())?,
                    criterion: Vec::from_slice(alloc, criterion.as_bytes())?,
                }));
            }
        }
    }
    Ok(None)
}

/// The ids of the active elements of a name in all sections of a name.
fn ids_in<'a>(
    alloc: Global,
    root: &'a Element,
    section: &str,
    member: &str,
) -> Result<Vec<&'a str>, AllocError> {
    let mut ids = Vec::new(alloc);
    for part in root.children() {
        if part.name() == section {
            for element in part.children() {
                if element.name() == member && is_active(element) {
                    if let Some(id) = element.id() {
                        ids.push(id)?;
                    }
                }
            }
        }
    }
    Ok(ids)
}

/// Whether an element is active.
fn is_active(element: &Element) -> bool {
    !element.children().iter().any(|other| other.name() == "active"
        && (other.text() == "false" || other.text() == "0"))
}

/// Whether an alternative has a value on a criterion.
fn has_value(root: &Element, alternative: &str, criterion: &str) -> bool {
    for part in root.children() {
        if part.name() == "performanceTable" {
            for row in part.children() {
                if names(row, "alternativeID", alternative) && has_performance(row, criterion) {
                    return true;
                }
            }
        }
    }
    false
}

fn has_performance(row: &Element, criterion: &str) -> bool {
    row.children()
        .iter()
        .any(|performance| names(performance, "criterionID", criterion))
}

/// Whether the text of a child is this one.
fn names(element: &Element, name: &str, id: &str) -> bool {
    element
        .children()
        .iter()
        .any(|other| other.name() == name && other.text() == id)
}
