//! Names beside ids, and what was passed over: notes on what a glance saw.

use crate::label::Label;
use crate::notes::Notes;
use crate::sheet::{criterion_bytes, id_bytes};
use itoa::Buffer;
use ror_show_hints::{Glance, Kind, Listing, is_one_of, shown};
use ror_table::{Table, read_whole};
use ror_value::Input;
use std::alloc::{AllocError, Global};

/// Adds the names of a file in XMCDA, and what was passed over.
pub(crate) fn add_names(
    notes: &mut Notes,
    input: &Input,
    seen: &Glance<'_>,
    best_first: bool,
) -> Result<(), AllocError> {
    if !seen.listed.is_empty() {
        add_difference(notes, &input.table, seen)?;
        add_categories(notes, seen, best_first, input.table.classes())?;
    }
    add_named(notes, seen, true)?;
    add_inactive(notes, seen)?;
    add_passed(notes, seen)
}

/// Adds that the ids of the active elements aren't those of the table, if they aren't.
fn add_difference(notes: &mut Notes, table: &Table, seen: &Glance<'_>) -> Result<(), AllocError> {
    if is_same(table, seen) {
        return Ok(());
    }
    notes.say(
        Label::LookAt,
        &[b"what stands below is of another reading than what stands above: their ids differ"],
    )
}

/// Whether the active elements are the alternatives, criteria and classes of the table.
pub(crate) fn is_same(table: &Table, seen: &Glance<'_>) -> bool {
    let mut alternatives: usize = 0;
    let mut criteria: usize = 0;
    let mut classes: u32 = 0;
    for listing in seen.listed.iter().filter(|listing| listing.active) {
        let same = match listing.kind {
            Kind::Alternative => is_id(id_bytes(table, alternatives), listing.id),
            Kind::Criterion => is_id(criterion_bytes(table, criteria), listing.id),
            Kind::Category => true,
        };
        if !same {
            return false;
        }
        match listing.kind {
            Kind::Alternative => alternatives = alternatives.saturating_add(1),
            Kind::Criterion => criteria = criteria.saturating_add(1),
            Kind::Category => classes = classes.saturating_add(1),
        }
    }
    alternatives == table.alternatives()
        && criteria == table.criteria()
        && classes == table.classes()
}

/// Whether an id is written so; one with references to characters isn't looked into.
fn is_id(id: &[u8], written: &[u8]) -> bool {
    id == written || written.contains(&b'&')
}

/// Adds the categories of the classes, from the worst one on.
pub(crate) fn add_categories(
    notes: &mut Notes,
    seen: &Glance<'_>,
    best_first: bool,
    classes: u32,
) -> Result<(), AllocError> {
    if classes == 0 {
        return Ok(());
    }
    let order: &[u8] = if best_first {
        b"rank 1 is the BEST class (--best-first)"
    } else {
        b"rank 1 is the WORST class (without --best-first)"
    };
    notes.say(Label::Ranks, &[order])?;
    for below in 0..classes {
        for listing in seen.listed.as_slice() {
            if is_class(listing) && place_of(seen, best_first, listing) == below as usize {
                add_category(notes, listing, below)?;
            }
        }
    }
    Ok(())
}

fn add_category(notes: &mut Notes, listing: &Listing<'_>, below: u32) -> Result<(), AllocError> {
    let mut digits = Buffer::new();
    let number = digits.format(below.saturating_add(1));
    if listing.name.is_empty() {
        return notes.say(
            Label::Class,
            &[
                number.as_bytes(),
                b" is ",
                shown(listing.id),
                b", of rank ",
                shown(listing.rank),
            ],
        );
    }
    let name = readable(notes.alloc, listing.name)?;
    notes.say(
        Label::Class,
        &[
            number.as_bytes(),
            b" is ",
            shown(listing.id),
            b" \"",
            shown(&name),
            b"\", of rank ",
            shown(listing.rank),
        ],
    )
}

fn is_class(listing: &Listing<'_>) -> bool {
    listing.kind == Kind::Category && listing.active
}

/// How many active categories are worse than this one.
fn place_of(seen: &Glance<'_>, best_first: bool, listing: &Listing<'_>) -> usize {
    seen.listed
        .iter()
        .filter(|other| is_class(other) && is_worse(best_first, rank_of(other), rank_of(listing)))
        .count()
}

fn rank_of(listing: &Listing<'_>) -> i64 {
    match read_whole(listing.rank) {
        Some(amount) => amount.num,
        None => 0,
    }
}

fn is_worse(best_first: bool, rank: i64, other: i64) -> bool {
    if best_first {
        rank > other
    } else {
        rank < other
    }
}

/// Adds the names of alternatives beside their ids, and of criteria where these are meant too.
pub(crate) fn add_named(
    notes: &mut Notes,
    seen: &Glance<'_>,
    criteria: bool,
) -> Result<(), AllocError> {
    for listing in seen.listed.as_slice() {
        if is_named(listing, criteria) {
            let name = readable(notes.alloc, listing.name)?;
            notes.say(
                Label::Name,
                &[shown(listing.id), b" is \"", shown(&name), b"\""],
            )?;
        }
    }
    Ok(())
}

/// A name with the characters that the five named references stand for.
fn readable(alloc: Global, name: &[u8]) -> Result<Vec<u8>, AllocError> {
    let mut text = Vec::new(alloc);
    for (place, part) in name.split(|byte| *byte == b'&').enumerate() {
        if place == 0 {
            text.extend_from_slice(part)?;
        } else {
            add_behind_reference(&mut text, part)?;
        }
    }
    Ok(text)
}

/// Adds what stands behind a `&`, with the character of a named reference.
fn add_behind_reference(text: &mut Vec<u8>, part: &[u8]) -> Result<(), AllocError> {
    let (character, rest) = match part {
        [b'a', b'm', b'p', b';', rest @ ..] => (b'&', rest),
        [b'l', b't', b';', rest @ ..] => (b'<', rest),
        [b'g', b't', b';', rest @ ..] => (b'>', rest),
        [b'q', b'u', b'o', b't', b';', rest @ ..] => (b'"', rest),
        [b'a', b'p', b'o', b's', b';', rest @ ..] => (b'\'', rest),
        _ => (b'&', part),
    };
    text.push(character)?;
    text.extend_from_slice(rest)
}

/// Whether the listing is an alternative, or a criterion where these are meant too, whose name says more than its id.
fn is_named(listing: &Listing<'_>, criteria: bool) -> bool {
    let meant = match listing.kind {
        Kind::Alternative => true,
        Kind::Criterion => criteria,
        Kind::Category => false,
    };
    meant && listing.active && !listing.name.is_empty() && listing.name != listing.id
}

/// Adds what is inactive, and what is left out since it names that.
fn add_inactive(notes: &mut Notes, seen: &Glance<'_>) -> Result<(), AllocError> {
    let mut ids = Vec::new(notes.alloc);
    for listing in seen.listed.as_slice() {
        if !listing.active {
            ids.push(listing.id)?;
            add_inactive_listing(notes, listing)?;
        }
    }
    for mention in seen.mentions.as_slice() {
        if is_one_of(mention.text, ids.as_slice()) {
            notes.say_of(
                Label::LeftOut,
                mention.line,
                &[
                    b"a comparison or an assignment that names ",
                    shown(mention.text),
                    b", which is not active",
                ],
            )?;
        }
    }
    Ok(())
}

fn add_inactive_listing(notes: &mut Notes, listing: &Listing<'_>) -> Result<(), AllocError> {
    let kind: &[u8] = match listing.kind {
        Kind::Alternative => b"alternative ",
        Kind::Criterion => b"criterion ",
        Kind::Category => b"category ",
    };
    notes.say_of(
        Label::Inactive,
        listing.line,
        &[
            kind,
            shown(listing.id),
            b" is not active, so it is left out",
        ],
    )
}

/// Adds what was passed over.
fn add_passed(notes: &mut Notes, seen: &Glance<'_>) -> Result<(), AllocError> {
    for kind in seen.types.as_slice() {
        notes.say_of(
            Label::Passed,
            kind.line,
            &[
                b"comparisonType `",
                shown(kind.text),
                b"`: each pair is read as a strict preference, whatever its type",
            ],
        )?;
    }
    for passed in seen.passed.as_slice() {
        let sort: &[u8] = if passed.section {
            b"section "
        } else {
            b"element "
        };
        add_unread(notes, passed.line, sort, passed.name, meant(passed.name))?;
    }
    Ok(())
}

fn add_unread<'a>(
    notes: &mut Notes,
    line: u32,
    sort: &'a [u8],
    name: &'a [u8],
    meant: &'a [u8],
) -> Result<(), AllocError> {
    notes.say_of(
        Label::Passed,
        line,
        &[sort, shown(name), b": not read", meant],
    )
}

/// What was likely meant by an element that is passed over.
fn meant(name: &[u8]) -> &'static [u8] {
    if name == b"alternativesAssignments".as_slice() {
        return b"; in XMCDA 2 it is `alternativesAffectations`";
    }
    if name == b"alternativesValues".as_slice() {
        return b"; a ranking is stated in the session, by `prefer A B` from best to worst";
    }
    if name == b"criteriaScales".as_slice() {
        return b"; in XMCDA 2 a scale stands in its criterion, and without one more is better";
    }
    if name == b"categoriesValues".as_slice() {
        return b"; the rank of a category stands in it, as `rank`";
    }
    if name == b"criteriaValues".as_slice() || name == b"criteriaWeights".as_slice() {
        return b"; weights aren't taken, since what the judge says decides them";
    }
    b""
}
