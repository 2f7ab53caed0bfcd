//! Advice on a table in XMCDA.

use crate::gaps::{Gap, gap_in};
use crate::number::{Numbers, expected_number, is_no_number, likely_number};
use crate::said::{Advice, Mark, Said, advise, of, of_two, put, put_said, say};
use crate::table::whole_advice;
use ror_show_hints::{
    Glance, Kind as Listed, Page, Span, advise_on_encoding, first_word, glance_at, has, is_one_of,
    line_at, nearest, span_of, without_mark,
};
use ror_table::{Kind, TableFault, TableKind};
use std::alloc::{AllocError, Global};

/// The elements that hold ids.
const ID_NAMES: [&[u8]; 5] = [
    b"alternativeID",
    b"criterionID",
    b"categoryID",
    b"lowerBound",
    b"upperBound",
];

/// The elements that hold numbers.
const NUMBER_NAMES: [&[u8]; 4] = [b"real", b"integer", b"numerator", b"denominator"];

/// An element that begins on a line: its name, and its text up to the next tag.
#[derive(Clone, Copy)]
struct Content<'a> {
    name: &'a [u8],
    text: &'a [u8],
    span: Span,
}

/// Adds what helps against a fault of a table in XMCDA.
pub(crate) fn put_elements(
    page: &mut Page,
    bytes: &[u8],
    fault: TableFault,
) -> Result<(), AllocError> {
    let text = line_at(bytes, fault.line);
    match fault.kind {
        TableKind::NotUtf8 => {
            page.quote(text, None)?;
            advise_on_encoding(page, bytes)
        }
        TableKind::BadNumber => {
            let found = contents(page.alloc, text)?;
            put(page, text, &value_advice(&found))
        }
        TableKind::UnknownId => put_unknown(page, bytes, text),
        TableKind::MissingPerformance if fault.line == 0 && !is_third_version(bytes) => {
            put_gap(page, bytes)
        }
        TableKind::Empty => put_empty(page, bytes, fault),
        _ => put(page, text, &element_advice(bytes, text, fault)),
    }
}

/// The elements that begin on a line.
fn contents<'a>(alloc: Global, line: &'a [u8]) -> Result<Vec<Content<'a>>, AllocError> {
    let mut found = Vec::new(alloc);
    let mut from: usize = 0;
    for part in line.split(|byte| *byte == b'<') {
        if let Some(content) = content_of(part, from) {
            found.push(content)?;
        }
        from = from.saturating_add(part.len()).saturating_add(1);
    }
    Ok(found)
}

/// The element of a part of a line behind `<`.
fn content_of(part: &[u8], from: usize) -> Option<Content<'_>> {
    let end = part.iter().position(|byte| *byte == b'>')?;
    let tag = part.get(..end)?;
    let text = part.get(end..)?.strip_prefix(b">".as_slice())?;
    let name = first_word(tag);
    if name.starts_with(b"/") {
        return None;
    }
    Some(Content {
        name,
        text: text.trim_ascii(),
        span: Span {
            from: from.saturating_add(end).saturating_add(1),
            length: text.len(),
        },
    })
}

/// What helps against a value or a rank that is no number.
fn value_advice<'a>(found: &[Content<'a>]) -> Advice<'a> {
    match found.iter().find(|content| is_bad_value(content)) {
        Some(content) => advise(
            Mark::At(Some(content.span)),
            expected_number(numbers_of(content)),
            likely_number(content.text, numbers_of(content)),
        ),
        None => advise(
            Mark::Nowhere,
            say(
                b"a number, as 3 in `integer`, 3.5 in `real`, or a `rational` with both of its numbers",
            ),
            say(b"a rank that another active category has too; or a denominator of 0"),
        ),
    }
}

fn numbers_of(content: &Content<'_>) -> Numbers {
    if content.name == b"real".as_slice() {
        Numbers::Real
    } else {
        Numbers::Integer
    }
}

fn is_bad_value(content: &Content<'_>) -> bool {
    is_one_of(content.name, NUMBER_NAMES.as_slice())
        && is_no_number(content.text, numbers_of(content))
}

/// Adds what helps against an id that is not listed, or that is missing.
fn put_unknown(page: &mut Page, bytes: &[u8], text: &[u8]) -> Result<(), AllocError> {
    let seen = glance_at(page.alloc, bytes)?;
    let found = contents(page.alloc, text)?;
    let bad = found.iter().find(|content| is_one_of(content.name, ID_NAMES.as_slice())
        && !lists(&seen, content.text));
    let Some(content) = bad else {
        return put(
            page,
            text,
            &advise(
                Mark::Nowhere,
                say(b"an `alternativeID`, `criterionID` or `categoryID` in this element"),
                say(b""),
            ),
        );
    };
    let ids = ids_of(page.alloc, &seen)?;
    let near = nearest(page.alloc, content.text, &ids)?;
    let said = likely_id(content.text, &seen, near);
    put(
        page,
        text,
        &advise(
            Mark::At(Some(content.span)),
            say(b"an id that the file lists, letter by letter"),
            said,
        ),
    )
}

fn lists(seen: &Glance<'_>, id: &[u8]) -> bool {
    seen.listed.iter().any(|listing| listing.id == id)
}

fn ids_of<'a>(alloc: Global, seen: &Glance<'a>) -> Result<Vec<&'a [u8]>, AllocError> {
    let mut ids = Vec::new(alloc);
    for listing in seen.listed.as_slice() {
        ids.push(listing.id)?;
    }
    Ok(ids)
}

/// The listed id that is likely, or that none is.
fn likely_id<'a>(id: &'a [u8], seen: &Glance<'a>, near: Option<&'a [u8]>) -> Said<'a> {
    let other = seen
        .listed
        .iter()
        .find(|listing| listing.id.eq_ignore_ascii_case(id));
    if let Some(other) = other {
        return of(b"capital and small letters differ: write `", other.id, b"`");
    }
    let has_alternatives = seen
        .listed
        .iter()
        .any(|listing| listing.kind == Listed::Alternative);
    if !has_alternatives {
        return say(
            b"the file has no section `alternatives`: list them there, `<alternative id=\"..\"/>` each",
        );
    }
    match near {
        Some(near) => of(b"a misspelt id: `", near, b"` is listed"),
        None => of(
            b"`",
            id,
            b"` is in no list of the file: list it, or take out what names it",
        ),
    }
}

/// Adds which alternative lacks which performance.
fn put_gap(page: &mut Page, bytes: &[u8]) -> Result<(), AllocError> {
    let expected = say(
        b"a `value` with a number, for each active alternative on each active criterion",
    );
    match gap_in(page.alloc, bytes)? {
        Some(gap) => put_found_gap(page, expected, &gap),
        None => put(page, b"", &advise(Mark::Hidden, expected, say(b""))),
    }
}

fn put_found_gap(page: &mut Page, expected: Said<'_>, gap: &Gap) -> Result<(), AllocError> {
    let likely = of_two(
        b"`",
        gap.alternative.as_slice(),
        b"` has no value on `",
        gap.criterion.as_slice(),
        b"`: write it, or make one of the two inactive, `<active>false</active>`",
    );
    put(page, b"", &advise(Mark::Hidden, expected, likely))
}

/// Whether a file says that it is in XMCDA 3, or has what only that has.
fn is_third_version(bytes: &[u8]) -> bool {
    has(bytes, b"/XMCDA-3") || has(bytes, b"<values>") && has(bytes, b"<criteriaScales")
}

/// Adds which sections a file lacks.
fn put_empty(page: &mut Page, bytes: &[u8], fault: TableFault) -> Result<(), AllocError> {
    put(page, b"", &whole_advice(fault))?;
    let sections: [&[u8]; 3] = [b"<criteria", b"<alternatives", b"<performanceTable"];
    for section in sections {
        if !has(bytes, section) {
            let said = of(
                b"the file has no section `",
                section,
                b">`: put all sections of the problem under one root `XMCDA`",
            );
            put_said(page, b"likely   ", said)?;
        }
    }
    Ok(())
}

/// What helps against another fault.
fn element_advice<'a>(bytes: &'a [u8], text: &[u8], fault: TableFault) -> Advice<'a> {
    match fault.kind {
        TableKind::RepeatedId => advise(
            Mark::At(span_of(text, b"id=")),
            say(b"an id that no element of this kind above has"),
            say(b"an element that stands twice: take one out, or give it another id"),
        ),
        TableKind::RepeatedPerformance => advise(
            Mark::At(span_of(text, b"<performance")),
            say(b"one value of each alternative on each criterion"),
            say(
                b"a second `performanceTable` with the same values, as of another judge: leave one table in the file",
            ),
        ),
        TableKind::Unsupported(kind) => unsupported_advice(kind, text),
        TableKind::MissingPerformance if is_third_version(bytes) => advise(
            Mark::At(span_of(text, b"<performance")),
            say(b"a `value` with a number, for each active alternative on each active criterion"),
            say(b"a file in XMCDA 3, where values stand in `values`: save it as XMCDA 2"),
        ),
        TableKind::MissingPerformance => advise(
            Mark::At(span_of(text, b"<performance")),
            say(b"a `value` with a number, for each active alternative on each active criterion"),
            say(b"a `performance` without a `value`: write it, or take the performance out"),
        ),
        _ => markup_advice(bytes, text, fault),
    }
}

/// What helps against a fault of markup.
fn markup_advice<'a>(bytes: &'a [u8], text: &[u8], fault: TableFault) -> Advice<'a> {
    match fault.kind {
        TableKind::BadLine => bad_markup_advice(text),
        TableKind::Form => advise(
            Mark::At(span_of(text, b"<")),
            say(b"a root `XMCDA`, with any prefix"),
            likely_root(bytes),
        ),
        TableKind::Mismatched => advise(
            Mark::At(span_of(text, b"</")),
            say(b"the end of the element that was begun last and isn't ended yet"),
            say(
                b"an end tag with another name, or one that is missing above: compare it with its beginning",
            ),
        ),
        TableKind::Unclosed => advise(
            Mark::Nowhere,
            say(b"the end of an element, as `</XMCDA>`"),
            say(b"the file was cut off, or an end tag is missing: fetch or write it again"),
        ),
        _ => whole_advice(fault),
    }
}

fn bad_markup_advice(text: &[u8]) -> Advice<'static> {
    if has(text, b"<active") {
        return advise(
            Mark::At(span_of(text, b"<active")),
            say(b"`true` or `false`, or 1 or 0, in `active`"),
            say(b"capital letters or another word: write it in small letters"),
        );
    }
    if has(text, b"&") {
        return advise(
            Mark::At(span_of(text, b"&")),
            say(b"a name and `;` behind `&`"),
            say(b"write &amp; for a plain `&`"),
        );
    }
    advise(
        Mark::At(span_of(text, b"<")),
        say(b"a tag, as `<NAME ID=\"VALUE\">`, `</NAME>` or `<NAME/>`, all under one root"),
        say(
            b"an attribute without quotes, a `<` in a text (write &lt;), or a second root: put all under one",
        ),
    )
}

/// What is likely where the root is another element.
fn likely_root(bytes: &[u8]) -> Said<'_> {
    if has(bytes, b"<html") || has(bytes, b"<HTML") {
        return say(b"a page of HTML, as of a download that failed: fetch the file again");
    }
    of(
        b"a file in another format, which begins with `",
        first_word(without_mark(bytes)),
        b"`: export it as XMCDA 2",
    )
}

/// What helps where something of XMCDA is not supported.
fn unsupported_advice(kind: Kind, text: &[u8]) -> Advice<'static> {
    let (sign, expected, likely) = said_of(kind);
    advise(Mark::At(span_of(text, sign)), say(expected), say(likely))
}

/// What is marked, what is expected and what is likely.
fn said_of(kind: Kind) -> (&'static [u8], &'static [u8], &'static [u8]) {
    match kind {
        Kind::Doctype => (
            b"<!DOCTYPE",
            b"no document type",
            b"take the line `<!DOCTYPE ..>` out",
        ),
        Kind::Encoding => (
            b"encoding",
            b"`encoding=\"UTF-8\"`",
            b"save the file as UTF-8, or `iconv -f ISO-8859-1 -t UTF-8 FILE`, and write UTF-8 in this line",
        ),
        Kind::Entity => (
            b"&",
            b"one of &lt; &gt; &amp; &quot; &apos; or a number as &#233;",
            b"write the character itself, and &amp; for a plain `&`",
        ),
        Kind::Qualitative => (
            b"<qualitative",
            b"a `quantitative` scale",
            b"number the levels from worst to best, 1, 2, 3, and write them as `integer`; only their order counts",
        ),
        Kind::Direction => (
            b"<preferenceDirection",
            b"`max` or `min`, in small letters",
            b"capital letters or another word: write `max` where more is better, `min` where less is",
        ),
        Kind::Value => (
            b"<value",
            b"`integer`, `real` or `rational`",
            b"a label, or no value (NA): write a number, or make the alternative or the criterion inactive",
        ),
        Kind::Member => (
            b"Set",
            b"one `alternativeID`, and one `categoryID` or a `categoriesInterval`",
            b"a set, or an intensity of preference: write sets out one by one, and state intensities in the session",
        ),
        Kind::Id => (
            b"id",
            b"an attribute `id` of one word of at most 64 bytes, that begins with neither `@` nor `#`",
            b"a blank in the id: join its words by `_`, here and wherever it is named; the `name` may keep blanks",
        ),
        Kind::Rank => (
            b"<category",
            b"`<rank><integer>NUMBER</integer></rank>` in each active category",
            b"no rank, or one as `real` or in `categoriesValues`: write it as `integer` in the category",
        ),
    }
}
