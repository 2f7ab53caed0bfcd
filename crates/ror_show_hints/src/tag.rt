//! The parts of a text between one `<` and the next.

/// A tag and the text behind it.
#[derive(Clone, Copy, Debug)]
pub(crate) struct Tag<'a> {
    /// Its local name; nothing where it is no tag of an element.
    pub(crate) name: &'a [u8],
    /// What stands in it behind its name.
    pub(crate) inside: &'a [u8],
    /// The text up to the next tag, without white space around it.
    pub(crate) text: &'a [u8],
    pub(crate) ends: bool,
    pub(crate) is_empty: bool,
}

/// The tag of a part behind `<`.
pub(crate) fn tag_of(part: &[u8]) -> Tag<'_> {
    let end = tag_end(part);
    let (tag, text) = match part.split_at_checked(end) {
        Some((tag, [b'>', text @ ..])) => (tag, text),
        Some((tag, text)) => (tag, text),
        None => (part, part),
    };
    let (ends, tag) = match tag {
        [b'/', rest @ ..] => (true, rest),
        _ => (false, tag),
    };
    let (is_empty, tag) = match tag {
        [rest @ .., b'/'] => (true, rest),
        _ => (false, tag),
    };
    let length = name_length(tag);
    let (name, inside) = match tag.split_at_checked(length) {
        Some(parts) => parts,
        None => (tag, tag),
    };
    Tag {
        name: local_name(name),
        inside,
        text: text.trim_ascii(),
        ends,
        is_empty,
    }
}

/// Where the first `>` stands that is between no quotation marks, or the end.
fn tag_end(part: &[u8]) -> usize {
    let mut mark: u8 = 0;
    for (place, byte) in part.iter().enumerate() {
        if mark == 0 && *byte == b'>' {
            return place;
        }
        if mark == *byte {
            mark = 0;
        } else if mark == 0 && (*byte == b'"' || *byte == b'\'') {
            mark = *byte;
        }
    }
    part.len()
}

fn name_length(tag: &[u8]) -> usize {
    tag.iter()
        .position(|byte| byte.is_ascii_whitespace())
        .unwrap_or(tag.len())
}

/// What follows the first `:` of a name, or all of it.
fn local_name(name: &[u8]) -> &[u8] {
    let colon = name
        .iter()
        .position(|byte| *byte == b':')
        .unwrap_or(name.len());
    match name.split_at_checked(colon) {
        Some((_, [_, rest @ ..])) => rest,
        _ => name,
    }
}

/// The value of an attribute, without white space around it; nothing where the tag has none of this name.
pub(crate) fn attribute<'a>(inside: &'a [u8], name: &[u8]) -> &'a [u8] {
    let mut wanted = false;
    let mut is_value = false;
    for part in inside.split(|byte| *byte == b'"' || *byte == b'\'') {
        if is_value {
            if wanted {
                return part.trim_ascii();
            }
        } else {
            wanted = is_named(part, name);
        }
        is_value = !is_value;
    }
    &[]
}

/// Whether a part before a quotation mark is the name of an attribute and `=`.
fn is_named(part: &[u8], name: &[u8]) -> bool {
    match part.trim_ascii().strip_suffix(b"=".as_slice()) {
        Some(front) => front.trim_ascii() == name,
        None => false,
    }
}
