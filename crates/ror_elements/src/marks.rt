//! The kinds of bytes, and texts without what surrounds them.

ghost use Rattle.std.specs.Prelude.{◌≡◌, position};
ghost use Rattle.ror_elements.specs.Marks as spec;

/// White space: a space, a tab, a line feed or a carriage return.
pub fn is_white(byte: u8) -> bool
    ensures { result ≡ spec.is_white byte }
{
    byte == b' ' || byte == b'\t' || byte == b'\n' || byte == b'\r'
}

/// A byte below 0x20 that is no white space.
pub(crate) fn is_control(byte: u8) -> bool
    ensures { result ≡ spec.is_control byte }
{
    byte < 0x20 && !is_white(byte)
}

/// A byte that ends a name and is no white space.
fn is_mark(byte: u8) -> bool
    ensures { result ≡ spec.is_mark byte }
{
    if byte == b'<' || byte == b'>' || byte == b'/' || byte == b'=' {
        return true;
    }
    byte == b'&' || byte == b'"' || byte == b'\''
}

/// A byte that may stand in a name.
pub(crate) fn is_name_byte(byte: u8) -> bool
    ensures { result ≡ spec.is_name_byte byte }
{
    !is_white(byte) && !is_mark(byte)
}

/// The place of the first `:`.
fn colon_place(name: &[u8]) -> Option<usize>
    ensures { result ≡ position spec.is_colon name.now }
{
    name.iter().position(|byte| *byte == b':')
}

/// What follows the first `:` of a name, or all of it.
#[tactic(auto, unfolding(crate::specs::Marks::local_name))]
pub(crate) fn local_name(name: &[u8]) -> &[u8]
    ensures { result.now ≡ spec.local_name name.now }
{
    match colon_place(name) {
        Some(place) => &name[place + 1..],
        None => name,
    }
}

/// A text without the white space at its start.
fn without_start(text: &[u8]) -> &[u8]
    ensures { result.now ≡ spec.without_start text.now }
{
    let mut rest = text;
    'front: while let [first, after @ ..] = rest {
        if !is_white(*first) {
            return rest;
        }
        rest = after;
    }
    rest
}

/// A text without the white space at its end.
fn without_end(text: &[u8]) -> &[u8]
    ensures { result.now ≡ spec.without_end text.now }
{
    let mut rest = text;
    'back: while let [before @ .., last] = rest {
        if !is_white(*last) {
            return rest;
        }
        rest = before;
    }
    rest
}

/// A text without the white space at both ends.
#[tactic(auto, unfolding(crate::specs::Marks::trimmed))]
pub(crate) fn trimmed(text: &[u8]) -> &[u8]
    ensures { result.now ≡ spec.trimmed text.now }
{
    without_end(without_start(text))
}
