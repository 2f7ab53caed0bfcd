//! What a reader is in the middle of.

ghost use Rattle.std.specs.Prelude.{◌≡◌, ◌<◌, true, length};
ghost use Rattle.ror_elements.specs.Mode as spec;

/// What may stand behind `<!`.
#[derive(Clone, Copy, Debug, PartialEq, Eq)]
pub(crate) enum Opening {
    Comment,
    Section,
    Doctype,
}

/// The sign in which a value stands.
#[derive(Clone, Copy, Debug, PartialEq, Eq)]
pub(crate) enum Quote {
    Single,
    Double,
}

/// How many of the two bytes that stand before the `>` at an end were seen last.
#[derive(Clone, Copy, Debug, PartialEq, Eq)]
pub(crate) enum Seen {
    Nothing,
    One,
    Two,
}

/// Where a reference stands.
#[derive(Clone, Copy, Debug, PartialEq, Eq)]
pub(crate) enum Home {
    Text,
    Value(Quote),
}

/// What a reader is in the middle of.
#[derive(Clone, Copy, Debug, PartialEq, Eq)]
pub(crate) enum Mode {
    /// Nothing was read.
    Start,
    /// Between constructs: in the text of an element, or outside the root.
    Content,
    /// Behind a `<` with which the text begins.
    FirstMarkup,
    /// Behind another `<`.
    Markup,
    /// Behind `<!`.
    Exclamation,
    /// Behind `<!` and so many bytes of what it opens.
    Beginning(Opening, usize),
    Comment(Seen),
    Section(Seen),
    /// In an instruction with which the text begins, and whether its last byte was a `?`.
    FirstInstruction(bool),
    /// In another one.
    Instruction(bool),
    /// In the name of an end tag.
    EndName,
    AfterEndName,
    /// In the name of a start tag.
    StartName,
    /// In a start tag between attributes, and whether the last byte was white space.
    Tag(bool),
    /// Behind the `/` at the end of a tag.
    EmptyTag,
    AttributeName,
    AfterAttributeName,
    /// Behind the `=` of an attribute.
    BeforeValue,
    Value(Quote),
    Reference(Home),
}

impl Opening {
    /// The bytes behind `<!`.
    pub(crate) fn text(self) -> &'static [u8]
        ensures { result.now ≡ spec.opening_text self }
    {
        match self {
            Opening::Comment => b"--",
            Opening::Section => b"[CDATA[",
            Opening::Doctype => b"DOCTYPE",
        }
    }
}

impl Quote {
    pub(crate) fn byte(self) -> u8
        ensures { result ≡ spec.quote_byte self }
    {
        match self {
            Quote::Single => b'\'',
            Quote::Double => b'"',
        }
    }
}

/// The sign that this byte is, if it is one.
pub(crate) fn quote_of(byte: u8) -> Option<Quote>
    ensures { result ≡ spec.quote_of byte }
{
    if byte == b'"' {
        return Some(Quote::Double);
    }
    if byte == b'\'' {
        return Some(Quote::Single);
    }
    None
}

impl Seen {
    /// Whether this byte ends what such bytes end.
    pub(crate) fn is_ended_by(self, byte: u8) -> bool
        ensures { result ≡ spec.is_ended_by self byte }
    {
        match self {
            Seen::Two => byte == b'>',
            Seen::Nothing | Seen::One => false,
        }
    }

    /// What was seen of the mark after one more byte.
    pub(crate) fn after(self, mark: u8, byte: u8) -> Seen
        ensures { result ≡ spec.seen_after self mark byte }
    {
        if byte != mark {
            return Seen::Nothing;
        }
        match self {
            Seen::Nothing => Seen::One,
            Seen::One | Seen::Two => Seen::Two,
        }
    }
}

/// Whether a text has this byte at a place.
pub(crate) fn is_byte_at(text: &[u8], place: usize, byte: u8) -> bool
    ensures value { result ≡ spec.is_byte_at text.now place byte }
    ensures within { result ≡ true → place < length text.now }
{
    match text.get(place) {
        Some(there) => *there == byte,
        None => false,
    }
}

impl Mode {
    /// Whether it is in the middle of nothing.
    pub(crate) fn is_between(self) -> bool
        ensures { result ≡ spec.is_between self }
    {
        match self {
            Mode::Start | Mode::Content => true,
            _ => false,
        }
    }
}
