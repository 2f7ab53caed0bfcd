//! What lines on what was read are about.

ghost use Rattle.std.specs.Prelude.{◌≡◌};
ghost use Rattle.ror_show_sheet.specs.Notes.{word_of};

/// What a line is about.
#[derive(Clone, Copy)]
pub(crate) enum Label {
    /// What is odd, and isn't refused.
    LookAt,
    /// Which rank is the best.
    Ranks,
    Class,
    Name,
    /// What is left out, since it names what isn't active.
    LeftOut,
    Inactive,
    /// What was passed over.
    Passed,
    /// The session as a whole.
    Session,
    Desk,
    /// What can't be told before the run.
    Unsure,
    Refused,
}

impl Label {
    /// Its word, in nine columns.
    pub(crate) fn word(self) -> &'static [u8]
        ensures { result.now ≡ word_of self }
    {
        match self {
            Label::LookAt => b"look at  ",
            Label::Ranks => b"ranks    ",
            Label::Class => b"class    ",
            Label::Name => b"name     ",
            Label::LeftOut => b"left out ",
            Label::Inactive => b"inactive ",
            Label::Passed => b"passed   ",
            Label::Session => b"session  ",
            Label::Desk => b"desk     ",
            Label::Unsure => b"unsure   ",
            Label::Refused => b"refused  ",
        }
    }
}
