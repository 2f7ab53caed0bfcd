//! The words that stand for one of several things in an entry: what is said of a desk, paths, and places of the climbing path.

use ror_proof::names::Name;

/// What the first word of a body stands for.
#[derive(Clone, Copy)]
pub enum BodyForm {
    Best,
    NoStrictRow,
    Contradiction,
    Wide,
}

pub(crate) const BODY_FORMS: [BodyForm; 4] = [
    BodyForm::Best,
    BodyForm::NoStrictRow,
    BodyForm::Contradiction,
    BodyForm::Wide,
];

impl Name for BodyForm {
    ghost use Rattle.ror_discriminate.specs.EntryNames.{form_word};

    ghost word_of = { form_word };

    fn word(self) -> &'static [u8] {
        match self {
            BodyForm::Best => b"margin",
            BodyForm::NoStrictRow => b"none",
            BodyForm::Contradiction => b"contradiction",
            BodyForm::Wide => b"wide",
        }
    }
}

/// The path on which a number is too wide.
#[derive(Clone, Copy)]
pub enum PathName {
    /// The system's path.
    Base,
    /// Its climbing path.
    Climb,
}

pub(crate) const PATH_NAMES: [PathName; 2] = [PathName::Base, PathName::Climb];

impl Name for PathName {
    ghost use Rattle.ror_discriminate.specs.EntryNames.{path_word};

    ghost word_of = { path_word };

    fn word(self) -> &'static [u8] {
        match self {
            PathName::Base => b"base",
            PathName::Climb => b"climb",
        }
    }
}

/// What the word of a place on the climbing path stands for.
#[derive(Clone, Copy)]
pub enum ClimbName {
    Start,
    Step,
    Denominator,
    RowSum,
    Total,
    Scale,
    ColumnSum,
}

pub(crate) const CLIMB_NAMES: [ClimbName; 7] = [
    ClimbName::Start,
    ClimbName::Step,
    ClimbName::Denominator,
    ClimbName::RowSum,
    ClimbName::Total,
    ClimbName::Scale,
    ClimbName::ColumnSum,
];

impl Name for ClimbName {
    ghost use Rattle.ror_discriminate.specs.EntryNames.{climb_word};

    ghost word_of = { climb_word };

    fn word(self) -> &'static [u8] {
        match self {
            ClimbName::Start => b"start",
            ClimbName::Step => b"step",
            ClimbName::Denominator => b"denominator",
            ClimbName::RowSum => b"rowsum",
            ClimbName::Total => b"total",
            ClimbName::Scale => b"scale",
            ClimbName::ColumnSum => b"columnsum",
        }
    }
}
