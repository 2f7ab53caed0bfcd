//! The words that stand for the forms of a body, and for the reasons of a refusal.

use crate::block::LineFault;
use ror_proof::names::Name;

/// What the first word of a body of one line stands for.
#[derive(Clone, Copy)]
pub enum LineForm {
    Added,
    Withdrawn,
    Replaced,
    Undone,
    Refused,
}

impl Name for LineForm {
    ghost use Rattle.ror_report.specs.Names.{form_word};

    ghost word_of = { form_word };

    fn word(self) -> &'static [u8] {
        match self {
            LineForm::Added => b"added",
            LineForm::Withdrawn => b"withdrawn",
            LineForm::Replaced => b"replaced",
            LineForm::Undone => b"undone",
            LineForm::Refused => b"refused",
        }
    }
}

/// What the first word of a body that is no list of answers stands for.
#[derive(Clone, Copy)]
pub enum BodyForm {
    OneLine(LineForm),
    Repaired,
    RepairWide,
}

pub const BODY_FORMS: [BodyForm; 7] = [
    BodyForm::OneLine(LineForm::Added),
    BodyForm::OneLine(LineForm::Withdrawn),
    BodyForm::OneLine(LineForm::Replaced),
    BodyForm::OneLine(LineForm::Undone),
    BodyForm::Repaired,
    BodyForm::RepairWide,
    BodyForm::OneLine(LineForm::Refused),
];

impl Name for BodyForm {
    ghost use Rattle.ror_report.specs.Names.{body_word};

    ghost word_of = { body_word };

    fn word(self) -> &'static [u8] {
        match self {
            BodyForm::OneLine(form) => form.word(),
            BodyForm::Repaired => b"repaired",
            BodyForm::RepairWide => b"repair-wide",
        }
    }
}

pub const LINE_FAULTS: [LineFault; 9] = [
    LineFault::UnknownAlternative,
    LineFault::UnknownCriterion,
    LineFault::UnknownClass,
    LineFault::BadInterval,
    LineFault::NoSuchStatement,
    LineFault::NothingToUndo,
    LineFault::TooManyStatements,
    LineFault::TooManyRows,
    LineFault::TooManyPairs,
];

impl Name for LineFault {
    ghost use Rattle.ror_report.specs.Names.{fault_word};

    ghost word_of = { fault_word };

    fn word(self) -> &'static [u8] {
        match self {
            LineFault::UnknownAlternative => b"UnknownAlternative",
            LineFault::UnknownCriterion => b"UnknownCriterion",
            LineFault::UnknownClass => b"UnknownClass",
            LineFault::BadInterval => b"BadInterval",
            LineFault::NoSuchStatement => b"NoSuchStatement",
            LineFault::NothingToUndo => b"NothingToUndo",
            LineFault::TooManyStatements => b"TooManyStatements",
            LineFault::TooManyRows => b"TooManyRows",
            LineFault::TooManyPairs => b"TooManyPairs",
        }
    }
}
