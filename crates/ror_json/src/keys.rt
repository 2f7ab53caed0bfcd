//! The keys that tell apart what an object is.

use ror_proof::names::Name;
use ror_report::{Body, LineFault};

/// Under which word the body of a block stands.
#[derive(Clone, Copy)]
pub(crate) enum BodyKey {
    Added,
    Answers,
    Refused,
    RepairWide,
    Repaired,
    Replaced,
    Undone,
    Withdrawn,
}

/// Those whose words come before `line`.
pub(crate) const EARLY_KEYS: [BodyKey; 2] = [BodyKey::Added, BodyKey::Answers];

/// Those whose words come after `line`.
pub(crate) const LATE_KEYS: [BodyKey; 6] = [
    BodyKey::Refused,
    BodyKey::RepairWide,
    BodyKey::Repaired,
    BodyKey::Replaced,
    BodyKey::Undone,
    BodyKey::Withdrawn,
];

impl Name for BodyKey {
    ghost use Rattle.ror_json.specs.Names.{key_word};

    ghost word_of = { key_word };

    fn word(self) -> &'static [u8] {
        match self {
            BodyKey::Added => b"added",
            BodyKey::Answers => b"answers",
            BodyKey::Refused => b"refused",
            BodyKey::RepairWide => b"repair-wide",
            BodyKey::Repaired => b"repaired",
            BodyKey::Replaced => b"replaced",
            BodyKey::Undone => b"undone",
            BodyKey::Withdrawn => b"withdrawn",
        }
    }
}

impl BodyKey {
    ghost use Rattle.std.specs.Prelude.{◌≡◌};
    ghost use Rattle.ror_json.specs.Names.{body_key};

    /// Under which word this body stands.
    pub(crate) fn of(body: &Body) -> BodyKey
        ensures { result ≡ body_key body.now }
    {
        match body {
            Body::Added(_) => BodyKey::Added,
            Body::Withdrawn(_) => BodyKey::Withdrawn,
            Body::Replaced(_) => BodyKey::Replaced,
            Body::Undone => BodyKey::Undone,
            Body::Repaired(_) => BodyKey::Repaired,
            Body::RepairWide(_, _) => BodyKey::RepairWide,
            Body::Answers(_) => BodyKey::Answers,
            Body::Refused(_) => BodyKey::Refused,
        }
    }
}

/// The reasons of a refusal.
pub(crate) const LINE_FAULTS: [LineFault; 9] = [
    LineFault::UnknownAlternative,
    LineFault::UnknownCriterion,
    LineFault::UnknownClass,
    LineFault::BadInterval,
    LineFault::NoSuchStatement,
    LineFault::NothingToUndo,
    LineFault::TooManyStatements,
    LineFault::TooManyRows,
    LineFault::TooManyPairs,
];

/// Which certificate the key stands for.
#[derive(Clone, Copy)]
pub(crate) enum CertificateKey {
    Solution,
    Multipliers,
}

pub(crate) const CERTIFICATE_KEYS: [CertificateKey; 2] = [
    CertificateKey::Solution,
    CertificateKey::Multipliers,
];

impl Name for CertificateKey {
    ghost use Rattle.ror_json.specs.Names.{certificate_word};

    ghost word_of = { certificate_word };

    fn word(self) -> &'static [u8] {
        match self {
            CertificateKey::Solution => b"solution",
            CertificateKey::Multipliers => b"multipliers",
        }
    }
}

/// The first key of an answer: `base` where it has a proof, `question` where it concludes nothing.
#[derive(Clone, Copy)]
pub(crate) enum AnswerKey {
    Base,
    Question,
}

pub(crate) const ANSWER_KEYS: [AnswerKey; 2] = [AnswerKey::Base, AnswerKey::Question];

impl Name for AnswerKey {
    ghost use Rattle.ror_json.specs.Names.{answer_word};

    ghost word_of = { answer_word };

    fn word(self) -> &'static [u8] {
        match self {
            AnswerKey::Base => b"base",
            AnswerKey::Question => b"question",
        }
    }
}
