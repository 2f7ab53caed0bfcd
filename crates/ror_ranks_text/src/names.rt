//! The words that stand for one of several things in an entry: what is said of a desk, what is said of a rank, and nodes.

use ror_proof::names::Name;

/// What the first word of a body stands for.
#[derive(Clone, Copy)]
pub enum BodyForm {
    Ranks,
    Contradiction,
    Wide,
}

pub(crate) const BODY_FORMS: [BodyForm; 3] = [
    BodyForm::Ranks,
    BodyForm::Contradiction,
    BodyForm::Wide,
];

impl Name for BodyForm {
    ghost use Rattle.ror_ranks_text.specs.EntryNames.{form_word};

    ghost word_of = { form_word };

    fn word(self) -> &'static [u8] {
        match self {
            BodyForm::Ranks => b"ranks",
            BodyForm::Contradiction => b"contradiction",
            BodyForm::Wide => b"wide",
        }
    }
}

/// What the word behind the alternative stands for.
#[derive(Clone, Copy)]
pub enum SaidForm {
    /// The ends of an interval follow.
    From,
    /// A number that is too wide does.
    Wide,
}

pub(crate) const SAID_FORMS: [SaidForm; 2] = [SaidForm::From, SaidForm::Wide];

impl Name for SaidForm {
    ghost use Rattle.ror_ranks_text.specs.EntryNames.{said_word};

    ghost word_of = { said_word };

    fn word(self) -> &'static [u8] {
        match self {
            SaidForm::From => b"from",
            SaidForm::Wide => b"wide",
        }
    }
}

/// What the word of a node stands for.
#[derive(Clone, Copy)]
pub enum NodeName {
    Leaf,
    Branch,
}

pub(crate) const NODE_NAMES: [NodeName; 2] = [NodeName::Leaf, NodeName::Branch];

impl Name for NodeName {
    ghost use Rattle.ror_ranks_text.specs.EntryNames.{node_word};

    ghost word_of = { node_word };

    fn word(self) -> &'static [u8] {
        match self {
            NodeName::Leaf => b"leaf",
            NodeName::Branch => b"branch",
        }
    }
}
