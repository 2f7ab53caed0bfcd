//! The table of pages: the word of each, and what stands behind it.

ghost use Rattle.std.specs.Prelude.{◌≡◌};
ghost use Rattle.std.specs.List.{find};
ghost use Rattle.std.specs.Option.{option_map};
ghost use Rattle.std.specs.Str.{bytes_eq};
ghost use Rattle.ror_show_words.specs.Commands.{row_for, usage_text};
ghost use Rattle.ror_show_words.specs.Named.{row_with};

use crate::words::Form;

/// What is shown of a report.
#[derive(Clone, Copy, Debug, PartialEq, Eq)]
pub enum Page {
    /// What holds between the alternatives, at each line that asks for the relation.
    Relation,
    /// What changed from one such line of a desk to the next one.
    Changes,
    /// To which classes the alternatives may and must belong, each time that they were asked.
    Classes,
    /// What stands at a desk.
    Standing,
    /// The value functions that stand in the answers to one line.
    Functions,
    /// Why the answers are what they are, and why repairs dropped what they did.
    Reasons,
    /// What hangs on each statement: what lines would say without it, and with its contrary.
    WhatIf,
}

/// What is shown.
#[derive(Clone, Copy, Debug)]
pub(crate) enum Shown {
    /// A page of a report.
    Report(Page),
    /// What was read of a table, and of a session.
    Sheet,
    /// What the judges of a group's report say together.
    Group,
    /// Whether certificates of reasons are proved.
    Check,
    /// The plain table that a spreadsheet leads to.
    Import,
}

/// Of which lines of the session a page may be.
#[derive(Clone, Copy, Debug)]
pub(crate) enum Lines {
    /// It is of no one line.
    NoLine,
    /// Of all, or of the one that is named.
    ALine,
    /// Of the one that is named.
    OneLine,
}

/// A row of the table of pages.
#[derive(Clone, Copy)]
pub(crate) struct Row {
    pub(crate) shown: Shown,
    /// The word that asks for it.
    pub(crate) word: &'static str,
    pub(crate) lines: Lines,
    /// Whether it may be of two alternatives.
    pub(crate) pair: bool,
    /// Its forms, of which it has the first where none is named.
    pub(crate) forms: &'static [Form],
}

const TABLE: [Row; 11] = [
    Row {
        shown: Shown::Sheet,
        word: "read",
        lines: Lines::NoLine,
        pair: false,
        forms: &[Form::Text],
    },
    Row {
        shown: Shown::Report(Page::Relation),
        word: "relation",
        lines: Lines::ALine,
        pair: false,
        forms: &[Form::Text, Form::Csv, Form::Dot],
    },
    Row {
        shown: Shown::Report(Page::Changes),
        word: "changes",
        lines: Lines::NoLine,
        pair: false,
        forms: &[Form::Text, Form::Csv],
    },
    Row {
        shown: Shown::Report(Page::Classes),
        word: "classes",
        lines: Lines::NoLine,
        pair: false,
        forms: &[Form::Text, Form::Csv],
    },
    Row {
        shown: Shown::Report(Page::Standing),
        word: "standing",
        lines: Lines::ALine,
        pair: false,
        forms: &[Form::Text],
    },
    Row {
        shown: Shown::Report(Page::Functions),
        word: "functions",
        lines: Lines::OneLine,
        pair: false,
        forms: &[Form::Text, Form::Csv],
    },
    Row {
        shown: Shown::Report(Page::Reasons),
        word: "why",
        lines: Lines::ALine,
        pair: true,
        forms: &[Form::Text, Form::Certificates],
    },
    Row {
        shown: Shown::Report(Page::WhatIf),
        word: "what-if",
        lines: Lines::ALine,
        pair: false,
        forms: &[Form::Text, Form::Csv],
    },
    Row {
        shown: Shown::Group,
        word: "group",
        lines: Lines::NoLine,
        pair: false,
        forms: &[Form::Text, Form::Csv, Form::Dot],
    },
    Row {
        shown: Shown::Check,
        word: "check-why",
        lines: Lines::NoLine,
        pair: false,
        forms: &[Form::Text],
    },
    Row {
        shown: Shown::Import,
        word: "import",
        lines: Lines::NoLine,
        pair: false,
        forms: &[Form::Text],
    },
];

/// The usage line: the pages of the table, each with its names and options.
pub fn usage() -> &'static str
    ensures { result.now ≡ usage_text }
{
    "usage: ror_show read TABLE [SESSION] [--best-first] | ror_show relation TABLE SESSION REPORT [--best-first] [--desk NAME] [--line N] [--as text|csv|dot] | ror_show changes TABLE SESSION REPORT [--best-first] [--desk NAME] [--as text|csv] | ror_show classes TABLE SESSION REPORT [--best-first] [--desk NAME] [--as text|csv] | ror_show standing TABLE SESSION REPORT [--best-first] [--desk NAME] [--line N] | ror_show functions TABLE SESSION REPORT [--best-first] [--desk NAME] --line N [--as text|csv] | ror_show why TABLE SESSION REPORT [--best-first] [--desk NAME] [--line N] [--pair A B] [--as text|certificates] | ror_show what-if TABLE SESSION REPORT [--best-first] [--desk NAME] [--line N] [--as text|csv] | ror_show group TABLE SESSION REPORT [--best-first] [--as text|csv|dot] | ror_show check-why TABLE SESSION REPORT CERTIFICATES [--best-first] | ror_show import FILE [--min NAMES] [--max NAMES] [--linear NAMES]\n"
}

/// The row of the page with this word.
pub(crate) fn row_for(word: &str) -> Option<Row>
    ensures { option_map row_with result ≡ row_for word.now }
{
    row_in(TABLE.as_slice(), word)
}

/// The first of the rows with this word.
fn row_in(rows: &[Row], word: &str) -> Option<Row>
    ensures { result ≡ find (λ row. bytes_eq row.word.now word.now) rows.now }
{
    rows.iter().copied().find(|row| row.word == word)
}
