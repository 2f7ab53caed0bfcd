//! The table of commands: the word of each, the names after it, and its options.

ghost use Rattle.std.specs.Prelude.{◌≡◌};
ghost use Rattle.std.specs.List.{find};
ghost use Rattle.std.specs.Option.{option_map};
ghost use Rattle.std.specs.Str.{bytes_eq};
ghost use Rattle.ror_words.specs.Commands.{row_for, usage_text};
ghost use Rattle.ror_words.specs.Named.{row_with};

/// What a command does.
#[derive(Clone, Copy, Debug)]
pub enum CommandWord {
    /// The report of a session is written.
    Replay,
    /// A report is checked.
    Check,
    /// The session that is made from a number is replayed, and each block is checked.
    Generate,
    /// The report of what the desks of a session say together is written.
    Group,
    /// Such a report is checked.
    CheckGroup,
    /// The report of the most discriminating function of each desk of a session is written.
    Discriminate,
    /// Such a report is checked.
    CheckDiscriminate,
    /// The report of the best and the worst rank of each alternative, for each desk of a session, is written.
    Ranks,
    /// Such a report is checked.
    CheckRanks,
    /// The report of the spans of a session's pairs over levels of confidence is written.
    Levels,
    /// Such a report is checked.
    CheckLevels,
    /// The report of a session is written as JSON.
    ReplayJson,
    /// Such a report is checked.
    CheckJson,
}

/// A row of the table of commands.
#[derive(Clone, Copy, Debug)]
pub struct Row {
    pub command: CommandWord,
    /// The word that asks for it.
    pub word: &'static str,
    /// What the usage line calls the names after it, in order.
    pub names: &'static [&'static str],
    /// Whether these are numbers, and not names of files.
    pub numbers: bool,
    /// Whether it takes `--bits`.
    pub bits: bool,
    /// Whether it takes `--best-first`.
    pub best_first: bool,
}

/// The commands. None has more than four names.
const TABLE: [Row; 13] = [
    Row {
        command: CommandWord::Replay,
        word: "replay",
        names: &["TABLE", "SESSION"],
        numbers: false,
        bits: true,
        best_first: true,
    },
    Row {
        command: CommandWord::Check,
        word: "check",
        names: &["TABLE", "SESSION", "REPORT"],
        numbers: false,
        bits: false,
        best_first: true,
    },
    Row {
        command: CommandWord::Generate,
        word: "generate",
        names: &["NUMBER"],
        numbers: true,
        bits: false,
        best_first: false,
    },
    Row {
        command: CommandWord::Group,
        word: "group",
        names: &["TABLE", "SESSION"],
        numbers: false,
        bits: true,
        best_first: true,
    },
    Row {
        command: CommandWord::CheckGroup,
        word: "check-group",
        names: &["TABLE", "SESSION", "REPORT"],
        numbers: false,
        bits: false,
        best_first: true,
    },
    Row {
        command: CommandWord::Discriminate,
        word: "discriminate",
        names: &["TABLE", "SESSION"],
        numbers: false,
        bits: true,
        best_first: true,
    },
    Row {
        command: CommandWord::CheckDiscriminate,
        word: "check-discriminate",
        names: &["TABLE", "SESSION", "REPORT"],
        numbers: false,
        bits: false,
        best_first: true,
    },
    Row {
        command: CommandWord::Ranks,
        word: "ranks",
        names: &["TABLE", "SESSION"],
        numbers: false,
        bits: true,
        best_first: true,
    },
    Row {
        command: CommandWord::CheckRanks,
        word: "check-ranks",
        names: &["TABLE", "SESSION", "REPORT"],
        numbers: false,
        bits: false,
        best_first: true,
    },
    Row {
        command: CommandWord::Levels,
        word: "levels",
        names: &["TABLE", "SESSION", "LEVELS"],
        numbers: false,
        bits: true,
        best_first: true,
    },
    Row {
        command: CommandWord::CheckLevels,
        word: "check-levels",
        names: &["TABLE", "SESSION", "LEVELS", "REPORT"],
        numbers: false,
        bits: false,
        best_first: true,
    },
    Row {
        command: CommandWord::ReplayJson,
        word: "replay-json",
        names: &["TABLE", "SESSION"],
        numbers: false,
        bits: true,
        best_first: true,
    },
    Row {
        command: CommandWord::CheckJson,
        word: "check-json",
        names: &["TABLE", "SESSION", "REPORT"],
        numbers: false,
        bits: false,
        best_first: true,
    },
];

/// The usage line: the commands of the table, each with its names and options.
pub fn usage() -> &'static str
    ensures { result.now ≡ usage_text }
{
    "usage: ror replay TABLE SESSION [--bits 15|31|63|127] [--best-first] | ror check TABLE SESSION REPORT [--best-first] | ror generate NUMBER | ror group TABLE SESSION [--bits 15|31|63|127] [--best-first] | ror check-group TABLE SESSION REPORT [--best-first] | ror discriminate TABLE SESSION [--bits 15|31|63|127] [--best-first] | ror check-discriminate TABLE SESSION REPORT [--best-first] | ror ranks TABLE SESSION [--bits 15|31|63|127] [--best-first] | ror check-ranks TABLE SESSION REPORT [--best-first] | ror levels TABLE SESSION LEVELS [--bits 15|31|63|127] [--best-first] | ror check-levels TABLE SESSION LEVELS REPORT [--best-first] | ror replay-json TABLE SESSION [--bits 15|31|63|127] [--best-first] | ror check-json TABLE SESSION REPORT [--best-first]\n"
}

/// The row of the command with this word.
pub(crate) fn row_for(word: &str) -> Option<Row>
    ensures { option_map row_with result ≡ row_for word.now }
{
    row_in(TABLE.as_slice(), word)
}

/// The first of the rows with this word.
fn row_in(rows: &[Row], word: &str) -> Option<Row>
    ensures { result ≡ find (λ row. bytes_eq row.word.now word.now) rows.now }
{
    rows.iter().copied().find(|row| row.word == word)
}
