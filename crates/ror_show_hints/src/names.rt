//! The first words of the lines of tables and sessions.

ghost use Rattle.std.specs.Prelude.{◌≡◌};
ghost use Rattle.ror_show_hints.specs.Hints as spec;

use crate::words::is_one_of;

/// The first words of a table's lines.
pub const TABLE_WORDS: [&[u8]; 3] = [b"criterion", b"classes", b"alternative"];

/// The first words of a session's commands.
pub const COMMANDS: [&[u8]; 12] = [
    b"prefer",
    b"atleast",
    b"same",
    b"stronger",
    b"asstrong",
    b"equal",
    b"class",
    b"withdraw",
    b"replace",
    b"repair",
    b"undo",
    b"ask",
];

/// Whether a table's line begins with this word.
pub fn is_table_word(word: &[u8]) -> bool
    ensures { result ≡ spec.is_one_of word.now spec.table_words }
{
    is_one_of(word, TABLE_WORDS.as_slice())
}

/// Whether a session's command begins with this word.
pub fn is_command(word: &[u8]) -> bool
    ensures { result ≡ spec.is_one_of word.now spec.commands }
{
    is_one_of(word, COMMANDS.as_slice())
}
