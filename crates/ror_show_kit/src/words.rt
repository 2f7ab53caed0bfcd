//! Words of a line, each behind a space.

ghost use Rattle.std.specs.Prelude.{◌≡◌, ◌++◌, OnOk};
ghost use Rattle.ror_show_kit.specs.Words as spec;

use itoa::Buffer;
use std::alloc::AllocError;

/// Adds a space and a word.
pub(crate) fn write_word(text: &mut Vec<u8>, word: &[u8]) -> Result<(), AllocError>
    ensures { OnOk result (text.new.items ≡ text.old.items ++ spec.word word.now) }
{
    text.push(b' ')?;
    text.extend_from_slice(word)
}

/// Adds a space and a number.
///
/// # Errors
///
/// Only want of memory.
pub fn write_number(text: &mut Vec<u8>, number: u32) -> Result<(), AllocError>
    ensures { OnOk result (text.new.items ≡ text.old.items ++ spec.number number) }
{
    write_word(text, Buffer::new().format(number).as_bytes())
}
