//! Values between commas.

ghost use Rattle.std.specs.Prelude.{◌≡◌, ◌∷◌, ◌++◌, OnOk};
ghost use Rattle.std.specs.List.{flat_map, list_any};
ghost use Rattle.ror_show_kit.specs.Fields as spec;

use std::alloc::AllocError;

/// Adds a comma and a value, as [`write_field`] does.
///
/// # Errors
///
/// Only want of memory.
pub fn write_next_field(text: &mut Vec<u8>, word: &[u8]) -> Result<(), AllocError>
    ensures { OnOk result (text.new.items ≡ text.old.items ++ 44 ∷ spec.field word.now) }
{
    text.push(b',')?;
    write_field(text, word)
}

/// Adds a value: as it is, or between quotation marks, with those within it doubled, where it has a comma, a quotation mark or an
/// end of a line.
///
/// # Errors
///
/// Only want of memory.
pub fn write_field(text: &mut Vec<u8>, word: &[u8]) -> Result<(), AllocError>
    ensures { OnOk result (text.new.items ≡ text.old.items ++ spec.field word.now) }
{
    if !has_special(word) {
        return text.extend_from_slice(word);
    }
    text.push(b'"')?;
    write_doubled(text, word)?;
    text.push(b'"')?;
    Ok(())
}

fn has_special(word: &[u8]) -> bool
    ensures { result ≡ list_any spec.is_special word.now }
{
    word.iter().any(|byte| is_special(*byte))
}

fn is_special(byte: u8) -> bool
    ensures { result ≡ spec.is_special byte }
{
    byte == b',' || byte == b'"' || byte == b'\n' || byte == b'\r'
}

fn write_doubled(text: &mut Vec<u8>, word: &[u8]) -> Result<(), AllocError>
    ensures { OnOk result (text.new.items ≡ text.old.items ++ flat_map spec.doubled word.now) }
{
    'bytes: for byte in word {
        write_byte(text, *byte)?;
    }
    Ok(())
}

/// The byte, twice where it is a quotation mark.
fn write_byte(text: &mut Vec<u8>, byte: u8) -> Result<(), AllocError>
    ensures { OnOk result (text.new.items ≡ text.old.items ++ spec.doubled byte) }
{
    if byte == b'"' {
        text.push(b'"')?;
    }
    text.push(byte)?;
    Ok(())
}
