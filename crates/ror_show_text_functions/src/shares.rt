//! Shares in words: thousandths, rounded.

ghost use Rattle.std.specs.Prelude.{◌≡◌, ◌+◌, ◌/◌, ◌<◌, ◌++◌, OnOk};
ghost use Rattle.ror_show_text_functions.specs.ShareText as spec;
ghost use Rattle.ror_show_find_proofs.specs.Shares.{IsShare};

use itoa::Buffer;
use ror_show_find_proofs::Share;
use std::alloc::AllocError;

/// Adds the share, rounded to three places, with a mark before it where it is.
pub(crate) fn write_rounded(text: &mut Vec<u8>, share: Share) -> Result<(), AllocError>
    requires { IsShare share }
    ensures { OnOk result (text.new.items ≡ text.old.items ++ spec.rounded_text share) }
{
    text.push(mark(share))?;
    write_places(text, share.thousandths())
}

/// What stands before a share that is rounded, and before one that isn't.
fn mark(share: Share) -> u8
    requires { IsShare share }
    ensures { result ≡ spec.mark share }
{
    if share.is_rounded() { b'~' } else { b' ' }
}

/// Adds so many thousandths, with three places.
pub fn write_places(text: &mut Vec<u8>, thousandths: usize) -> Result<(), AllocError>
    ensures { OnOk result (text.new.items ≡ text.old.items ++ spec.places_text thousandths) }
{
    text.extend_from_slice(Buffer::new().format(thousandths / 1000).as_bytes())?;
    text.push(b'.')?;
    text.push(digit(thousandths / 100))?;
    text.push(digit(thousandths / 10))?;
    text.push(digit(thousandths))?;
    Ok(())
}

/// The last digit of a number.
fn digit(number: usize) -> u8
    ensures { result ≡ spec.digit number }
{
    b'0' + (number % 10) as u8
}
