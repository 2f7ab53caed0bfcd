//! Advice on a file that can't be read.

ghost use Rattle.std.specs.Prelude.{IfOk};
ghost use Rattle.ror_show_advice.specs.Apart.{StandsApart};

use crate::apart::apart;
use crate::said::{Said, of, put_said, say};
use ror_show_hints::{Page, has};
use std::alloc::{AllocError, Global};

/// What helps where the file with this name can't be read.
///
/// # Errors
///
/// Only want of memory.
pub fn missing_advice(alloc: Global, name: &str) -> Result<Vec<u8>, AllocError>
    ensures { IfOk result (λ text. StandsApart text.items) }
{
    let mut page = Page::new(alloc);
    page.place(name)?;
    page.expected(&[b"a file of this name that may be read"])?;
    put_said(&mut page, b"likely   ", likely_name(name.as_bytes()))?;
    Ok(apart(page))
}

fn likely_name(name: &[u8]) -> Said<'_> {
    if name == b"-".as_slice() {
        return say(b"standard input was meant: its name is /dev/stdin");
    }
    if name.ends_with(b"/") {
        return say(b"a folder: name the file in it");
    }
    if name.starts_with(b"~") {
        return say(b"the shell leaves `~` as it is between quotation marks: write the whole path");
    }
    if has(name, b"\\") {
        return say(b"folders are parted by `/`");
    }
    of(
        b"there is no such file, it is a folder, or it may not be read: look with `ls -l ",
        name,
        b"`",
    )
}
