//! Which lines of a session are meant.

ghost use Rattle.std.specs.Prelude.{◌≡◌};
ghost use Rattle.ror_show_pages.specs.Choosing as spec;

use ror_bench::Keep;

/// So much where it is meant, and nothing where it isn't.
pub(crate) fn keep_where(is_meant: bool, keep: Keep) -> Keep
    ensures { result ≡ spec.keep_where is_meant keep }
{
    if is_meant { keep } else { Keep::Nothing }
}

/// Whether it is the line that is meant, where one is: so it is of each line where none is meant.
pub(crate) fn is_line(meant: Option<u32>, number: u32) -> bool
    ensures { result ≡ spec.is_line meant number }
{
    match meant {
        Some(line) => line == number,
        None => true,
    }
}

/// Whether it is the line that is meant or one before it: so it is of each line where none is meant.
pub(crate) fn is_up_to(meant: Option<u32>, number: u32) -> bool
    ensures { result ≡ spec.is_up_to meant number }
{
    match meant {
        Some(line) => number <= line,
        None => true,
    }
}
