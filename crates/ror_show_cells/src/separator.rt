//! What separates the cells of a row.

ghost use Rattle.std.specs.Prelude.{◌≡◌};
ghost use Rattle.ror_show_cells.specs.Rows as spec;

/// What separates the cells of a row.
#[derive(Clone, Copy, Debug, PartialEq, Eq)]
pub enum Separator {
    Comma,
    Semicolon,
    Tab,
}

/// The byte that it is.
pub(crate) fn byte_of(separator: Separator) -> u8
    ensures { result ≡ spec.separator_byte separator }
{
    match separator {
        Separator::Comma => b',',
        Separator::Semicolon => b';',
        Separator::Tab => b'\t',
    }
}
