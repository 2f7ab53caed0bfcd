//! The lines of a file, by their numbers.

ghost use Rattle.std.specs.Prelude.{◌≡◌, ◌-◌, [], slice_index_or};
ghost use Rattle.std.specs.Str.Lines.{lines};

use ror_text::lines::first_line;

/// The line with a number, from 1; an empty one where there is none.
pub fn line_at(bytes: &[u8], number: u32) -> &[u8]
    ensures { result.now ≡ slice_index_or (lines bytes.now) (number - 1) [] }
{
    let mut rest = bytes;
    let mut above = number.saturating_sub(1);
    'lines: while let Some((line, after)) = first_line(rest) {
        if above == 0 {
            return line;
        }
        above -= 1;
        rest = after;
    }
    &[]
}
