//! The desk of a line.

ghost use Rattle.std.specs.Prelude.{◌≡◌};
ghost use Rattle.ror_session.specs.Sound.{desk_name};
ghost use Rattle.ror_show_ground.specs.Lines as spec;

use ror_bench::KeptLine;
use ror_session::{Line, Session};
use ror_text::Text;

/// The place of the desk of a kept line among the session's desks, 0 where the session has no such line.
pub(crate) fn desk_of(session: &Session, line: &KeptLine) -> u32
    ensures { result ≡ spec.desk_of session.now line.now }
{
    match session.lines.as_slice().get(line.place) {
        Some(line) => line.desk,
        None => 0,
    }
}

/// The name of a line's desk; an empty one where the list hasn't that desk.
pub fn desk_name<'a>(desks: &'a [Text], line: &Line) -> &'a str
    ensures { result.now ≡ desk_name desks.now line.now }
{
    match desks.get(line.desk as usize) {
        Some(name) => name.as_str(),
        None => "",
    }
}
