//! What the values of a line begin with.

ghost use Rattle.std.specs.Prelude.{◌≡◌, IfOk};
ghost use Rattle.ror_show_forms.specs.Front as spec;

use itoa::Buffer;
use ror_bench::KeptLine;
use ror_show_ground::Ground;
use ror_show_kit::write_next_field;
use std::alloc::{AllocError, Global};

/// The number of a kept line, and the name of its desk.
pub(crate) fn line_front(
    alloc: Global,
    ground: &Ground<'_>,
    line: &KeptLine,
) -> Result<Vec<u8>, AllocError>
    ensures { IfOk result (λ front. front.items ≡ spec.line_front ground.now.session.now line.now) }
{
    let mut front = Vec::new(alloc);
    front.extend_from_slice(Buffer::new().format(line.block.line).as_bytes())?;
    write_next_field(&mut front, ground.desk_at(line).as_bytes())?;
    Ok(front)
}
