//! The last step of a course: a text is written.

ghost use Rattle.std.specs.Prelude.{false};
ghost use Rattle.ror_frame.specs.Courses.{WritesDue};
ghost use Rattle.ror_frame.specs.Inputs.{line_output};
ghost use Rattle.ror_frame.specs.States.{sink_state};

use ror_frame::Stop;
use ror_io::{Sink, write_all};

/// Writes a text, of which nothing is too wide. What it gives says that nothing is left to say.
///
/// # Errors
///
/// Only a write that failed.
pub(crate) fn write_text<O: Sink>(out: &mut O, text: &[u8]) -> Result<bool, Stop>
    ensures { WritesDue (line_output false text.now (Unit {0})) (sink_state (O.written out.old) (O.faults out.old))
        (sink_state (O.written out.new) (O.faults out.new)) result }
{
    write_all(out, text)?;
    Ok(false)
}
