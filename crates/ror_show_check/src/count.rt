//! The line of certificates that are accepted.

ghost use Rattle.std.specs.Prelude.{false};
ghost use Rattle.ror_frame.specs.Courses.{WritesDue};
ghost use Rattle.ror_frame.specs.Inputs.{line_output};
ghost use Rattle.ror_frame.specs.Printing.{Prints};
ghost use Rattle.ror_frame.specs.States.{sink_state};
ghost use Rattle.ror_show_check.specs.Checking.{accepted_line};

use itoa::Buffer;
use ror_frame::Stop;
use ror_io::{Sink, SinkFault, write_pieces};

/// Writes how many certificates were accepted; nothing is too wide.
///
/// # Errors
///
/// Only a write that failed.
pub(crate) fn conclude<O: Sink>(count: usize, out: &mut O) -> Result<bool, Stop>
    ensures { WritesDue (line_output false (accepted_line count) (Unit {0}))
        (sink_state (O.written out.old) (O.faults out.old))
        (sink_state (O.written out.new) (O.faults out.new)) result }
{
    write_count(count, out)?;
    Ok(false)
}

fn write_count<O: Sink>(count: usize, out: &mut O) -> Result<(), SinkFault>
    ensures { Prints (O.faults out.old) (O.faults out.new) (O.written out.old) (O.written out.new)
        (accepted_line count) result }
{
    let mut buffer = Buffer::new();
    write_pieces(out, &[b"accepted ", buffer.format(count).as_bytes(), b"\n"])
}
